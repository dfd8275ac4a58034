// Reads and writes that fail. One that a signal interrupted, or that would have blocked, is made again after others had
// their turn to run; std has no poll. Any other failure is a line on standard error.
ghost use Rattle.std.specs.Prelude.{◌≡◌};
ghost use Rattle.console_loop.specs.Failing.{passing_error};

use arrayvec::ArrayString;
use std::fmt::Write;
use std::io::ErrorKind;
use std::{io, thread};

// Why there is no more to hear.
#[derive(Drop)]
pub enum Stop {
    // Nothing failed: the input has ended; or no reply fits what is lent for it, so that nothing is heard; or as many tries
    // were made as a proved loop may count. It stands beside the failures since it ends the talk as they do, through `?`.
    End,
    // Reading standard input failed.
    Input(io::Error),
    // Writing to standard output failed.
    Output(io::Error),
}

// The system's numbers of the errors that pass.
const EINTR: i32 = 4;

const EAGAIN: i32 = 11;

// Whether a call that failed with this error is made again.
fn passes(error: i32) -> bool
    ensures { result ≡ passing_error error }
{
    error == EINTR || error == EAGAIN
}

// After a call that failed: `Ok` where it is to be made again.
pub fn wait(error: io::Error) -> io::Result<()> {
    if let Some(code) = error.raw_os_error()
        && passes(code)
    {
        thread::yield_now();
        return Ok(());
    }
    Err(error)
}

// Tells a failure as the system does, without the number that std writes after its words: `console: standard output: No space left on device`.
fn tell_failure(rt: &impl Eprint, what: &str, error: io::Error) {
    let mut room: ArrayString<256> = ArrayString::new();
    let _ = write!(room, "{error}");
    let text = room.as_str();
    let words = match text.split_once(" (os error ") {
        Some((words, _)) => words,
        None => text,
    };
    let _ = eprintln!(rt; "console: {what}: {words}");
}

// Tells why there is no more to hear, if a call failed.
pub fn tell(rt: &impl Eprint, stop: Stop) {
    match stop {
        Stop::End => {}
        Stop::Input(error) => tell_failure(rt, "standard input", error),
        Stop::Output(error) => tell_failure(rt, "standard output", error),
    }
}

// Writes all of `out` to standard output. A proved loop has to end, and nothing says that a reader makes room, so the
// tries are counted to a number that no run comes to.
pub fn say(rt: &impl Print, out: &[u8]) -> Result<(), Stop> {
    let mut rest = out;
    for _ in 0..u64::MAX {
        if rest.is_empty() {
            return Ok(());
        }
        match rt.write_some(rest) {
            Ok(0) => return Err(Stop::Output(io::Error::from(ErrorKind::WriteZero))),
            Ok(n) => rest = &rest[n..],
            Err(error) => wait(error).map_err(Stop::Output)?,
        }
    }
    Err(Stop::End)
}
