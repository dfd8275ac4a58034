// The console's loop: standard input is read in large blocks, heard, and what is said is written in large blocks, before
// more input is waited for. What is heard and said is the promises of `lines`; no contract can say what is read or
// written, but whatever it is, the board and the waiting list are as a session over some input leaves them. These two and
// the bytes for replies come as three arguments all the way down: the public `serve`, and `feed` and `finish` of `lines`,
// are lent them apart.
#![tactic(auto)]

mod system;

ghost use Rattle.std.specs.Prelude.{◌≡◌, length};
ghost use Rattle.console_loop.specs.Serving.{Follows, LeftBySession};

use lines::Session;
use std::io::Read;
use system::Stop;

// Room for N bytes.
fn room<const N: usize>() -> [u8; N]
    ensures { N ≡ length result }
{
    [0; N]
}

// Hears a block of input to its end, and writes what is said of it.
fn hear_block(
    rt: &impl Print,
    session: &mut Session,
    input: &[u8],
    board: &mut [u16],
    list: &mut [u64],
    out: &mut [u8],
) -> Result<(), Stop>
    ensures { Follows session.old board.old list.old session.new board.new list.new }
{
    let mut rest = input;
    // `feed` says how far it came, so no index is counted.
    while !rest.is_empty() {
        let fed = lines::feed(*session, rest, board, list, out);
        *session = fed.session;
        system::say(rt, &out[..fed.to])?;
        if fed.used == 0 {
            return Err(Stop::End);
        }
        rest = &rest[fed.used..];
    }
    Ok(())
}

// The end of the input: the last line, where no line feed ended it.
fn hear_end(
    rt: &impl Print,
    session: &mut Session,
    board: &mut [u16],
    list: &mut [u64],
    out: &mut [u8],
) -> Result<(), Stop>
    ensures { Follows session.old board.old list.old session.new board.new list.new }
{
    let fed = lines::finish(*session, board, list, out);
    *session = fed.session;
    system::say(rt, &out[..fed.to])?;
    Err(Stop::End)
}

// Reads once, and answers what came. Where the read fails nothing is heard: a line that is cut there is no line.
fn take_turn<R: Read>(
    rt: &impl Print,
    from: &mut R,
    session: &mut Session,
    input: &mut [u8],
    board: &mut [u16],
    list: &mut [u64],
    out: &mut [u8],
) -> Result<(), Stop>
    ensures { Follows session.old board.old list.old session.new board.new list.new }
{
    match from.read(input) {
        Ok(0) => hear_end(rt, session, board, list, out),
        Ok(n) => hear_block(rt, session, &input[..n], board, list, out),
        Err(error) => system::wait(error).map_err(Stop::Input),
    }
}

// Turns until there is no more to hear. A proved loop has to end, and nothing says that the input does, so the turns
// are counted to a number that no run comes to.
fn talk(
    rt: &(impl Input + Print),
    input: &mut [u8],
    board: &mut [u16],
    list: &mut [u64],
    out: &mut [u8],
) -> Result<(), Stop>
    ensures { LeftBySession board.old list.old board.new list.new }
{
    let mut from = rt.reader();
    let mut session = Session::new();
    for _ in 0..u64::MAX {
        take_turn(rt, &mut from, &mut session, input, board, list, out)?;
    }
    Ok(())
}

// Answers standard input to its end on standard output.
pub fn serve(rt: &(impl Input + Print + Eprint), board: &mut [u16], list: &mut [u64])
    ensures { LeftBySession board.old list.old board.new list.new }
{
    let mut input = room::<65536>();
    let mut out = room::<131072>();
    if let Err(stop) = talk(rt, &mut input, board, list, &mut out) {
        system::tell(rt, stop);
    }
}
