// A session: input is cut into lines, whatever their length, and each line answered. The board, the list and the bytes
// for replies come as three arguments all the way down: the public `feed` and `finish` are lent them apart.
ghost use Rattle.std.specs.Prelude.{◌≡◌, ◌≤◌, length, take};
ghost use Rattle.lines.specs.Grammar.{parsed};
ghost use Rattle.lines.specs.Replies.{reply_bytes, reply_line, board_after, list_after};
ghost use Rattle.lines.specs.Sessions.{empty, pushed, started, line_of, ended, session_after, board_heard, list_heard, said_after, last_of, Hears, Answered};

use crate::reading::parse;
use crate::talking::{ROOM, answer};
use calls::Drive;

// How many bytes of a line are kept: one more than the longest command has, which is `fetch` with a ticket of twenty
// digits, so that a longer line is not understood, kept or whole.
const KEPT: usize = 27;

// The start of the line that is being heard: its first `count` bytes. `feed` and `finish` promise the same for any session
// that a caller makes, at every count, so it is no `ArrayVec` and no invariant bounds it: a count above `KEPT` is as good
// as `KEPT`. Bytes past the count mean nothing, so two lines aren't compared.
#[derive(Clone, Copy, Debug)]
pub struct Line {
    pub bytes: [u8; KEPT],
    pub count: usize,
}

impl Line {
    fn new() -> Line
        ensures { result ≡ empty }
    {
        Line {
            bytes: [0; KEPT],
            count: 0,
        }
    }

    // One byte more, as long as there is a place for it.
    fn push(&mut self, b: u8)
        ensures { self.new ≡ pushed self.old b }
    {
        let n = self.count;
        if n < KEPT {
            self.bytes[n] = b;
            self.count = n + 1;
        }
    }

    fn as_slice(&self) -> &[u8]
        ensures { result.now ≡ take self.now.count self.now.bytes }
    {
        &self.bytes[..self.count.min(KEPT)]
    }
}

// The drive record, and what is kept of the line that is being heard.
#[derive(Clone, Copy, Debug)]
pub struct Session {
    pub drive: Drive,
    pub line: Line,
}

// A session, how many bytes of the input were heard, and the place in the lent bytes after what was said.
#[derive(Clone, Copy, Debug)]
pub struct Fed {
    pub session: Session,
    pub used: usize,
    pub to: usize,
}

impl Session {
    // A session that begins: no board is open yet.
    pub fn new() -> Session
        ensures { result ≡ started }
    {
        Session {
            drive: Drive::new(0, 0),
            line: Line::new(),
        }
    }

    // The end of a line: it is answered at the start of the lent bytes. Returns how many bytes were said.
    fn end_line(&mut self, board: &mut [u16], list: &mut [u64], out: &mut [u8]) -> usize
        requires { reply_bytes ≤ length out.old }
        ensures { Hears (ended self.old board.old list.old) (board_after (parsed (line_of self.old)) self.old.drive board.old list.old) (list_after (parsed (line_of self.old)) self.old.drive board.old list.old) (reply_line (parsed (line_of self.old)) self.old.drive board.old list.old) out.old self.new result board.new list.new out.new }
    {
        let command = parse(self.line.as_slice());
        let stepped = answer(command, self.drive, board, list, out);
        self.drive = stepped.drive;
        self.line.count = 0;
        stepped.to
    }

    // One byte of input. Returns how many bytes were said.
    fn hear(&mut self, b: u8, board: &mut [u16], list: &mut [u64], out: &mut [u8]) -> usize
        requires { reply_bytes ≤ length out.old }
        ensures { Hears (session_after self.old board.old list.old b) (board_heard self.old board.old list.old b) (list_heard self.old board.old list.old b) (said_after self.old board.old list.old b) out.old self.new result board.new list.new out.new }
    {
        if b == b'\n' {
            return self.end_line(board, list, out);
        }
        self.line.push(b);
        0
    }
}

// Hears the input from its start, as long as the lent bytes have room for a reply, and writes what is said to their
// start.
pub fn feed(
    session: Session,
    input: &[u8],
    board: &mut [u16],
    list: &mut [u64],
    out: &mut [u8],
) -> Fed
    ensures { Answered session input.now board.old list.old out.old result board.new list.new out.new }
{
    let mut session = session;
    let mut to: usize = 0;
    for (used, b) in input.iter().enumerate() {
        if out.len() - to < ROOM {
            return Fed { session, used, to };
        }
        to += session.hear(*b, board, list, &mut out[to..]);
    }
    Fed {
        session,
        used: input.len(),
        to,
    }
}

// The end of the input: a line that has begun counts, though no line feed ended it.
pub fn finish(session: Session, board: &mut [u16], list: &mut [u64], out: &mut [u8]) -> Fed
    ensures { Answered session (last_of session) board.old list.old out.old result board.new list.new out.new }
{
    if session.line.count == 0 {
        return Fed {
            session,
            used: 0,
            to: 0,
        };
    }
    feed(session, b"\n", board, list, out)
}
