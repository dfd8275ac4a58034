// A command is carried out, and its answer written as a line. The board, the list and the bytes for the reply come as
// three arguments all the way down: the public `step` is lent them apart.
ghost use Rattle.std.specs.Prelude.{◌≡◌, [], ◌≤◌, length};
ghost use Rattle.calls.specs.Refusals.{number_of};
ghost use Rattle.calls.specs.Results.{if_clear};
ghost use Rattle.lines.specs.Printing.{line, unknown_line};
ghost use Rattle.lines.specs.Replies.{reply_bytes, Written, Told, check_line, ordering_line, serving_line, round_line, outcome_line, fetching_line, reply_line, drive_after, board_after, list_after, Steps};

use crate::Command;
use crate::reading::parse;
use crate::writing::{put_alone, put_done, put_value};
use calls::{Checked, Drive, Refusal, Served, Slot};
use orders::{Accepted, Declined, Ordered};
use waiting::{Outcome, Unfetched};

// The record after a command, and the place in the lent bytes after its reply.
#[derive(Clone, Copy, Debug, PartialEq, Eq)]
pub struct Stepped {
    pub drive: Drive,
    pub to: usize,
}

// Room for any reply: an answer number of two digits, 4,095 values of five digits, each after a space, and a line feed.
pub const ROOM: usize = 24573;

// The answer numbers of what is no refusal, and of a lack of room, by the table of docs/CALLS.md: the console prints
// numbers, and the types that answer here carry none.
const DONE: u64 = 0;

const NO_ROOM: u64 = 10;

const WAITING: u64 = 13;

const QUEUE: u64 = 14;

const TICKET: u64 = 15;

// The line of a refusal.
fn tell_refusal(refusal: Refusal, out: &mut [u8]) -> usize
    requires { reply_bytes ≤ length out.old }
    ensures { Written (line (number_of refusal) []) out.old result out.new }
{
    put_alone(out, u64::from(refusal.number()))
}

// The line of an open; refused, it keeps the old record.
fn tell_opened(old: Drive, opened: Checked, out: &mut [u8]) -> Stepped
    requires { reply_bytes ≤ length out.old }
    ensures { Told (if_clear opened.answer opened.drive old) (check_line opened.answer []) out.old result out.new }
{
    match opened.answer {
        Ok(()) => Stepped {
            drive: opened.drive,
            to: put_alone(out, DONE),
        },
        Err(r) => Stepped {
            drive: old,
            to: tell_refusal(r, out),
        },
    }
}

// The line of an add or a remove.
fn tell_ordered(ordered: Ordered, out: &mut [u8]) -> Stepped
    requires { reply_bytes ≤ length out.old }
    ensures { Told ordered.drive (ordering_line ordered.answer) out.old result out.new }
{
    let to = match ordered.answer {
        Ok(Accepted::Done(idle)) => put_value(out, DONE, u64::from(idle)),
        Err(Declined::Room(idle)) => put_value(out, NO_ROOM, u64::from(idle)),
        Ok(Accepted::Waiting(ticket)) => put_value(out, WAITING, ticket),
        Err(Declined::Queue) => put_alone(out, QUEUE),
        Err(Declined::Refused(r)) => tell_refusal(r, out),
    };
    Stepped {
        drive: ordered.drive,
        to,
    }
}

// The line of an answer that was fetched, as the change would have had it: the idle leaves stand after 0 and after 10.
fn tell_outcome(number: u64, value: u64, out: &mut [u8]) -> usize
    requires { reply_bytes ≤ length out.old }
    ensures { Written (outcome_line number value) out.old result out.new }
{
    if number == DONE || number == NO_ROOM {
        put_value(out, number, value)
    } else {
        put_alone(out, number)
    }
}

// The line of a fetch.
fn tell_fetching(answer: Result<Outcome, Unfetched>, out: &mut [u8]) -> usize
    requires { reply_bytes ≤ length out.old }
    ensures { Written (fetching_line answer) out.old result out.new }
{
    match answer {
        Ok(Outcome { number, value }) => tell_outcome(number, value, out),
        Err(Unfetched::Waits(ticket)) => put_value(out, WAITING, ticket),
        Err(Unfetched::Unknown) => put_alone(out, TICKET),
    }
}

// The line of a slot.
fn tell_served(served: Served, out: &mut [u8]) -> Stepped
    requires { reply_bytes ≤ length out.old }
    ensures { Told served.drive (serving_line served.answer) out.old result out.new }
{
    let to = match served.answer {
        Ok(Slot { name, leaf, .. }) => put_done(out, &[name, leaf]),
        Err(r) => tell_refusal(r, out),
    };
    Stepped {
        drive: served.drive,
        to,
    }
}

// Writes a round and its line.
fn tell_round(drive: Drive, board: &[u16], out: &mut [u8]) -> usize
    requires { reply_bytes ≤ length out.old }
    ensures { Written (round_line drive board.now) out.old result out.new }
{
    let mut names = names::zeros::<4095>();
    let rounded = drive.round(board, &mut names);
    match rounded.answer {
        Ok(()) => put_done(out, &names[..usize::from(drive.capacity)]),
        Err(r) => tell_refusal(r, out),
    }
}

// The line for what is not understood.
fn tell_unknown(out: &mut [u8]) -> usize
    requires { reply_bytes ≤ length out.old }
    ensures { Written unknown_line out.old result out.new }
{
    out[..2].copy_from_slice(b"?\n");
    2
}

// Carries out a command and writes its reply.
#[tactic(auto, unfolding(crate::specs::Replies::drive_after, crate::specs::Replies::reply_line, crate::specs::Replies::board_after, crate::specs::Replies::list_after))]
pub fn answer(
    command: Option<Command>,
    drive: Drive,
    board: &mut [u16],
    list: &mut [u64],
    out: &mut [u8],
) -> Stepped
    requires { reply_bytes ≤ length out.old }
    ensures told { Told (drive_after command drive board.old list.old) (reply_line command drive board.old list.old) out.old result out.new }
    ensures leaves { board.new ≡ board_after command drive board.old list.old }
    ensures waits { list.new ≡ list_after command drive board.old list.old }
{
    match command {
        Some(Command::Open(capacity)) => {
            tell_opened(drive, orders::open(capacity, board, list), out)
        }
        Some(Command::Add(name, weight)) => {
            tell_ordered(orders::add(drive, board, list, name, weight), out)
        }
        Some(Command::Remove(name)) => {
            tell_ordered(orders::remove(drive, board, list, name), out)
        }
        Some(Command::Slot) => tell_served(orders::slot(drive, board, list), out),
        Some(Command::Round) => Stepped {
            drive,
            to: tell_round(drive, board, out),
        },
        Some(Command::Fetch(ticket)) => Stepped {
            drive,
            to: tell_fetching(waiting::fetch(list, ticket), out),
        },
        None => Stepped {
            drive,
            to: tell_unknown(out),
        },
    }
}

// One line in, one line out: the command that the line is, given without its line feed, is carried out, and its
// reply written to the start of the lent bytes. Where these are fewer than a reply may need, nothing is done.
pub fn step(
    line: &[u8],
    drive: Drive,
    board: &mut [u16],
    list: &mut [u64],
    out: &mut [u8],
) -> Stepped
    ensures { Steps line.now drive board.old list.old out.old result board.new list.new out.new }
{
    if out.len() < ROOM {
        return Stepped { drive, to: 0 };
    }
    answer(parse(line), drive, board, list, out)
}
