// What a call said, printed: the answer's number and its values, zeros where it is refused.
ghost use Rattle.std.specs.Prelude.{◌≡◌, IfOk};

use calls::{Drive, Refusal, Returned, Slot, Stream, Unchanged};
use orders::{Accepted, Declined};
use std::{fmt, io};
use waiting::{Outcome, Unfetched};

// The numbers of the answers that are no refusal of the calls, by the table of docs/CALLS.md: an order waits, there is no place for it, no such ticket. The
// programs print numbers, and the types that answer so carry none.
const WAITS: u16 = 13;

const QUEUE: u16 = 14;

const UNKNOWN: u16 = 15;

/// An answer as it is printed.
#[derive(Drop)]
pub struct Told<A>(pub A);

impl fmt::Display for Told<Result<(), Refusal>> {
    fn fmt<W: fmt::Write>(&self, f: &mut fmt::Formatter<W>) -> fmt::Result {
        match self.0 {
            Ok(()) => write!(f, "0"),
            Err(why) => write!(f, "{}", why.number()),
        }
    }
}

impl fmt::Display for Told<Result<u16, Unchanged>> {
    fn fmt<W: fmt::Write>(&self, f: &mut fmt::Formatter<W>) -> fmt::Result {
        match self.0 {
            Ok(idle) => write!(f, "0 {idle}"),
            Err(Unchanged::Room(idle)) => write!(f, "{} {idle}", Refusal::Room.number()),
            Err(Unchanged::Refused(why)) => write!(f, "{} 0", why.number()),
        }
    }
}

impl fmt::Display for Told<Result<Slot, Refusal>> {
    fn fmt<W: fmt::Write>(&self, f: &mut fmt::Formatter<W>) -> fmt::Result {
        match self.0 {
            Ok(slot) => write!(
                f,
                "0 {} {} {} {}",
                slot.name, slot.leaf, slot.passed, slot.round
            ),
            Err(why) => write!(f, "{} 0 0 0 0", why.number()),
        }
    }
}

impl fmt::Display for Told<Result<Stream, Refusal>> {
    fn fmt<W: fmt::Write>(&self, f: &mut fmt::Formatter<W>) -> fmt::Result {
        match self.0 {
            Ok(stream) => write!(
                f,
                "0 {} {} {}",
                stream.weight, stream.pieces, stream.spacing
            ),
            Err(why) => write!(f, "{} 0 0 0", why.number()),
        }
    }
}

// Of save: how many bytes were written.
impl fmt::Display for Told<Result<usize, Refusal>> {
    fn fmt<W: fmt::Write>(&self, f: &mut fmt::Formatter<W>) -> fmt::Result {
        match self.0 {
            Ok(bytes) => write!(f, "0 {bytes}"),
            Err(why) => write!(f, "{} 0", why.number()),
        }
    }
}

// Of a change that may wait: the idle leaves or the ticket.
impl fmt::Display for Told<Result<Accepted, Declined>> {
    fn fmt<W: fmt::Write>(&self, f: &mut fmt::Formatter<W>) -> fmt::Result {
        match self.0 {
            Ok(Accepted::Done(idle)) => write!(f, "0 {idle}"),
            Ok(Accepted::Waiting(ticket)) => write!(f, "{WAITS} {ticket}"),
            Err(Declined::Room(idle)) => write!(f, "{} {idle}", Refusal::Room.number()),
            Err(Declined::Queue) => write!(f, "{QUEUE} 0"),
            Err(Declined::Refused(why)) => write!(f, "{} 0", why.number()),
        }
    }
}

// Of fetch: the number and the value that the order was answered.
impl fmt::Display for Told<Result<Outcome, Unfetched>> {
    fn fmt<W: fmt::Write>(&self, f: &mut fmt::Formatter<W>) -> fmt::Result {
        match self.0 {
            Ok(said) => write!(f, "{} {}", said.number, said.value),
            Err(Unfetched::Waits(ticket)) => write!(f, "{WAITS} {ticket}"),
            Err(Unfetched::Unknown) => write!(f, "{UNKNOWN} 0"),
        }
    }
}

/// Prints a colon and what a call answered, and gives back the record that came with the answer.
pub fn tell<A: Drop>(rt: &impl Print, returned: Returned<A>) -> io::Result<Drive>
where
    Told<A>: fmt::Display,
    ensures { IfOk result (λ drive. drive ≡ returned.drive) }
{
    let Returned { drive, answer } = returned;
    print!(rt; ": {}", Told(answer))?;
    Ok(drive)
}
