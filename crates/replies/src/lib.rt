// What the exported functions give back: the answer of each call in plain numbers, and the record beside it. An enum cannot cross to C.
#![tactic(auto)]

ghost use Rattle.std.specs.Prelude.{◌≡◌};
ghost use Rattle.calls.specs.Answers.{Answer, check_answer, serving_answer, report_answer};
ghost use Rattle.sheets.specs.Results.{saving_answer};
ghost use Rattle.orders.specs.Answers.{ordering_answer, fetching_answer};
ghost use Rattle.tree.specs.Results.{walking_answer};
ghost use Rattle.groups.specs.Results.{importing_answer};
ghost use Rattle.share_boards.specs.Starting as starting;
ghost use Rattle.replies.specs.Replies.{said_of, reply, said_done, said_told, said_refused};

use calls::{Drive, Refusal, Returned, Slot, Stream};
use groups::Unimported;
use orders::{Accepted, Declined};
use share_boards::starting::Unsaved;
use tree::{Leaf, Unwalked};
use waiting::{Outcome, Unfetched};

// What a call says: the answer's number, 0 for done, and its values in the order of document 01; a value that an answer does not have is 0. 64 bits each, so
// that every value there is has room: a leaf, a round number, a ticket.
#[repr(C)]
#[derive(Clone, Copy)]
pub struct Said {
    pub number: u64,
    pub first: u64,
    pub second: u64,
    pub third: u64,
    pub fourth: u64,
}

impl Said {
    // The numbers of the table that are no `Refusal`'s.
    const WAITING: u64 = 13;

    const QUEUE: u64 = 14;

    const TICKET: u64 = 15;

    const POWER: u64 = 16;

    const KIND: u64 = 17;

    const GROUP: u64 = 18;

    // Of a call that is done.
    fn done(first: u64, second: u64, third: u64, fourth: u64) -> Said
        ensures { result ≡ said_done first second third fourth }
    {
        Said {
            number: 0,
            first,
            second,
            third,
            fourth,
        }
    }

    // A number and one value.
    fn told(number: u64, first: u64) -> Said
        ensures { result ≡ said_told number first }
    {
        Said {
            number,
            first,
            second: 0,
            third: 0,
            fourth: 0,
        }
    }

    // Of a call that is refused. Only ROOM has a value.
    fn refused(why: Refusal, first: u64) -> Said
        ensures { result ≡ said_refused why first }
    {
        Said::told(why.number() as u64, first)
    }
}

// What a call gives back: the record, and what it says.
#[repr(C)]
#[derive(Clone, Copy)]
pub struct Reply {
    pub drive: Drive,
    pub said: Said,
}

// The answer of a call.
pub trait Say {
    // Its number and values.
    ghost says: { Self → Answer };

    // Returns the number and the values.
    fn said(self) -> Said
        ensures { result ≡ said_of (says self) };
}

// The reply of every call that takes a record.
impl<A: Say + Copy> From<Returned<A>> for Reply {
    ghost from_gives = { λ r x. x ≡ reply r.drive (A.says r.answer) };

    fn from(r: Returned<A>) -> Reply {
        Reply {
            drive: r.drive,
            said: r.answer.said(),
        }
    }
}

// The answer of open, of round, of the fresh layout and of read.
impl Say for Result<(), Refusal> {
    ghost says = { check_answer };

    fn said(self) -> Said {
        match self {
            Ok(()) => Said::done(0, 0, 0, 0),
            Err(why) => Said::refused(why, 0),
        }
    }
}

// The answer of add and of remove.
impl Say for Result<Accepted, Declined> {
    ghost says = { ordering_answer };

    fn said(self) -> Said {
        match self {
            Ok(Accepted::Done(idle)) => Said::done(idle as u64, 0, 0, 0),
            Ok(Accepted::Waiting(ticket)) => Said::told(Said::WAITING, ticket),
            Err(Declined::Room(idle)) => Said::refused(Refusal::Room, idle as u64),
            Err(Declined::Queue) => Said::told(Said::QUEUE, 0),
            Err(Declined::Refused(why)) => Said::refused(why, 0),
        }
    }
}

// The answer of fetch.
impl Say for Result<Outcome, Unfetched> {
    ghost says = { fetching_answer };

    fn said(self) -> Said {
        match self {
            Ok(outcome) => Said::told(outcome.number, outcome.value),
            Err(Unfetched::Waits(ticket)) => Said::told(Said::WAITING, ticket),
            Err(Unfetched::Unknown) => Said::told(Said::TICKET, 0),
        }
    }
}

// The answer of slot.
impl Say for Result<Slot, Refusal> {
    ghost says = { serving_answer };

    fn said(self) -> Said {
        match self {
            Ok(slot) => Said::done(
                slot.name as u64,
                slot.leaf as u64,
                slot.passed as u64,
                slot.round,
            ),
            Err(why) => Said::refused(why, 0),
        }
    }
}

// The answer of report.
impl Say for Result<Stream, Refusal> {
    ghost says = { report_answer };

    fn said(self) -> Said {
        match self {
            Ok(stream) => Said::done(
                stream.weight as u64,
                stream.pieces as u64,
                stream.spacing as u64,
                0,
            ),
            Err(why) => Said::refused(why, 0),
        }
    }
}

// The answer of save, and of a conversion, which takes no record.
impl Say for Result<usize, Refusal> {
    ghost says = { saving_answer };

    fn said(self) -> Said {
        match self {
            Ok(written) => Said::done(written as u64, 0, 0, 0),
            Err(why) => Said::refused(why, 0),
        }
    }
}

// The answer of save where tables are lent.
impl Say for Result<usize, Unsaved> {
    ghost says = { starting.saving_answer };

    fn said(self) -> Said {
        match self {
            Ok(bytes) => Said::done(bytes as u64, 0, 0, 0),
            Err(Unsaved::Kind) => Said::told(Said::KIND, 0),
            Err(Unsaved::Refused(why)) => Said::refused(why, 0),
        }
    }
}

// The answer of a walk.
impl Say for Result<Leaf, Unwalked> {
    ghost says = { walking_answer };

    fn said(self) -> Said {
        match self {
            Ok(end) => Said::done(end.name as u64, end.leaf as u64, 0, 0),
            Err(Unwalked::Power) => Said::told(Said::POWER, 0),
            Err(Unwalked::Refused(why)) => Said::refused(why, 0),
        }
    }
}

// The answer of an import.
impl Say for Result<(), Unimported> {
    ghost says = { importing_answer };

    fn said(self) -> Said {
        match self {
            Ok(()) => Said::done(0, 0, 0, 0),
            Err(Unimported::Power) => Said::told(Said::POWER, 0),
            Err(Unimported::Group) => Said::told(Said::GROUP, 0),
            Err(Unimported::Refused(why)) => Said::refused(why, 0),
        }
    }
}
