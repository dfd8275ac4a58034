// A table of changes for two drives on one board: each entry is carried out as the single call does it, and its answer is written beside it. The loop over a
// table stands in `exports`.
#![tactic(auto)]

ghost use Rattle.std.specs.Prelude.{◌≡◌};
ghost use Rattle.orders.specs.Answers.{ordering_answer};
ghost use Rattle.batch.specs.Entries.{ordered, ordered_board, ordered_list, noted};
ghost use Rattle.batch.specs.Promises as promises;

use calls::{Drive, Refusal, Returned};
use orders::{Accepted, Declined, Ordered};
use waiting::Order;

// An entry: what is asked for, and the place for its answer, a number and a value. The value has room for a ticket. C lends entries and reads them, so
// a kind and an answer's number are numbers.
#[repr(C)]
#[derive(Clone, Copy)]
pub struct Entry {
    pub kind: u16,
    pub name: u16,
    pub weight: u16,
    pub number: u16,
    pub value: u64,
}

impl Entry {
    // The kinds.
    pub const ADD: u16 = Order::ADD;

    pub const REMOVE: u16 = Order::REMOVE;

    // The numbers of the answers that are no `Refusal`.
    const DONE: u16 = 0;

    const WAITING: u16 = 13;

    const QUEUE: u16 = 14;
}

// What an entry leaves of the record and of itself. No `Returned`: what comes back beside the record is no answer, but what was asked, with one.
#[derive(Clone, Copy)]
pub struct Carried {
    pub drive: Drive,
    pub entry: Entry,
}

// The entry with the answer of a change.
pub fn note(entry: Entry, answer: Result<Accepted, Declined>) -> Entry
    ensures { result ≡ noted entry (ordering_answer answer) }
{
    let (number, value) = match answer {
        Ok(Accepted::Done(idle)) => (Entry::DONE, idle as u64),
        Ok(Accepted::Waiting(ticket)) => (Entry::WAITING, ticket),
        Err(Declined::Room(idle)) => (Refusal::Room.number(), idle as u64),
        Err(Declined::Queue) => (Entry::QUEUE, 0),
        Err(Declined::Refused(why)) => (why.number(), 0),
    };
    Entry {
        number,
        value,
        ..entry
    }
}

// The single call that an entry asks for. A kind that is none is refused before anything is looked at. This and the next have their like in `share_batch`, where
// other slices are lent and another kind is known: one function over both would need a trait of three calls for two uses.
#[tactic(auto, unfolding(crate::specs::Entries::ordered, crate::specs::Entries::ordered_board, crate::specs::Entries::ordered_list))]
fn order(own: Drive, other: Drive, board: &mut [u16], list: &mut [u64], entry: Entry) -> Ordered
    ensures { (result ≡ ordered own other board.old list.old entry) × (board.new ≡ ordered_board own other board.old list.old entry) × (list.new ≡ ordered_list own other board.old list.old entry) }
{
    match entry.kind {
        Entry::ADD => drives::add(own, other, board, list, entry.name, entry.weight),
        Entry::REMOVE => drives::remove(own, other, board, list, entry.name),
        _ => Returned {
            drive: own,
            answer: Err(Declined::Refused(Refusal::Weight)),
        },
    }
}

// Carries out one entry.
#[tactic(auto, unfolding(crate::specs::Entries::carried))]
pub fn carry_entry(
    own: Drive,
    other: Drive,
    board: &mut [u16],
    list: &mut [u64],
    entry: Entry,
) -> Carried
    ensures { promises.Carries own other board.old list.old entry result board.new list.new }
{
    let ordered = order(own, other, board, list, entry);
    Carried {
        drive: ordered.drive,
        entry: note(entry, ordered.answer),
    }
}
