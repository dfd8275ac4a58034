// A table of changes for two drives with the tables of over-allocated streams: each entry is carried out as the single call does it, and its answer is written
// beside it. The kinds are those of `batch` and one more. The loop over a table stands in `exports`.
#![tactic(auto)]

ghost use Rattle.std.specs.Prelude.{◌≡◌};
ghost use Rattle.shares.specs.States.{lent};
ghost use Rattle.share_batch.specs.Entries.{ordered, ordered_state, ordered_list};
ghost use Rattle.share_batch.specs.Promises as promises;

use batch::{Carried, Entry};
use calls::{Drive, Refusal, Returned};
use orders::{Declined, Ordered};
use waiting::Order;

// The kind of an over-allocated add.
pub const OVER: u16 = Order::OVER;

// The single call that an entry asks for. A kind that is none is refused before anything is looked at. It is lent the slices apart, as C
// lends them to each single call. It and the next are not one function with those of `batch`: other slices are lent and another kind is known, so that one function
// over both would need a trait of three calls for two uses.
#[tactic(auto, unfolding(crate::specs::Entries::ordered, crate::specs::Entries::ordered_state, crate::specs::Entries::ordered_list))]
fn order(
    own: Drive,
    other: Drive,
    board: &mut [u16],
    list: &mut [u64],
    rates: &mut [u16],
    owed: &mut [u16],
    owed_other: &mut [u16],
    entry: Entry,
) -> Ordered
    ensures { (result ≡ ordered own other (lent board.old rates.old owed.old owed_other.old) list.old entry) × (lent board.new rates.new owed.new owed_other.new ≡ ordered_state own other (lent board.old rates.old owed.old owed_other.old) list.old entry) × (list.new ≡ ordered_list own other (lent board.old rates.old owed.old owed_other.old) list.old entry) }
{
    let name = entry.name;
    let w = entry.weight;
    match entry.kind {
        Entry::ADD => shares::add(own, other, board, list, rates, owed, owed_other, name, w),
        Entry::REMOVE => shares::remove(own, other, board, list, rates, owed, owed_other, name),
        OVER => shares::over(own, other, board, list, rates, owed, owed_other, name, w),
        _ => Returned {
            drive: own,
            answer: Err(Declined::Refused(Refusal::Weight)),
        },
    }
}

// Carries out one entry.
#[tactic(auto, unfolding(crate::specs::Entries::carried))]
pub fn carry_entry(
    own: Drive,
    other: Drive,
    board: &mut [u16],
    list: &mut [u64],
    rates: &mut [u16],
    owed: &mut [u16],
    owed_other: &mut [u16],
    entry: Entry,
) -> Carried
    ensures { promises.Carries own other (lent board.old rates.old owed.old owed_other.old) list.old entry result (lent board.new rates.new owed.new owed_other.new) list.new }
{
    let ordered = order(own, other, board, list, rates, owed, owed_other, entry);
    Carried {
        drive: ordered.drive,
        entry: batch::note(entry, ordered.answer),
    }
}
