// The functions that C and Rust get that are lent structs: a table of changes, of which the loop alone stands here, and
// the slot on a record where that lies; each for two drives, and with the tables of over-allocated streams.
ghost use Rattle.shares.specs.States.{lent};
ghost use Rattle.batch.specs.Promises as promises;
ghost use Rattle.share_batch.specs.Promises as share_promises;
ghost use Rattle.exports.specs.Promises.{ServesHere};
ghost use Rattle.exports.specs.Serving.{ShareServesHere};

use crate::pair::mandrozsi_pair_slot;
use crate::sharing::mandrozsi_share_slot;
use batch::Entry;
use calls::Drive;
use replies::Said;

// Carries out a table of changes from first to last, each as the single call would, and writes its answer beside it. A refused entry does not stop the rest.
pub fn mandrozsi_pair_batch(
    own: Drive,
    other: Drive,
    board: &mut [u16],
    list: &mut [u64],
    table: &mut [Entry],
) -> Drive
    ensures { promises.Batches own other board.old list.old table.old result board.new list.new table.new }
{
    let mut here = own;
    for entry in table.iter_mut() {
        let done = batch::carry_entry(here, other, board, list, *entry);
        here = done.drive;
        *entry = done.entry;
    }
    here
}

// The same with the tables of over-allocated streams.
pub fn mandrozsi_share_batch(
    own: Drive,
    other: Drive,
    board: &mut [u16],
    list: &mut [u64],
    rates: &mut [u16],
    owed: &mut [u16],
    owed_other: &mut [u16],
    table: &mut [Entry],
) -> Drive
    ensures { share_promises.Batches own other (lent board.old rates.old owed.old owed_other.old) list.old table.old result (lent board.new rates.new owed.new owed_other.new) list.new table.new }
{
    let mut here = own;
    for entry in table.iter_mut() {
        let done = share_batch::carry_entry(
            here, other, board, list, rates, owed, owed_other, *entry,
        );
        here = done.drive;
        *entry = done.entry;
    }
    here
}

// Serves a slot of the own drive on its record where that lies: it is moved on there, and left as it was where the slot is refused.
pub fn mandrozsi_pair_slot_here(
    own: &mut Drive,
    other: Drive,
    board: &mut [u16],
    list: &mut [u64],
) -> Said
    ensures { ServesHere own.old other board.old list.old result own.new board.new list.new }
{
    let served = mandrozsi_pair_slot(*own, other, board, list);
    *own = served.drive;
    served.said
}

// The same with the tables of over-allocated streams.
pub fn mandrozsi_share_slot_here(
    own: &mut Drive,
    other: Drive,
    board: &mut [u16],
    list: &mut [u64],
    rates: &mut [u16],
    owed: &mut [u16],
    owed_other: &mut [u16],
) -> Said
    ensures { ShareServesHere own.old other (lent board.old rates.old owed.old owed_other.old) list.old result own.new (lent board.new rates.new owed.new owed_other.new) list.new }
{
    let served = mandrozsi_share_slot(*own, other, board, list, rates, owed, owed_other);
    *own = served.drive;
    served.said
}
