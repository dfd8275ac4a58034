// The functions that C and Rust get for two drives on one board: `own` is the record of the drive that the call is for and comes back, `other` is the other
// drive's. Open, read and fetch are those of one drive.
ghost use Rattle.std.specs.Prelude.{◌≡◌};
ghost use Rattle.orders.specs.Results.{add_order, remove_order};
ghost use Rattle.drives.specs.Results as results;
ghost use Rattle.replies.specs.Replies.{reply};

use calls::Drive;
use replies::Reply;

// Admits a stream, at once where both drives are at the start of a round and no order waits, or by an order that waits.
pub fn mandrozsi_pair_add(
    own: Drive,
    other: Drive,
    board: &mut [u16],
    list: &mut [u64],
    name: u16,
    weight: u16,
) -> Reply
    ensures { (result ≡ reply own (results.changed_answer own other board.old list.old (add_order name weight))) × (board.new ≡ results.changed_board own other board.old list.old (add_order name weight)) × (list.new ≡ results.changed_list own other board.old list.old (add_order name weight)) }
{
    Reply::from(drives::add(own, other, board, list, name, weight))
}

// Removes a stream, likewise.
pub fn mandrozsi_pair_remove(
    own: Drive,
    other: Drive,
    board: &mut [u16],
    list: &mut [u64],
    name: u16,
) -> Reply
    ensures { (result ≡ reply own (results.changed_answer own other board.old list.old (remove_order name))) × (board.new ≡ results.changed_board own other board.old list.old (remove_order name)) × (list.new ≡ results.changed_list own other board.old list.old (remove_order name)) }
{
    Reply::from(drives::remove(own, other, board, list, name))
}

// Serves a slot of the own drive, whose record moves on. Where both drives are at the start of a round the orders that wait are carried out first.
pub fn mandrozsi_pair_slot(own: Drive, other: Drive, board: &mut [u16], list: &mut [u64]) -> Reply
    ensures { (result ≡ reply (results.served own other board.old list.old).drive (results.served_answer own other board.old list.old)) × (board.new ≡ results.served_board own other board.old list.old) × (list.new ≡ results.served_list own other board.old list.old) }
{
    Reply::from(drives::slot(own, other, board, list))
}

// Writes the names of a full round to the start of the output.
pub fn mandrozsi_pair_round(own: Drive, other: Drive, board: &[u16], output: &mut [u16]) -> Reply
    ensures { (result ≡ reply own (results.rounded_answer own other board.now output.old)) × (output.new ≡ results.rounded_output own other board.now output.old) }
{
    Reply::from(drives::round(own, other, board, output))
}

// Reports on a stream: weight, number of pieces, spacing.
pub fn mandrozsi_pair_report(own: Drive, other: Drive, board: &[u16], name: u16) -> Reply
    ensures { result ≡ reply own (results.reported_answer own other board.now name) }
{
    Reply::from(drives::report(own, other, board, name))
}

// Saves a board, where both drives are at the start of a round.
pub fn mandrozsi_pair_save(own: Drive, other: Drive, board: &[u16], output: &mut [u8]) -> Reply
    ensures { (result ≡ reply own (results.saved_answer own other board.now output.old)) × (output.new ≡ results.saved_output own other board.now output.old) }
{
    Reply::from(drives::save(own, other, board, output))
}

// Lays the board out afresh, where both drives are at the start of a round.
pub fn mandrozsi_pair_fresh(own: Drive, other: Drive, board: &mut [u16]) -> Reply
    ensures { (result ≡ reply own (results.refreshed_answer own other board.old)) × (board.new ≡ results.refreshed_board own other board.old) }
{
    Reply::from(drives::fresh(own, other, board))
}
