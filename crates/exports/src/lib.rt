// The functions that C and Rust get: every call on a slot board with its waiting list, and save and read; in `pair` those for two drives on one board, in
// `sharing` those with the tables of over-allocated streams, in `by_hand` those of both that are lent structs, in `tree_walk` the tree walk, in `piece_sheets` the
// sheets that list pieces, in `group_table` a group table.
// `exports_c` exports each under its name: its body there is the call.
#![tactic(auto, using(replies::proofs::Laws::replied, replies::proofs::Laws::converted))]

ghost use Rattle.std.specs.Prelude.{◌≡◌, length};
ghost use Rattle.calls.specs.Results as results;
ghost use Rattle.sheets.specs.Results as sheet_results;
ghost use Rattle.waiting.specs.Layout.{fetched, fetched_list};
ghost use Rattle.orders.specs.Answers.{fetching_answer};
ghost use Rattle.orders.specs.Results as order_results;
ghost use Rattle.replies.specs.Replies.{said_of, reply};

use calls::Drive;
use replies::{Reply, Said, Say};

pub mod by_hand;
pub mod group_table;
pub mod pair;
pub mod piece_sheets;
pub mod sharing;
pub mod tree_walk;

// Opens a board, and empties the list.
pub fn mandrozsi_open(capacity: u16, board: &mut [u16], list: &mut [u64]) -> Reply
    ensures { (result ≡ reply (order_results.opened capacity board.old (length list.old)).drive (order_results.opened_answer capacity board.old (length list.old))) × (board.new ≡ order_results.opened_board capacity board.old (length list.old)) × (list.new ≡ order_results.opened_list capacity board.old list.old) }
{
    Reply::from(orders::open(capacity, board, list))
}

// Admits a stream, at once or by an order that waits: the idle leaves left, or the ticket.
pub fn mandrozsi_add(
    drive: Drive,
    board: &mut [u16],
    list: &mut [u64],
    name: u16,
    weight: u16,
) -> Reply
    ensures { (result ≡ reply drive (order_results.changed_answer drive board.old list.old (order_results.add_order name weight))) × (board.new ≡ order_results.changed_board drive board.old list.old (order_results.add_order name weight)) × (list.new ≡ order_results.changed_list drive board.old list.old (order_results.add_order name weight)) }
{
    Reply::from(orders::add(drive, board, list, name, weight))
}

// Removes a stream, at once or by an order that waits: the idle leaves left, or the ticket.
pub fn mandrozsi_remove(drive: Drive, board: &mut [u16], list: &mut [u64], name: u16) -> Reply
    ensures { (result ≡ reply drive (order_results.changed_answer drive board.old list.old (order_results.remove_order name))) × (board.new ≡ order_results.changed_board drive board.old list.old (order_results.remove_order name)) × (list.new ≡ order_results.changed_list drive board.old list.old (order_results.remove_order name)) }
{
    Reply::from(orders::remove(drive, board, list, name))
}

// Serves a slot: the name, the leaf, the terms passed over, the number of its round; the record moves on. Where a round starts the orders that wait are
// carried out first.
pub fn mandrozsi_slot(drive: Drive, board: &mut [u16], list: &mut [u64]) -> Reply
    ensures { (result ≡ reply (order_results.served drive board.old list.old).drive (order_results.served_answer drive board.old list.old)) × (board.new ≡ order_results.served_board drive board.old list.old) × (list.new ≡ order_results.served_list drive board.old list.old) }
{
    Reply::from(orders::slot(drive, board, list))
}

// Writes the names of a full round to the start of the output.
pub fn mandrozsi_round(drive: Drive, board: &[u16], output: &mut [u16]) -> Reply
    ensures { (result ≡ reply drive (results.rounded_answer drive board.now output.old)) × (output.new ≡ results.rounded_output drive board.now output.old) }
{
    Reply::from(drive.round(board, output))
}

// Reports on a stream: weight, number of pieces, spacing.
pub fn mandrozsi_report(drive: Drive, board: &[u16], name: u16) -> Reply
    ensures { result ≡ reply drive (results.reported_answer drive board.now name) }
{
    Reply::from(drive.report(board, name))
}

// Saves a board: its sheet at the start of the output, and how many bytes that is.
pub fn mandrozsi_save(drive: Drive, board: &[u16], output: &mut [u8]) -> Reply
    ensures { (result ≡ reply drive (sheet_results.saved_answer drive board.now output.old)) × (output.new ≡ sheet_results.saved_output drive board.now output.old) }
{
    Reply::from(sheets::save(drive, board, output))
}

// Reads a sheet: the leaves of a board, and a record at the start of a round. The list is emptied.
pub fn mandrozsi_read(sheet: &[u8], board: &mut [u16], list: &mut [u64]) -> Reply
    ensures { (result ≡ reply (order_results.loaded sheet.now board.old (length list.old)).drive (order_results.loaded_answer sheet.now board.old (length list.old))) × (board.new ≡ order_results.loaded_board sheet.now board.old (length list.old)) × (list.new ≡ order_results.loaded_list sheet.now board.old list.old) }
{
    Reply::from(orders::read(sheet, board, list))
}

// Fetches the answer of an order by its ticket.
pub fn mandrozsi_fetch(list: &mut [u64], ticket: u64) -> Said
    ensures { (result ≡ said_of (fetching_answer (fetched list.old ticket))) × (list.new ≡ fetched_list list.old ticket) }
{
    waiting::fetch(list, ticket).said()
}

// Lays the board out afresh, by falling weight, then rising name. The orders that wait stay on the list, which is not lent.
pub fn mandrozsi_fresh(drive: Drive, board: &mut [u16]) -> Reply
    ensures { (result ≡ reply drive (results.refreshed_answer drive board.old)) × (board.new ≡ results.refreshed_board drive board.old) }
{
    Reply::from(drive.fresh(board))
}
