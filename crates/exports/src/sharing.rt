// The functions that C and Rust get for over-allocated streams: the calls of two drives that are lent the tables of r and of each drive's deficits. A single
// drive has its record in both places.
ghost use Rattle.orders.specs.Results.{add_order, remove_order};
ghost use Rattle.shares.specs.States.{lent};
ghost use Rattle.shares.specs.Results.{over_order};
ghost use Rattle.exports.specs.Serving.{ShareServes};
ghost use Rattle.exports.specs.Tables as promises;

use calls::Drive;
use replies::Reply;

// Opens a board, clears the tables, and empties the list.
pub fn mandrozsi_share_open(
    capacity: u16,
    board: &mut [u16],
    list: &mut [u64],
    rates: &mut [u16],
    owed: &mut [u16],
    owed_other: &mut [u16],
) -> Reply
    ensures { promises.ShareOpens capacity (lent board.old rates.old owed.old owed_other.old) list.old result (lent board.new rates.new owed.new owed_other.new) list.new }
{
    Reply::from(share_boards::opening::open(capacity, board, list, rates, owed, owed_other))
}

// Reads a sheet, clears the tables, and empties the list.
pub fn mandrozsi_share_read(
    sheet: &[u8],
    board: &mut [u16],
    list: &mut [u64],
    rates: &mut [u16],
    owed: &mut [u16],
    owed_other: &mut [u16],
) -> Reply
    ensures { promises.ShareLoads sheet.now (lent board.old rates.old owed.old owed_other.old) list.old result (lent board.new rates.new owed.new owed_other.new) list.new }
{
    Reply::from(share_boards::opening::read(sheet, board, list, rates, owed, owed_other))
}

// Admits a stream, at once or by an order that waits.
pub fn mandrozsi_share_add(
    own: Drive,
    other: Drive,
    board: &mut [u16],
    list: &mut [u64],
    rates: &mut [u16],
    owed: &mut [u16],
    owed_other: &mut [u16],
    name: u16,
    weight: u16,
) -> Reply
    ensures { promises.ShareOrders own other (lent board.old rates.old owed.old owed_other.old) list.old (add_order name weight) result (lent board.new rates.new owed.new owed_other.new) list.new }
{
    Reply::from(shares::add(
        own, other, board, list, rates, owed, owed_other, name, weight,
    ))
}

// Admits an over-allocated stream, at once or by an order that waits.
pub fn mandrozsi_share_over(
    own: Drive,
    other: Drive,
    board: &mut [u16],
    list: &mut [u64],
    rates: &mut [u16],
    owed: &mut [u16],
    owed_other: &mut [u16],
    name: u16,
    weight: u16,
) -> Reply
    ensures { promises.ShareOrders own other (lent board.old rates.old owed.old owed_other.old) list.old (over_order name weight) result (lent board.new rates.new owed.new owed_other.new) list.new }
{
    Reply::from(shares::over(
        own, other, board, list, rates, owed, owed_other, name, weight,
    ))
}

// Removes a stream, at once or by an order that waits; the tables follow the streams that move.
pub fn mandrozsi_share_remove(
    own: Drive,
    other: Drive,
    board: &mut [u16],
    list: &mut [u64],
    rates: &mut [u16],
    owed: &mut [u16],
    owed_other: &mut [u16],
    name: u16,
) -> Reply
    ensures { promises.ShareOrders own other (lent board.old rates.old owed.old owed_other.old) list.old (remove_order name) result (lent board.new rates.new owed.new owed_other.new) list.new }
{
    Reply::from(shares::remove(own, other, board, list, rates, owed, owed_other, name))
}

// Serves a slot of the own drive, whose record moves on: an over-allocated stream takes its turn by the deficits of that drive. Where both drives are at the start
// of a round the orders that wait are carried out first.
pub fn mandrozsi_share_slot(
    own: Drive,
    other: Drive,
    board: &mut [u16],
    list: &mut [u64],
    rates: &mut [u16],
    owed: &mut [u16],
    owed_other: &mut [u16],
) -> Reply
    ensures { ShareServes own other (lent board.old rates.old owed.old owed_other.old) list.old result (lent board.new rates.new owed.new owed_other.new) list.new }
{
    Reply::from(shares::slot(own, other, board, list, rates, owed, owed_other))
}

// Writes the names of a full round, every deficit taken as 0.
pub fn mandrozsi_share_round(
    own: Drive,
    other: Drive,
    board: &[u16],
    rates: &[u16],
    owed: &[u16],
    owed_other: &[u16],
    output: &mut [u16],
) -> Reply
    ensures { promises.ShareRounds own other (lent board.now rates.now owed.now owed_other.now) output.old result output.new }
{
    Reply::from(share_boards::looking::round(own, other, board, rates, owed, owed_other, output))
}

// Reports on a stream: r of one that is over-allocated.
pub fn mandrozsi_share_report(
    own: Drive,
    other: Drive,
    board: &[u16],
    rates: &[u16],
    owed: &[u16],
    owed_other: &[u16],
    name: u16,
) -> Reply
    ensures { promises.ShareReports own other (lent board.now rates.now owed.now owed_other.now) name result }
{
    Reply::from(share_boards::looking::report(own, other, board, rates, owed, owed_other, name))
}

// Saves a board that holds no over-allocated stream.
pub fn mandrozsi_share_save(
    own: Drive,
    other: Drive,
    board: &[u16],
    rates: &[u16],
    owed: &[u16],
    owed_other: &[u16],
    output: &mut [u8],
) -> Reply
    ensures { promises.ShareSaves own other (lent board.now rates.now owed.now owed_other.now) output.old result output.new }
{
    Reply::from(share_boards::starting::save(own, other, board, rates, owed, owed_other, output))
}

// Lays the board out afresh; the tables follow.
pub fn mandrozsi_share_fresh(
    own: Drive,
    other: Drive,
    board: &mut [u16],
    rates: &mut [u16],
    owed: &mut [u16],
    owed_other: &mut [u16],
) -> Reply
    ensures { promises.ShareRefreshes own other (lent board.old rates.old owed.old owed_other.old) result (lent board.new rates.new owed.new owed_other.new) }
{
    Reply::from(share_boards::starting::fresh(own, other, board, rates, owed, owed_other))
}

// Reads a sheet of pieces, at the position that it has, clears the tables, and empties the list.
pub fn mandrozsi_share_read_pieces(
    sheet: &[u8],
    board: &mut [u16],
    list: &mut [u64],
    rates: &mut [u16],
    owed: &mut [u16],
    owed_other: &mut [u16],
) -> Reply
    ensures { promises.ShareLoadsPieces sheet.now (lent board.old rates.old owed.old owed_other.old) list.old result (lent board.new rates.new owed.new owed_other.new) list.new }
{
    Reply::from(share_boards::opening::read_pieces(sheet, board, list, rates, owed, owed_other))
}

// Saves a board that holds no over-allocated stream by its pieces, where both drives are at one position.
pub fn mandrozsi_share_save_pieces(
    own: Drive,
    other: Drive,
    board: &[u16],
    rates: &[u16],
    owed: &[u16],
    owed_other: &[u16],
    output: &mut [u8],
) -> Reply
    ensures { promises.ShareSavesPieces own other (lent board.now rates.now owed.now owed_other.now) output.old result output.new }
{
    Reply::from(share_boards::starting::save_pieces(
        own, other, board, rates, owed, owed_other, output,
    ))
}
