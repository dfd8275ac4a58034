// The functions that C and Rust get for a neighbour's group table, without and with the tables of over-allocated streams.
ghost use Rattle.std.specs.Prelude.{◌≡◌};
ghost use Rattle.groups.specs.Results as results;
ghost use Rattle.shares.specs.States.{lent};
ghost use Rattle.replies.specs.Replies.{reply};
ghost use Rattle.exports.specs.Tables.{ShareImports};

use replies::Reply;

// Imports a group table: its round to the start of the output, its streams to an opened board. The list is emptied.
pub fn mandrozsi_import(
    capacity: u16,
    starts: &[u16],
    names: &[u16],
    board: &mut [u16],
    list: &mut [u64],
    output: &mut [u16],
) -> Reply
    ensures { (result ≡ reply (results.imported capacity starts.now names.now board.old list.old output.old).drive (results.imported_answer capacity starts.now names.now board.old list.old output.old)) × (board.new ≡ results.imported_board capacity starts.now names.now board.old list.old output.old) × (list.new ≡ results.imported_list capacity starts.now names.now board.old list.old output.old) × (output.new ≡ results.imported_output capacity starts.now names.now board.old list.old output.old) }
{
    Reply::from(groups::import(capacity, starts, names, board, list, output))
}

// Imports a group table where the tables of over-allocated streams are lent: they are cleared.
pub fn mandrozsi_share_import(
    capacity: u16,
    starts: &[u16],
    names: &[u16],
    board: &mut [u16],
    list: &mut [u64],
    rates: &mut [u16],
    owed: &mut [u16],
    owed_other: &mut [u16],
    output: &mut [u16],
) -> Reply
    ensures { ShareImports (results.finds_shares capacity starts.now names.now board.old rates.old owed.old owed_other.old list.old output.old) capacity starts.now names.now (lent board.old rates.old owed.old owed_other.old) list.old output.old result (lent board.new rates.new owed.new owed_other.new) list.new output.new }
{
    Reply::from(groups::import_shares(
        capacity, starts, names, board, rates, owed, owed_other, list, output,
    ))
}
