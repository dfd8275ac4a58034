// The functions that C and Rust get for sheets that list pieces: save, of one drive and of two, read, and the conversions. A conversion takes no record, and so
// gives none back.
ghost use Rattle.std.specs.Prelude.{◌≡◌, length};
ghost use Rattle.sheets.specs.Forms as forms;
ghost use Rattle.sheets.specs.Results.{leaf_form, piece_form};
ghost use Rattle.sheets.specs.Conversions as conversions;
ghost use Rattle.orders.specs.Results as results;
ghost use Rattle.drives.specs.Results as pair;
ghost use Rattle.replies.specs.Replies.{said_of, reply};

use calls::Drive;
use replies::{Reply, Said, Say};

// Saves a board by its pieces, at any position: its sheet at the start of the output, and how many bytes that is.
pub fn mandrozsi_save_pieces(drive: Drive, board: &[u16], output: &mut [u8]) -> Reply
    ensures { (result ≡ reply drive (forms.saved_answer_as piece_form drive board.now output.old)) × (output.new ≡ forms.saved_output_as piece_form drive board.now output.old) }
{
    Reply::from(sheets::save_pieces(drive, board, output))
}

// Saves a board by its pieces, where both drives are at one position.
pub fn mandrozsi_pair_save_pieces(
    own: Drive,
    other: Drive,
    board: &[u16],
    output: &mut [u8],
) -> Reply
    ensures { (result ≡ reply own (pair.saved_pieces_answer own other board.now output.old)) × (output.new ≡ pair.saved_pieces_output own other board.now output.old) }
{
    Reply::from(drives::save_pieces(own, other, board, output))
}

// Reads a sheet of pieces: the leaves of a board, and a record at the sheet's position. The list is emptied.
pub fn mandrozsi_read_pieces(sheet: &[u8], board: &mut [u16], list: &mut [u64]) -> Reply
    ensures { (result ≡ reply (results.loaded_as piece_form sheet.now board.old (length list.old)).drive (results.loaded_answer_as piece_form sheet.now board.old (length list.old))) × (board.new ≡ results.loaded_board_as piece_form sheet.now board.old (length list.old)) × (list.new ≡ results.loaded_list_as piece_form sheet.now board.old list.old) }
{
    Reply::from(orders::read_pieces(sheet, board, list))
}

// Writes a sheet of leaves as one of pieces: how many bytes that is.
pub fn mandrozsi_to_pieces(sheet: &[u8], output: &mut [u8]) -> Said
    ensures { (result ≡ said_of (conversions.converted_answer leaf_form piece_form conversions.anywhere sheet.now output.old)) × (output.new ≡ conversions.converted_output leaf_form piece_form conversions.anywhere sheet.now output.old) }
{
    sheets::to_pieces(sheet, output).said()
}

// Writes a sheet of pieces that was saved at p = 1 as one of leaves: how many bytes that is.
pub fn mandrozsi_to_leaves(sheet: &[u8], output: &mut [u8]) -> Said
    ensures { (result ≡ said_of (conversions.converted_answer piece_form leaf_form conversions.at_start sheet.now output.old)) × (output.new ≡ conversions.converted_output piece_form leaf_form conversions.at_start sheet.now output.old) }
{
    sheets::to_leaves(sheet, output).said()
}
