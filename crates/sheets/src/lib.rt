// Sheets of a board, in two forms, one that lists its leaves and one that lists its pieces: save and read, and from one form to the other.
// A board and c, a list and how many of it count, stay parameters: the public calls (`put_leaves`, `put_pieces`, `piece_bytes`) are lent a board of c leaves or
// more, as C lends it, and their promises speak of the whole of it.
#![tactic(auto)]

ghost use Rattle.std.specs.Prelude.{◌≡◌, ◌*◌, ◌≤◌, ◌<◌, length};
ghost use Rattle.pieces.specs.Listing.{named_pieces};
ghost use Rattle.sheets.specs.Sheet.{blocks, capacity_in};
ghost use Rattle.sheets.specs.Entries.{entry_blocks};
ghost use Rattle.sheets.specs.Forms.{Puts};
ghost use Rattle.sheets.specs.Results.{leaf_form, piece_form, head_check};
ghost use Rattle.sheets.specs.Promises.{Saves, Loads, SavesPieces, LoadsPieces};
ghost use Rattle.sheets.specs.Conversions.{ToPieces, ToLeaves};

use calls::{Checked, Drive, Refusal, Returned};
use entries::PieceForm;
use leaves::LeafForm;

mod blocks;
mod entries;
mod forms;
mod leaves;

// What save gives back: how many bytes it wrote.
pub type Saved = Returned<Result<usize, Refusal>>;

// C of block 0.
pub fn capacity_of(sheet: &[u8]) -> usize
    requires { 512 ≤ length sheet.now }
    ensures { (result ≡ capacity_in sheet.now) × (result < 65536) }
{
    blocks::number_at(sheet, 1)
}

// The first refusals of read: under 512 bytes, 12; of C of block 0 and the lent board, 1 and 2.
pub fn check_head(sheet: &[u8], board: &[u16]) -> Result<(), Refusal>
    ensures { result ≡ head_check sheet.now board.now }
{
    if sheet.len() < 512 {
        return Err(Refusal::Block);
    }
    calls::checks::check_open(capacity_of(sheet), board)
}

// ---- the form that lists the leaves, saved and read at the start of a round

// How many bytes the sheet of c leaves has.
pub fn leaf_bytes(c: usize) -> usize
    requires { c ≤ 4095 }
    ensures { result ≡ 512 * blocks c }
{
    blocks::sheet_bytes::<LeafForm>(c)
}

// The refusal 11, and where there is none the sheet of a board's leaves, at the start of the output.
pub fn put_leaves(board: &[u16], c: usize, output: &mut [u8]) -> Result<usize, Refusal>
    requires { (c ≤ length board.now) × (c ≤ 4095) }
    ensures { Puts leaf_form c 1 board.now output.old result output.new }
{
    blocks::put::<LeafForm>(&board[..c], c, 1, output)
}

// Saves a board: its sheet at the start of the output.
pub fn save(drive: Drive, board: &[u16], output: &mut [u8]) -> Saved
    ensures { Saves drive board.now output.old result output.new }
{
    forms::save::<LeafForm>(drive, board, output)
}

// Reads a sheet: the leaves of a board, and a record at the start of a round.
pub fn read(sheet: &[u8], board: &mut [u16]) -> Checked
    ensures { Loads sheet.now board.old result board.new }
{
    forms::read::<LeafForm>(sheet, board)
}

// ---- the form that lists the pieces, saved at any position and read back with it

// How many bytes the sheet of the pieces of c leaves has.
pub fn piece_bytes(board: &[u16], c: usize) -> usize
    requires { (c ≤ length board.now) × (c ≤ 4095) }
    ensures { result ≡ 512 * entry_blocks (length (named_pieces c board.now)) }
{
    let mut list = names::zeros::<12288>();
    let n = pieces::listing::list_pieces(board, c, &mut list);
    blocks::sheet_bytes::<PieceForm>(n)
}

// The refusal 11, and where there is none the sheet of a board's pieces at p, at the start of the output. It has a frame of its own, lest the list of the pieces
// stand beside the board of a conversion while that is tested.
#[inline(never)]
pub fn put_pieces(board: &[u16], c: usize, p: usize, output: &mut [u8]) -> Result<usize, Refusal>
    requires { (c ≤ length board.now) × (c ≤ 4095) × (p < 65536) }
    ensures { Puts piece_form c p board.now output.old result output.new }
{
    let mut list = names::zeros::<12288>();
    let n = pieces::listing::list_pieces(board, c, &mut list);
    blocks::put::<PieceForm>(&list[..n], c, p, output)
}

// Saves a board at any position: the sheet of its pieces at the start of the output.
pub fn save_pieces(drive: Drive, board: &[u16], output: &mut [u8]) -> Saved
    ensures { SavesPieces drive board.now output.old result output.new }
{
    forms::save::<PieceForm>(drive, board, output)
}

// Reads a sheet of pieces: the leaves of a board, and a record at the position saved.
pub fn read_pieces(sheet: &[u8], board: &mut [u16]) -> Checked
    ensures { LoadsPieces sheet.now board.old result board.new }
{
    forms::read::<PieceForm>(sheet, board)
}

// ---- from one form to the other

// Writes a sheet of leaves as one of pieces, at p = 1.
pub fn to_pieces(sheet: &[u8], output: &mut [u8]) -> Result<usize, Refusal>
    ensures { ToPieces sheet.now output.old result output.new }
{
    forms::convert::<LeafForm, PieceForm>(sheet, output)
}

// Writes a sheet of pieces as one of leaves, where it was saved at p = 1.
pub fn to_leaves(sheet: &[u8], output: &mut [u8]) -> Result<usize, Refusal>
    ensures { ToLeaves sheet.now output.old result output.new }
{
    forms::convert::<PieceForm, LeafForm>(sheet, output)
}
