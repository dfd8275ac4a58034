// The form of sheet that lists the pieces: what its blocks hold, written, read and tested.
ghost use Rattle.std.specs.Prelude.{◌≡◌, ◌*◌, ◌/◌, ◌≤◌, ◌<◌, length, replicate};
ghost use Rattle.general.specs.Tests.{same};
ghost use Rattle.sheets.specs.Entries as sheets;
ghost use Rattle.sheets.specs.Results.{piece_form};
ghost use Rattle.sheets.specs.Conversions.{anywhere};
ghost use Rattle.sheets.specs.Lawful.{entry_number, entries_held, entries_full, entries_seen, entries_show, entries_ask};

use crate::blocks::{self, BlockForm};
use crate::forms::SheetForm;
use crate::leaves;
use calls::{Drive, Refusal};

// How many entries a block has, and how many numbers they are.
const ENTRIES: usize = 84;

const PER_BLOCK: usize = 252;

// The number of a piece sheet's block 0; block b has this and b.
const FIRST: usize = 32768;

// The bytes of the longest sheet, of 49 blocks. The array is made here and nowhere else, so that no other proof computes it; `names::zeros` makes numbers.
fn no_bytes() -> [u8; 25088]
    ensures { result ≡ replicate 25088 0 }
{
    [0u8; 25088]
}

// The form that lists the pieces.
pub struct PieceForm;

impl BlockForm for PieceForm {
    ghost number = { entry_number };

    ghost blocks = { sheets.entry_blocks };

    ghost held = { entries_held };

    fn number(b: usize) -> usize {
        FIRST + b
    }

    fn block_count(n: usize) -> usize {
        n.saturating_sub(1) / PER_BLOCK + 1
    }

    fn write_held(list: &[u16], p: usize, b: usize, output: &mut [u8]) -> usize {
        blocks::put_number(output, 256 * b + 2, p);
        p + leaves::write_leaves(list, PER_BLOCK * b, PER_BLOCK, output, 256 * b + 3)
    }

    ghost full = { entries_full };
}

impl SheetForm for PieceForm {
    ghost form = { piece_form };

    ghost at = { anywhere };

    fn check_position(_p: usize) -> Result<(), Refusal> {
        Ok(())
    }

    fn position(sheet: &[u8]) -> usize {
        blocks::number_at(sheet, 2)
    }

    fn put(board: &[u16], c: usize, p: usize, output: &mut [u8]) -> Result<usize, Refusal> {
        crate::put_pieces(board, c, p, output)
    }

    ghost seen = { entries_seen };

    // The layout shows by the leaves alone.
    fn may_be_laid(_sheet: &[u8], _c: usize) -> bool {
        true
    }

    ghost shows = { entries_show };

    fn read(sheet: &[u8], leaves: &mut [u16]) -> bool {
        spell(sheet, leaves);
        is_laid(sheet, leaves)
    }

    ghost asks = { entries_ask };
}

// Whether an entry can be read after others that end at a leaf.
#[tactic(auto, unfolding(crate::specs::Entries::readable))]
fn is_readable(c: usize, at: usize, x: usize, a: usize, l: usize) -> bool
    requires { (c ≤ 4095) × (a < 65536) }
    ensures { result ≡ sheets.readable c at x a l }
{
    if x == 0 || 12 <= l {
        return false;
    }
    let size = pieces::size_of(l);
    a % size == 0 && at <= a && a + size <= c
}

// Reads the entries of a sheet to leaves, up to the first that cannot be read.
fn spell(sheet: &[u8], leaves: &mut [u16])
    requires { length leaves.old ≤ 4095 }
    ensures { leaves.new ≡ sheets.spell (sheets.entry_in sheet.now) (length leaves.old) leaves.old 0 0 (84 * (length sheet.now / 512)) }
{
    let c = leaves.len();
    let mut at: usize = 0;
    for b in 0..sheet.len() / 512 {
        for j in 0..ENTRIES {
            let q = 256 * b + (3 + 3 * j);
            let x = blocks::number_at(sheet, q);
            let a = blocks::number_at(sheet, q + 1);
            let l = blocks::number_at(sheet, q + 2);
            if !is_readable(c, at, x, a, l) {
                return;
            }
            let size = pieces::size_of(l);
            pieces::fill(leaves, a, size, x as u16);
            at = a + size;
        }
    }
}

// Whether bytes are the sheet of leaves at p.
fn is_sheet_of(sheet: &[u8], p: usize, leaves: &[u16]) -> bool
    requires { (length leaves.now ≤ 4095) × (p < 65536) }
    ensures { result ≡ same sheet.now (sheets.entry_sheet (length leaves.now) p leaves.now) }
{
    let c = leaves.len();
    let mut list = names::zeros::<12288>();
    let n = pieces::listing::list_pieces(leaves, c, &mut list);
    let size = blocks::sheet_bytes::<PieceForm>(n);
    if sheet.len() != size {
        return false;
    }
    let mut bytes = no_bytes();
    blocks::write_sheet::<PieceForm>(&list[..n], c, p, &mut bytes);
    sheet == &bytes[..size]
}

// Whether the bytes keep the layout of a sheet of so many leaves, which they spell.
fn is_laid(sheet: &[u8], leaves: &[u16]) -> bool
    requires { (0 < length leaves.now) × (length leaves.now ≤ 4095) × (512 ≤ length sheet.now) × (leaves.now ≡ sheets.spelled (length leaves.now) sheet.now) }
    ensures { result ≡ sheets.entries_laid (length leaves.now) sheet.now }
{
    let p = blocks::number_at(sheet, 2);
    let drive = Drive::new(leaves.len() as u16, p as u16);
    drive.check_slot(leaves).is_ok() && is_sheet_of(sheet, p, leaves)
}
