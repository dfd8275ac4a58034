// The test for a good board: the pieces of each name, by sizes, in one walk over the halves.
ghost use Rattle.std.specs.Prelude.{◌≤◌, ◌<◌, length};
ghost use Rattle.names.specs.Table.{Table, rows_taken};
ghost use Rattle.pieces.specs.Halving as halving;

use crate::{is_run, size_of};

// Notes a piece of the name x and exponent h in the mask of x; whether there was one already.
fn note(x: u16, h: usize, sizes: &mut [u16]) -> bool
    requires { (h < 12) × Table sizes.old × (rows_taken sizes.old < 4096) }
    ensures { halving.Noted x h sizes.old sizes.new result }
{
    let mask = names::find(sizes, x as usize);
    if (mask.number >> h) % 2 == 1 {
        return true;
    }
    names::enter(sizes, x as usize, mask.row, mask.number + size_of(h));
    false
}

// A leaf scanned: on the board it is a run.
fn scan_leaf(board: &[u16], c: usize, a: usize, sizes: &mut [u16]) -> bool
    requires { halving.Scannable c (length board.now) a 0 sizes.old }
    ensures { halving.Scanned c board.now a 0 sizes.old sizes.new result }
{
    a < c && note(board[a], 0, sizes)
}

// A block of two leaves, scanned.
fn scan_two(board: &[u16], c: usize, a: usize, sizes: &mut [u16]) -> bool
    requires { halving.Scannable c (length board.now) a 1 sizes.old }
    ensures { halving.Scanned c board.now a 1 sizes.old sizes.new result }
{
    if is_run(board, c, a, 1) {
        return note(board[a], 1, sizes);
    }
    scan_leaf(board, c, a, sizes) || scan_leaf(board, c, a + 1, sizes)
}

// A block of four leaves, scanned.
fn scan_four(board: &[u16], c: usize, a: usize, sizes: &mut [u16]) -> bool
    requires { halving.Scannable c (length board.now) a 2 sizes.old }
    ensures { halving.Scanned c board.now a 2 sizes.old sizes.new result }
{
    if is_run(board, c, a, 2) {
        return note(board[a], 2, sizes);
    }
    scan_two(board, c, a, sizes) || scan_two(board, c, a + 2, sizes)
}

// Notes every piece of a block; whether some name has two of one size, which ends the scan.
// The last two halvings are written out, and not one function of the size: they are three calls in four, and a board takes 14 µs so, else 33.
pub fn scan(board: &[u16], c: usize, a: usize, l: usize, sizes: &mut [u16]) -> bool
    requires { halving.Scannable c (length board.now) a l sizes.old × (2 ≤ l) }
    ensures { halving.Scanned c board.now a l sizes.old sizes.new result }
{
    if c <= a {
        return false;
    }
    if l == 2 {
        return scan_four(board, c, a, sizes);
    }
    if is_run(board, c, a, l) {
        return note(board[a], l, sizes);
    }
    let h = l - 1;
    scan(board, c, a, h, sizes) || scan(board, c, a + size_of(h), h, sizes)
}
