// The list of the pieces that streams own, by their starts: what a sheet of pieces holds.
ghost use Rattle.std.specs.Prelude.{◌≡◌, ◌&&◌, suc, ◌+◌, ◌*◌, ◌%◌, ◌^◌, ◌≤◌, ◌<◌, eqb, get_or, length};
ghost use Rattle.std.proofs.lemmas.List.Edits.{sets};
ghost use Rattle.pieces.specs.Board as boards;
ghost use Rattle.pieces.specs.Halving as halving;
ghost use Rattle.pieces.specs.Listing as listing;

use crate::{count, size_of};

// Whether a run of one name, of exponent l, that starts at the leaf a is the lower half of another.
fn is_lower(board: &[u16], c: usize, a: usize, l: usize) -> bool
    requires { (c ≤ length board.now) × (c ≤ 4095) × (a < c) × (l < 12) }
    ensures { result ≡ (eqb (a % 2 ^ suc l) 0 && boards.whole c board.now (get_or board.now a 0) (a + 2 ^ l) l) }
{
    let size = size_of(l);
    if a % (size + size) != 0 || c < a + size + size {
        return false;
    }
    count(board, a + size, size, board[a]) == size
}

// The exponent of the largest run of one name that starts at a leaf. The next leaf is looked at first: most pieces of many streams are of one leaf.
fn exponent_at(board: &[u16], c: usize, a: usize) -> usize
    requires { (c ≤ length board.now) × (c ≤ 4095) × (a < c) }
    ensures { halving.Largest c board.now a result × (result < 12) }
{
    if c <= a + 1 || board[a + 1] != board[a] {
        return 0;
    }
    // No `find`: its closure would have to prove the leaf and the exponent in range again.
    for l in 0..12 {
        if !is_lower(board, c, a, l) {
            return l;
        }
    }
    12
}

// Enters a run of a name at the number n of a list, unless it is idle; where the next is entered.
fn list_run(x: u16, a: usize, l: usize, list: &mut [u16], n: usize) -> usize
    requires { (a < 4096) × (l ≤ 12) × (n ≤ 3 * a) × (n + 3 ≤ length list.old) }
    ensures { (result ≡ n + length (listing.entry x a l)) × (result ≤ 3 * a + 3) × (list.new ≡ sets list.old n (listing.entry x a l)) }
{
    if x == 0 {
        return n;
    }
    list[n] = x;
    list[n + 1] = a as u16;
    list[n + 2] = l as u16;
    n + 3
}

// Lists the pieces that are not idle, by their starts, in three numbers each: name, start, exponent of the size; how many numbers these are. There is no
// heap: the list is lent, and its length returned. A piece
// is the largest run of one name from its start, and the next piece starts where it ends: a walk by pieces, so no `for`.
pub fn list_pieces(board: &[u16], c: usize, list: &mut [u16]) -> usize
    requires { (c ≤ length board.now) × (c ≤ 4095) × (3 * c ≤ length list.old) }
    ensures { (result ≡ length (listing.named_pieces c board.now)) × (result ≤ 12288) × (list.new ≡ sets list.old 0 (listing.named_pieces c board.now)) }
{
    let mut a: usize = 0;
    let mut n: usize = 0;
    while a < c {
        let l = exponent_at(board, c, a);
        n = list_run(board[a], a, l, list, n);
        a += size_of(l);
    }
    n
}
