// The search for the smallest idle piece that is large enough, and placing a weight by it, power by power.
ghost use Rattle.std.specs.Prelude.{◌≡◌, ℕ, suc, ◌<◌, length};
ghost use Rattle.pieces.specs.Placing as placing;
ghost use Rattle.pieces.specs.Halving as halving;

use crate::{Idle, fill, idle_leaves, size_of};

// An idle piece that a search finds, by its exponent and start.
#[derive(Clone, Copy)]
struct Spot {
    exponent: usize,
    start: usize,
}

// Whether a block of exponent h is idle, by what was found in it.
fn is_whole(s: Option<Spot>, h: usize) -> bool
    ensures { result ≡ halving.is_whole s h }
{
    s.is_some_and(|p| p.exponent == h)
}

// Whether the left half, of exponent h, is enough: it is not idle, and it has a piece of just the right size, or only both halves together could
// be large enough.
fn is_enough(f: Option<Spot>, h: usize, n: usize) -> bool
    ensures { result ≡ halving.is_enough f h n }
{
    match f {
        None => h < n,
        Some(p) => p.exponent != h && (p.exponent == n || h < n),
    }
}

// The piece, where it is large enough: a half that is idle but too small counts for nothing.
fn large_enough(s: Option<Spot>, n: usize) -> Option<Spot>
    ensures { result ≡ halving.large_enough s n }
{
    s.filter(|p| n <= p.exponent)
}

// The smaller of two pieces, the left one where they are equal.
fn smaller(f: Option<Spot>, g: Option<Spot>) -> Option<Spot>
    ensures { result ≡ halving.smaller f g }
{
    match (f, g) {
        (Some(p), Some(q)) => Some(if q.exponent < p.exponent { q } else { p }),
        (None, _) => g,
        (_, None) => f,
    }
}

// What a block holds by what its halves hold, of exponent h, the left one at a.
fn join(f: Option<Spot>, g: Option<Spot>, a: usize, h: usize, n: usize) -> Option<Spot>
    requires { h < 12 }
    ensures { result ≡ halving.joined f g a h n }
{
    if is_whole(f, h) && is_whole(g, h) {
        return Some(Spot {
            exponent: h + 1,
            start: a,
        });
    }
    smaller(large_enough(f, n), large_enough(g, n))
}

// The leaf at a, where it is idle.
fn seek_leaf(board: &[u16], c: usize, a: usize) -> Option<Spot>
    requires { halving.Block c (length board.now) a 0 }
    ensures { (n : ℕ) → halving.Spotted c board.now n a 0 result }
{
    if a < c && board[a] == 0 {
        return Some(Spot {
            exponent: 0,
            start: a,
        });
    }
    None
}

// The smallest idle piece of exponent n or more in the block of exponent l at a; or the block itself, where it is idle.
// A block without idle leaves, or of nothing else, is told by its count and not halved.
fn seek(board: &[u16], c: usize, a: usize, l: usize, n: usize) -> Option<Spot>
    requires { halving.Block c (length board.now) a l }
    ensures { halving.Spotted c board.now n a l result }
{
    if c <= a {
        return None;
    }
    if l == 0 {
        return seek_leaf(board, c, a);
    }
    match idle_leaves(board, c, a, l) {
        Idle::None => {
            return None;
        }
        Idle::All => {
            return Some(Spot {
                exponent: l,
                start: a,
            });
        }
        Idle::Neither => {}
    }
    let h = l - 1;
    let f = seek(board, c, a, h, n);
    if is_enough(f, h, n) {
        return f;
    }
    let g = seek(board, c, a + size_of(h), h, n);
    join(f, g, a, h, n)
}

// Gives a name the low end of the smallest idle piece that is large enough for 2^n leaves.
fn place_power(board: &mut [u16], c: usize, n: usize, name: u16)
    requires { halving.Fitting c board.old n }
    ensures { board.new ≡ placing.put c board.old name n }
{
    if let Some(p) = seek(board, c, 0, 12, n) {
        fill(board, p.start, size_of(n), name);
    }
}

// Places the power 2^n of a weight, where it has one.
fn place_digit(board: &mut [u16], c: usize, n: usize, name: u16, weight: usize)
    requires { halving.Roomy c board.old name weight (suc n) }
    ensures { board.new ≡ placing.put_digit c board.old name weight n }
{
    if (weight >> n) % 2 == 1 {
        place_power(board, c, n, name);
    }
}

// Gives a name as many leaves as its weight says, cut into its powers of two, largest first.
pub fn place(board: &mut [u16], c: usize, name: u16, weight: usize)
    requires { placing.Placeable c board.old name weight }
    ensures { board.new ≡ placing.placed c board.old name weight }
{
    for n in (0..12).rev() {
        place_digit(board, c, n, name, weight);
    }
}
