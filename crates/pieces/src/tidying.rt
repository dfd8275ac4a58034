// Removing a name, and tidying until no size has two idle pieces.
ghost use Rattle.std.specs.Prelude.{◌≡◌, List, ◌≤◌, ◌<◌, length};
ghost use Rattle.pieces.specs.Tidying as tidying;
ghost use Rattle.pieces.specs.declared.tidying.Starts.{Starts};
ghost use Rattle.pieces.specs.Halving as halving;

use crate::{Idle, fill, idle_leaves, size_of};

// The two lowest starts of the idle pieces of one exponent that are entered, the lowest first.
#[derive(Clone, Copy)]
struct Starts {
    first: Option<usize>,
    second: Option<usize>,
}

// Makes all leaves of a name idle. By index: after writes through `iter_mut` of a part of a slice nothing is known of the leaves.
pub fn clear(board: &mut [u16], c: usize, name: u16)
    requires { c ≤ length board.old }
    ensures { board.new ≡ tidying.clear board.old name c }
{
    for i in 0..c {
        if board[i] == name {
            board[i] = 0;
        }
    }
}

// Enters an idle piece of exponent h before those entered so far.
fn enter(starts: &mut [Starts], h: usize, s: usize)
    requires { (h < 12) × (length starts.old ≡ 12) }
    ensures { starts.new ≡ halving.entered starts.old h s }
{
    starts[h] = Starts {
        first: Some(s),
        second: starts[h].first,
    };
}

// Whether a block is idle, by its halves at a and m: one that is idle is a piece, and is entered, where the block is not idle.
fn meet_idle(f: bool, g: bool, a: usize, m: usize, h: usize, starts: &mut [Starts]) -> bool
    requires { (h < 12) × (length starts.old ≡ 12) }
    ensures { halving.MetIdle f g a m h starts.old starts.new result }
{
    if f && !g {
        enter(starts, h, a);
    }
    if g && !f {
        enter(starts, h, m);
    }
    f && g
}

// Whether a leaf is idle.
fn is_idle_leaf(board: &[u16], c: usize, a: usize) -> bool
    requires { halving.Block c (length board.now) a 0 }
    ensures { (S : List Starts) → halving.Listed c board.now a 0 S S result }
{
    a < c && board[a] == 0
}

// Whether a block is idle; the idle pieces inside it are entered, from the highest start to the lowest.
// A block without idle leaves, or of nothing else, is told by its count and not halved.
fn list_idle(board: &[u16], c: usize, a: usize, l: usize, starts: &mut [Starts]) -> bool
    requires { halving.Block c (length board.now) a l × (length starts.old ≡ 12) }
    ensures { halving.Listed c board.now a l starts.old starts.new result }
{
    if c <= a {
        return false;
    }
    if l == 0 {
        return is_idle_leaf(board, c, a);
    }
    match idle_leaves(board, c, a, l) {
        Idle::None => {
            return false;
        }
        Idle::All => {
            return true;
        }
        Idle::Neither => {}
    }
    let h = l - 1;
    let m = a + size_of(h);
    let g = list_idle(board, c, m, h, starts);
    let f = list_idle(board, c, a, h, starts);
    meet_idle(f, g, a, m, h, starts)
}

// Two idle pieces of one size, by its exponent and their starts.
#[derive(Clone, Copy)]
struct Pair {
    exponent: usize,
    first: usize,
    second: usize,
}

// The pair of an exponent, where two starts of it are entered.
fn pair_of(exponent: usize, first: Option<usize>, second: Option<usize>) -> Option<Pair>
    ensures { result ≡ halving.pair_of exponent first second }
{
    match (first, second) {
        (Some(first), Some(second)) => Some(Pair {
            exponent,
            first,
            second,
        }),
        _ => None,
    }
}

// The smallest exponent of which two starts are entered, with them.
fn smallest_pair(starts: &[Starts]) -> Option<Pair>
    requires { length starts.now ≡ 12 }
    ensures { result ≡ halving.smallest_pair starts.now }
{
    // `find_map` over the same was tried: that its answer is the smallest did not prove.
    for (exponent, s) in starts.iter().enumerate() {
        if let Some(pair) = pair_of(exponent, s.first, s.second) {
            return Some(pair);
        }
    }
    None
}

// The pair that tidying takes next: of the smallest size that has two, the two with the lowest starts. One search lists them.
fn find_pair(board: &[u16], c: usize) -> Option<Pair>
    requires { (c ≤ length board.now) × (c ≤ 4095) }
    ensures { halving.Paired c board.now result }
{
    let mut starts = [Starts {
        first: None,
        second: None,
    }; 12];
    list_idle(board, c, 0, 12, &mut starts);
    smallest_pair(&starts)
}

// The start of a run's twin.
fn twin(a: usize, e: usize) -> usize
    requires { (e ≤ 12) × (a ≤ 4096) }
    ensures { result ≡ tidying.twin a e }
{
    if (a >> e) % 2 == 0 {
        return a + size_of(e);
    }
    a - size_of(e)
}

// Writes the leaves from one start on to another, in order.
fn copy_run(board: &mut [u16], from: usize, to: usize, size: usize)
    requires { halving.Apart (length board.old) from to size }
    ensures { board.new ≡ tidying.copy board.old from to size }
{
    board.copy_within(from..from + size, to);
}

// Moves a run; its old leaves become idle.
fn move_run(board: &mut [u16], from: usize, to: usize, size: usize)
    requires { halving.Apart (length board.old) from to size }
    ensures { board.new ≡ tidying.move board.old from to size }
{
    copy_run(board, from, to, size);
    fill(board, from, size, 0);
}

// Joins the second of a pair with its twin, whose leaves move to the first; where the second is a root, the first with its twin.
fn join_pair(board: &mut [u16], c: usize, p: Pair)
    requires { (c ≤ length board.old) × (c ≤ 4095) × halving.Lowest c board.old p.exponent p.first p.second }
    ensures { board.new ≡ tidying.join c board.old p.exponent p.first p.second }
{
    let z = size_of(p.exponent);
    let t = twin(p.second, p.exponent);
    if t + z <= c {
        move_run(board, t, p.first, z);
    } else {
        move_run(board, twin(p.first, p.exponent), p.second, z);
    }
}

// Moves runs until no two idle pieces have equal size.
pub fn tidy(board: &mut [u16], c: usize)
    requires { (c ≤ length board.old) × (c ≤ 4095) }
    ensures { board.new ≡ tidying.tidied c board.old }
{
    for _step in 0..c {
        match find_pair(board, c) {
            None => {
                return;
            }
            Some(pair) => join_pair(board, c, pair),
        }
    }
}
