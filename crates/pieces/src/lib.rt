// Pieces of a slot board: the test for a good board, the search for idle pieces, placing and tidying, laying out afresh.
// A board is a lent slice of leaves of which the first c count. Searches halve the block of 2^12 leaves that holds every board.
// The two stay two parameters: `weigh`, `good` and `admit` are public calls whose clauses speak of a board and of C, and what is written is said of the whole
// slice, so that the entries beyond are as they were.
#![tactic(auto)]

ghost use Rattle.std.specs.Prelude.{◌≡◌, true, ◌+◌, ◌^◌, ◌≤◌, get_or, length};
ghost use Rattle.names.specs.Table.{Empty};
ghost use Rattle.pieces.specs.Board as boards;
ghost use Rattle.pieces.specs.Placing as placing;
ghost use Rattle.pieces.specs.Tidying as tidying;
ghost use Rattle.pieces.specs.Halving as halving;
ghost use Rattle.pieces.specs.Fresh as fresh;

mod damage;
mod laying;
pub mod listing;
mod placing;
mod tidying;

use crate::damage::scan;
use crate::laying::{list_names, place_all};
use crate::placing::place;
use crate::tidying::{clear, tidy};

// The number of leaves of a run of exponent l.
pub fn size_of(l: usize) -> usize
    requires { l ≤ 12 }
    ensures { result ≡ 2 ^ l }
{
    1usize << l
}

// How many of some leaves in a row, from a on, hold a name. The count has the width of a leaf: the compiler then compares eight leaves or more at once.
fn count(board: &[u16], a: usize, size: usize, x: u16) -> usize
    requires { (a + size ≤ length board.now) × (a + size ≤ 4096) }
    ensures { result ≡ halving.count_from board.now x a size }
{
    let mut n: u16 = 0;
    for leaf in &board[a..a + size] {
        if *leaf == x {
            n += 1;
        }
    }
    n as usize
}

// How many leaves hold a name.
pub fn weigh(board: &[u16], c: usize, name: u16) -> usize
    requires { (c ≤ length board.now) × (c ≤ 4095) }
    ensures { result ≡ boards.weight c board.now name }
{
    count(board, 0, c, name)
}

// Whether a block is a run of one name. Where its first leaf and its last hold different names it is not counted.
fn is_run(board: &[u16], c: usize, a: usize, l: usize) -> bool
    requires { halving.Block c (length board.now) a l }
    ensures { result ≡ boards.whole c board.now (get_or board.now a 0) a l }
{
    let size = size_of(l);
    if c < a + size {
        return false;
    }
    let x = board[a];
    board[a + size - 1] == x && count(board, a, size, x) == size
}

// Whether a search counts a block's idle leaves before it halves it: one of at most 256 leaves that lies on the board. Larger blocks are
// seldom idle, or without idle leaves, and each exponent counted is one more pass over the board.
fn countable(c: usize, a: usize, l: usize) -> bool
    requires { (l ≤ 12) × (a + 2 ^ l ≤ 4096) }
    ensures { result ≡ true → a + 2 ^ l ≤ c }
{
    l <= 8 && a + size_of(l) <= c
}

// What a count of idle leaves tells of a block: that all its leaves are idle, that none is, or neither.
#[derive(Clone, Copy)]
enum Idle {
    All,
    None,
    Neither,
}

// Counts the idle leaves of a block. Where it is not countable, the answer is neither.
fn idle_leaves(board: &[u16], c: usize, a: usize, l: usize) -> Idle
    requires { halving.Block c (length board.now) a l }
    ensures { halving.Told c board.now a l result }
{
    if !countable(c, a, l) {
        return Idle::Neither;
    }
    let size = size_of(l);
    let n = count(board, a, size, 0);
    if n == 0 {
        return Idle::None;
    }
    if n == size {
        return Idle::All;
    }
    Idle::Neither
}

// Whether the board is good. Where it is, each name has its weight in the sizes, none at entry: on a good board the sizes of its pieces are the binary digits of
// its weight.
pub fn weights(board: &[u16], c: usize, sizes: &mut [u16]) -> bool
    requires { (c ≤ length board.now) × (c ≤ 4095) × Empty sizes.old }
    ensures { boards.Weighed c board.now sizes.new result }
{
    !scan(board, c, 0, 12, sizes)
}

// Whether the board is good: no two pieces of the same name, idle included, have equal size.
pub fn good(board: &[u16], c: usize) -> bool
    requires { (c ≤ length board.now) × (c ≤ 4095) }
    ensures { result ≡ boards.good c board.now }
{
    let mut sizes = names::empty();
    weights(board, c, &mut sizes)
}

// Gives the leaves from a on to a name.
pub fn fill(board: &mut [u16], a: usize, size: usize, name: u16)
    requires { (a + size ≤ length board.old) × (a + size ≤ 4096) }
    ensures { board.new ≡ placing.fill board.old a size name }
{
    board[a..a + size].fill(name);
}

// There is no room for a weight: the idle leaves that there are.
#[derive(Clone, Copy, Debug, PartialEq, Eq)]
pub struct NoRoom {
    pub idle: usize,
}

// Places a weight where it does not exceed the idle leaves, and gives the idle leaves left. They are counted once: what is left follows from that count.
pub fn admit(board: &mut [u16], c: usize, name: u16, weight: usize) -> Result<usize, NoRoom>
    requires { placing.Admissible c board.old name }
    ensures { (result ≡ placing.admission c board.old name weight) × (board.new ≡ placing.admitted c board.old name weight) }
{
    let idle = weigh(board, c, 0);
    if idle < weight {
        return Err(NoRoom { idle });
    }
    place(board, c, name, weight);
    Ok(idle - weight)
}

// Makes all leaves of a name idle, and tidies.
pub fn remove(board: &mut [u16], c: usize, name: u16)
    requires { (c ≤ length board.old) × (c ≤ 4095) }
    ensures { board.new ≡ tidying.removed c board.old name }
{
    clear(board, c, name);
    tidy(board, c);
}

// Lays a good board out afresh: its streams as if added to an opened board by falling weight, then rising name.
// The names that have a weight are listed once, so that each weight looks at these and not at all names there could be.
pub fn lay_out(board: &mut [u16], c: usize)
    requires { (c ≤ length board.old) × (c ≤ 4095) × (boards.good c board.old ≡ true) }
    ensures { board.new ≡ fresh.fresh c board.old }
{
    let mut sizes = names::empty();
    weights(board, c, &mut sizes);
    let mut names = names::zeros::<4095>();
    let n = list_names(&sizes, &mut names);
    fill(board, 0, c, 0);
    place_all(board, c, &sizes, &names[..n]);
}
