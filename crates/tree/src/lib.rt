// The tree walk with flip marks of source document 001, figure 2, for boards whose capacity is a power of two: a second engine beside the sequences, which
// shares no code with them.
#![tactic(auto)]

ghost use Rattle.std.specs.Prelude.{◌≡◌, cond, suc, ◌^◌, ◌≤◌, eqb, length, get_or, set};
ghost use Rattle.tree.specs.declared.Unwalked.TheVariants.{Refused};
ghost use Rattle.tree.specs.Marks as marked;
ghost use Rattle.tree.specs.Results as results;
ghost use Rattle.tree.specs.Promises as promises;

use calls::{Drive, Refusal};

// Where a walk leads: the name on the leaf, and the leaf.
#[derive(Clone, Copy, Debug, PartialEq, Eq)]
pub struct Leaf {
    pub name: u16,
    pub leaf: u16,
}

// Why there was no walk: the capacity is no power of two; a refusal.
#[derive(Clone, Copy, Debug, PartialEq, Eq)]
pub enum Unwalked {
    Power,
    Refused(Refusal),
}

impl From<Refusal> for Unwalked {
    ghost from_gives = { λ r u. u ≡ Refused r };

    fn from(r: Refusal) -> Unwalked {
        Unwalked::Refused(r)
    }
}

// The refusals 1, 16 and 2, in this order.
#[tactic(auto, unfolding(crate::specs::Results::finding))]
fn check(c: usize, board: &[u16], marks: usize) -> Result<(), Unwalked>
    ensures { result ≡ results.finding c board.now marks }
{
    if c == 0 || Drive::LARGEST < c {
        return Err(Refusal::Capacity.into());
    }
    if 1 < c.count_ones() {
        return Err(Unwalked::Power);
    }
    if board.len() < c || marks < c - 1 {
        return Err(Refusal::Short.into());
    }
    Ok(())
}

// The side that a mark leads to: 0, left, for a mark of 0, and 1, right, for any other.
fn side(mark: u16) -> u16
    ensures { result ≡ cond (eqb mark 0) 0 1 }
{
    u16::from(mark != 0)
}

// One step of a walk: flips the mark of node i, and gives the node below that it leads to. No branch hangs on the mark, since no processor can guess it.
fn turn(marks: &mut [u16], i: usize) -> usize
    requires { (i ≤ 4095) × (suc i ≤ length marks.old) }
    ensures { (result ≡ marked.below (get_or marks.old i 0) i) × (marks.new ≡ set marks.old i (marked.flipped (get_or marks.old i 0))) }
{
    let s = side(marks[i]);
    let flipped = 1 - s;
    marks[i] = flipped;
    2 * i + 1 + s as usize
}

// Walks down d levels from the root: the node that the marks lead to.
fn descend(marks: &mut [u16], d: usize) -> usize
    requires { (d ≤ 11) × (2 ^ d ≤ suc (length marks.old)) }
    ensures { (result ≡ marked.node_from d marks.old 0) × (marks.new ≡ marked.marks_from d marks.old 0) }
{
    let mut node = 0;
    for _ in 0..d {
        node = turn(marks, node);
    }
    node
}

// Serves a slot by a walk from the root to a leaf: the name that stands on it, and the leaf. Each mark on the way is flipped.
pub fn walk(capacity: u16, board: &[u16], marks: &mut [u16]) -> Result<Leaf, Unwalked>
    ensures { promises.Walks capacity board.now marks.old result marks.new }
{
    let c = capacity as usize;
    check(c, board, marks.len())?;
    let node = descend(marks, c.trailing_zeros() as usize);
    let leaf = node - (c - 1);
    Ok(Leaf {
        name: board[leaf],
        leaf: leaf as u16,
    })
}
