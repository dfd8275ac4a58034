// The slot order of one drive's board: one slot from a position, by the weight spread sequence and the time-slot sequences of source document 001.
// What each function returns is a definition of specs/. All numbers are usize: a capacity, a position and a leaf are below 4,096.
#![tactic(auto)]

ghost use Rattle.std.specs.Prelude.{◌≡◌, ◌^◌, ◌<◌, ◌≤◌};
ghost use Rattle.sequences.specs.Sequences.{rb};
ghost use Rattle.sequences.specs.SlotOrder as board;
ghost use Rattle.sequences.specs.Slots.{slot_from};

// The 3 lowest binary digits of i, reversed. Each is taken by itself, the highest too, so that the compiler sees that digits are reversed and no more:
// where the processor has an instruction for that, `reversed` is one.
fn three(i: usize) -> usize
    ensures { (result ≡ rb i 3) × (result < 8) }
{
    i % 2 * 4 + i / 2 % 2 * 2 + i / 4 % 2
}

// The 6 lowest binary digits of i, reversed: two threes, which change places.
fn six(i: usize) -> usize
    ensures { (result ≡ rb i 6) × (result < 64) }
{
    three(i) * 8 + three(i / 8)
}

// RB(i, j): the j lowest binary digits of i, reversed; j is at most 11. They are the highest j of the 12 lowest reversed.
pub fn reversed(i: usize, j: usize) -> usize
    requires { j ≤ 11 }
    ensures { result ≡ rb i j }
{
    (six(i) * 64 + six(i / 64)) >> (12 - j)
}

// The number of binary digits of c.
pub fn digits(c: usize) -> usize
    ensures { result ≡ board.digits c }
{
    64 - usize::leading_zeros(c) as usize
}

// The term of the weight spread sequence at p.
fn term(p: usize) -> usize
    ensures { result ≡ board.term 64 p }
{
    usize::trailing_zeros(p) as usize + 1
}

// The column that the term at p selects.
fn column(c: usize, p: usize) -> usize
    requires { board.Position c p }
    ensures { result ≡ board.column c p }
{
    digits(c) - term(p)
}

// Bit j of c.
fn bit(c: usize, j: usize) -> usize
    requires { j < 64 }
    ensures { result ≡ board.bit c j }
{
    (c >> j) % 2
}

// Where tree j starts. The divisor is a power of two: a mask in the machine code.
fn start(c: usize, j: usize) -> usize
    requires { j < 63 }
    ensures { result ≡ board.start c j }
{
    c - c % (2 << j)
}

// The leaf that the term at p serves.
fn leaf(c: usize, p: usize) -> usize
    requires { board.Position c p }
    ensures { result ≡ board.leaf_at c p }
{
    let j = column(c, p);
    start(c, j) + reversed(p >> term(p), j)
}

// The position after p in a round of order k.
fn position_after(k: usize, p: usize) -> usize
    requires { (k < 64) × (p < 2 ^ k) }
    ensures { result ≡ board.position_after k p }
{
    if p + 1 < 1 << k { p + 1 } else { 1 }
}

// One slot: the leaf served, how many terms were passed over (0 or 1), and the position after it.
#[derive(Clone, Copy, Debug, PartialEq, Eq)]
pub struct Slot {
    pub leaf: usize,
    pub passed: usize,
    pub next: usize,
}

// The slot from position p of a board with c leaves.
pub fn pick(c: usize, p: usize) -> Slot
    requires { board.Position c p }
    ensures { result ≡ slot_from c p }
{
    let passed = 1 - bit(c, column(c, p));
    let served = p + passed;
    Slot {
        leaf: leaf(c, served),
        passed,
        next: position_after(digits(c), served),
    }
}
