// A stream's turn at a leaf, a round of turns on deficits of its own, and the spacing over the serves of that round.
ghost use Rattle.std.specs.Prelude.{◌≡◌, not, ◌&&◌, ◌++◌, ◌≤◌, ◌<◌, eqb, get_or, length, take, drop};
ghost use Rattle.sequences.specs.SlotOrder.{Position};
ghost use Rattle.sequences.specs.Serving.{count_list, leaves_from};
ghost use Rattle.pieces.specs.Board.{weight};
ghost use Rattle.calls.specs.Spacing.{spacing_in};
ghost use Rattle.tables.specs.Sharing as sharing;
ghost use Rattle.tables.specs.Turns as turning;
ghost use Rattle.tables.specs.Looking as looking;

use calls::spacing::Gaps;

// Whether the leaf l has an r and holds x.
fn rated_at(board: &[u16], rates: &[u16], l: usize, x: u16) -> bool
    requires { (l < length board.now) × (l < length rates.now) × (l ≤ 4095) }
    ensures { result ≡ (not (eqb (get_or rates.now l 0) 0) && eqb (get_or board.now l 0) x) }
{
    rates[l] != 0 && board[l] == x
}

// The leaf whose entries decide the turn at leaf a. An over-allocated stream lies in one run, which starts at a multiple of its length: there are twelve leaves
// that may be its first, and no search by name is needed. Where none of them is, the leaf itself, which has no r then.
fn turn_leaf(board: &[u16], c: usize, rates: &[u16], a: usize) -> usize
    requires { (a < c) × turning.Shared c board.now rates.now }
    ensures { looking.Decides c board.now rates.now a result }
{
    let x = board[a];
    // No `find`: its closure would have to prove the leaf in range again.
    for m in 0usize..12 {
        let l = (a >> m) << m;
        if rated_at(board, rates, l, x) {
            return l;
        }
    }
    a
}

// The turn of the name whose lowest leaf is l: the name that the slot goes to. The deficit of its stream moves on.
fn take_turn(rates: &[u16], owed: &mut [u16], l: usize, name: u16) -> u16
    requires { (l < length rates.now) × (l < length owed.old) × (l ≤ 4095) × (sharing.held_for (get_or rates.now l 0) ≤ 65535) }
    ensures { (result ≡ turning.turn_name rates.now owed.old l name) × (owed.new ≡ turning.turn_owed rates.now owed.old l) }
{
    let r = rates[l] as usize;
    if r == 0 {
        return name;
    }
    let v = owed[l] as usize;
    if v < r {
        owed[l] = (v + (crate::held_for(r) - r)) as u16;
        return name;
    }
    owed[l] = (v - r) as u16;
    0
}

// The turn at leaf a: the name that the slot goes to.
pub fn turn_at(board: &[u16], c: usize, rates: &[u16], owed: &mut [u16], a: usize) -> u16
    requires { (a < c) × (c ≤ length owed.old) × turning.Shared c board.now rates.now }
    ensures { (result ≡ turning.name_at c board.now rates.now owed.old a) × (owed.new ≡ turning.owed_at c board.now rates.now owed.old a) }
{
    let l = turn_leaf(board, c, rates, a);
    take_turn(rates, owed, l, board[a])
}

// The names of the c slots from position 1 on, on deficits that go on from one to the next.
fn write_turns(board: &[u16], c: usize, rates: &[u16], deficits: &mut [u16], output: &mut [u16])
    requires { (Position c 1) × (c ≤ length output.old) × (c ≤ length deficits.old) × turning.Shared c board.now rates.now }
    ensures { output.new ≡ turning.names_along c board.now rates.now deficits.old (leaves_from c 1 c) ++ drop c output.old }
{
    let mut p = 1;
    for i in 0..c {
        let served = sequences::pick(c, p);
        output[i] = turn_at(board, c, rates, deficits, served.leaf);
        p = served.next;
    }
}

// Writes the names of a round, every deficit taken as 0, at the start of the output.
pub fn write_round(board: &[u16], c: usize, rates: &[u16], output: &mut [u16])
    requires { (Position c 1) × (c ≤ length output.old) × turning.Shared c board.now rates.now }
    ensures { output.new ≡ turning.round_serves c board.now rates.now ++ drop c output.old }
{
    let mut deficits = names::zeros::<4096>();
    write_turns(board, c, rates, &mut deficits, output);
}

// The spacing of a name over the first c of some names, of which one at least is its own.
fn spacing_of(names: &[u16], c: usize, name: u16) -> usize
    requires { (c ≤ length names.now) × (c ≤ 4095) × (0 < count_list (λ y. eqb y name) (take c names.now)) }
    ensures { result ≡ spacing_in name (take c names.now) }
{
    let mut seen = Gaps::none();
    for (i, x) in names[..c].iter().enumerate() {
        if *x == name {
            seen = seen.served_at(i);
        }
    }
    seen.around(c)
}

// The spacing of a stream over its serves in a round as it is written.
pub fn spacing(board: &[u16], c: usize, rates: &[u16], name: u16) -> usize
    requires { (Position c 1) × (turning.Shared c board.now rates.now) × (0 < name) × (0 < weight c board.now name) }
    ensures { result ≡ spacing_in name (turning.round_serves c board.now rates.now) }
{
    let mut names = names::zeros::<4096>();
    write_round(board, c, rates, &mut names);
    spacing_of(&names, c, name)
}
