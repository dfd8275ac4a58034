// Whether tables fit a board: the one condition of DAMAGED where tables are lent.
ghost use Rattle.std.specs.Prelude.{◌≡◌, true, ◌||◌, [], ◌∷◌, ℕ, ◌+◌, ◌≤◌, ◌<◌, eqb, ltb, length};
ghost use Rattle.names.specs.Table.{Table, number_under};
ghost use Rattle.pieces.specs.Board.{good, weight};
ghost use Rattle.tables.specs.Sharing as sharing;
ghost use Rattle.tables.specs.Looking as looking;

// ---- the entries of a table that are not 0: most are, and eight are looked at at once

// The sum of four entries in a row.
fn four(table: &[u16], i: usize) -> u32
    requires { (i + 4 ≤ length table.now) × (i ≤ 4095) }
    ensures { (result ≡ looking.sum_from table.now i 4) × (result ≤ 262140) }
{
    table[i] as u32 + table[i + 1] as u32 + table[i + 2] as u32 + table[i + 3] as u32
}

// Skips entries from i on that are 0, eight at a time: one by one, as `position` goes, takes twice as long, and over `chunks(8)` it is slower too.
fn skip_eights(table: &[u16], c: usize, i: usize) -> usize
    requires { (i ≤ c) × (c ≤ length table.now) × (c ≤ 4095) }
    ensures { looking.Skipped c table.now i result }
{
    let mut j = i;
    while j + 8 <= c {
        if four(table, j) + four(table, j + 4) != 0 {
            return j;
        }
        j += 8;
    }
    j
}

// The next entry, from i on, that is not 0; c where there is none.
fn next_nonzero(table: &[u16], c: usize, i: usize) -> usize
    requires { (i ≤ c) × (c ≤ length table.now) × (c ≤ 4095) }
    ensures { looking.Skipped c table.now i result }
{
    // By `position` over the rest it was tried: the sum of the two places did not prove by itself, as this does.
    for j in skip_eights(table, c, i)..c {
        if table[j] != 0 {
            return j;
        }
    }
    c
}

// ---- what each entry may be

// Whether the entry r of leaf i, which holds x, is none, or that of a stream of R leaves whose first is i. A stream whose weight is a power of two lies in one
// run on a good board, which starts at a multiple of that power; so the first leaf is told without a look at the others.
fn rate_fits(x: usize, r: usize, i: usize, sizes: &[u16]) -> bool
    requires { (x < 65536) × (r ≤ 65535) × Table sizes.now }
    ensures { result ≡ looking.rate_test sizes.now x r i }
{
    if r == 0 {
        return true;
    }
    let held = crate::held_for(r);
    x != 0 && names::number_of(sizes, x) == held && i % held == 0
}

// Whether every r fits, by the weights of the names. The loop goes from one entry that is not 0 to the next, and so ends at c.
fn rates_fit(board: &[u16], c: usize, rates: &[u16], sizes: &[u16]) -> bool
    requires { (c ≤ length board.now) × (c ≤ length rates.now) × (c ≤ 4095) × Table sizes.now × (good c board.now ≡ true) × ((x : ℕ) → x < 65536 → number_under sizes.now x ≡ weight c board.now x) }
    ensures { result ≡ sharing.rates_fit c board.now rates.now }
{
    let mut i = next_nonzero(rates, c, 0);
    while i < c {
        if !rate_fits(board[i] as usize, rates[i] as usize, i, sizes) {
            return false;
        }
        i = next_nonzero(rates, c, i + 1);
    }
    true
}

// Whether a deficit is in the range of a stream of weight r: 0, or v below R. A v below R has no more binary digits than r - 1, and that is so just where v
// without those of r - 1 is at most r - 1. This needs no shift and no branch.
fn in_range(r: u16, v: u16) -> bool
    ensures { result ≡ (eqb v 0 || ltb v (sharing.held_for r)) }
{
    let w = r.saturating_sub(1);
    v - (v & w) <= w
}

// Whether every deficit of a table fits. Those that do are counted, in a counter of their own width and to the end: the compiler then takes several at once,
// which over a `zip` of the two tables it does not, and that takes five times as long.
fn owed_fit(c: usize, rates: &[u16], owed: &[u16]) -> bool
    requires { (c ≤ length rates.now) × (c ≤ length owed.now) × (c ≤ 4095) }
    ensures { result ≡ sharing.owed_fit c rates.now owed.now }
{
    let mut n: u16 = 0;
    for i in 0..c {
        if in_range(rates[i], owed[i]) {
            n += 1;
        }
    }
    n as usize == c
}

// Whether the board is good and the tables of two drives fit it. The board is scanned once, for the test and for the weights.
pub fn fits(board: &[u16], c: usize, rates: &[u16], owed: &[u16], owed_other: &[u16]) -> bool
    requires { (c ≤ length board.now) × (c ≤ length rates.now) × (c ≤ length owed.now) × (c ≤ length owed_other.now) × (c ≤ 4095) }
    ensures { result ≡ sharing.fits c board.now rates.now (owed.now ∷ owed_other.now ∷ []) }
{
    let mut sizes = names::empty();
    pieces::weights(board, c, &mut sizes)
        && rates_fit(board, c, rates, &sizes)
        && owed_fit(c, rates, owed)
        && owed_fit(c, rates, owed_other)
}
