// Tables after a change of the board: what stood at the old lowest leaf of a stream goes to its new one. The board as it was is kept beside it while it is
// changed.
ghost use Rattle.std.specs.Prelude.{◌≡◌, ◌&&◌, cond, ℕ, ◌+◌, ◌≤◌, ◌<◌, eqb, get_or, length};
ghost use Rattle.names.specs.Table.{Table, Empty, Entered, rows_taken, number_under};
ghost use Rattle.tables.specs.Settling as settled;
ghost use Rattle.tables.specs.Looking as looking;

// Marks the name x with the leaf i, unless it is marked.
fn mark_leaf(marks: &mut [u16], x: usize, i: usize)
    requires { (x < 65536) × (i < 4095) × Table marks.old × (rows_taken marks.old < 4096) }
    ensures { Entered marks.old marks.new x (cond (eqb (number_under marks.old x) 0) (i + 1) (number_under marks.old x)) }
{
    let mark = names::find(marks, x);
    if mark.number == 0 {
        names::enter(marks, x, mark.row, i + 1);
    }
}

// Marks each name with one more than its lowest leaf.
fn mark_leaves(board: &[u16], c: usize, marks: &mut [u16])
    requires { (c ≤ length board.now) × (c ≤ 4095) × Empty marks.old }
    ensures { looking.Marks c board.now marks.new }
{
    for (i, x) in board[..c].iter().enumerate() {
        mark_leaf(marks, *x as usize, i);
    }
}

// The mark of a name, which is met then; 0 where it has none, as `looking.marked_entry` has it.
fn take_mark(marks: &mut [u16], x: usize) -> u16
    requires { (x < 65536) × Table marks.old }
    ensures { (result ≡ number_under marks.old x) × Entered marks.old marks.new x 0 }
{
    let mark = names::find(marks, x);
    let m = mark.number as u16;
    if m == 0 {
        return 0;
    }
    names::enter(marks, x, mark.row, 0);
    m
}

// For each leaf of a board that is the lowest of a stream, the mark of its name; 0 for every other. By index, here and in `place_entries`: after writes through
// `iter_mut` of a part of a slice nothing is known of its entries.
fn take_marks(board: &[u16], c: usize, marks: &mut [u16], from: &mut [u16])
    requires { (c ≤ length board.now) × (c ≤ 4095) × Table marks.old × (c ≤ length from.old) }
    ensures { from.new ≡ settled.written (λ i. looking.origin c marks.old board.now i) c from.old }
{
    take_mark(marks, 0);
    for i in 0..c {
        from[i] = take_mark(marks, board[i] as usize);
    }
}

// Where the entries of each leaf come from: the mark, on the board as it was, of a stream that has its lowest leaf there.
fn find_origins(old: &[u16], board: &[u16], c: usize, from: &mut [u16])
    requires { (c ≤ length old.now) × (c ≤ length board.now) × (c ≤ 4095) × (c ≤ length from.old) }
    ensures { looking.Origins c old.now board.now from.new }
{
    let mut marks = names::empty();
    mark_leaves(old, c, &mut marks);
    take_marks(board, c, &mut marks, from);
}

// The first c entries of a table, written to another.
fn copy_table(table: &[u16], c: usize, to: &mut [u16])
    requires { (c ≤ length table.now) × (c ≤ length to.old) × (c ≤ 4095) }
    ensures { to.new ≡ settled.written (λ i. get_or table.now i 0) c to.old }
{
    to[..c].copy_from_slice(&table[..c]);
}

// The entry of a table that a mark leads to.
fn fetch_entry(table: &[u16], o: usize) -> u16
    requires { (o ≤ length table.now) × (o ≤ 4095) }
    ensures { result ≡ looking.marked_entry table.now o }
{
    if o == 0 { 0 } else { table[o - 1] }
}

// Gives each of the first c entries of a table what its mark leads to in another.
fn place_entries(table: &mut [u16], c: usize, from: &[u16], old: &[u16])
    requires { (c ≤ length table.old) × (c ≤ length from.now) × (c ≤ length old.now) × (c ≤ 4095) × ((i : ℕ) → i < c → get_or from.now i 0 ≤ c) }
    ensures { table.new ≡ settled.written (λ i. looking.marked_entry old.now (get_or from.now i 0)) c table.old }
{
    for i in 0..c {
        table[i] = fetch_entry(old, from[i] as usize);
    }
}

// Settles one table: each of its first c entries becomes what its mark leads to in the table as it was. Entries that are all 0 stay so.
fn settle(table: &mut [u16], c: usize, from: &[u16])
    requires { (c ≤ length table.old) × (c ≤ length from.now) × (c ≤ 4095) × ((i : ℕ) → i < c → get_or from.now i 0 ≤ c) }
    ensures { table.new ≡ settled.written (λ i. looking.marked_entry table.old (get_or from.now i 0)) c table.old }
{
    if crate::all_zero(table, c) {
        return;
    }
    let mut old = names::zeros::<4096>();
    copy_table(table, c, &mut old);
    place_entries(table, c, from, &old);
}

// The first c leaves of a board, to be kept while it is changed.
pub fn remember(board: &[u16], c: usize) -> [u16; 4096]
    requires { (c ≤ length board.now) × (c ≤ 4095) }
    ensures { settled.Alike c board.now result }
{
    let mut old = names::zeros::<4096>();
    copy_table(board, c, &mut old);
    old
}

// Settles the tables of two drives on a board that has changed. `old` is the board as it was.
pub fn settle_tables(
    old: &[u16],
    board: &[u16],
    c: usize,
    rates: &mut [u16],
    owed: &mut [u16],
    owed_other: &mut [u16],
)
    requires { (c ≤ length old.now) × (c ≤ length board.now) × (c ≤ 4095) × (c ≤ length rates.old) × (c ≤ length owed.old) × (c ≤ length owed_other.old) }
    ensures { (rates.new ≡ settled.settled_table c old.now board.now rates.old) × (owed.new ≡ settled.settled_table c old.now board.now owed.old) × (owed_other.new ≡ settled.settled_table c old.now board.now owed_other.old) }
{
    if crate::all_zero(rates, c) && crate::all_zero(owed, c) && crate::all_zero(owed_other, c) {
        return;
    }
    let mut from = names::zeros::<4096>();
    find_origins(old, board, c, &mut from);
    settle(rates, c, &from);
    settle(owed, c, &from);
    settle(owed_other, c, &from);
}
