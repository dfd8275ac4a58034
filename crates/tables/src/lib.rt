// The lent tables of over-allocated streams: one entry for each leaf, r or how far a deficit is below 0, at the lowest leaf of the stream. Each function here
// looks at one board and writes one table, or settles the three of two drives; none knows a record, a list or a refusal.
// The board, C and the tables stay parameters: `turn_at`, `fits` and `settle_tables` are public calls whose clauses speak of each.
#![tactic(auto)]

ghost use Rattle.std.specs.Prelude.{◌≡◌, ◌≤◌, ◌<◌, length};
ghost use Rattle.pieces.specs.Board.{weight};
ghost use Rattle.tables.specs.Sharing as sharing;
ghost use Rattle.tables.specs.Settling as settled;
ghost use Rattle.tables.specs.Turns as turning;

pub mod fitting;
pub mod settling;
pub mod turns;

// R: how many leaves a stream of weight r holds.
pub fn held_for(r: usize) -> usize
    requires { r ≤ 65535 }
    ensures { result ≡ sharing.held_for r }
{
    if r == 0 {
        return 0;
    }
    r.next_power_of_two()
}

// The lowest leaf of a name; c where there is none, as `sharing.lowest` has it.
pub fn lowest_leaf(board: &[u16], c: usize, name: u16) -> usize
    requires { (c ≤ length board.now) × (c ≤ 4095) }
    ensures { result ≡ sharing.lowest c board.now name }
{
    board[..c]
        .iter()
        .position(|leaf| *leaf == name)
        .unwrap_or(c)
}

// Whether the first c entries of a table are 0. They are counted, several at once, and not looked at one by one.
pub fn all_zero(table: &[u16], c: usize) -> bool
    requires { (c ≤ length table.now) × (c ≤ 4095) }
    ensures { result ≡ sharing.all_zero c table.now }
{
    pieces::weigh(table, c, 0) == c
}

// Clears the first c entries of a table.
pub fn clear_table(table: &mut [u16], c: usize)
    requires { (c ≤ length table.old) × (c ≤ 4095) }
    ensures { table.new ≡ settled.cleared_table c table.old }
{
    table[..c].fill(0);
}

// Enters r for a name that the board holds.
pub fn enter_rate(board: &[u16], c: usize, rates: &mut [u16], name: u16, r: u16)
    requires { (c ≤ length board.now) × (c ≤ length rates.old) × (c ≤ 4095) × (0 < weight c board.now name) }
    ensures { rates.new ≡ settled.rated_table c board.now rates.old name r }
{
    let l = lowest_leaf(board, c, name);
    rates[l] = r;
}

// How often a round serves a name that the board holds: r, or its leaves where it is not over-allocated.
pub fn weight_served(board: &[u16], c: usize, rates: &[u16], name: u16) -> usize
    requires { (c ≤ length board.now) × (c ≤ length rates.now) × (c ≤ 4095) × (0 < weight c board.now name) }
    ensures { result ≡ turning.served_weight c board.now rates.now name }
{
    let l = lowest_leaf(board, c, name);
    let r = rates[l] as usize;
    if r == 0 {
        return pieces::weigh(board, c, name);
    }
    r
}
