// A number below 4,096 for each name, in little room: a board has less than 4,096 leaves, and so less names, of the 65,536 that there are. Names with the same
// twelve low binary digits, sixteen at most, are linked; a name is found by a walk along them.
// The cells are a lent slice, and no type of their own: who asks for a table makes it and keeps it, and `find` and `enter` are public calls whose clauses, `Finds`
// and `Entered`, speak of the cells. They are numbers of the slice, so a link is a row's number, and row 0 means none.
#![tactic(auto)]

ghost use Rattle.std.specs.Prelude.{◌≡◌, ◌<◌, None};
ghost use Rattle.general.specs.Lists.{blank};
ghost use Rattle.names.specs.Table as table;

// Where a name has its row, if it has one, and its number.
#[derive(Clone, Copy, Debug, PartialEq, Eq)]
pub struct Found {
    pub row: Option<usize>,
    pub number: usize,
}

// N zeros. An array is made here and nowhere else, so that no other proof computes it.
pub fn zeros<const N: usize>() -> [u16; N]
    ensures { result ≡ blank N }
{
    [0u16; N]
}

// A table without numbers.
pub fn empty() -> [u16; 12290]
    ensures { result ≡ blank 12290 }
{
    zeros()
}

// The row and the number of a name.
pub fn find(cells: &[u16], x: usize) -> Found
    requires { (x < 65536) × table.Table cells.now }
    ensures { table.Finds cells.now x result }
{
    let mut n = cells[8194 + x % 4096] as usize;
    // A walk along links: no index is counted.
    while 0 < n {
        let m = cells[n] as usize;
        if m / 4096 == x / 4096 {
            return Found {
                row: Some(n),
                number: m % 4096,
            };
        }
        n = cells[4097 + n] as usize;
    }
    Found {
        row: None,
        number: 0,
    }
}

// The number of a name.
pub fn number_of(cells: &[u16], x: usize) -> usize
    requires { (x < 65536) × table.Table cells.now }
    ensures { result ≡ table.number_under cells.now x }
{
    find(cells, x).number
}

// A first row for a name that has none, with its number.
fn add(cells: &mut [u16], x: usize, v: usize)
    requires { (x < 65536) × (v < 4096) × (table.rows_taken cells.old < 4096) × table.Table cells.old }
    ensures { table.Added cells.old cells.new x v }
{
    let b = 8194 + x % 4096;
    let n = cells[4097] as usize + 1;
    cells[4097] = n as u16;
    cells[4097 + n] = cells[b];
    cells[b] = n as u16;
    cells[n] = (x / 4096 * 4096 + v) as u16;
}

// Enters the number of a name, whose row a search has found.
pub fn enter(cells: &mut [u16], x: usize, row: Option<usize>, v: usize)
    requires { (x < 65536) × (v < 4096) × table.Table cells.old × (row ≡ table.row_found cells.old x) × (row ≡ None → table.rows_taken cells.old < 4096) }
    ensures { table.Entered cells.old cells.new x v }
{
    match row {
        None => add(cells, x, v),
        Some(n) => cells[n] = (x / 4096 * 4096 + v) as u16,
    }
}
