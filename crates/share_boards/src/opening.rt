// Open and read where tables are lent: both clear the first C entries of every table. The record is for both drives.
ghost use Rattle.std.specs.Prelude.{◌≡◌, ◌≤◌, length};
ghost use Rattle.calls.specs.Refusals.{and_then};
ghost use Rattle.tables.specs.Settling.{cleared_table};
ghost use Rattle.sheets.specs.Sheet.{capacity_in};
ghost use Rattle.sheets.specs.Forms.{head_check};
ghost use Rattle.shares.specs.States.{lent, looked};
ghost use Rattle.share_boards.specs.Opening as opening;

use calls::{Checked, Drive, Refusal, Returned};
use shares::Lent;

// The refusal 2, of what is lent beside a board of c leaves: the list and the tables.
#[tactic(auto, unfolding(crate::specs::Opening::lent_check, shares::specs::Checks::too_few))]
fn check_lent(c: usize, lent: Lent, list: &[u64]) -> Result<(), Refusal>
    ensures { result ≡ opening.lent_check c (looked lent.entry) (length list.now) }
{
    let short = list.len() < waiting::LENGTH;
    if shares::lacks(short, c, lent.rates, lent.owed, lent.owed_other) {
        return Err(Refusal::Short);
    }
    Ok(())
}

// The refusals 1 and 2.
#[tactic(auto, unfolding(crate::specs::Opening::opening_check))]
fn check_open(c: usize, lent: Lent, list: &[u64]) -> Result<(), Refusal>
    ensures { result ≡ opening.opening_check c (looked lent.entry) (length list.now) }
{
    calls::checks::check_open(c, lent.board)?;
    check_lent(c, lent, list)
}

// The first refusals of read: under 512 bytes, 12; then 1 and 2.
fn check_head(sheet: &[u8], lent: Lent, list: &[u64]) -> Result<(), Refusal>
    ensures { result ≡ and_then (head_check sheet.now (looked lent.entry).board) (opening.lent_check (capacity_in sheet.now) (looked lent.entry) (length list.now)) }
{
    sheets::check_head(sheet, lent.board)?;
    check_lent(sheets::capacity_of(sheet), lent, list)
}

// Clears the first c entries of every table. This and `clear_after` are lent the tables apart, as C lends them, since they need no board.
fn clear_tables(c: usize, rates: &mut [u16], owed: &mut [u16], owed_other: &mut [u16])
    requires { (c ≤ 4095) × (c ≤ length rates.old) × (c ≤ length owed.old) × (c ≤ length owed_other.old) }
    ensures { (rates.new ≡ cleared_table c rates.old) × (owed.new ≡ cleared_table c owed.old) × (owed_other.new ≡ cleared_table c owed_other.old) }
{
    tables::clear_table(rates, c);
    tables::clear_table(owed, c);
    tables::clear_table(owed_other, c);
}

// Opens a board, empties the list, and clears the tables.
pub fn open(
    capacity: u16,
    board: &mut [u16],
    list: &mut [u64],
    rates: &mut [u16],
    owed: &mut [u16],
    owed_other: &mut [u16],
) -> Checked
    ensures { opening.Opens capacity (lent board.old rates.old owed.old owed_other.old) list.old result (lent board.new rates.new owed.new owed_other.new) list.new }
{
    let c = capacity as usize;
    let lent = Lent {
        board,
        rates,
        owed,
        owed_other,
    };
    // A match, since a refusal gives a record too.
    match check_open(c, lent, list) {
        Err(r) => Returned {
            drive: Drive::new(0, 0),
            answer: Err(r),
        },
        Ok(()) => {
            clear_tables(c, rates, owed, owed_other);
            orders::open(capacity, board, list)
        }
    }
}

// What was read without tables, and they cleared for it: a read that is refused returns the capacity 0, and nothing is cleared.
fn clear_after(
    loaded: Checked,
    rates: &mut [u16],
    owed: &mut [u16],
    owed_other: &mut [u16],
) -> Checked
    requires { (loaded.drive.capacity ≤ 4095) × (loaded.drive.capacity ≤ length rates.old) × (loaded.drive.capacity ≤ length owed.old) × (loaded.drive.capacity ≤ length owed_other.old) }
    ensures { (result ≡ loaded) × (rates.new ≡ cleared_table loaded.drive.capacity rates.old) × (owed.new ≡ cleared_table loaded.drive.capacity owed.old) × (owed_other.new ≡ cleared_table loaded.drive.capacity owed_other.old) }
{
    clear_tables(loaded.drive.capacity as usize, rates, owed, owed_other);
    loaded
}

// Reads a sheet, empties the list, and clears the tables. This and the next differ in the call of `orders` alone, and what they share is above: each is a public call
// of its own, so that one function over both forms would be a third.
pub fn read(
    sheet: &[u8],
    board: &mut [u16],
    list: &mut [u64],
    rates: &mut [u16],
    owed: &mut [u16],
    owed_other: &mut [u16],
) -> Checked
    ensures { opening.Loads sheet.now (lent board.old rates.old owed.old owed_other.old) list.old result (lent board.new rates.new owed.new owed_other.new) list.new }
{
    let lent = Lent {
        board,
        rates,
        owed,
        owed_other,
    };
    // A match, since a refusal gives a record too.
    match check_head(sheet, lent, list) {
        Err(r) => Returned {
            drive: Drive::new(0, 0),
            answer: Err(r),
        },
        Ok(()) => { clear_after(orders::read(sheet, board, list), rates, owed, owed_other) }
    }
}

// Reads a sheet of pieces, at the position that it has, empties the list, and clears the tables.
pub fn read_pieces(
    sheet: &[u8],
    board: &mut [u16],
    list: &mut [u64],
    rates: &mut [u16],
    owed: &mut [u16],
    owed_other: &mut [u16],
) -> Checked
    ensures { opening.LoadsPieces sheet.now (lent board.old rates.old owed.old owed_other.old) list.old result (lent board.new rates.new owed.new owed_other.new) list.new }
{
    let lent = Lent {
        board,
        rates,
        owed,
        owed_other,
    };
    // A match, since a refusal gives a record too.
    match check_head(sheet, lent, list) {
        Err(r) => Returned {
            drive: Drive::new(0, 0),
            answer: Err(r),
        },
        Ok(()) => {
            clear_after(
                orders::read_pieces(sheet, board, list),
                rates,
                owed,
                owed_other,
            )
        }
    }
}
