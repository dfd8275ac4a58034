// Save of each form of sheet and the fresh layout where tables are lent: the calls that are made only where both drives are at one place.
ghost use Rattle.std.specs.Prelude.{◌≡◌, false};
ghost use Rattle.sheets.specs.Forms.{room_check};
ghost use Rattle.shares.specs.States.{lent, looked};
ghost use Rattle.share_boards.specs.declared.starting.Unsaved.TheVariants.{Refused};
ghost use Rattle.share_boards.specs.Starting as starting;

use calls::{Checked, Drive, Refusal, Returned};
use shares::Lent;

// Why nothing was saved: an over-allocated stream is held, which no sheet can tell; a refusal.
#[derive(Clone, Copy, Debug, PartialEq, Eq)]
pub enum Unsaved {
    Kind,
    Refused(Refusal),
}

impl From<Refusal> for Unsaved {
    ghost from_gives = { λ r u. u ≡ Refused r };

    fn from(r: Refusal) -> Unsaved {
        Unsaved::Refused(r)
    }
}

// What save gives back: how many bytes it wrote.
pub type ShareSaved = Returned<Result<usize, Unsaved>>;

// The refusals 1 to 5, of which 4 is for a drive away from the start of a round.
fn check_start(own: Drive, other: Drive, lent: Lent) -> Result<(), Refusal>
    ensures { result ≡ starting.start_check own other (looked lent.entry) }
{
    let there = drives::both_start(own, other);
    shares::check_placed(there, own, other, lent, false)
}

// The refusals 1 to 5, of which 4 is for drives at different positions.
fn check_level(own: Drive, other: Drive, lent: Lent) -> Result<(), Refusal>
    ensures { result ≡ starting.level_check own other (looked lent.entry) }
{
    let there = own.position == other.position;
    shares::check_placed(there, own, other, lent, false)
}

// Why nothing is saved while an over-allocated stream is held: 11 for an output that is shorter than the sheet would be, and else 17.
fn no_sheet(output: usize, size: usize) -> Unsaved
    ensures { Err result ≡ starting.saving_by (room_check output size) false size }
{
    if output < size {
        Unsaved::Refused(Refusal::Output)
    } else {
        Unsaved::Kind
    }
}

// Writes the sheet of the leaves, where nothing is against it; returns how many bytes that are.
fn save_leaves(own: Drive, other: Drive, lent: Lent, output: &mut [u8]) -> Result<usize, Unsaved>
    ensures { starting.Saves own other (looked lent.entry) output.old (record { drive = own; answer = result }) output.new }
{
    check_start(own, other, lent)?;
    let c = own.capacity as usize;
    if !tables::all_zero(lent.rates, c) {
        return Err(no_sheet(output.len(), sheets::leaf_bytes(c)));
    }
    Ok(sheets::put_leaves(lent.board, c, output)?)
}

// Writes the sheet of the pieces, where nothing is against it; returns how many bytes that are. It and the one before stand for a public call each, and differ in
// the check and the calls of `sheets`, whose forms are inner to `sheets`: one function over both forms would be a third.
fn save_listed(own: Drive, other: Drive, lent: Lent, output: &mut [u8]) -> Result<usize, Unsaved>
    ensures { starting.SavesPieces own other (looked lent.entry) output.old (record { drive = own; answer = result }) output.new }
{
    check_level(own, other, lent)?;
    let c = own.capacity as usize;
    if !tables::all_zero(lent.rates, c) {
        return Err(no_sheet(output.len(), sheets::piece_bytes(lent.board, c)));
    }
    let p = own.position as usize;
    Ok(sheets::put_pieces(lent.board, c, p, output)?)
}

// Saves the board: its sheet at the start of the output. 17 comes last, while an over-allocated stream is held.
pub fn save(
    own: Drive,
    other: Drive,
    board: &[u16],
    rates: &[u16],
    owed: &[u16],
    owed_other: &[u16],
    output: &mut [u8],
) -> ShareSaved
    ensures { starting.Saves own other (lent board.now rates.now owed.now owed_other.now) output.old result output.new }
{
    let lent = Lent {
        board,
        rates,
        owed,
        owed_other,
    };
    Returned {
        drive: own,
        answer: save_leaves(own, other, lent, output),
    }
}

// Saves the board at any position that both drives are at: the sheet of its pieces at the start of the output. 17 comes last, while an over-allocated stream is
// held.
pub fn save_pieces(
    own: Drive,
    other: Drive,
    board: &[u16],
    rates: &[u16],
    owed: &[u16],
    owed_other: &[u16],
    output: &mut [u8],
) -> ShareSaved
    ensures { starting.SavesPieces own other (lent board.now rates.now owed.now owed_other.now) output.old result output.new }
{
    let lent = Lent {
        board,
        rates,
        owed,
        owed_other,
    };
    Returned {
        drive: own,
        answer: save_listed(own, other, lent, output),
    }
}

// Lays the board out afresh, at once: an over-allocated stream counts with R, and r and its deficits follow it. The list is not looked at.
pub fn fresh(
    own: Drive,
    other: Drive,
    board: &mut [u16],
    rates: &mut [u16],
    owed: &mut [u16],
    owed_other: &mut [u16],
) -> Checked
    ensures { starting.Refreshes own other (lent board.old rates.old owed.old owed_other.old) result (lent board.new rates.new owed.new owed_other.new) }
{
    let lent = Lent {
        board,
        rates,
        owed,
        owed_other,
    };
    let answer = check_start(own, other, lent);
    if answer.is_ok() {
        let c = own.capacity as usize;
        let old = tables::settling::remember(board, c);
        pieces::lay_out(board, c);
        tables::settling::settle_tables(&old, board, c, rates, owed, owed_other);
    }
    Returned { drive: own, answer }
}
