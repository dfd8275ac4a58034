// Round and report where tables are lent. Neither changes a table: round takes every deficit as 0.
ghost use Rattle.std.specs.Prelude.{◌≡◌};
ghost use Rattle.shares.specs.States.{lent, looked};
ghost use Rattle.share_boards.specs.Looking as looking;

use calls::{Checked, Drive, Refusal, Reported, Returned, Stream};
use shares::Lent;

// The refusals 1 to 3, 5 and 11, of an output of so many entries.
#[tactic(auto, unfolding(crate::specs::Looking::rounding_check))]
fn check_round(own: Drive, other: Drive, lent: Lent, output: usize) -> Result<(), Refusal>
    ensures { result ≡ looking.rounding_check own other (looked lent.entry) output }
{
    shares::check_shares(own, other, lent, false)?;
    own.check_round(lent.board, output)
}

// Writes the names of a full round, every deficit taken as 0, where there is no refusal.
fn write_round(own: Drive, other: Drive, lent: Lent, output: &mut [u16]) -> Result<(), Refusal>
    ensures { looking.Rounds own other (looked lent.entry) output.old (record { drive = own; answer = result }) output.new }
{
    check_round(own, other, lent, output.len())?;
    tables::turns::write_round(lent.board, own.capacity as usize, lent.rates, output);
    Ok(())
}

// Writes the names of a full round, every deficit taken as 0.
pub fn round(
    own: Drive,
    other: Drive,
    board: &[u16],
    rates: &[u16],
    owed: &[u16],
    owed_other: &[u16],
    output: &mut [u16],
) -> Checked
    ensures { looking.Rounds own other (lent board.now rates.now owed.now owed_other.now) output.old result output.new }
{
    let lent = Lent {
        board,
        rates,
        owed,
        owed_other,
    };
    Returned {
        drive: own,
        answer: write_round(own, other, lent, output),
    }
}

// The refusals 1 to 3, 5, 6 and 9. The last two are as remove finds them at the start of a round; the board is not tested again for them.
#[tactic(auto, unfolding(crate::specs::Looking::reporting_check))]
fn check_report(own: Drive, other: Drive, lent: Lent, name: u16) -> Result<(), Refusal>
    ensures { result ≡ looking.reporting_check own other (looked lent.entry) name }
{
    shares::check_shares(own, other, lent, false)?;
    let start = Drive::new(own.capacity, 1);
    start.check_remove(Ok(()), lent.board, name)
}

// What there is to report of a stream.
fn stream(own: Drive, other: Drive, lent: Lent, name: u16) -> Result<Stream, Refusal>
    ensures { looking.Reports own other (looked lent.entry) name (record { drive = own; answer = result }) }
{
    check_report(own, other, lent, name)?;
    let c = own.capacity as usize;
    let leaves = pieces::weigh(lent.board, c, name);
    let weight = tables::weight_served(lent.board, c, lent.rates, name);
    let spacing = tables::turns::spacing(lent.board, c, lent.rates, name);
    Ok(Stream {
        weight: weight as u16,
        pieces: leaves.count_ones() as u16,
        spacing: spacing as u16,
    })
}

// Reports on a stream: of one that is over-allocated r, its one piece, and the spacing over its serves.
pub fn report(
    own: Drive,
    other: Drive,
    board: &[u16],
    rates: &[u16],
    owed: &[u16],
    owed_other: &[u16],
    name: u16,
) -> Reported
    ensures { looking.Reports own other (lent board.now rates.now owed.now owed_other.now) name result }
{
    let lent = Lent {
        board,
        rates,
        owed,
        owed_other,
    };
    Returned {
        drive: own,
        answer: stream(own, other, lent, name),
    }
}
