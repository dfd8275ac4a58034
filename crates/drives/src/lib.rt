// The calls for two drives on one board with one waiting list: add, remove, slot, round, report, save of each form of sheet, the fresh layout. `own`
// is the record of the drive that the call is for, and comes back; `other` is the other drive's, and is only looked at. Open, read and fetch are
// those of one drive: their record is for both. The records are two parameters and no struct of both: a call gives back the one alone, and the next
// call may be the other drive's.
// `add`, `remove` and `slot` stand in `orders` and `shares` too: a trait for who calls made them longer, since each public call needs its line over the
// generic one, and what they share, `take` and `serve` of `orders`, they share already.
#![tactic(auto)]

ghost use Rattle.std.specs.Prelude.{◌≡◌, ◌≤◌, ◌<◌};
ghost use Rattle.orders.specs.Results.{add_order, remove_order};
ghost use Rattle.drives.specs.Checks as checks;
ghost use Rattle.drives.specs.Promises as promises;

use calls::{Checked, Drive, Refusal, Reported, Returned, Served};
use orders::Ordered;
use sheets::Saved;
use waiting::Order;

// The refusals 1 and 2, the board's by the larger capacity. `short` says that something else that is lent is too short.
#[tactic(auto, using(crate::proofs::PairChecks::sizes_parts))]
fn check_sizes(own: Drive, other: Drive, board: &[u16], short: bool) -> Result<(), Refusal>
    ensures { result ≡ checks.size_check own other board.now short }
{
    if own.capacity == 0 || other.capacity == 0 {
        return Err(Refusal::Capacity);
    }
    calls::checks::check_open(own.capacity.max(other.capacity) as usize, board)?;
    if short {
        return Err(Refusal::Short);
    }
    Ok(())
}

// The refusal 3. Unequal capacities come first, since the rest then has one capacity; which of the three is found does not show.
#[tactic(auto, using(crate::proofs::PairChecks::places_equal, crate::proofs::PairChecks::places_unequal))]
fn check_places(own: Drive, other: Drive) -> Result<(), Refusal>
    requires { (0 < own.capacity) × (own.capacity ≤ 4095) }
    ensures { result ≡ checks.place_check own other }
{
    if own.capacity != other.capacity {
        return Err(Refusal::Position);
    }
    let c = own.capacity as usize;
    calls::checks::check_position(c, own.position as usize)?;
    calls::checks::check_position(c, other.position as usize)
}

// The refusals 1 to 3.
#[tactic(auto, using(crate::proofs::PairChecks::own_sized), unfolding(crate::specs::Checks::pair_check))]
pub fn check_pair(own: Drive, other: Drive, board: &[u16], short: bool) -> Result<(), Refusal>
    ensures { result ≡ checks.pair_check own other board.now short }
{
    check_sizes(own, other, board, short)?;
    check_places(own, other)
}

// The refusals 1 to 4, of which 4 is for drives that the caller found not to be where its call needs them: `there`.
fn check_placed(own: Drive, other: Drive, board: &[u16], there: bool) -> Result<(), Refusal>
    ensures { result ≡ checks.placed_check own other board.now there }
{
    check_pair(own, other, board, false)?;
    if !there {
        return Err(Refusal::Midround);
    }
    Ok(())
}

// The refusals 1 to 4.
#[tactic(auto, unfolding(crate::specs::Checks::start_check))]
pub fn check_start(own: Drive, other: Drive, board: &[u16]) -> Result<(), Refusal>
    ensures { result ≡ checks.start_check own other board.now }
{
    check_placed(own, other, board, both_start(own, other))
}

// The refusals 1 to 4, of which 4 is for records at different positions.
#[tactic(auto, unfolding(crate::specs::Checks::level_check))]
fn check_level(own: Drive, other: Drive, board: &[u16]) -> Result<(), Refusal>
    ensures { result ≡ checks.level_check own other board.now }
{
    check_placed(own, other, board, own.position == other.position)
}

// Whether both drives are at the start of a round.
#[tactic(auto, unfolding(crate::specs::Checks::both_start))]
pub fn both_start(own: Drive, other: Drive) -> bool
    ensures { result ≡ checks.both_start own other }
{
    own.position == 1 && other.position == 1
}

// A call that is refused. The calls below that use it match on their check, with no `?`: what a refusal returns has a record beside it.
fn refused<A>(drive: Drive, why: Refusal) -> Returned<Result<A, Refusal>>
    ensures { result ≡ record { drive = drive; answer = Err why } }
{
    Returned {
        drive,
        answer: Err(why),
    }
}

// Takes a change: at once, where both drives are at the start of a round and no order waits, or on the list.
#[tactic(auto, using(crate::proofs::PairChecks::pair_vouch), unfolding(crate::specs::Checks::way_of))]
pub fn change(
    own: Drive,
    other: Drive,
    board: &mut [u16],
    list: &mut [u64],
    order: Order,
) -> Ordered
    ensures { promises.Orders own other board.old list.old order result board.new list.new }
{
    let check = check_pair(own, other, board, list.len() < waiting::LENGTH);
    let begins = both_start(own, other);
    orders::take(check, begins, own, board, list, order)
}

// Admits a stream.
pub fn add(
    own: Drive,
    other: Drive,
    board: &mut [u16],
    list: &mut [u64],
    name: u16,
    weight: u16,
) -> Ordered
    ensures { promises.Orders own other board.old list.old (add_order name weight) result board.new list.new }
{
    change(own, other, board, list, Order::add(name, weight))
}

// Removes a stream.
pub fn remove(own: Drive, other: Drive, board: &mut [u16], list: &mut [u64], name: u16) -> Ordered
    ensures { promises.Orders own other board.old list.old (remove_order name) result board.new list.new }
{
    change(own, other, board, list, Order::remove(name))
}

// Serves a slot of the own drive; where both drives are at the start of a round the orders that wait are carried out first.
#[tactic(auto, using(crate::proofs::PairChecks::pair_vouch), unfolding(crate::specs::Results::board_then, crate::specs::Results::list_then))]
pub fn slot(own: Drive, other: Drive, board: &mut [u16], list: &mut [u64]) -> Served
    ensures { promises.Serves own other board.old list.old result board.new list.new }
{
    let check = check_pair(own, other, board, list.len() < waiting::LENGTH);
    let starts = both_start(own, other);
    orders::serve(check, starts, own, board, list)
}

// Writes the names of a full round.
#[tactic(auto, unfolding(crate::specs::Checks::pair_round_check))]
pub fn round(own: Drive, other: Drive, board: &[u16], output: &mut [u16]) -> Checked
    ensures { promises.Rounds own other board.now output.old result output.new }
{
    match check_pair(own, other, board, false) {
        Ok(()) => own.round(board, output),
        Err(why) => refused(own, why),
    }
}

// Reports on a stream.
#[tactic(auto, unfolding(crate::specs::Checks::pair_report_check))]
pub fn report(own: Drive, other: Drive, board: &[u16], name: u16) -> Reported
    ensures { promises.Reports own other board.now name result }
{
    match check_pair(own, other, board, false) {
        Ok(()) => own.report(board, name),
        Err(why) => refused(own, why),
    }
}

// Saves the board: its sheet at the start of the output.
#[tactic(auto, unfolding(crate::specs::Checks::pair_save_check))]
pub fn save(own: Drive, other: Drive, board: &[u16], output: &mut [u8]) -> Saved
    ensures { promises.Saves own other board.now output.old result output.new }
{
    match check_start(own, other, board) {
        Ok(()) => sheets::save(own, board, output),
        Err(why) => refused(own, why),
    }
}

// Saves the board at any position that both drives are at: the sheet of its pieces at the start of the output. This and `save` are public calls of their own, which
// differ in the check and the call of `sheets`: one function over both forms would be a third.
#[tactic(auto, unfolding(crate::specs::Checks::pair_pieces_check))]
pub fn save_pieces(own: Drive, other: Drive, board: &[u16], output: &mut [u8]) -> Saved
    ensures { promises.SavesPieces own other board.now output.old result output.new }
{
    match check_level(own, other, board) {
        Ok(()) => sheets::save_pieces(own, board, output),
        Err(why) => refused(own, why),
    }
}

// Lays the board out afresh, at once: the orders that wait stay on the list, which is not looked at.
#[tactic(auto, unfolding(crate::specs::Checks::pair_fresh_check))]
pub fn fresh(own: Drive, other: Drive, board: &mut [u16]) -> Checked
    ensures { promises.Refreshes own other board.old result board.new }
{
    match check_start(own, other, board) {
        Ok(()) => own.fresh(board),
        Err(why) => refused(own, why),
    }
}
