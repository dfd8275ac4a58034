// Orders carried out on a board and its tables, one by one and from the list. Each keeps the tables fitting the board, so that 5 is asked once, before the first.
ghost use Rattle.std.specs.Prelude.{◌≡◌, Ok, true, ◌-◌, ◌≤◌, ◌<◌, min, length};
ghost use Rattle.calls.specs.Refusals.{change_check};
ghost use Rattle.calls.specs.Results as plain;
ghost use Rattle.tables.specs.Sharing.{held_for};
ghost use Rattle.waiting.specs.Layout as layout;
ghost use Rattle.waiting.proofs.Laws as list_laws;
ghost use Rattle.shares.specs.States.{held, same};
ghost use Rattle.shares.specs.Checks as checks;
ghost use Rattle.shares.specs.Results as results;

use crate::LentMut;
use calls::{Drive, Unchanged};
use waiting::Order;

// R as the plain add is asked for it: 65,535 stands for 65,536, for which no board has room either.
fn asked_for(weight: u16) -> u16
    ensures { result ≡ min (held_for weight) 65535 }
{
    tables::held_for(weight as usize).min(65535) as u16
}

// Admits an over-allocated stream: R leaves, and r at the lowest of them. This and the next are lent the slices apart: no call may look at one field of what stands
// behind a reference while it changes another.
fn admit_over(
    drive: Drive,
    board: &mut [u16],
    rates: &mut [u16],
    name: u16,
    weight: u16,
) -> Result<u16, Unchanged>
    requires { (Ok tt ≡ change_check drive board.old) × (drive.capacity ≤ length rates.old) }
    ensures { (result ≡ (plain.added drive board.old name (held_for weight)).answer) × (board.new ≡ plain.added_board drive board.old name (held_for weight)) × (rates.new ≡ results.rates_after drive board.old name weight rates.old) }
{
    let idle = drive.add_by(Ok(()), board, name, asked_for(weight)).answer?;
    tables::enter_rate(board, drive.capacity as usize, rates, name, weight);
    Ok(idle)
}

// Removes a stream, and settles every table on the board that the tidying leaves.
fn remove_settled(
    drive: Drive,
    board: &mut [u16],
    rates: &mut [u16],
    owed: &mut [u16],
    owed_other: &mut [u16],
    name: u16,
) -> Result<u16, Unchanged>
    requires { (Ok tt ≡ change_check drive board.old) × (drive.capacity ≤ length rates.old) × (drive.capacity ≤ length owed.old) × (drive.capacity ≤ length owed_other.old) }
    ensures { (result ≡ (plain.removed drive board.old name).answer) × (board.new ≡ plain.removed_board drive board.old name) × (rates.new ≡ results.table_after drive board.old name rates.old) × (owed.new ≡ results.table_after drive board.old name owed.old) × (owed_other.new ≡ results.table_after drive board.old name owed_other.old) }
{
    let c = drive.capacity as usize;
    let old = tables::settling::remember(board, c);
    let idle = drive.remove_by(Ok(()), board, name).answer?;
    tables::settling::settle_tables(&old, board, c, rates, owed, owed_other);
    Ok(idle)
}

// Carries out an order, of a record at the start of a round.
pub fn carry_out(drive: Drive, lent: &mut LentMut, order: Order) -> Result<u16, Unchanged>
    requires { (checks.Ready drive (held lent.old)) × (drive.position ≡ 1) }
    ensures says { result ≡ results.carried drive (held lent.old) order }
    ensures does { held lent.new ≡ results.carried_state drive (held lent.old) order }
    ensures same { same lent.old lent.new }
{
    match order.kind {
        Order::REMOVE => remove_settled(
            drive,
            lent.board,
            lent.rates,
            lent.owed,
            lent.owed_other,
            order.name,
        ),
        Order::OVER => admit_over(drive, lent.board, lent.rates, order.name, order.weight),
        _ => orders::carry_out(Ok(()), drive, lent.board, order),
    }
}

// Carries out the order at a place, and leaves its answer there.
fn run_place(drive: Drive, lent: &mut LentMut, list: &mut [u64], i: usize)
    requires { (checks.Ready drive (held lent.old)) × (drive.position ≡ 1) × (259 ≤ length list.old) × (i < 64) }
    ensures does { held lent.new ≡ results.doing drive (layout.order_at list.old i) (held lent.old) }
    ensures list { list.new ≡ layout.answered_at list.old i (results.saying drive (layout.order_at list.old i) (held lent.old)) }
    ensures same { same lent.old lent.new }
{
    let order = waiting::order_at(list, i);
    let said = carry_out(drive, lent, order);
    waiting::answer_at(list, i, orders::as_kept(said));
}

// Carries out the orders at the places from one to another, the earlier ones first.
fn run_places(drive: Drive, lent: &mut LentMut, list: &mut [u64], first: usize, end: usize)
    requires { (checks.Ready drive (held lent.old)) × (drive.position ≡ 1) × (259 ≤ length list.old) × (end ≤ 64) }
    ensures does { held lent.new ≡ list_laws.state_from (results.doing drive) (results.saying drive) (held lent.old) list.old first (end - first) }
    ensures list { list.new ≡ list_laws.list_from (results.doing drive) (results.saying drive) (held lent.old) list.old first (end - first) }
    ensures same { same lent.old lent.new }
{
    for i in first..end {
        run_place(drive, lent, list, i);
    }
}

// Carries out the orders that wait, in the order of arrival.
fn run(drive: Drive, lent: &mut LentMut, list: &mut [u64])
    requires { (checks.Ready drive (held lent.old)) × (drive.position ≡ 1) × (259 ≤ length list.old) }
    ensures does { held lent.new ≡ results.ran_state drive (held lent.old) list.old }
    ensures list { list.new ≡ results.ran_list drive (held lent.old) list.old }
    ensures same { same lent.old lent.new }
{
    let n = waiting::counts(list);
    let end = n.answers + n.orders;
    run_places(drive, lent, list, n.answers, end);
    waiting::settle(list, end);
}

// Where a round begins, carries out the orders that wait.
pub fn start(begins: bool, drive: Drive, lent: &mut LentMut, list: &mut [u64])
    requires { (checks.Ready drive (held lent.old)) × (begins ≡ true → drive.position ≡ 1) × (259 ≤ length list.old) }
    ensures does { held lent.new ≡ results.state_if begins drive (held lent.old) list.old }
    ensures list { list.new ≡ results.list_if begins drive (held lent.old) list.old }
    ensures same { same lent.old lent.new }
{
    if begins {
        run(drive, lent, list);
    }
}
