// The calls on one drive's slot board with a waiting list: open, read of each form of sheet, add, remove, slot. A change waits for the start of a
// round; fetch is the list's own.
// The drive, its board and its list stay parameters: the public calls (`add`, `slot`, `open` ..) are lent them apart, as C lends them.
#![tactic(auto)]

ghost use Rattle.std.specs.Prelude.{Ok, Err, ◌≡◌, ◌-◌, ◌≤◌, ◌<◌, length};
ghost use Rattle.calls.specs.Refusals as refusals;
ghost use Rattle.calls.specs.Records.{drive_at};
ghost use Rattle.calls.specs.Results.{if_clear};
ghost use Rattle.waiting.specs.Layout as layout;
ghost use Rattle.waiting.specs.Layout.{emptied};
ghost use Rattle.waiting.proofs.Laws as list_laws;
ghost use Rattle.orders.specs.declared.Declined.TheVariants.{Refused};
ghost use Rattle.orders.specs.declared.Moment.TheVariants.{Later};
ghost use Rattle.orders.specs.Answers as answers;
ghost use Rattle.orders.specs.Checks as checks;
ghost use Rattle.orders.specs.Results as results;
ghost use Rattle.orders.specs.Promises as promises;

use calls::{Checked, Drive, Refusal, Returned, Served, Unchanged};
use waiting::{Order, Outcome};

// What became of a change that was taken: it is made, with the idle leaves left, or it waits under a ticket.
#[derive(Clone, Copy, Debug, PartialEq, Eq)]
pub enum Accepted {
    Done(u16),
    Waiting(u64),
}

// Why a change was not taken: no room, with the idle leaves that there are; no place for an order; another refusal, which is never ROOM.
#[derive(Clone, Copy, Debug, PartialEq, Eq)]
pub enum Declined {
    Room(u16),
    Queue,
    Refused(Refusal),
}

impl From<Refusal> for Declined {
    ghost from_gives = { λ r d. d ≡ Refused r };

    fn from(r: Refusal) -> Declined {
        Declined::Refused(r)
    }
}

impl From<Unchanged> for Declined {
    ghost from_gives = { λ u d. d ≡ answers.declined_of u };

    fn from(u: Unchanged) -> Declined {
        match u {
            Unchanged::Room(idle) => Declined::Room(idle),
            Unchanged::Refused(r) => Declined::Refused(r),
        }
    }
}

// What add and remove give back.
pub type Ordered = Returned<Result<Accepted, Declined>>;

// When a change is made: at once, or later, from the list.
#[derive(Clone, Copy, Debug, PartialEq, Eq)]
pub enum Moment {
    Later,
    Now,
}

// Carries out an order as the call made at once does, by what the checks 1 to 5 found.
#[tactic(auto, unfolding(crate::specs::Results::carried, crate::specs::Results::carried_board))]
pub fn carry_out(
    found: Result<(), Refusal>,
    drive: Drive,
    board: &mut [u16],
    order: Order,
) -> Result<u16, Unchanged>
    requires { found ≡ refusals.change_check drive board.old }
    ensures { (result ≡ results.carried drive board.old order) × (board.new ≡ results.carried_board drive board.old order) }
{
    match order.kind {
        Order::ADD => drive.add_by(found, board, order.name, order.weight).answer,
        Order::REMOVE => drive.remove_by(found, board, order.name).answer,
        _ => Err(Unchanged::Refused(Refusal::Weight)),
    }
}

// An answer as it is kept on the list.
pub fn as_kept(change: Result<u16, Unchanged>) -> Outcome
    ensures { result ≡ answers.outcome_of change }
{
    let (number, value) = match change {
        Ok(idle) => (0, idle),
        Err(Unchanged::Room(idle)) => (Refusal::Room.number(), idle),
        Err(Unchanged::Refused(r)) => (r.number(), 0),
    };
    Outcome {
        number: number.into(),
        value: value.into(),
    }
}

// The answer of a change that is made at once.
pub fn made(change: Result<u16, Unchanged>) -> Result<Accepted, Declined>
    ensures { result ≡ answers.made change }
{
    Ok(Accepted::Done(change?))
}

// The answer of a change that goes on the list.
pub fn listed(taking: Option<u64>) -> Result<Accepted, Declined>
    ensures { result ≡ answers.listed taking }
{
    Ok(Accepted::Waiting(taking.ok_or(Declined::Queue)?))
}

// Carries out the order at a place, and leaves its answer there.
fn run_place(
    found: Result<(), Refusal>,
    drive: Drive,
    board: &mut [u16],
    list: &mut [u64],
    i: usize,
)
    requires { (found ≡ refusals.change_check drive board.old) × (259 ≤ length list.old) × (i < 64) }
    ensures { (board.new ≡ results.doing drive (layout.order_at list.old i) board.old) × (list.new ≡ layout.answered_at list.old i (results.saying drive (layout.order_at list.old i) board.old)) }
{
    let order = waiting::order_at(list, i);
    let said = carry_out(found, drive, board, order);
    waiting::answer_at(list, i, as_kept(said));
}

// Carries out the orders at the places from one to another, the earlier ones first. The checks 1 to 5 are made once for all of them, before the first:
// placing and tidying keep a good board good. What they find comes back with each place. A recursion keeps its frame to itself: a slot that runs
// nothing has none of the stack that the test of a board takes.
fn run_places(
    drive: Drive,
    board: &mut [u16],
    list: &mut [u64],
    first: usize,
    end: usize,
) -> Result<(), Refusal>
    requires { (259 ≤ length list.old) × (end ≤ 64) }
    ensures { (result ≡ refusals.change_check drive board.new) × (board.new ≡ list_laws.state_from (results.doing drive) (results.saying drive) board.old list.old first (end - first)) × (list.new ≡ list_laws.list_from (results.doing drive) (results.saying drive) board.old list.old first (end - first)) }
{
    if end <= first {
        return drive.check_change(board);
    }
    let last = end - 1;
    let found = run_places(drive, board, list, first, last);
    run_place(found, drive, board, list, last);
    found
}

// Carries out the orders that wait, in the order of arrival.
pub fn run(drive: Drive, board: &mut [u16], list: &mut [u64])
    requires { 259 ≤ length list.old }
    ensures { (board.new ≡ results.ran_board drive board.old list.old) × (list.new ≡ results.ran_list drive board.old list.old) }
{
    let n = waiting::counts(list);
    let end = n.answers + n.orders;
    if 0 < n.orders {
        let _ = run_places(drive, board, list, n.answers, end);
    }
    waiting::settle(list, end);
}

// Where a round begins, carries out the orders that wait.
fn start(begins: bool, drive: Drive, board: &mut [u16], list: &mut [u64])
    requires { 259 ≤ length list.old }
    ensures { (board.new ≡ results.board_if begins drive board.old list.old) × (list.new ≡ results.list_if begins drive board.old list.old) }
{
    if begins {
        run(drive, board, list);
    }
}

// The refusals 1 and 2, of what is lent.
#[tactic(auto, unfolding(crate::specs::Checks::lent_check))]
fn check_lent(c: usize, board: &[u16], list: &[u64]) -> Result<(), Refusal>
    ensures { result ≡ checks.lent_check c board.now (length list.now) }
{
    calls::checks::check_open(c, board)?;
    if list.len() < waiting::LENGTH {
        return Err(Refusal::Short);
    }
    Ok(())
}

// The refusals 1 to 3.
#[tactic(auto, using(crate::proofs::Changing::lent_sized), unfolding(crate::specs::Checks::bounds_check))]
fn check_bounds(drive: Drive, board: &[u16], list: &[u64]) -> Result<(), Refusal>
    ensures { result ≡ checks.bounds_check drive board.now (length list.now) }
{
    let c = drive.capacity as usize;
    check_lent(c, board, list)?;
    calls::checks::check_position(c, drive.position as usize)
}

// The refusals 6 and 7, of an order that is to wait.
pub fn check_words(order: Order) -> Result<(), Refusal>
    ensures { result ≡ checks.words_check order }
{
    if order.name == 0 {
        return Err(Refusal::Name);
    }
    if order.kind != Order::REMOVE && order.weight == 0 {
        return Err(Refusal::Weight);
    }
    Ok(())
}

// The refusals 5 to 7, of an order that is to wait.
#[tactic(auto, unfolding(crate::specs::Checks::order_check))]
fn check_order(board: &[u16], c: usize, order: Order) -> Result<(), Refusal>
    requires { (c ≤ length board.now) × (c ≤ 4095) }
    ensures { result ≡ checks.order_check c board.now order }
{
    if !pieces::good(board, c) {
        return Err(Refusal::Damaged);
    }
    check_words(order)
}

// Whether a change goes on the list.
pub fn must_wait(begins: bool, list: &[u64]) -> bool
    requires { 259 ≤ length list.now }
    ensures { result ≡ checks.waits_if begins list.now }
{
    !begins || 0 < waiting::counts(list).orders
}

// How a change is taken, by what the first checks found and whether a round begins.
#[tactic(auto, using(calls::proofs::Laws::slot_sized))]
fn how_taken(
    check: Result<(), Refusal>,
    begins: bool,
    drive: Drive,
    board: &[u16],
    list: &[u64],
    order: Order,
) -> Result<Moment, Refusal>
    requires { checks.Vouches check drive board.now list.now }
    ensures { result ≡ checks.way_by check (checks.waits_if begins list.now) (checks.order_check drive.capacity board.now order) }
{
    check?;
    if !must_wait(begins, list) {
        return Ok(Moment::Now);
    }
    check_order(board, drive.capacity as usize, order)?;
    Ok(Moment::Later)
}

// Takes a change: at once, or on the list. What the first checks found, and whether a round begins, is the caller's to say.
pub fn take(
    check: Result<(), Refusal>,
    begins: bool,
    drive: Drive,
    board: &mut [u16],
    list: &mut [u64],
    order: Order,
) -> Ordered
    requires { checks.Vouches check drive board.old list.old }
    ensures { promises.Takes (checks.way_by check (checks.waits_if begins list.old) (checks.order_check drive.capacity board.old order)) drive board.old list.old order result board.new list.new }
{
    let way = how_taken(check, begins, drive, board, list, order);
    Returned {
        drive,
        answer: accept(way, drive, board, list, order),
    }
}

// Makes a change, or puts it on the list, as was found; says what became of it.
#[tactic(auto, using(crate::proofs::Changing::made_says))]
fn accept(
    way: Result<Moment, Refusal>,
    drive: Drive,
    board: &mut [u16],
    list: &mut [u64],
    order: Order,
) -> Result<Accepted, Declined>
    requires { way ≡ Ok Later → 259 ≤ length list.old }
    ensures { promises.Accepts way drive board.old list.old order result board.new list.new }
{
    match way? {
        Moment::Later => listed(waiting::take(list, order)),
        Moment::Now => {
            let found = drive.check_change(board);
            made(carry_out(found, drive, board, order))
        }
    }
}

// Takes a change of one drive.
#[tactic(auto, using(crate::proofs::Changing::bounds_vouch), unfolding(crate::specs::Checks::must_wait, crate::specs::Checks::way_of))]
pub fn change(drive: Drive, board: &mut [u16], list: &mut [u64], order: Order) -> Ordered
    ensures { promises.Orders drive board.old list.old order result board.new list.new }
{
    let check = check_bounds(drive, board, list);
    take(check, drive.position == 1, drive, board, list, order)
}

// Admits a stream.
pub fn add(drive: Drive, board: &mut [u16], list: &mut [u64], name: u16, weight: u16) -> Ordered
    ensures { promises.Orders drive board.old list.old (results.add_order name weight) result board.new list.new }
{
    change(drive, board, list, Order::add(name, weight))
}

// Removes a stream.
pub fn remove(drive: Drive, board: &mut [u16], list: &mut [u64], name: u16) -> Ordered
    ensures { promises.Orders drive board.old list.old (results.remove_order name) result board.new list.new }
{
    change(drive, board, list, Order::remove(name))
}

// Serves a slot; where a round begins the orders that wait are carried out first. What the first checks found is the caller's to say.
#[tactic(auto, using(crate::proofs::Changing::if_slot))]
pub fn serve(
    check: Result<(), Refusal>,
    begins: bool,
    drive: Drive,
    board: &mut [u16],
    list: &mut [u64],
) -> Served
    requires { checks.Vouches check drive board.old list.old }
    ensures { promises.ServesBy check begins drive board.old list.old result board.new list.new }
{
    // A match, since `?` would give the refusal alone, and a record comes with it.
    match check {
        Err(r) => Returned {
            drive,
            answer: Err(r),
        },
        Ok(()) => {
            start(begins, drive, board, list);
            drive.slot(board)
        }
    }
}

// Serves a slot of one drive; at the start of a round the orders that wait are carried out first.
#[tactic(auto, using(crate::proofs::Changing::bounds_vouch), unfolding(crate::specs::Results::board_then, crate::specs::Results::list_then))]
pub fn slot(drive: Drive, board: &mut [u16], list: &mut [u64]) -> Served
    ensures { promises.Serves drive board.old list.old result board.new list.new }
{
    let check = check_bounds(drive, board, list);
    serve(check, drive.position == 1, drive, board, list)
}

// Opens a board, and empties the list.
#[tactic(auto, using(crate::proofs::Changing::lent_open, crate::proofs::Changing::lent_long))]
pub fn open(capacity: u16, board: &mut [u16], list: &mut [u64]) -> Checked
    ensures { promises.Opens capacity board.old list.old result board.new list.new }
{
    // A match, since `?` would give the refusal alone, and a record comes with it.
    match check_lent(capacity as usize, board, list) {
        Err(r) => Returned {
            drive: Drive::new(0, 0),
            answer: Err(r),
        },
        Ok(()) => {
            waiting::empty(list);
            Drive::open(capacity, board)
        }
    }
}

// What read gives back where the list is too short: the first refusal of the sheet and the board, or 2.
fn refuse_short(sheet: &[u8], board: &[u16]) -> Checked
    ensures { result ≡ record { drive = drive_at 0 0; answer = Err (checks.short_list sheet.now board.now) } }
{
    let refusal = sheets::check_head(sheet, board).err();
    Returned {
        drive: Drive::new(0, 0),
        answer: Err(refusal.unwrap_or(Refusal::Short)),
    }
}

// What was read without the list; where that is done the list is emptied.
fn empty_after(loaded: Checked, list: &mut [u64]) -> Checked
    requires { 259 ≤ length list.old }
    ensures { (result ≡ loaded) × (list.new ≡ if_clear loaded.answer (emptied list.old) list.old) }
{
    if loaded.answer.is_ok() {
        waiting::empty(list);
    }
    loaded
}

// Reads a sheet, and empties the list.
// This and `read_pieces` stay two: both are public calls of their own, which differ in the call of `sheets` alone, and a generic one would be a third.
pub fn read(sheet: &[u8], board: &mut [u16], list: &mut [u64]) -> Checked
    ensures { promises.Loads sheet.now board.old list.old result board.new list.new }
{
    if list.len() < waiting::LENGTH {
        return refuse_short(sheet, board);
    }
    empty_after(sheets::read(sheet, board), list)
}

// Reads a sheet of pieces, at the position that it has, and empties the list.
pub fn read_pieces(sheet: &[u8], board: &mut [u16], list: &mut [u64]) -> Checked
    ensures { promises.LoadsPieces sheet.now board.old list.old result board.new list.new }
{
    if list.len() < waiting::LENGTH {
        return refuse_short(sheet, board);
    }
    empty_after(sheets::read_pieces(sheet, board), list)
}
