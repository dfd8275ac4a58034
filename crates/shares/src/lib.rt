// The calls that are lent the tables of over-allocated streams, for two drives on one board with one waiting list: add, over-allocated add, remove, slot. `own` is
// the record of the drive that the call is for, and comes back; `other` is the other drive's, and is only looked at; `owed` and `owed_other` are their deficits. A
// single drive gives its record in both places and lends a second table of deficits, which stays zero. Every call looks at the whole board and every table.
// `add`, `remove` and `slot` stand in `orders` and `drives` too: what differs is what is lent, how it is tested and what a change does to it, and a trait of
// these with its laws, under public calls that stay as they are, is longer.
#![tactic(auto)]

ghost use Rattle.std.specs.Prelude.{◌≡◌, ◌||◌, Ok, ◌≤◌, ltb, length};
ghost use Rattle.orders.specs.Checks as words;
ghost use Rattle.orders.specs.Results.{add_order, remove_order};
ghost use Rattle.shares.specs.States.{lent, looked, held, same};
ghost use Rattle.shares.specs.Checks as checks;
ghost use Rattle.shares.specs.Results.{over_order};
ghost use Rattle.shares.specs.Results as results;
ghost use Rattle.shares.specs.Promises as promises;

use calls::{Drive, Refusal, Returned, Served, Slot};
use orders::{Accepted, Declined, Moment, Ordered};
use waiting::Order;

pub mod carrying;

// What a call is lent beside the waiting list, to be looked at: the board, r of the over-allocated streams, the deficits of the drive that the call is for, and those
// of the other drive. The public calls are lent each slice apart, as C lends them.
#[derive(Clone, Copy)]
pub struct Lent<'a> {
    pub board: &'a [u16],
    pub rates: &'a [u16],
    pub owed: &'a [u16],
    pub owed_other: &'a [u16],
}

// The same, to be changed.
#[derive(Drop)]
pub struct LentMut<'a> {
    pub board: &'a mut [u16],
    pub rates: &'a mut [u16],
    pub owed: &'a mut [u16],
    pub owed_other: &'a mut [u16],
}

impl<'a> LentMut<'a> {
    // Returns the same, to be looked at.
    fn look(&self) -> Lent<'_>
        ensures { looked result ≡ held self.now }
    {
        Lent {
            board: self.board,
            rates: self.rates,
            owed: self.owed,
            owed_other: self.owed_other,
        }
    }
}

// Whether something that is lent is too short: what `short` says, or a table of fewer than c entries.
pub fn lacks(short: bool, c: usize, rates: &[u16], owed: &[u16], owed_other: &[u16]) -> bool
    ensures { result ≡ (short || (ltb (length rates.now) c || (ltb (length owed.now) c || ltb (length owed_other.now) c))) }
{
    short || rates.len() < c || owed.len() < c || owed_other.len() < c
}

// The refusal 5, of the whole board and every table.
#[tactic(auto, unfolding(crate::specs::Checks::fit_check))]
fn check_fit(c: usize, lent: Lent) -> Result<(), Refusal>
    requires { (c ≤ length lent.board.now) × (c ≤ length lent.rates.now) × (c ≤ length lent.owed.now) × (c ≤ length lent.owed_other.now) × (c ≤ 4095) }
    ensures { result ≡ checks.fit_check c (looked lent.entry) }
{
    if tables::fitting::fits(lent.board, c, lent.rates, lent.owed, lent.owed_other) {
        Ok(())
    } else {
        Err(Refusal::Damaged)
    }
}

// The refusals 1 to 5. `there` says that the drives are where the call is made, `short` that something else that is lent is too short.
pub fn check_placed(
    there: bool,
    own: Drive,
    other: Drive,
    lent: Lent,
    short: bool,
) -> Result<(), Refusal>
    ensures { result ≡ checks.placed_check there own other (looked lent.entry) short }
{
    let c = own.capacity.max(other.capacity) as usize;
    let lacking = lacks(short, c, lent.rates, lent.owed, lent.owed_other);
    drives::check_pair(own, other, lent.board, lacking)?;
    if there {
        check_fit(own.capacity as usize, lent)
    } else {
        Err(Refusal::Midround)
    }
}

// The refusals 1, 2, 3 and 5, wherever the drives are.
#[tactic(auto, unfolding(crate::specs::Checks::share_check))]
pub fn check_shares(own: Drive, other: Drive, lent: Lent, short: bool) -> Result<(), Refusal>
    ensures { result ≡ checks.share_check own other (looked lent.entry) short }
{
    check_placed(true, own, other, lent, short)
}

// How a change is taken, by what the first checks found and whether a round begins. The board was looked at in these checks.
fn way_of(
    check: Result<(), Refusal>,
    begins: bool,
    list: &[u64],
    order: Order,
) -> Result<Moment, Refusal>
    requires { check ≡ Ok tt → 259 ≤ length list.now }
    ensures { result ≡ words.way_by check (words.waits_if begins list.now) (words.words_check order) }
{
    check?;
    if !orders::must_wait(begins, list) {
        return Ok(Moment::Now);
    }
    orders::check_words(order)?;
    Ok(Moment::Later)
}

// What a change answers, and what it does.
fn take(
    own: Drive,
    other: Drive,
    lent: &mut LentMut,
    list: &mut [u64],
    order: Order,
) -> Result<Accepted, Declined>
    ensures orders { promises.Orders own other (held lent.old) list.old order (record { drive = own; answer = result }) (held lent.new) list.new }
    ensures same { same lent.old lent.new }
{
    let check = check_shares(own, other, lent.look(), list.len() < waiting::LENGTH);
    let begins = drives::both_start(own, other);
    match way_of(check, begins, list, order)? {
        Moment::Later => orders::listed(waiting::take(list, order)),
        Moment::Now => orders::made(carrying::carry_out(own, lent, order)),
    }
}

// Takes a change: at once, where both drives are at the start of a round and no order waits, or on the list.
pub fn change(
    own: Drive,
    other: Drive,
    board: &mut [u16],
    list: &mut [u64],
    rates: &mut [u16],
    owed: &mut [u16],
    owed_other: &mut [u16],
    order: Order,
) -> Ordered
    ensures { promises.Orders own other (lent board.old rates.old owed.old owed_other.old) list.old order result (lent board.new rates.new owed.new owed_other.new) list.new }
{
    let mut lent = LentMut {
        board,
        rates,
        owed,
        owed_other,
    };
    let answer = take(own, other, &mut lent, list, order);
    Returned { drive: own, answer }
}

// Admits a stream.
pub fn add(
    own: Drive,
    other: Drive,
    board: &mut [u16],
    list: &mut [u64],
    rates: &mut [u16],
    owed: &mut [u16],
    owed_other: &mut [u16],
    name: u16,
    weight: u16,
) -> Ordered
    ensures { promises.Orders own other (lent board.old rates.old owed.old owed_other.old) list.old (add_order name weight) result (lent board.new rates.new owed.new owed_other.new) list.new }
{
    let order = Order::add(name, weight);
    change(own, other, board, list, rates, owed, owed_other, order)
}

// Admits an over-allocated stream: one piece of R leaves, the smallest power of two not below its weight.
pub fn over(
    own: Drive,
    other: Drive,
    board: &mut [u16],
    list: &mut [u64],
    rates: &mut [u16],
    owed: &mut [u16],
    owed_other: &mut [u16],
    name: u16,
    weight: u16,
) -> Ordered
    ensures { promises.Orders own other (lent board.old rates.old owed.old owed_other.old) list.old (over_order name weight) result (lent board.new rates.new owed.new owed_other.new) list.new }
{
    let order = Order::over(name, weight);
    change(own, other, board, list, rates, owed, owed_other, order)
}

// Removes a stream.
pub fn remove(
    own: Drive,
    other: Drive,
    board: &mut [u16],
    list: &mut [u64],
    rates: &mut [u16],
    owed: &mut [u16],
    owed_other: &mut [u16],
    name: u16,
) -> Ordered
    ensures { promises.Orders own other (lent board.old rates.old owed.old owed_other.old) list.old (remove_order name) result (lent board.new rates.new owed.new owed_other.new) list.new }
{
    let order = Order::remove(name);
    change(own, other, board, list, rates, owed, owed_other, order)
}

// Serves the slot at the record's position: the stream at its leaf takes its turn, by the deficits of the own drive. It is lent the slices apart: no
// call may look at one field of what stands behind a reference while it changes another, and the turn looks at the board and r while it changes a deficit.
fn serve(drive: Drive, board: &[u16], rates: &[u16], owed: &mut [u16], owed_other: &[u16]) -> Served
    requires { checks.Ready drive (lent board.now rates.now owed.old owed_other.now) }
    ensures { (result ≡ results.served_by (Ok tt) drive (lent board.now rates.now owed.old owed_other.now)) × (lent board.now rates.now owed.new owed_other.now ≡ results.turn_state drive (lent board.now rates.now owed.old owed_other.now)) }
{
    let served = drive.slot(board);
    let Ok(slot) = served.answer else {
        return served;
    };
    let c = drive.capacity as usize;
    let name = tables::turns::turn_at(board, c, rates, owed, slot.leaf as usize);
    Returned {
        drive: served.drive,
        answer: Ok(Slot { name, ..slot }),
    }
}

// Serves a slot of the own drive; where both drives are at the start of a round the orders that wait are carried out first.
pub fn slot(
    own: Drive,
    other: Drive,
    board: &mut [u16],
    list: &mut [u64],
    rates: &mut [u16],
    owed: &mut [u16],
    owed_other: &mut [u16],
) -> Served
    ensures { promises.Serves own other (lent board.old rates.old owed.old owed_other.old) list.old result (lent board.new rates.new owed.new owed_other.new) list.new }
{
    let mut lent = LentMut {
        board,
        rates,
        owed,
        owed_other,
    };
    let short = list.len() < waiting::LENGTH;
    if let Err(refusal) = check_shares(own, other, lent.look(), short) {
        return Returned {
            drive: own,
            answer: Err(refusal),
        };
    }
    let begins = drives::both_start(own, other);
    carrying::start(begins, own, &mut lent, list);
    serve(own, board, rates, owed, owed_other)
}
