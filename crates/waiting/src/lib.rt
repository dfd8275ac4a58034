// The waiting list, a lent run of numbers: taking an order, leaving its answer, fetching it, emptying the list. What an order does is not known here.
// Each call takes the run itself, since C lends it: one that is long enough, but for `fetch`, which tests that.
#![tactic(auto)]

ghost use Rattle.std.specs.Prelude.{◌≡◌, ◌+◌, ◌≤◌, ◌<◌, length};
ghost use Rattle.waiting.specs.Layout as layout;
ghost use Rattle.waiting.specs.Promises as promises;

// How many numbers a list has: the last ticket, two counts, and 64 places of four numbers each. A lent run may be longer.
pub const LENGTH: usize = 259;

// How many places.
pub const PLACES: usize = 64;

// A change that is asked for. What a kind does is for those who carry it out.
#[derive(Clone, Copy, Debug, PartialEq, Eq)]
pub struct Order {
    // A number, since a lent list may hold any here, and `order_at` promises the order that each is.
    pub kind: u16,
    pub name: u16,
    pub weight: u16,
}

impl Order {
    // The kind that admits a stream.
    pub const ADD: u16 = 1;

    // The kind that removes a stream.
    pub const REMOVE: u16 = 2;

    // The kind that admits an over-allocated stream, of weight r in one piece of R leaves.
    pub const OVER: u16 = 3;

    // Returns the order to admit a stream of a weight.
    pub fn add(name: u16, weight: u16) -> Order
        ensures { result ≡ record { kind = 1; name = name; weight = weight } }
    {
        Order {
            kind: Order::ADD,
            name,
            weight,
        }
    }

    // Returns the order to remove a stream. Its weight is 0.
    pub fn remove(name: u16) -> Order
        ensures { result ≡ record { kind = 2; name = name; weight = 0 } }
    {
        Order {
            kind: Order::REMOVE,
            name,
            weight: 0,
        }
    }

    // Returns the order to admit an over-allocated stream of weight r.
    pub fn over(name: u16, weight: u16) -> Order
        ensures { result ≡ record { kind = 3; name = name; weight = weight } }
    {
        Order {
            kind: Order::OVER,
            name,
            weight,
        }
    }
}

// What an order was answered.
#[derive(Clone, Copy, Debug, PartialEq, Eq)]
pub struct Outcome {
    // A number, since a lent list may hold any here, and `fetch` promises the outcome that each is.
    pub number: u64,
    pub value: u64,
}

// How many answers and orders a list has.
#[derive(Clone, Copy, Debug, PartialEq, Eq)]
pub struct Tally {
    pub answers: usize,
    pub orders: usize,
}

// What the list holds under a ticket: the place of an answer, or an order.
#[derive(Clone, Copy)]
enum Held {
    Answer(usize),
    Order,
}

// Why no answer was fetched: the order waits, or there is no such ticket.
#[derive(Clone, Copy, Debug, PartialEq, Eq)]
pub enum Unfetched {
    Waits(u64),
    Unknown,
}

// How many answers and orders the list has.
pub fn counts(list: &[u64]) -> Tally
    requires { 259 ≤ length list.now }
    ensures { (result.answers ≡ layout.answers_in list.now) × (result.orders ≡ layout.orders_in list.now) × (result.answers + result.orders ≤ 64) }
{
    let places = PLACES as u64;
    let answers = list[1].min(places);
    let orders = list[2].min(places - answers);
    Tally {
        answers: answers as usize,
        orders: orders as usize,
    }
}

// Sets the two counts.
#[tactic(auto, unfolding(crate::specs::Layout::counted))]
fn set_counts(list: &mut [u64], answers: usize, orders: usize)
    requires { 259 ≤ length list.old }
    ensures { list.new ≡ layout.counted list.old answers orders }
{
    list[1] = answers as u64;
    list[2] = orders as u64;
}

// The order at a place.
#[tactic(auto, unfolding(crate::specs::Layout::order_at))]
pub fn order_at(list: &[u64], i: usize) -> Order
    requires { (259 ≤ length list.now) × (i < 64) }
    ensures { result ≡ layout.order_at list.now i }
{
    let at = 4 * i;
    Order {
        kind: (list[4 + at] % 65536) as u16,
        name: (list[5 + at] % 65536) as u16,
        weight: (list[6 + at] % 65536) as u16,
    }
}

// The answer at a place.
#[tactic(auto, unfolding(crate::specs::Layout::outcome_at))]
fn outcome_at(list: &[u64], i: usize) -> Outcome
    requires { (259 ≤ length list.now) × (i < 64) }
    ensures { result ≡ layout.outcome_at list.now i }
{
    let at = 4 * i;
    Outcome {
        number: list[4 + at],
        value: list[5 + at],
    }
}

// Leaves the answer of the order at a place there.
#[tactic(auto, unfolding(crate::specs::Layout::answered_at))]
pub fn answer_at(list: &mut [u64], i: usize, said: Outcome)
    requires { (259 ≤ length list.old) × (i < 64) }
    ensures { list.new ≡ layout.answered_at list.old i said }
{
    let at = 4 * i;
    list[4 + at] = said.number;
    list[5 + at] = said.value;
}

// Every order up to the place end has its answer: none waits.
pub fn settle(list: &mut [u64], end: usize)
    requires { 259 ≤ length list.old }
    ensures { list.new ≡ layout.counted list.old end 0 }
{
    set_counts(list, end, 0);
}

// Writes an order to a place, under a ticket.
#[tactic(auto, unfolding(crate::specs::Layout::put_at))]
fn put_at(list: &mut [u64], i: usize, ticket: u64, order: Order)
    requires { (259 ≤ length list.old) × (i < 64) }
    ensures { list.new ≡ layout.put_at list.old i ticket order }
{
    let at = 4 * i;
    list[3 + at] = ticket;
    list[4 + at] = order.kind as u64;
    list[5 + at] = order.name as u64;
    list[6 + at] = order.weight as u64;
}

// Takes an order behind those that wait, if there is a place and a ticket for it.
#[tactic(auto, using(crate::proofs::Listing::not_full, crate::proofs::Listing::full_places, crate::proofs::Listing::full_tickets), unfolding(crate::specs::Layout::joined))]
pub fn take(list: &mut [u64], order: Order) -> Option<u64>
    requires { 259 ≤ length list.old }
    ensures { promises.Takes list.old order result list.new }
{
    let n = counts(list);
    let i = n.answers + n.orders;
    if i == PLACES {
        return None;
    }
    let ticket = list[0].checked_add(1)?;
    put_at(list, i, ticket, order);
    list[0] = ticket;
    set_counts(list, n.answers, n.orders + 1);
    Some(ticket)
}

// The first of n places that has the ticket, if one has.
fn place_of(list: &[u64], ticket: u64, n: usize) -> Option<usize>
    requires { (259 ≤ length list.now) × (n ≤ 64) }
    ensures { result ≡ layout.first_of list.now ticket n }
{
    (0..n).position(|i| list[3 + 4 * i] == ticket)
}

// What the list knows of a ticket.
#[tactic(auto, unfolding(crate::specs::Layout::found, crate::specs::Layout::place_of))]
fn find(list: &[u64], ticket: u64) -> Option<Held>
    requires { 259 ≤ length list.now }
    ensures { result ≡ layout.found list.now ticket }
{
    if ticket == 0 {
        return None;
    }
    let n = counts(list);
    let i = place_of(list, ticket, n.answers + n.orders)?;
    if i < n.answers {
        Some(Held::Answer(i))
    } else {
        Some(Held::Order)
    }
}

// Moves m numbers down by four, to j and on.
#[tactic(auto, using(crate::proofs::Listing::lowered_paste))]
fn lower(list: &mut [u64], j: usize, m: usize)
    requires { (j + m + 4 ≤ length list.old) × (j + m ≤ 259) }
    ensures { list.new ≡ layout.lowered list.old j m }
{
    list.copy_within(j + 4..j + 4 + m, j);
}

// Takes the answer at a place off the list: the later places move down.
#[tactic(auto, unfolding(crate::specs::Layout::without_place))]
fn drop_at(list: &mut [u64], i: usize)
    requires { (259 ≤ length list.old) × (i < layout.answers_in list.old) }
    ensures { list.new ≡ layout.without_place list.old i }
{
    let n = counts(list);
    lower(list, 3 + 4 * i, 4 * (n.answers + n.orders - (i + 1)));
    set_counts(list, n.answers - 1, n.orders);
}

// Fetches an answer by its ticket, once.
#[tactic(auto, using(crate::proofs::Listing::found_below, crate::proofs::Listing::found_small))]
pub fn fetch(list: &mut [u64], ticket: u64) -> Result<Outcome, Unfetched>
    ensures { promises.Fetches list.old ticket result list.new }
{
    if list.len() < LENGTH {
        return Err(Unfetched::Unknown);
    }
    match find(list, ticket).ok_or(Unfetched::Unknown)? {
        Held::Order => Err(Unfetched::Waits(ticket)),
        Held::Answer(i) => {
            let said = outcome_at(list, i);
            drop_at(list, i);
            Ok(said)
        }
    }
}

// Empties the list. The tickets count on.
#[tactic(auto, unfolding(crate::specs::Layout::emptied))]
pub fn empty(list: &mut [u64])
    requires { 259 ≤ length list.old }
    ensures { list.new ≡ layout.emptied list.old }
{
    set_counts(list, 0, 0);
}
