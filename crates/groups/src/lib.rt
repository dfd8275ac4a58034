// Reads a neighbour's group table (request No. 11; source document 000, section III): its round by its own rule, and its streams as adds to an opened board.
// The starts, the names and k stay parameters: `import` is lent both apart, as C lends them, and the checks read a table that may have a fault. One that has
// none is a `GroupTable`. The tables of over-allocated streams, which `import_shares` clears, are lent apart by C too.
#![tactic(auto)]

ghost use Rattle.std.specs.Prelude.{◌≡◌, ◌++◌, suc, ◌+◌, ◌*◌, ◌^◌, ◌<◌, ◌≤◌, length, replicate, drop};
ghost use Rattle.pieces.specs.Fresh as fresh;
ghost use Rattle.groups.specs.declared.Unimported.TheVariants.{Refused};
ghost use Rattle.groups.specs.Table as table;
ghost use Rattle.groups.specs.Rounds as rounds;
ghost use Rattle.groups.specs.Results as results;
ghost use Rattle.groups.specs.Promises as promises;

use calls::{Drive, Refusal, Returned};

// Why a table was not imported: the capacity is no power of two; the table has a fault; a refusal.
#[derive(Clone, Copy, Debug, PartialEq, Eq)]
pub enum Unimported {
    Power,
    Group,
    Refused(Refusal),
}

impl From<Refusal> for Unimported {
    ghost from_gives = { λ r u. u ≡ Refused r };

    fn from(r: Refusal) -> Unimported {
        Unimported::Refused(r)
    }
}

// What an import gives back.
pub type Imported = Returned<Result<(), Unimported>>;

// ---- lists

// The rate of list i.
fn rate_of(k: usize, i: usize) -> usize
    requires { (k ≤ 11) × (i < k) }
    ensures { result ≡ table.rate k i }
{
    1usize << (k - (i + 1))
}

// How many streams list i holds.
fn streams_of(starts: &[u16], k: usize, i: usize) -> usize
    requires { (k ≤ 11) × (i < k) × table.Rising k starts.now }
    ensures { (result ≡ table.stream_count k starts.now i) × (result < 65536) }
{
    (starts[i + 1] as usize - starts[i] as usize) / rate_of(k, i)
}

// At which place the names of list i begin.
fn offset_of(starts: &[u16], k: usize, i: usize) -> usize
    requires { (k ≤ 11) × (i ≤ k) × table.Rising k starts.now }
    ensures { (result ≡ table.offset k starts.now i) × (result ≤ i * 65536) }
{
    // By hand: `map(..).sum()` asks for a proof that each sum on the way fits, which the loop's invariant says in a line.
    let mut n = 0;
    for j in 0..i {
        n += streams_of(starts, k, j);
    }
    n
}

// ---- faults

// Whether list i disagrees with the starts.
fn bad_list(starts: &[u16], k: usize, i: usize) -> bool
    requires { (k ≤ 11) × (i < k) × (length starts.now ≡ suc k) }
    ensures { result ≡ table.bad_list k starts.now i }
{
    let from = starts[i] as usize;
    let to = starts[i + 1] as usize;
    to < from || (to - from) % rate_of(k, i) != 0
}

// Whether a list does.
fn bad_lists(starts: &[u16], k: usize) -> bool
    requires { (k ≤ 11) × (length starts.now ≡ suc k) }
    ensures { result ≡ table.any_from (table.bad_list k starts.now) 0 k }
{
    (0..k).any(|i| bad_list(starts, k, i))
}

// Whether the name at place i is 0, or stands at an earlier place too.
fn bad_name(names: &[u16], i: usize) -> bool
    requires { (i < length names.now) × (i ≤ 720896) }
    ensures { result ≡ table.bad_name names.now i }
{
    let x = names[i];
    x == 0 || names[..i].contains(&x)
}

// Whether a name does.
fn bad_names(names: &[u16]) -> bool
    requires { length names.now ≤ 720896 }
    ensures { result ≡ table.any_from (table.bad_name names.now) 0 (length names.now) }
{
    (0..names.len()).any(|i| bad_name(names, i))
}

// The refusal 18, of a table for 2 ^ k slots.
fn faulty(starts: &[u16], names: &[u16], k: usize) -> bool
    requires { k ≤ 11 }
    ensures { result ≡ table.faulty k starts.now names.now }
{
    starts.len() != k + 1
        || starts[0] != 0
        || bad_lists(starts, k)
        || (1usize << k) < starts[k] as usize
        || names.len() != offset_of(starts, k, k)
        || bad_names(names)
}

// The refusal 2, for the board and the list.
#[tactic(auto, unfolding(calls::specs::Refusals::applies))]
fn short_lent(c: usize, board: &[u16], list: usize) -> bool
    ensures { result ≡ results.lent_short c board.now list }
{
    board.len() < c || list < waiting::LENGTH
}

// The refusals 1, 16, 2, 18 and 11, in this order.
#[tactic(auto, unfolding(crate::specs::Results::finding, tree::specs::Marks::levels))]
fn check(
    c: usize,
    starts: &[u16],
    names: &[u16],
    short: bool,
    output: usize,
) -> Result<(), Unimported>
    ensures { result ≡ results.finding c starts.now names.now short output }
{
    if c == 0 || Drive::LARGEST < c {
        return Err(Refusal::Capacity.into());
    }
    if 1 < c.count_ones() {
        return Err(Unimported::Power);
    }
    if short {
        return Err(Refusal::Short.into());
    }
    if faulty(starts, names, c.trailing_zeros() as usize) {
        return Err(Unimported::Group);
    }
    if output < c {
        return Err(Refusal::Output.into());
    }
    Ok(())
}

// ---- the table's round

// The list whose range has v; none for the idle one.
fn find(starts: &[u16], k: usize, v: usize) -> Option<usize>
    requires { length starts.now ≡ suc k }
    ensures { result ≡ rounds.list_found k starts.now v }
{
    starts[1..].iter().position(|next| v < *next as usize)
}

// The pointer after p in a list of c streams.
fn next(c: usize, p: usize) -> usize
    requires { p < 65536 }
    ensures { result ≡ rounds.next_pointer c p }
{
    if p + 1 < c { p + 1 } else { 0 }
}

// Admits n streams of the weight w, by their names from a place on. There is room for each.
fn admit_list(board: &mut [u16], c: usize, names: &[u16], from: usize, n: usize, w: usize)
    requires { (from + n ≤ length names.now) × (from + n ≤ 4096) × fresh.Placeables c board.old (table.streams_at names.now w from n) }
    ensures { board.new ≡ fresh.all_placed c board.old (table.streams_at names.now w from n) }
{
    for name in &names[from..from + n] {
        let _ = pieces::admit(board, c, *name, w);
    }
}

// ---- a table without a fault

// A table without a fault, for 2 ^ k slots.
#[derive(Clone, Copy)]
struct GroupTable<'a> {
    starts: &'a [u16],
    names: &'a [u16],
    k: usize,
    ghost few: { k ≤ 11 },
    ghost sound: { table.Table k starts.now names.now },
}

impl GroupTable<'_> {
    // One slot that selects v: the name under the pointer of its list, which moves on.
    fn serve(&self, pointers: &mut [u16], v: usize) -> u16
        requires { rounds.Pointing self.now.k self.now.starts.now pointers.old }
        ensures { (result ≡ rounds.slot_name self.now.k self.now.starts.now self.now.names.now pointers.old v) × (pointers.new ≡ rounds.pointers_moved self.now.k self.now.starts.now pointers.old v) }
    {
        match find(self.starts, self.k, v) {
            None => 0,
            Some(i) => {
                let p = pointers[i] as usize;
                let at = offset_of(self.starts, self.k, i) + p;
                pointers[i] = next(streams_of(self.starts, self.k, i), p) as u16;
                self.names[at]
            }
        }
    }

    // Writes the round to the start of the output, from pointers that each stand at the head of their list.
    fn write_slots(&self, pointers: &mut [u16], output: &mut [u16])
        requires { (pointers.old ≡ replicate self.now.k 0) × (2 ^ self.now.k ≤ length output.old) }
        ensures { output.new ≡ rounds.round_of self.now.k self.now.starts.now self.now.names.now ++ drop (2 ^ self.now.k) output.old }
    {
        let c = 1usize << self.k;
        for t in 0..c {
            output[t] = self.serve(pointers, sequences::reversed(t, self.k));
        }
    }

    // Writes the round to the start of the output. Every pointer begins at the head of its list.
    fn write_round(&self, output: &mut [u16])
        requires { 2 ^ self.now.k ≤ length output.old }
        ensures { output.new ≡ rounds.round_of self.now.k self.now.starts.now self.now.names.now ++ drop (2 ^ self.now.k) output.old }
    {
        // No pointer has moved yet.
        let mut pointers = names::zeros::<11>();
        self.write_slots(&mut pointers[0..self.k], output);
    }

    // Admits the streams, in table order. There is room for each of them.
    fn admit_all(&self, board: &mut [u16], c: usize)
        requires { fresh.Placeables c board.old (table.table_streams self.now.k self.now.starts.now self.now.names.now) }
        ensures { board.new ≡ fresh.all_placed c board.old (table.table_streams self.now.k self.now.starts.now self.now.names.now) }
    {
        let mut from = 0;
        for i in 0..self.k {
            let n = streams_of(self.starts, self.k, i);
            admit_list(board, c, self.names, from, n, rate_of(self.k, i));
            from += n;
        }
    }
}

// ---- the import

// Imports a table by what the checks found: writes its round to the output, empties the list, opens the board, and admits the table's streams.
fn import_by(
    found: Result<(), Unimported>,
    capacity: u16,
    starts: &[u16],
    names: &[u16],
    board: &mut [u16],
    list: &mut [u64],
    output: &mut [u16],
) -> Imported
    requires { promises.VouchesImport found capacity starts.now names.now board.old list.old output.old }
    ensures { promises.ImportsBy found capacity starts.now names.now board.old list.old output.old result board.new list.new output.new }
{
    // A match, since `?` would give the refusal alone, and a record comes with it.
    match found {
        Err(e) => Returned {
            drive: Drive::new(0, 0),
            answer: Err(e),
        },
        Ok(()) => {
            let c = capacity as usize;
            let k = c.trailing_zeros() as usize;
            let table = GroupTable { starts, names, k };
            table.write_round(output);
            waiting::empty(list);
            let opened = Drive::open(capacity, board);
            table.admit_all(board, c);
            Returned {
                drive: opened.drive,
                answer: Ok(()),
            }
        }
    }
}

// Imports a table.
pub fn import(
    capacity: u16,
    starts: &[u16],
    names: &[u16],
    board: &mut [u16],
    list: &mut [u64],
    output: &mut [u16],
) -> Imported
    ensures { promises.Imports capacity starts.now names.now board.old list.old output.old result board.new list.new output.new }
{
    let c = capacity as usize;
    let short = short_lent(c, board, list.len());
    let found = check(c, starts, names, short, output.len());
    import_by(found, capacity, starts, names, board, list, output)
}

// Imports a table, where tables of over-allocated streams are lent as well: none of its streams is one, and the tables are cleared.
pub fn import_shares(
    capacity: u16,
    starts: &[u16],
    names: &[u16],
    board: &mut [u16],
    rates: &mut [u16],
    owed: &mut [u16],
    other: &mut [u16],
    list: &mut [u64],
    output: &mut [u16],
) -> Imported
    ensures { promises.ImportsShares capacity starts.now names.now board.old rates.old owed.old other.old list.old output.old result board.new rates.new owed.new other.new list.new output.new }
{
    let c = capacity as usize;
    let short = short_lent(c, board, list.len())
        || rates.len() < c
        || owed.len() < c
        || other.len() < c;
    let found = check(c, starts, names, short, output.len());
    if found.is_ok() {
        tables::clear_table(rates, c);
        tables::clear_table(owed, c);
        tables::clear_table(other, c);
    }
    import_by(found, capacity, starts, names, board, list, output)
}
