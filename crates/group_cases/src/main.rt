// Group tables that are imported: the source's example, C = 1, full tables, every fault with the next one applying too, and tables of over-allocated
// streams. The input has the tables. Run, and not proved; the expected output was worked out from documents 01 and 02 and from source document 000,
// section III.
#![tactic(auto)]

use groups::{Imported, Unimported};
use std::io;
use telling::reading::{Numbers, entry_of, read_text, text_room};
use telling::stores::{part, with_entry, within};
use telling::{Record, Spaced};

// How many numbers of the input are taken. What a text doesn't have is zeros.
const NUMBERS: usize = 512;

// The numbers of the answers to a capacity that is no power of two and to what is no group table, by the table of docs/CALLS.md; `groups` gives the kinds
// alone.
const POWER: u16 = 16;

const GROUP: u16 = 18;

// A table to be imported, and how much is lent of the board's store, the list's and the output's.
#[derive(Clone, Copy)]
struct Case<'a> {
    capacity: u16,
    board: u16,
    list: u16,
    output: u16,
    starts: &'a [u16],
    names: &'a [u16],
}

impl<'a> Case<'a> {
    // The case at the start of a table, and what follows it; none where the table ends within it.
    fn parse(table: &'a [u16]) -> Option<(Case<'a>, &'a [u16])> {
        let ([capacity, board, list, output], rest) = table.split_first_chunk::<4>()?;
        let (starts, rest) = counted(rest)?;
        let (names, rest) = counted(rest)?;
        let case = Case {
            capacity: *capacity,
            board: *board,
            list: *list,
            output: *output,
            starts,
            names,
        };
        Some((case, rest))
    }
}

// The entries at the start of a table that come after their count, and what follows them.
fn counted(table: &[u16]) -> Option<(&[u16], &[u16])> {
    let (n, rest) = table.split_first()?;
    rest.split_at_checked(usize::from(*n))
}

// The stores of a board, of a list and of an output.
#[derive(Drop)]
struct Stores {
    board: [u16; 2049],
    list: [u64; 259],
    output: [u16; 2049],
}

impl Stores {
    // A board of nines, a list of twos and an output of sevens.
    fn new() -> Stores {
        Stores {
            board: [9; 2049],
            list: [2; 259],
            output: [7; 2049],
        }
    }

    // Says 17 entries of the board, the last ticket, the answers and the orders of the list, 17 entries of the output.
    fn show(&self, rt: &impl Print) -> io::Result<()> {
        let board = Spaced(part(&self.board, 0, 17));
        let list = Spaced(part(&self.list, 0, 3));
        let output = Spaced(part(&self.output, 0, 17));
        println!(rt; ", board{board}, list{list}, output{output}")
    }
}

fn number_of(answer: Result<(), Unimported>) -> u16 {
    match answer {
        Ok(()) => 0,
        Err(Unimported::Power) => POWER,
        Err(Unimported::Group) => GROUP,
        Err(Unimported::Refused(why)) => why.number(),
    }
}

// What was asked for, and what was said: the answer's number and the record.
fn show_imported(
    rt: &impl Print,
    capacity: u16,
    starts: &[u16],
    names: &[u16],
    r: Imported,
) -> io::Result<()> {
    let first_starts = Spaced(part(starts, 0, 12));
    let first_names = Spaced(part(names, 0, 6));
    print!(rt;
        "import {capacity}, starts{first_starts}, names{first_names}: {}",
        number_of(r.answer)
    )?;
    print!(rt; " {}", Record(r.drive))
}

// Imports a case's table to stores of its own, and says what became of them.
fn show_case(rt: &impl Print, case: Case<'_>) -> io::Result<()> {
    let Case {
        capacity,
        starts,
        names,
        ..
    } = case;
    let mut stores = Stores::new();
    let n = within(usize::from(case.board), &stores.board);
    let m = within(usize::from(case.list), &stores.list);
    let o = within(usize::from(case.output), &stores.output);
    let r = groups::import(
        capacity,
        starts,
        names,
        &mut stores.board[..n],
        &mut stores.list[..m],
        &mut stores.output[..o],
    );
    show_imported(rt, capacity, starts, names, r)?;
    stores.show(rt)
}

// The cases at the start of a table: how many there are, and then each. What follows them, which is nothing where the table ends within one.
fn show_cases<'a>(rt: &impl Print, table: &'a [u16]) -> io::Result<&'a [u16]> {
    let Some((n, mut rest)) = table.split_first() else {
        return Ok(&[]);
    };
    for _ in 0..*n {
        let Some((case, after)) = Case::parse(rest) else {
            return Ok(&[]);
        };
        show_case(rt, case)?;
        rest = after;
    }
    Ok(rest)
}

// The number that tells the first 2,048 entries, and the entry beyond them.
fn show_order(rt: &impl Print, word: &str, entries: &[u16; 2049]) -> io::Result<()> {
    let order = part(entries, 0, 2048)
        .iter()
        .fold(0, |order, x| with_entry(order, *x));
    print!(rt; ", {word} {order} {}", entries[2048])
}

// A full table of 2,048 streams.
fn show_full(rt: &impl Print, mut stores: Stores) -> io::Result<Stores> {
    let starts = [0, 0, 0, 0, 0, 0, 0, 0, 0, 0, 0, 2048];
    let mut names = [0; 2048];
    for (entry, name) in names.iter_mut().zip(1..) {
        *entry = name;
    }
    let r = groups::import(
        2048,
        &starts,
        &names,
        &mut stores.board,
        &mut stores.list,
        &mut stores.output,
    );
    show_imported(rt, 2048, &starts, &names, r)?;
    show_order(rt, "board", &stores.board)?;
    show_order(rt, "output", &stores.output)?;
    rt.println("")?;
    Ok(stores)
}

// The rows of a table: how many there are, and then each: how much is lent of each table of over-allocated streams, and five starts. The names are 1 to 5.
fn show_rows(rt: &impl Print, table: &[u16], mut stores: Stores) -> io::Result<()> {
    let Some((rows, rest)) = table.split_first() else {
        return Ok(());
    };
    let names = [1, 2, 3, 4, 5];
    let mut rates = [3; 17];
    let mut owed = [3; 17];
    let mut other = [3; 17];
    for row in rest.chunks_exact(8).take(usize::from(*rows)) {
        if let [l, m, n, starts @ ..] = row {
            let l = within(usize::from(*l), &rates);
            let m = within(usize::from(*m), &owed);
            let n = within(usize::from(*n), &other);
            let r = groups::import_shares(
                16,
                starts,
                &names,
                &mut stores.board,
                &mut rates[..l],
                &mut owed[..m],
                &mut other[..n],
                &mut stores.list,
                &mut stores.output,
            );
            show_imported(rt, 16, starts, &names, r)?;
            print!(rt;
                ", rates{}, owed{}",
                Spaced(&rates[..l]),
                Spaced(&owed[..m])
            )?;
            print!(rt; ", other{}", Spaced(&other[..n]))?;
            stores.show(rt)?;
        }
    }
    Ok(())
}

fn main(rt: HostRuntime) -> io::Result<()> {
    let mut room = text_room();
    let text = read_text(rt.reader(), &mut room)?;
    let mut table = [0; NUMBERS];
    for (entry, n) in table.iter_mut().zip(Numbers(text)) {
        *entry = entry_of(n);
    }
    let rest = show_cases(&rt, &table)?;
    let stores = show_full(&rt, Stores::new())?;
    show_rows(&rt, rest, stores)
}
