// Sheets of pieces that are made by hand, saved, read and turned into sheets of leaves and back: what each call answers to each row of the input, and what it
// leaves behind. The expected output was worked out from document 02's No. 9.
#![tactic(auto)]

ghost use Rattle.std.specs.Prelude.{◌<◌};

use calls::{Checked, Drive, Refusal, Returned};
use std::io;
use telling::Row;
use telling::answers::Told;
use telling::reading::{Numbers, entry_of, read_text, text_room};
use telling::stores::{mark, number_in, part, put_number, within};

// Fifty blocks: one more than the longest sheet has.
const BYTES: usize = 25600;

// A board whose first n entries are the names 1, 2 and so on, a piece each, and the others idle.
fn board_of(n: u16) -> [u16; 4095] {
    let mut board = [0; 4095];
    for (entry, name) in board.iter_mut().zip(1..=n) {
        *entry = name;
    }
    board
}

// Makes the sum of a block right: that of all its numbers is 0.
fn seal(block: &mut [u8]) {
    let sum = part(block, 0, 510)
        .chunks_exact(2)
        .fold(0u16, |sum, number| sum.wrapping_add(number_in(number, 0)));
    put_number(block, 255, usize::from(sum.wrapping_neg()));
}

// Starts a block of pieces: its number, C and p.
fn start(block: &mut [u8], number: u16, capacity: u16, position: u16) {
    put_number(block, 0, usize::from(32768 | number));
    put_number(block, 1, usize::from(capacity));
    put_number(block, 2, usize::from(position));
}

// Writes entry j of a block: name, start, exponent of the size.
fn enter(block: &mut [u8], j: usize, entry: [u16; 3])
    requires { j < 84 }
{
    let [name, start, exponent] = entry;
    put_number(block, 3 + 3 * j, usize::from(name));
    put_number(block, 4 + 3 * j, usize::from(start));
    put_number(block, 5 + 3 * j, usize::from(exponent));
}

// Makes a block with C = 90: n names of one leaf each, from leaf a on.
fn make_block(block: &mut [u8], number: u16, position: u16, n: u16, a: u16) {
    start(block, number, 90, position);
    for j in 0..n.min(84) {
        let leaf = a.wrapping_add(j);
        enter(block, usize::from(j), [leaf.wrapping_add(1), leaf, 0]);
    }
    seal(block);
}

// The forms of a sheet: each has its reader, and is what the other is turned into.
#[derive(Clone, Copy)]
enum Form {
    Leaves,
    Pieces,
}

impl Form {
    fn read(self, sheet: &[u8], board: &mut [u16]) -> Checked {
        match self {
            Form::Leaves => sheets::read(sheet, board),
            Form::Pieces => sheets::read_pieces(sheet, board),
        }
    }

    // Turns a sheet into the form.
    fn turn(self, sheet: &[u8], output: &mut [u8]) -> Result<usize, Refusal> {
        match self {
            Form::Leaves => sheets::to_leaves(sheet, output),
            Form::Pieces => sheets::to_pieces(sheet, output),
        }
    }
}

// Turns a sheet into the form, with so much room in an output of 170s: the answer and the bytes, which it gives back.
fn show_turn(
    rt: &impl Print,
    form: Form,
    sheet: &[u8],
    output: &mut [u8],
    room: usize,
) -> io::Result<usize> {
    output.fill(170);
    let n = within(room, output);
    let answer = form.turn(sheet, &mut output[..n]);
    print!(rt; " {}", Told(answer))?;
    Ok(answer.unwrap_or(0))
}

// Reads to the first entries of a board that holds 60000 everywhere: the answer, C, p, and the mark of the board.
fn show_read(rt: &impl Print, form: Form, sheet: &[u8], entries: usize) -> io::Result<()> {
    let mut board = [60000; 4095];
    let n = within(entries, &board);
    let Returned { drive, answer } = form.read(sheet, &mut board[..n]);
    print!(rt; " {} {} {}", Told(answer), drive.capacity, drive.position)?;
    print!(rt; " {}", mark(&board))
}

// A sheet of one block with two entries, read to 16 entries: a row is C, p, and name, start and exponent of each.
fn run_entries(rt: &impl Print, row: [u64; 8], sheet: &mut [u8]) -> io::Result<()> {
    let [capacity, position, x, a, l, y, b, m] = row.map(entry_of);
    sheet.fill(0);
    start(sheet, 0, capacity, position);
    enter(sheet, 0, [x, a, l]);
    enter(sheet, 1, [y, b, m]);
    seal(sheet);
    print!(rt; "{}", Row(&row))?;
    show_read(rt, Form::Pieces, part(sheet, 0, 512), 16)?;
    rt.println("")
}

// A sheet of two blocks: a row is how many names the first has and the second, p in each, and the bytes that are read.
fn run_blocks(rt: &impl Print, row: [u64; 5], sheet: &mut [u8; BYTES]) -> io::Result<()> {
    let [first, second, position, other, bytes] = row.map(entry_of);
    sheet.fill(0);
    make_block(&mut sheet[..512], 0, position, first, 0);
    make_block(&mut sheet[512..1024], 1, other, second, first);
    print!(rt; "{}", Row(&row))?;
    show_read(rt, Form::Pieces, part(sheet, 0, usize::from(bytes)), 4095)?;
    rt.println("")
}

// A board of C names of one leaf each, saved as pieces at p, to a sheet of 170s.
fn save_names(capacity: u16, position: u16, sheet: &mut [u8]) -> Result<usize, Refusal> {
    sheet.fill(170);
    let saved = sheets::save_pieces(Drive::new(capacity, position), &board_of(capacity), sheet);
    saved.answer
}

// A row is C and p: saved, read by both readers, and turned into a sheet of leaves and back.
fn run_trip(rt: &impl Print, row: [u64; 2], sheet: &mut [u8], other: &mut [u8]) -> io::Result<()> {
    let [capacity, position] = row.map(entry_of);
    let answer = save_names(capacity, position, sheet);
    print!(rt; "{} {} {}", Row(&row), Told(answer), mark(sheet))?;
    let saved = part(sheet, 0, answer.unwrap_or(0));
    show_read(rt, Form::Pieces, saved, 4095)?;
    show_read(rt, Form::Leaves, saved, 4095)?;
    rt.println("")?;
    let there = show_turn(rt, Form::Leaves, saved, other, BYTES)?;
    print!(rt; " {}", mark(other))?;
    let leaves = part(other, 0, there);
    let back = show_turn(rt, Form::Pieces, leaves, sheet, BYTES)?;
    print!(rt; " {back} {}", mark(sheet))?;
    show_read(rt, Form::Pieces, leaves, 4095)?;
    rt.println("")
}

// What the conversions refuse: a row is C, p, how many bytes of the sheet are turned into leaves, and how much room there is.
fn run_turn(rt: &impl Print, row: [u64; 4], sheet: &mut [u8], other: &mut [u8]) -> io::Result<()> {
    let [capacity, position, bytes, room] = row.map(entry_of);
    let _ = save_names(capacity, position, sheet);
    print!(rt; "{}", Row(&row))?;
    let sheet = part(sheet, 0, usize::from(bytes));
    show_turn(rt, Form::Leaves, sheet, other, usize::from(room))?;
    println!(rt; " {}", mark(other))
}

// The rows of each kind: how many there are, and then each.
fn main(rt: HostRuntime) -> io::Result<()> {
    let mut room = text_room();
    let text = read_text(rt.reader(), &mut room)?;
    let mut numbers = Numbers(text);
    let mut sheet = [0; BYTES];
    let mut other = [0; BYTES];
    println!(rt;
        "one block, two entries: C, p, name, start, exponent, name, start, exponent; answer, C, p, mark of the board"
    )?;
    for _ in 0..numbers.entry() {
        run_entries(&rt, numbers.row(), &mut sheet)?;
    }
    println!(rt; "two blocks: entries, entries, p, p, bytes; answer, C, p, mark of the board")?;
    for _ in 0..numbers.entry() {
        run_blocks(&rt, numbers.row(), &mut sheet)?;
    }
    println!(rt;
        "saved as pieces: C, p; answer, bytes, mark; read as pieces, and as leaves: answer, C, p, mark of the board"
    )?;
    println!(rt;
        "turned into leaves: answer, bytes, mark; back: answer, bytes, bytes, mark; the leaves read as pieces"
    )?;
    println!(rt; "or a part of it turned into leaves: C, p, bytes, room; answer, bytes, mark")?;
    for _ in 0..numbers.entry() {
        run_trip(&rt, numbers.row(), &mut sheet, &mut other)?;
    }
    for _ in 0..numbers.entry() {
        run_turn(&rt, numbers.row(), &mut sheet, &mut other)?;
    }
    Ok(())
}
