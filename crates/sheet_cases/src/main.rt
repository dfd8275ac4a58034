// Sheets that are saved, changed and read: what save and read answer to each row of the input, and what they leave behind.
// The expected output was worked out from document 01.
#![tactic(auto)]

ghost use Rattle.std.specs.Prelude.{◌<◌, length};

use calls::{Drive, Refusal, Returned};
use std::io;
use telling::Row;
use telling::answers::Told;
use telling::reading::{Numbers, entry_of, read_text, text_room};
use telling::stores::{mark, number_in, part, put_number, within};

// The leaves of the boards that are saved.
#[derive(Clone, Copy)]
enum Leaves {
    Idle,
    OneName,
    Upwards,
    Downwards,
    NotGood,
}

impl From<u16> for Leaves {
    fn from(number: u16) -> Leaves {
        match number {
            0 => Leaves::Idle,
            1 => Leaves::OneName,
            2 => Leaves::Upwards,
            3 => Leaves::Downwards,
            _ => Leaves::NotGood,
        }
    }
}

impl Leaves {
    // The name on leaf i.
    fn name(self, i: u16) -> u16
        requires { i < 4095 }
    {
        match self {
            Leaves::Idle => 0,
            Leaves::OneName => 7,
            Leaves::Upwards => i + 1,
            Leaves::Downwards => 65535 - i,
            Leaves::NotGood => if i % 2 == 0 { i + 1 } else { 0 },
        }
    }

    // A board whose first n entries are such leaves, and the others idle.
    fn board(self, n: u16) -> [u16; 4095] {
        let mut board = [0; 4095];
        // By index: of the numbers that a zip with 0..n gives, no bound is known.
        for i in 0..n.min(4095) {
            board[usize::from(i)] = self.name(i);
        }
        board
    }
}

// Saves such leaves, with C and at the start of a round.
fn save_board(capacity: u16, leaves: Leaves, sheet: &mut [u8]) -> Result<usize, Refusal> {
    let saved = sheets::save(Drive::new(capacity, 1), &leaves.board(capacity), sheet);
    saved.answer
}

// Changes a number of a sheet, and where asked mends the sum of its block. A number past the sheet is none.
fn change(sheet: &mut [u8], i: u16, n: u16, mended: bool) {
    let i = usize::from(i);
    let old = number_in(sheet, i);
    put_number(sheet, i, usize::from(n));
    if mended {
        let last = i - i % 256 + 255;
        let sum = number_in(sheet, last);
        put_number(
            sheet,
            last,
            usize::from(sum.wrapping_add(old).wrapping_sub(n)),
        );
    }
}

// Reads a sheet to the first entries of a board that holds 60000 everywhere: the answer, C, p, and how many entries are set. Gives back the board.
fn show_read(rt: &impl Print, sheet: &[u8], entries: usize) -> io::Result<[u16; 4095]> {
    let mut board = [60000; 4095];
    let n = within(entries, &board);
    let Returned { drive, answer } = sheets::read(sheet, &mut board[..n]);
    let set = board.iter().filter(|name| **name != 60000).count();
    print!(rt;
        " {} {} {} {set}",
        Told(answer),
        drive.capacity,
        drive.position
    )?;
    Ok(board)
}

// Saves a board of a capacity, with leaves of a kind, and reads it back.
fn round_trip(rt: &impl Print, capacity: u16, kind: u16, sheet: &mut [u8]) -> io::Result<()> {
    let made = Leaves::from(kind).board(capacity);
    let saved = save_board(capacity, Leaves::from(kind), sheet);
    let written = part(sheet, 0, saved.unwrap_or(0));
    print!(rt; "{capacity} {kind} {} {}", Told(saved), mark(written))?;
    let read = show_read(rt, written, 4095)?;
    let kept = read
        .iter()
        .zip(made.iter())
        .take(usize::from(capacity))
        .filter(|(found, leaf)| found == leaf)
        .count();
    println!(rt; " {kept}")
}

// A capacity: its boards with leaves of each kind that is good.
fn run_capacity(rt: &impl Print, capacity: u16, sheet: &mut [u8]) -> io::Result<()> {
    if capacity <= 4095 {
        for kind in 0..4 {
            round_trip(rt, capacity, kind, sheet)?;
        }
    }
    Ok(())
}

// One save, of a row: C, p, the board's leaves, how many entries the board has, and how many bytes the output has. The answer, the bytes, the record, and
// what the output then holds.
fn run_save(rt: &impl Print, row: [u64; 5], sheet: &mut [u8]) -> io::Result<()> {
    let [capacity, position, kind, entries, bytes] = row.map(entry_of);
    let made = Leaves::from(kind).board(entries);
    let board = part(&made, 0, usize::from(entries));
    sheet.fill(170);
    let n = within(usize::from(bytes), sheet);
    let saved = sheets::save(Drive::new(capacity, position), board, &mut sheet[..n]);
    let Returned { drive, answer } = saved;
    print!(rt;
        "{} {} {} {}",
        Row(&row),
        Told(answer),
        drive.capacity,
        drive.position
    )?;
    println!(rt; " {}", mark(sheet))
}

// One read, of a row: the C and the leaves of the board that is saved, two numbers of its sheet and what they become, whether the sums are made right
// again, how many bytes are read, and how many entries the lent board has.
fn run_read(rt: &impl Print, row: [u64; 9], sheet: &mut [u8]) -> io::Result<()> {
    let [
        capacity,
        kind,
        first,
        one,
        second,
        other,
        mended,
        bytes,
        entries,
    ] = row.map(entry_of);
    sheet.fill(0);
    let _ = save_board(capacity, Leaves::from(kind), sheet);
    change(sheet, first, one, mended == 1);
    change(sheet, second, other, mended == 1);
    print!(rt; "{}", Row(&row))?;
    show_read(rt, part(sheet, 0, usize::from(bytes)), usize::from(entries))?;
    rt.println("")
}

// The answer of read where one byte is changed by so much. The byte is put back before anything is printed, so that a failed write leaves the sheet whole.
fn read_changed(sheet: &mut [u8], i: usize, by: u8, entries: usize) -> Result<(), Refusal>
    requires { i < length sheet.old }
{
    let mut board = [0; 4095];
    let n = within(entries, &board);
    let old = sheet[i];
    sheet[i] = old.wrapping_add(by);
    let loaded = sheets::read(sheet, &mut board[..n]);
    sheet[i] = old;
    loaded.answer
}

// The same for each byte of a sheet, or one in so many.
fn run_bytes(
    rt: &impl Print,
    capacity: u16,
    leaves: Leaves,
    step: usize,
    by: u8,
    entries: usize,
    sheet: &mut [u8],
) -> io::Result<()>
    requires { 0 < step }
{
    println!(rt;
        "read, one byte changed: C, one in, by, entries lent {capacity} {step} {by} {entries}"
    )?;
    let bytes = save_board(capacity, leaves, sheet).unwrap_or(0);
    let n = within(bytes, sheet);
    let sheet = &mut sheet[..n];
    for i in (0..n).step_by(step) {
        let answer = read_changed(sheet, i, by, entries);
        if 0 < i {
            rt.print(" ")?;
        }
        rt.print(Told(answer))?;
    }
    rt.println("")
}

// Each byte of a sheet of one block changed, by amounts that make its C larger, smaller, zero and too large, and some of seventeen blocks.
fn run_changes(rt: &impl Print, sheet: &mut [u8]) -> io::Result<()> {
    run_bytes(rt, 5, Leaves::Upwards, 1, 1, 4095, sheet)?;
    run_bytes(rt, 5, Leaves::Upwards, 1, 128, 4095, sheet)?;
    run_bytes(rt, 5, Leaves::Upwards, 1, 1, 5, sheet)?;
    run_bytes(rt, 5, Leaves::Upwards, 1, 251, 4095, sheet)?;
    run_bytes(rt, 4095, Leaves::Downwards, 97, 1, 4095, sheet)?;
    run_bytes(rt, 4095, Leaves::Downwards, 61, 128, 4095, sheet)
}

// Every length of a sheet: one is answered 0, which the boards read back above tell, and all others 12.
fn show_lengths(rt: &impl Print, capacity: u16, sheet: &mut [u8; 9216]) -> io::Result<()> {
    let _ = save_board(capacity, Leaves::Upwards, sheet);
    let mut board = [0; 4095];
    let mut clear: usize = 0;
    let mut block: usize = 0;
    for n in 0..=9216 {
        let loaded = sheets::read(&sheet[..n], &mut board);
        match loaded.answer {
            Ok(()) => clear += 1,
            Err(Refusal::Block) => block += 1,
            Err(_) => {}
        }
    }
    println!(rt; "{capacity} {clear} {block}")
}

fn run_lengths(rt: &impl Print, sheet: &mut [u8; 9216]) -> io::Result<()> {
    println!(rt; "read, each length from 0 to 9216: C, how many are answered 0, and 12")?;
    for capacity in [1, 253, 254, 4095] {
        show_lengths(rt, capacity, sheet)?;
    }
    Ok(())
}

// The rows of each kind: how many there are, and then each.
fn run_rows(rt: &impl Print, text: &[u8], sheet: &mut [u8]) -> io::Result<()> {
    let mut numbers = Numbers(text);
    println!(rt;
        "saved and read back: C, leaves, answer, bytes, mark of the bytes; answer, C, p, entries set, leaves kept"
    )?;
    for _ in 0..numbers.entry() {
        run_capacity(rt, numbers.entry(), sheet)?;
    }
    println!(rt;
        "save: C, p, leaves, entries, bytes lent; answer, bytes, C, p, mark of the output"
    )?;
    for _ in 0..numbers.entry() {
        run_save(rt, numbers.row(), sheet)?;
    }
    println!(rt;
        "read: C, leaves, number changed to, number changed to, sums mended, bytes read, entries lent; answer, C, p, entries set"
    )?;
    for _ in 0..numbers.entry() {
        run_read(rt, numbers.row(), sheet)?;
    }
    Ok(())
}

fn main(rt: HostRuntime) -> io::Result<()> {
    let mut room = text_room();
    let text = read_text(rt.reader(), &mut room)?;
    let mut sheet = [0; 9216];
    run_rows(&rt, text, &mut sheet)?;
    run_changes(&rt, &mut sheet)?;
    run_lengths(&rt, &mut sheet)
}
