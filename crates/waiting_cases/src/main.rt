// The calls with the waiting list on boards and lists worked by hand: run, and not proved. The input has one act to a line, the output the same lines, each
// with what the act said: the answer's number and values, then the record, as (C p and its round number). The expected output was worked out from
// documents 01 and 02.
//
//     lend N X M Y  lends a board of N entries and a list of M numbers; every entry of the store behind the one is X, every number behind the other Y
//     fix I X       writes X to entry I of the board's store
//     tag I X       writes X to number I of the list's store
//     mar I X       writes X to byte I of the sheet's store
//     row I N       the N entries of the board's store from I on
//     list I N      the N numbers of the list's store from I on
//     hold C P N    the record becomes C and P, with the round number N
//     open C, add X W, remove X, slot, fetch T
//     try K X W     a change of kind K
//     round M       the first M names of a round
//     save, and read N of the first N bytes that were saved
//
// Any other line is a remark.
#![tactic(auto)]

use calls::Drive;
use std::io;
use telling::answers::{Told, tell};
use telling::playing::{Player, play};
use telling::reading::{long_at, number_at, read_text, record_of, text_room};
use telling::stores::{part, put, within};
use telling::{Record, Spaced};
use waiting::Order;

// What a line asks for.
#[derive(Clone, Copy)]
enum Act {
    Lend(Lent),
    Fix { entry: usize, name: u16 },
    Tag { number: usize, value: u64 },
    Mar { byte: usize, value: u8 },
    Row { from: usize, shown: usize },
    List { from: usize, shown: usize },
    Hold(Drive),
    Call(Call),
}

// How much is lent of the stores of the board and of the list, and what each entry and each number becomes.
#[derive(Clone, Copy)]
struct Lent {
    entries: usize,
    name: u16,
    numbers: usize,
    value: u64,
}

// A call that a line asks for.
#[derive(Clone, Copy)]
enum Call {
    Open(u16),
    Add { name: u16, weight: u16 },
    Remove(u16),
    Slot,
    Fetch(u64),
    Try(Order),
    Round { shown: usize },
    Save,
    Read { bytes: usize },
}

impl Act {
    // The act of a line, which is told from others by its third letter; a remark has none. One letter tells the acts, so that remarks and longer words read as
    // they do: whole words would act otherwise on other inputs.
    fn parse(line: &[u8]) -> Option<Act> {
        let at = usize::from(number_at(line, 0));
        let x = number_at(line, 1);
        let act = match line.get(2)? {
            b'n' => Act::Lend(Lent {
                entries: at,
                name: x,
                numbers: usize::from(number_at(line, 2)),
                value: long_at(line, 3),
            }),
            b'x' => Act::Fix { entry: at, name: x },
            b'g' => Act::Tag {
                number: at,
                value: long_at(line, 1),
            },
            b'r' => Act::Mar {
                byte: at,
                value: (x % 256) as u8,
            },
            b'w' => Act::Row {
                from: at,
                shown: usize::from(x),
            },
            b's' => Act::List {
                from: at,
                shown: usize::from(x),
            },
            b'l' => Act::Hold(record_of(line)),
            letter => Act::Call(Call::parse(*letter, line)?),
        };
        Some(act)
    }
}

impl Call {
    // The call of a line with such a third letter; see `Act::parse`.
    fn parse(letter: u8, line: &[u8]) -> Option<Call> {
        let first = number_at(line, 0);
        let second = number_at(line, 1);
        let call = match letter {
            b'e' => Call::Open(first),
            b'd' => Call::Add {
                name: first,
                weight: second,
            },
            b'm' => Call::Remove(first),
            b'o' => Call::Slot,
            b't' => Call::Fetch(long_at(line, 0)),
            b'y' => Call::Try(Order {
                kind: first,
                name: second,
                weight: number_at(line, 2),
            }),
            b'u' => Call::Round {
                shown: usize::from(first),
            },
            b'v' => Call::Save,
            b'a' => Call::Read {
                bytes: usize::from(first),
            },
            _ => return None,
        };
        Some(call)
    }
}

// The record, how many entries of the board's store and how many numbers of the list's are lent, and the stores. The stores are
// lent by `main`, since each line takes the desk and gives it back.
#[derive(Drop)]
struct Desk<'a> {
    drive: Drive,
    entries: usize,
    numbers: usize,
    board: &'a mut [u16],
    list: &'a mut [u64],
    sheet: &'a mut [u8],
}

// Writes a round to a store, and says the store's first entries. Its frame is its own, since a function pays at its entry for each of its arrays.
#[inline(never)]
fn show_round(rt: &impl Print, drive: Drive, board: &[u16], shown: usize) -> io::Result<Drive> {
    let mut output = [0; 4097];
    let after = tell(rt, drive.round(board, &mut output))?;
    print!(rt; "{}", Spaced(part(&output, 0, shown)))?;
    Ok(after)
}

impl Desk<'_> {
    // Makes a call, and says the record after it.
    fn call(self, rt: &impl Print, call: Call) -> io::Result<Self> {
        let Desk {
            drive,
            entries,
            numbers,
            board: all_board,
            list: all_list,
            sheet,
        } = self;
        let m = within(entries, all_board);
        let n = within(numbers, all_list);
        let board = &mut all_board[..m];
        let list = &mut all_list[..n];
        let drive = match call {
            Call::Open(capacity) => tell(rt, orders::open(capacity, board, list))?,
            Call::Add { name, weight } => tell(rt, orders::add(drive, board, list, name, weight))?,
            Call::Remove(name) => tell(rt, orders::remove(drive, board, list, name))?,
            Call::Try(order) => tell(rt, orders::change(drive, board, list, order))?,
            Call::Slot => tell(rt, orders::slot(drive, board, list))?,
            Call::Fetch(ticket) => {
                print!(rt; ": {}", Told(waiting::fetch(list, ticket)))?;
                drive
            }
            Call::Round { shown } => show_round(rt, drive, board, shown)?,
            Call::Save => tell(rt, sheets::save(drive, board, sheet))?,
            Call::Read { bytes } => { tell(rt, orders::read(part(sheet, 0, bytes), board, list))? }
        };
        print!(rt; " {}", Record(drive))?;
        Ok(Desk {
            drive,
            entries,
            numbers,
            board: all_board,
            list: all_list,
            sheet,
        })
    }
}

impl Player for Desk<'_> {
    fn play(mut self, rt: &impl Print, line: &[u8]) -> io::Result<Self> {
        match Act::parse(line) {
            None => {}
            Some(Act::Lend(lent)) => {
                self.board.fill(lent.name);
                self.list.fill(lent.value);
                self.entries = lent.entries;
                self.numbers = lent.numbers;
            }
            Some(Act::Fix { entry, name }) => put(self.board, entry, name),
            Some(Act::Tag { number, value }) => put(self.list, number, value),
            Some(Act::Mar { byte, value }) => put(self.sheet, byte, value),
            Some(Act::Row { from, shown }) => {
                print!(rt; ":{}", Spaced(part(self.board, from, shown)))?;
            }
            Some(Act::List { from, shown }) => {
                print!(rt; ":{}", Spaced(part(self.list, from, shown)))?;
            }
            Some(Act::Hold(drive)) => self.drive = drive,
            Some(Act::Call(call)) => return self.call(rt, call),
        }
        Ok(self)
    }
}

fn main(rt: HostRuntime) -> io::Result<()> {
    let mut room = text_room();
    let text = read_text(rt.reader(), &mut room)?;
    let (mut board, mut list, mut sheet) = ([0; 4097], [0; 300], [0; 2048]);
    let desk = Desk {
        drive: Drive::new(0, 0),
        entries: 0,
        numbers: 0,
        board: &mut board,
        list: &mut list,
        sheet: &mut sheet,
    };
    play(&rt, text, desk)
}
