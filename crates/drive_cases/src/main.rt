// The calls for two drives, on boards worked by hand: run, and not proved. The input has one act to a line, the output the same lines, each with what the
// act said: the answer's number and values, then the records of the two drives, as (C p and its round number). The expected output was worked out from
// documents 01 and 02. A line begins with the drive that the act is for, a or b, or with & for what both share.
//
//     a hold C P N  the record becomes C and P, with the round number N
//     a add X W, a remove X, a slot, a round, a report X, a save
//     & lend N      lends the first N entries of the board's store
//     & trim N      lends the first 250 + N numbers of the list's store
//     & fix I X     writes X to entry I of the board's store
//     & row         the board's store
//     & open C, & fetch T, & read of what was saved
//
// Any other line is a remark.
#![tactic(auto)]

use calls::Drive;
use std::io;
use telling::answers::{Told, tell};
use telling::playing::{Player, play};
use telling::reading::{number_at, read_text, record_of, text_room};
use telling::stores::{put, within};
use telling::{Record, Spaced};

// What a line asks for.
#[derive(Clone, Copy)]
enum Act {
    Lend { entries: usize },
    Trim { numbers: usize },
    Fix { entry: usize, name: u16 },
    Row,
    Call(Call),
}

// A call that a line asks for, or no call but that the records are said.
#[derive(Clone, Copy)]
enum Call {
    Hold(Drive),
    Add { name: u16, weight: u16 },
    Remove(u16),
    Slot,
    Round,
    Report(u16),
    Save,
    Open(u16),
    Fetch(u64),
    Read,
    Records,
}

impl Act {
    // The act of a line, which is told from others by its fifth letter; a remark has none, or begins with a dash. One letter tells the acts, so that remarks and
    // longer words read as they do: whole words would act otherwise on other inputs.
    fn parse(line: &[u8]) -> Option<Act> {
        let letter = line.get(4)?;
        if line.first() == Some(&b'-') {
            return None;
        }
        let x = number_at(line, 0);
        let n = usize::from(x);
        let act = match letter {
            b'-' => return None,
            b'n' => Act::Lend { entries: n },
            b'i' => Act::Trim { numbers: 250 + n },
            b'x' => Act::Fix {
                entry: n,
                name: number_at(line, 1),
            },
            b'w' => Act::Row,
            letter => Act::Call(Call::parse(*letter, line)),
        };
        Some(act)
    }
}

impl Call {
    // The call of a line with such a fifth letter; see `Act::parse`.
    fn parse(letter: u8, line: &[u8]) -> Call {
        let x = number_at(line, 0);
        match letter {
            b'l' => Call::Hold(record_of(line)),
            b'd' => Call::Add {
                name: x,
                weight: number_at(line, 1),
            },
            b'm' => Call::Remove(x),
            b'o' => Call::Slot,
            b'u' => Call::Round,
            b'p' => Call::Report(x),
            b'v' => Call::Save,
            b'e' => Call::Open(x),
            b't' => Call::Fetch(u64::from(x)),
            b'a' => Call::Read,
            _ => Call::Records,
        }
    }
}

// The records of the two drives, a's first; how many entries of the board's store and how many numbers of the list's are lent; and the stores. The
// stores are lent by `main`, since each line takes the desk and gives it back.
#[derive(Drop)]
struct Desk<'a> {
    drives: [Drive; 2],
    entries: usize,
    numbers: usize,
    board: &'a mut [u16],
    list: &'a mut [u64],
    sheet: &'a mut [u8],
}

impl Desk<'_> {
    // Makes a call of the first drive beside the second. Open and read give both drives their record.
    fn call(self, rt: &impl Print, call: Call) -> io::Result<Self> {
        let Desk {
            drives: [own, other],
            entries,
            numbers,
            board: all_board,
            list: all_list,
            sheet,
        } = self;
        let m = within(entries, all_board);
        let n = within(numbers, all_list);
        let board = &mut all_board[..m];
        let list = &mut all_list[..n];
        let after = match call {
            Call::Hold(drive) => silent(rt, drive)?,
            Call::Add { name, weight } => {
                tell(rt, drives::add(own, other, board, list, name, weight))?
            }
            Call::Remove(name) => tell(rt, drives::remove(own, other, board, list, name))?,
            Call::Slot => tell(rt, drives::slot(own, other, board, list))?,
            Call::Round => {
                let mut output = [0; 9];
                let after = tell(rt, drives::round(own, other, board, &mut output))?;
                print!(rt; "{}", Spaced(&output))?;
                after
            }
            Call::Report(name) => tell(rt, drives::report(own, other, board, name))?,
            Call::Save => tell(rt, drives::save(own, other, board, sheet))?,
            Call::Open(capacity) => tell(rt, orders::open(capacity, board, list))?,
            Call::Read => tell(rt, orders::read(sheet, board, list))?,
            Call::Fetch(ticket) => {
                print!(rt; ": {}", Told(waiting::fetch(list, ticket)))?;
                own
            }
            Call::Records => silent(rt, own)?,
        };
        let both = matches!(call, Call::Open(_) | Call::Read);
        Ok(Desk {
            drives: [after, if both { after } else { other }],
            entries,
            numbers,
            board: all_board,
            list: all_list,
            sheet,
        })
    }
}

// The colon before the records where a line says nothing else; gives back the record.
fn silent(rt: &impl Print, drive: Drive) -> io::Result<Drive> {
    rt.print(":")?;
    Ok(drive)
}

impl Player for Desk<'_> {
    // A line begins with the drive that acts, a where it isn't b.
    fn play(mut self, rt: &impl Print, line: &[u8]) -> io::Result<Self> {
        match Act::parse(line) {
            None => {}
            Some(Act::Lend { entries }) => self.entries = entries,
            Some(Act::Trim { numbers }) => self.numbers = numbers,
            Some(Act::Fix { entry, name }) => put(self.board, entry, name),
            Some(Act::Row) => print!(rt; ":{}", Spaced(self.board))?,
            Some(Act::Call(call)) => {
                let turned = line.first() == Some(&b'b');
                if turned {
                    self.drives.swap(0, 1);
                }
                self = self.call(rt, call)?;
                if turned {
                    self.drives.swap(0, 1);
                }
                let [a, b] = self.drives;
                print!(rt; " {} {}", Record(a), Record(b))?;
            }
        }
        Ok(self)
    }
}

// No board is lent, and the list has all its numbers.
fn main(rt: HostRuntime) -> io::Result<()> {
    let mut room = text_room();
    let text = read_text(rt.reader(), &mut room)?;
    let (mut board, mut list, mut sheet) = ([0; 9], [0; 260], [0; 512]);
    let desk = Desk {
        drives: [Drive::new(0, 0), Drive::new(0, 0)],
        entries: 0,
        numbers: 259,
        board: &mut board,
        list: &mut list,
        sheet: &mut sheet,
    };
    play(&rt, text, desk)
}
