// Boards worked by hand, vectors and refusals that are run and not proved. The input has one act to a line, the output the same lines, each with what
// the act said: the answer's number and values, then the record, as (C p and its round number). The expected output was worked out from document 01.
//
//     lend N X      lends a board of N entries; every entry of the store behind it is X
//     put I X       writes X to entry I of the store
//     leaves I N    the N entries of the store from I on
//     hold C P N    the record becomes C and P, with the round number N, or 0 where there is none
//     open C, add X W, remove X, slot, report X
//     lay           lays the board out afresh
//     round N M     lends an output of N entries of 99, and shows its first M afterwards
//
// Any other line is a remark.
#![tactic(auto)]

use calls::Drive;
use std::io;
use telling::answers::tell;
use telling::playing::{Player, play};
use telling::reading::{number_at, read_text, record_of, text_room};
use telling::stores::{part, put, within};
use telling::{Record, Spaced};

// What a line asks for.
#[derive(Clone, Copy)]
enum Act {
    Lend { entries: usize, name: u16 },
    Put { entry: usize, name: u16 },
    Leaves { from: usize, shown: usize },
    Hold(Drive),
    Call(Call),
}

// A call that a line asks for.
#[derive(Clone, Copy)]
enum Call {
    Open(u16),
    Add { name: u16, weight: u16 },
    Remove(u16),
    Slot,
    Report(u16),
    Lay,
    Round { room: usize, shown: usize },
}

impl Act {
    // The act of a line, which is told from others by its third letter; a remark has none. One letter tells the acts, so that remarks and longer words read as
    // they do: whole words would act otherwise on other inputs.
    fn parse(line: &[u8]) -> Option<Act> {
        let at = usize::from(number_at(line, 0));
        let x = number_at(line, 1);
        let act = match line.get(2)? {
            b'n' => Act::Lend {
                entries: at,
                name: x,
            },
            b't' => Act::Put { entry: at, name: x },
            b'a' => Act::Leaves {
                from: at,
                shown: usize::from(x),
            },
            b'l' => Act::Hold(record_of(line)),
            letter => Act::Call(Call::parse(*letter, line)?),
        };
        Some(act)
    }
}

impl Call {
    // The call of a line with such a third letter; see `Act::parse`.
    fn parse(letter: u8, line: &[u8]) -> Option<Call> {
        let first = number_at(line, 0);
        let second = number_at(line, 1);
        let call = match letter {
            b'e' => Call::Open(first),
            b'd' => Call::Add {
                name: first,
                weight: second,
            },
            b'm' => Call::Remove(first),
            b'o' => Call::Slot,
            b'p' => Call::Report(first),
            b'y' => Call::Lay,
            b'u' => Call::Round {
                room: usize::from(first),
                shown: usize::from(second),
            },
            _ => return None,
        };
        Some(call)
    }
}

// The record, how many entries of the store are lent, and the store. The store is lent by `main`, since each line takes the desk and gives it back.
#[derive(Drop)]
struct Desk<'a> {
    drive: Drive,
    lent: usize,
    store: &'a mut [u16],
}

// Writes a round to a store, of which so many entries are lent; says the record after it and the store's first entries. Its frame is its own, since a function
// pays at its entry for each of its arrays.
#[inline(never)]
fn show_round(
    rt: &impl Print,
    drive: Drive,
    board: &[u16],
    room: usize,
    shown: usize,
) -> io::Result<Drive> {
    let mut output = [99; 4097];
    let lent = within(room, &output);
    let after = tell(rt, drive.round(board, &mut output[..lent]))?;
    print!(rt; " {}{}", Record(after), Spaced(part(&output, 0, shown)))?;
    Ok(after)
}

impl Desk<'_> {
    // Makes a call, and says the record after it.
    fn call(mut self, rt: &impl Print, call: Call) -> io::Result<Self> {
        let n = within(self.lent, self.store);
        let drive = self.drive;
        let board = &mut self.store[..n];
        self.drive = match call {
            Call::Open(capacity) => tell(rt, Drive::open(capacity, board))?,
            Call::Add { name, weight } => tell(rt, drive.add(board, name, weight))?,
            Call::Remove(name) => tell(rt, drive.remove(board, name))?,
            Call::Slot => tell(rt, drive.slot(board))?,
            Call::Report(name) => tell(rt, drive.report(board, name))?,
            Call::Lay => tell(rt, drive.fresh(board))?,
            Call::Round { room, shown } => {
                self.drive = show_round(rt, drive, board, room, shown)?;
                return Ok(self);
            }
        };
        print!(rt; " {}", Record(self.drive))?;
        Ok(self)
    }
}

impl Player for Desk<'_> {
    fn play(mut self, rt: &impl Print, line: &[u8]) -> io::Result<Self> {
        match Act::parse(line) {
            None => {}
            Some(Act::Lend { entries, name }) => {
                self.store.fill(name);
                self.lent = entries;
            }
            Some(Act::Put { entry, name }) => put(self.store, entry, name),
            Some(Act::Leaves { from, shown }) => {
                print!(rt; ":{}", Spaced(part(self.store, from, shown)))?;
            }
            Some(Act::Hold(drive)) => self.drive = drive,
            Some(Act::Call(call)) => return self.call(rt, call),
        }
        Ok(self)
    }
}

fn main(rt: HostRuntime) -> io::Result<()> {
    let mut room = text_room();
    let text = read_text(rt.reader(), &mut room)?;
    let mut store = [0; 4097];
    let desk = Desk {
        drive: Drive::new(0, 0),
        lent: 0,
        store: &mut store,
    };
    play(&rt, text, desk)
}
