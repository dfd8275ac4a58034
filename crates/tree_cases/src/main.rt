// Both engines side by side: for each power of two three rounds, slot by slot, by the sequences from p = 1 and by the tree walk from clear marks.
// Then walks by marks that no round leaves, and refusals. Run, and not proved; the expected output was worked out from documents 01 and 02 and from source
// document 001, figure 2.
#![tactic(auto)]

ghost use Rattle.std.specs.Prelude.{◌≤◌};

use calls::{Drive, Returned};
use std::{fmt, io};
use telling::Spaced;
use telling::stores::{part, with_entry, within};
use tree::{Leaf, Unwalked};

const ROUNDS: usize = 3;

// The number of the answer to a capacity that is no power of two, by the table of docs/CALLS.md; `tree` gives the kind alone.
const POWER: u16 = 16;

// What a walk said: the number, the name and the leaf.
#[derive(Clone, Copy)]
struct Walked(Result<Leaf, Unwalked>);

impl fmt::Display for Walked {
    fn fmt<W: fmt::Write>(&self, f: &mut fmt::Formatter<W>) -> fmt::Result {
        match self.0 {
            Ok(end) => write!(f, "0 {} {}", end.name, end.leaf),
            Err(Unwalked::Power) => write!(f, "{POWER} 0 0"),
            Err(Unwalked::Refused(why)) => write!(f, "{} 0 0", why.number()),
        }
    }
}

// What the slots of both engines came to: the record after them, how many agree, after how many all marks are clear, and a number that tells the leaves
// and their order.
#[derive(Clone, Copy)]
struct Score {
    drive: Drive,
    agree: u64,
    clear: u64,
    order: u64,
}

impl Score {
    // One slot more of both engines, on a board with so many inner nodes.
    fn serve(&mut self, board: &[u16], marks: &mut [u16], inner: usize) {
        let capacity = self.drive.capacity;
        let Returned { drive, answer } = self.drive.slot(board);
        let slot = answer
            .map(|slot| Leaf {
                name: slot.name,
                leaf: slot.leaf,
            })
            .map_err(Unwalked::Refused);
        let walk = tree::walk(capacity, board, marks);
        let is_clear = part(marks, 0, inner).iter().all(|mark| *mark == 0);
        self.drive = drive;
        // Nothing wraps: a run has at most 6,144 slots. `+=` would need that as a fact of the type.
        self.agree = self.agree.wrapping_add(u64::from(slot == walk));
        self.clear = self.clear.wrapping_add(u64::from(is_clear));
        self.order = with_entry(self.order, walk.map_or(0, |end| end.leaf));
    }
}

// Three rounds of a board of c leaves.
fn show_rounds(rt: &impl Print, c: u16, board: &[u16], marks: &mut [u16]) -> io::Result<()>
    requires { 1 ≤ c }
{
    let leaves = usize::from(c);
    let inner = leaves - 1;
    marks.fill(9);
    let n = within(inner, marks);
    marks[..n].fill(0);
    let slots = ROUNDS * leaves;
    let mut score = Score {
        drive: Drive::new(c, 1),
        agree: 0,
        clear: 0,
        order: 0,
    };
    for _ in 0..slots {
        score.serve(board, marks, inner);
    }
    let beyond = marks.iter().filter(|mark| **mark == 9).count();
    let Score {
        agree,
        clear,
        order,
        ..
    } = score;
    print!(rt; "C {c}, slots {slots}: alike {agree}, all marks clear after {clear}")?;
    println!(rt; ", marks beyond untouched {beyond}, order {order}")
}

// The walks of a table, each for C, the first entries of the board and the first marks; then the first five marks, lent or not.
fn show_walks(
    rt: &impl Print,
    table: &[(u16, usize, usize)],
    board: &[u16],
    marks: &mut [u16],
) -> io::Result<()> {
    for (c, entries, nodes) in table {
        let lent = part(board, 0, *entries);
        let n = within(*nodes, marks);
        let walked = Walked(tree::walk(*c, lent, &mut marks[..n]));
        print!(rt; "walk {c} of entries {}, marks {n}: {walked}", lent.len())?;
        println!(rt; ", marks{}", Spaced(part(marks, 0, 5)))?;
    }
    Ok(())
}

// A mark of any value but 0 leads right and becomes 0; the fourth and the fifth mark are none of a board of 4 leaves.
fn show_marks(rt: &impl Print, board: &[u16], marks: &mut [u16; 4095]) -> io::Result<()> {
    marks[..5].copy_from_slice(&[7, 2, 65535, 9, 256]);
    let table = [(4, 4, 5), (4, 4, 5), (4, 4, 3), (4, 4095, 3), (4, 5, 4)];
    show_walks(rt, &table, board, marks)?;
    marks[0] = 7;
    show_walks(rt, &[(2, 2, 1), (2, 2, 1), (1, 1, 0)], board, marks)
}

// 1 before 16, 16 before 2, and 2 of the board and of the marks; nothing is flipped.
fn show_refusals(rt: &impl Print, board: &[u16], marks: &mut [u16]) -> io::Result<()> {
    let table = [(0, 0, 0), (4096, 0, 0), (6144, 0, 0), (65535, 4095, 4095)];
    show_walks(rt, &table, board, marks)?;
    let table = [(6, 0, 0), (3, 4095, 4095), (4095, 4095, 4095)];
    show_walks(rt, &table, board, marks)?;
    let table = [(4, 3, 4095), (4, 4095, 2), (1, 0, 4095)];
    show_walks(rt, &table, board, marks)?;
    let table = [(2048, 2048, 2046), (2048, 2047, 2047), (2048, 2048, 2047)];
    show_walks(rt, &table, board, marks)
}

fn main(rt: HostRuntime) -> io::Result<()> {
    let mut board = [0; 4095];
    let mut marks = [0; 4095];
    for (entry, name) in board.iter_mut().zip(1000..) {
        *entry = name;
    }
    for exponent in 0..12u32 {
        show_rounds(&rt, 1 << exponent, &board, &mut marks)?;
    }
    show_marks(&rt, &board, &mut marks)?;
    show_refusals(&rt, &board, &mut marks)
}
