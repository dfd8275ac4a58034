// What the programs that are run and compared share: the text and the numbers of their input (`reading`), the stores that they lend (`stores`), the acts of a
// text played line by line (`playing`), and what they print: rows of numbers and records here, what a call said in `answers`. No contract can say what is
// written; each function is proved to end and to stay in bounds. A function that prints answers `Err` just where a write failed, with std's error, after what
// it had printed until then; there it has changed nothing of its caller's.
#![tactic(auto)]

pub mod answers;
pub mod playing;
pub mod reading;
pub mod stores;

use calls::Drive;
use std::fmt;

/// Numbers, each after a space.
#[derive(Drop)]
pub struct Spaced<'a, T>(pub &'a [T]);

impl<T: fmt::Display> fmt::Display for Spaced<'_, T> {
    fn fmt<W: fmt::Write>(&self, f: &mut fmt::Formatter<W>) -> fmt::Result {
        for x in self.0 {
            write!(f, " {x}")?;
        }
        Ok(())
    }
}

/// Numbers with a space between them.
#[derive(Drop)]
pub struct Row<'a, T>(pub &'a [T]);

impl<T: fmt::Display> fmt::Display for Row<'_, T> {
    fn fmt<W: fmt::Write>(&self, f: &mut fmt::Formatter<W>) -> fmt::Result {
        match self.0 {
            [] => Ok(()),
            [first, rest @ ..] => write!(f, "{first}{}", Spaced(rest)),
        }
    }
}

/// A record: its C, p and round number.
#[derive(Clone, Copy)]
pub struct Record(pub Drive);

impl fmt::Display for Record {
    fn fmt<W: fmt::Write>(&self, f: &mut fmt::Formatter<W>) -> fmt::Result {
        let drive = self.0;
        write!(f, "({} {} {})", drive.capacity, drive.position, drive.round)
    }
}
