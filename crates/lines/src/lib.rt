// The console's language: a line in, a command; an answer out, a line.
#![tactic(auto)]

mod hearing;
mod reading;
mod talking;
mod writing;

pub use hearing::{Fed, Line, Session, feed, finish};
pub use reading::parse;
pub use talking::{ROOM, Stepped, step};

// What a line asks for.
#[derive(Clone, Copy, Debug, PartialEq, Eq)]
pub enum Command {
    // A new board of this capacity.
    Open(u16),
    // A stream of this name and weight.
    Add(u16, u16),
    // The stream of this name goes.
    Remove(u16),
    Slot,
    Round,
    // What became of the order of this ticket.
    Fetch(u64),
}
