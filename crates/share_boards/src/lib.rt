// The calls with the tables of over-allocated streams that set or look at a whole board: open, and read of each form of sheet (`opening`), round and report
// (`looking`), save of each form and the fresh layout (`starting`). `own` is the record of the drive that a call is for, and comes back; `other` is the
// other drive's, and is only looked at; `owed` and `owed_other` are their deficits. A single drive gives its record in both places.
// Board, list and tables stay parameters of the public calls, as C lends them; inside they travel as one value (`shares::Lent`).
#![tactic(auto)]

pub mod looking;
pub mod opening;
pub mod starting;
