// The calls on one drive's slot board: open, add, remove, slot, round, report, the fresh layout, and the refusals of document 01.
#![tactic(auto)]

ghost use Rattle.std.specs.Prelude.{◌≡◌, length};
ghost use Rattle.calls.specs.declared.Unchanged.TheVariants.{Refused};
ghost use Rattle.calls.specs.Records.{drive_at, round_after, moved_to};
ghost use Rattle.calls.specs.Refusals as refusals;
ghost use Rattle.calls.specs.Refusals.{number_of};
ghost use Rattle.calls.specs.Results as results;
ghost use Rattle.calls.specs.Promises as promises;

pub mod checks;
pub mod rounds;
pub mod spacing;

// The drive record: the capacity C, the position p, and the number of the round that the slot at p belongs to. Its type owns the limits and the calls.
#[repr(C)]
#[derive(Clone, Copy, Debug, PartialEq, Eq)]
pub struct Drive {
    pub capacity: u16,
    pub position: u16,
    pub round: u64,
}

// The refusals, by the names of document 01's table, in the order of its numbers.
#[derive(Clone, Copy, Debug, PartialEq, Eq)]
pub enum Refusal {
    Capacity = 1,
    Short,
    Position,
    Midround,
    Damaged,
    Name,
    Weight,
    Taken,
    Absent,
    Room,
    Output,
    Block,
}

impl Refusal {
    // The number of the table.
    pub fn number(self) -> u16
        ensures { result ≡ number_of self }
    {
        self as u16
    }
}

// What a call gives back: the record, and what it answers.
#[derive(Clone, Copy)]
pub struct Returned<A> {
    pub drive: Drive,
    pub answer: A,
}

// What open, round, the fresh layout and read give back.
pub type Checked = Returned<Result<(), Refusal>>;

// Why a change was not made: ROOM, with the idle leaves there are, or another refusal, which is never ROOM.
#[derive(Clone, Copy, Debug, PartialEq, Eq)]
pub enum Unchanged {
    Room(u16),
    Refused(Refusal),
}

impl From<Refusal> for Unchanged {
    ghost from_gives = { λ r u. u ≡ Refused r };

    fn from(r: Refusal) -> Unchanged {
        Unchanged::Refused(r)
    }
}

// What add and remove give back: the idle leaves left.
pub type Changed = Returned<Result<u16, Unchanged>>;

// A slot served.
#[derive(Clone, Copy, Debug, PartialEq, Eq)]
pub struct Slot {
    pub name: u16,
    pub leaf: u16,
    pub passed: u16,
    pub round: u64,
}

// What slot gives back.
pub type Served = Returned<Result<Slot, Refusal>>;

// A stream reported on.
#[derive(Clone, Copy, Debug, PartialEq, Eq)]
pub struct Stream {
    pub weight: u16,
    pub pieces: u16,
    pub spacing: u16,
}

// What report gives back.
pub type Reported = Returned<Result<Stream, Refusal>>;

impl Drive {
    // The largest capacity.
    pub const LARGEST: usize = 4095;

    // How many leaves a block of a sheet has.
    pub const LEAVES_PER_BLOCK: usize = 253;

    // The largest number of a round.
    pub const LAST_ROUND: u64 = 18446744073709551615;

    // The one place that makes a record: rounds are counted from 0.
    pub fn new(capacity: u16, position: u16) -> Drive
        ensures { result ≡ drive_at capacity position }
    {
        Drive {
            capacity,
            position,
            round: 0,
        }
    }

    // The one place that moves a record: a round more where the position returns to 1, and 0 after the largest.
    fn moved(mut self, position: u16) -> Drive
        ensures { result ≡ moved_to self position }
    {
        if position == 1 {
            self.round = next_round(self.round);
        }
        self.position = position;
        self
    }

    // Opens a board: its leaves become idle, and the record stands at the start of a round. A refusal gives a record too, so a `?` does not serve.
    pub fn open(capacity: u16, board: &mut [u16]) -> Checked
        ensures { promises.Opens capacity board.old result board.new }
    {
        let c = capacity as usize;
        match checks::check_open(c, board) {
            Err(r) => Returned {
                drive: Drive::new(0, 0),
                answer: Err(r),
            },
            Ok(()) => {
                pieces::fill(board, 0, c, 0);
                Returned {
                    drive: Drive::new(capacity, 1),
                    answer: Ok(()),
                }
            }
        }
    }

    // Admits a stream.
    pub fn add(self, board: &mut [u16], name: u16, weight: u16) -> Changed
        ensures { promises.Adds self board.old name weight result board.new }
    {
        let found = self.check_change(board);
        self.add_by(found, board, name, weight)
    }

    // Admits a stream, by what the checks 1 to 5 found.
    pub fn add_by(
        self,
        found: Result<(), Refusal>,
        board: &mut [u16],
        name: u16,
        weight: u16,
    ) -> Changed
        requires { found ≡ refusals.change_check self board.old }
        ensures { promises.Adds self board.old name weight result board.new }
    {
        Returned {
            drive: self,
            answer: self.place(found, board, name, weight),
        }
    }

    // Places a stream, and says how many leaves are left idle.
    fn place(
        self,
        found: Result<(), Refusal>,
        board: &mut [u16],
        name: u16,
        weight: u16,
    ) -> Result<u16, Unchanged>
        requires { found ≡ refusals.change_check self board.old }
        ensures { promises.Places self board.old name weight result board.new }
    {
        self.check_admit(found, board, name, weight)?;
        match pieces::admit(board, self.capacity as usize, name, weight as usize) {
            Ok(left) => Ok(left as u16),
            Err(full) => Err(Unchanged::Room(full.idle as u16)),
        }
    }

    // Removes a stream.
    pub fn remove(self, board: &mut [u16], name: u16) -> Changed
        ensures { promises.Removes self board.old name result board.new }
    {
        let found = self.check_change(board);
        self.remove_by(found, board, name)
    }

    // Removes a stream, by what the checks 1 to 5 found.
    pub fn remove_by(self, found: Result<(), Refusal>, board: &mut [u16], name: u16) -> Changed
        requires { found ≡ refusals.change_check self board.old }
        ensures { promises.Removes self board.old name result board.new }
    {
        Returned {
            drive: self,
            answer: self.clear(found, board, name),
        }
    }

    // Clears a stream's leaves, and says how many leaves are left idle.
    fn clear(
        self,
        found: Result<(), Refusal>,
        board: &mut [u16],
        name: u16,
    ) -> Result<u16, Unchanged>
        requires { found ≡ refusals.change_check self board.old }
        ensures { promises.Clears self board.old name result board.new }
    {
        self.check_remove(found, board, name)?;
        let c = self.capacity as usize;
        pieces::remove(board, c, name);
        Ok(pieces::weigh(board, c, 0) as u16)
    }

    // Lays the board out afresh: as if every stream had been added to an opened board by falling weight, then rising name.
    pub fn fresh(self, board: &mut [u16]) -> Checked
        ensures { promises.Refreshes self board.old result board.new }
    {
        let answer = self.check_change(board);
        if answer.is_ok() {
            pieces::lay_out(board, self.capacity as usize);
        }
        Returned {
            drive: self,
            answer,
        }
    }

    // Serves the slot at the record's position, and moves the record on. A refusal gives the record back, so a `?` does not serve.
    pub fn slot(self, board: &[u16]) -> Served
        ensures { promises.Serves self board.now result }
    {
        match self.check_slot(board) {
            Err(r) => Returned {
                drive: self,
                answer: Err(r),
            },
            Ok(()) => {
                let s = sequences::pick(self.capacity as usize, self.position as usize);
                let leaf = s.leaf;
                let next = self.moved(s.next as u16);
                Returned {
                    drive: next,
                    answer: Ok(Slot {
                        name: board[leaf],
                        leaf: leaf as u16,
                        passed: s.passed as u16,
                        round: self.round,
                    }),
                }
            }
        }
    }

    // Writes the names of a full round.
    pub fn round(self, board: &[u16], output: &mut [u16]) -> Checked
        ensures { promises.Rounds self board.now output.old result output.new }
    {
        Returned {
            drive: self,
            answer: self.write_round(board, output),
        }
    }

    // Writes the names of a full round, and says whether it did.
    fn write_round(self, board: &[u16], output: &mut [u16]) -> Result<(), Refusal>
        ensures found { result ≡ refusals.round_check self board.now (length output.old) }
        ensures output { output.new ≡ results.rounded_output self board.now output.old }
    {
        self.check_round(board, output.len())?;
        rounds::write_round(board, self.capacity as usize, output);
        Ok(())
    }

    // Reports on a stream.
    pub fn report(self, board: &[u16], name: u16) -> Reported
        ensures { promises.Reports self board.now name result }
    {
        Returned {
            drive: self,
            answer: self.stream(board, name),
        }
    }

    // A stream's weight, pieces and spacing.
    fn stream(self, board: &[u16], name: u16) -> Result<Stream, Refusal>
        ensures { promises.Tells self board.now name result }
    {
        self.check_report(board, name)?;
        let c = self.capacity as usize;
        let w = pieces::weigh(board, c, name);
        let spacing = spacing::spacing(board, c, name);
        Ok(Stream {
            weight: w as u16,
            pieces: usize::count_ones(w) as u16,
            spacing: spacing as u16,
        })
    }
}

// The number of the round after this one: 0 after the largest. Not by a sum that wraps, which would say nothing of `LAST_ROUND`.
fn next_round(number: u64) -> u64
    ensures { result ≡ round_after number }
{
    if number == Drive::LAST_ROUND {
        return 0;
    }
    number + 1
}
