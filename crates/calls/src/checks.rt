// The checks before a call: each finds the first refusal of a list that applies. Nothing here writes.
ghost use Rattle.std.specs.Prelude.{◌≡◌, ◌≤◌, ◌<◌, length};
ghost use Rattle.calls.specs.Refusals as refusals;

use crate::{Drive, Refusal};

impl Drive {
    // The refusals 1 to 3.
    pub fn check_slot(self, board: &[u16]) -> Result<(), Refusal>
        ensures { result ≡ refusals.slot_check self board.now }
    {
        let c = self.capacity as usize;
        check_open(c, board)?;
        check_position(c, self.position as usize)
    }

    // The refusals 1 to 5.
    pub fn check_change(self, board: &[u16]) -> Result<(), Refusal>
        ensures { result ≡ refusals.change_check self board.now }
    {
        self.check_slot(board)?;
        if self.position != 1 {
            return Err(Refusal::Midround);
        }
        check_good(board, self.capacity as usize)
    }

    // The refusals 1 to 8, which add looks at before it looks for room, by what those up to 5 found.
    pub fn check_admit(
        self,
        found: Result<(), Refusal>,
        board: &[u16],
        name: u16,
        weight: u16,
    ) -> Result<(), Refusal>
        requires { found ≡ refusals.change_check self board.now }
        ensures { result ≡ refusals.admit_check self board.now name weight }
    {
        found?;
        check_new(board, self.capacity as usize, name, weight as usize)
    }

    // The refusals 1 to 6 and 9, by what those up to 5 found.
    pub fn check_remove(
        self,
        found: Result<(), Refusal>,
        board: &[u16],
        name: u16,
    ) -> Result<(), Refusal>
        requires { found ≡ refusals.change_check self board.now }
        ensures { result ≡ refusals.remove_check self board.now name }
    {
        found?;
        check_held(board, self.capacity as usize, name)
    }

    // The refusals 1 to 3 and 11.
    pub fn check_round(self, board: &[u16], output: usize) -> Result<(), Refusal>
        ensures { result ≡ refusals.round_check self board.now output }
    {
        self.check_slot(board)?;
        if output < self.capacity as usize {
            return Err(Refusal::Output);
        }
        Ok(())
    }

    // The refusals 1 to 3, 5, 6 and 9.
    pub fn check_report(self, board: &[u16], name: u16) -> Result<(), Refusal>
        ensures { result ≡ refusals.report_check self board.now name }
    {
        self.check_slot(board)?;
        let c = self.capacity as usize;
        check_good(board, c)?;
        check_held(board, c, name)
    }
}

// The refusals 1 and 2.
pub fn check_open(c: usize, board: &[u16]) -> Result<(), Refusal>
    ensures { result ≡ refusals.open_check c board.now }
{
    if c == 0 || Drive::LARGEST < c {
        return Err(Refusal::Capacity);
    }
    if board.len() < c {
        return Err(Refusal::Short);
    }
    Ok(())
}

// The refusal 3.
pub fn check_position(c: usize, p: usize) -> Result<(), Refusal>
    requires { (0 < c) × (c ≤ 4095) }
    ensures { result ≡ refusals.position_check c p }
{
    if p == 0 || (1usize << sequences::digits(c)) - 1 < p {
        return Err(Refusal::Position);
    }
    Ok(())
}

// The refusal 5.
fn check_good(board: &[u16], c: usize) -> Result<(), Refusal>
    requires { (c ≤ length board.now) × (c ≤ 4095) }
    ensures { result ≡ refusals.good_check c board.now }
{
    if pieces::good(board, c) {
        Ok(())
    } else {
        Err(Refusal::Damaged)
    }
}

// The refusals 6 and 9, for a name that the board is to hold.
fn check_held(board: &[u16], c: usize, name: u16) -> Result<(), Refusal>
    requires { (c ≤ length board.now) × (c ≤ 4095) }
    ensures { result ≡ refusals.held_check c board.now name }
{
    if name == 0 {
        return Err(Refusal::Name);
    }
    if pieces::weigh(board, c, name) == 0 {
        return Err(Refusal::Absent);
    }
    Ok(())
}

// The refusals 6, 7 and 8, for a name that the board is to take.
fn check_new(board: &[u16], c: usize, name: u16, weight: usize) -> Result<(), Refusal>
    requires { (c ≤ length board.now) × (c ≤ 4095) }
    ensures { result ≡ refusals.new_check c board.now name weight }
{
    if name == 0 {
        return Err(Refusal::Name);
    }
    if weight == 0 {
        return Err(Refusal::Weight);
    }
    if 0 < pieces::weigh(board, c, name) {
        return Err(Refusal::Taken);
    }
    Ok(())
}
