// What the forms of sheet share. A form says at which positions it is written, and how its bytes are made, tested and read; a sheet of any form is
// saved, read and converted here.
ghost use Rattle.std.specs.Prelude.{◌≡◌, ℕ, ◌≤◌, ◌<◌, Bool, true, List, length, replicate};
ghost use Rattle.calls.specs.declared.Drive.{Drive};
ghost use Rattle.calls.specs.Types.{Check};
ghost use Rattle.calls.specs.Refusals.{and_then};
ghost use Rattle.sheets.specs.Forms.{Form, Puts, Holds, room_check, saving_check, reading_check, loaded_board_as};
ghost use Rattle.sheets.specs.Promises.{SavesAs, WritesAs, LoadsAs};
ghost use Rattle.sheets.specs.Conversions.{Converts};
ghost use Rattle.sheets.specs.Lawful.{standing};

use crate::{Saved, capacity_of, check_head};
use calls::{Checked, Drive, Refusal, Returned};

// A form of sheet.
pub trait SheetForm {
    ghost form: { Form };

    // The positions that it is written at.
    ghost at: { ℕ → Check };

    // The refusal 4, where it is not written at p.
    fn check_position(p: usize) -> Result<(), Refusal>
        ensures { result ≡ at p };

    // The position that a sheet holds.
    fn position(sheet: &[u8]) -> usize
        requires { 512 ≤ length sheet.now }
        ensures { (result ≡ form.position sheet.now) × (result < 65536) };

    // The refusal 11, and where there is none the sheet of a board at p, at the start of the output.
    fn put(board: &[u16], c: usize, p: usize, output: &mut [u8]) -> Result<usize, Refusal>
        requires { (c ≤ length board.now) × (c ≤ 4095) × (p < 65536) }
        ensures { Puts form c p board.now output.old result output.new };

    // What is seen of a sheet's layout before its leaves are read.
    ghost seen: { ℕ → List ℕ → Bool };

    // Whether the bytes may keep the layout of a sheet of c leaves. Those that do not are refused before there is room for leaves, which takes longer.
    fn may_be_laid(sheet: &[u8], c: usize) -> bool
        requires { (0 < c) × (c ≤ 4095) }
        ensures { result ≡ seen c sheet.now };

    ghost shows: { (c : ℕ) (S : List ℕ) → form.laid c S ≡ true → seen c S ≡ true };

    // Whether the bytes keep the layout of a sheet of so many leaves as there are. Where they do, the leaves, which are idle, become those of the sheet.
    fn read(sheet: &[u8], leaves: &mut [u16]) -> bool
        requires { (0 < length leaves.old) × (length leaves.old ≤ 4095) × (512 ≤ length sheet.now) × (leaves.old ≡ replicate (length leaves.old) 0) × (seen (length leaves.old) sheet.now ≡ true) }
        ensures { (result ≡ form.laid (length leaves.old) sheet.now) × (result ≡ true → leaves.new ≡ form.leaves (length leaves.old) sheet.now) };

    ghost asks: { (d : Drive) (B : List ℕ) (n : ℕ) → saving_check form d B n ≡ and_then (standing at d B) (room_check n (form.size d.capacity B)) };
}

// What save asks before the output: the refusals 1 to 3, 4 by the form, and 5.
fn check_standing<F: SheetForm>(drive: Drive, board: &[u16]) -> Result<(), Refusal>
    ensures { result ≡ standing F.at drive board.now }
{
    drive.check_slot(board)?;
    F::check_position(drive.position as usize)?;
    if !pieces::good(board, drive.capacity as usize) {
        return Err(Refusal::Damaged);
    }
    Ok(())
}

// Writes the sheet of a board, and says how many bytes it has.
fn write<F: SheetForm>(drive: Drive, board: &[u16], output: &mut [u8]) -> Result<usize, Refusal>
    ensures { WritesAs F.form drive board.now output.old result output.new }
{
    check_standing::<F>(drive, board)?;
    F::put(
        board,
        drive.capacity as usize,
        drive.position as usize,
        output,
    )
}

// Saves a board: its sheet at the start of the output.
pub fn save<F: SheetForm>(drive: Drive, board: &[u16], output: &mut [u8]) -> Saved
    ensures { SavesAs F.form drive board.now output.old result output.new }
{
    Returned {
        drive,
        answer: write::<F>(drive, board, output),
    }
}

// The refusals 12 and 5, of a sheet's layout and of the leaves that it holds. Where they pass, the board that is lent gets the leaves.
fn hold<F: SheetForm>(sheet: &[u8], c: usize, board: &mut [u16]) -> Result<(), Refusal>
    requires { (0 < c) × (c ≤ 4095) × (512 ≤ length sheet.now) × (c ≤ length board.old) }
    ensures { Holds F.form c sheet.now board.old result board.new }
{
    if !F::may_be_laid(sheet, c) {
        return Err(Refusal::Block);
    }
    hold_read::<F>(sheet, c, board)
}

// The same of a sheet of whose layout no fault is seen. Its leaves are read to entries that are not lent and tested there.
fn hold_read<F: SheetForm>(sheet: &[u8], c: usize, board: &mut [u16]) -> Result<(), Refusal>
    requires { (0 < c) × (c ≤ 4095) × (512 ≤ length sheet.now) × (c ≤ length board.old) × (F.seen c sheet.now ≡ true) }
    ensures { Holds F.form c sheet.now board.old result board.new }
{
    let mut scratch: [u16; Drive::LARGEST] = names::zeros();
    let found = &mut scratch[..c];
    if !F::read(sheet, found) {
        return Err(Refusal::Block);
    }
    if !pieces::good(found, c) {
        return Err(Refusal::Damaged);
    }
    board[..c].copy_from_slice(found);
    Ok(())
}

// The refusals of read, in its order. Where there is none, the board gets the leaves of the sheet.
fn load<F: SheetForm>(sheet: &[u8], board: &mut [u16]) -> Result<(), Refusal>
    ensures { (result ≡ reading_check F.form sheet.now board.old) × (board.new ≡ loaded_board_as F.form sheet.now board.old) }
{
    check_head(sheet, board)?;
    hold::<F>(sheet, capacity_of(sheet), board)
}

// Reads a sheet: the leaves of a board, and a record at the position that the sheet holds.
pub fn read<F: SheetForm>(sheet: &[u8], board: &mut [u16]) -> Checked
    ensures { LoadsAs F.form sheet.now board.old result board.new }
{
    // A match, since `?` would give the refusal alone, and a record comes with it.
    match load::<F>(sheet, board) {
        Err(r) => Returned {
            drive: Drive::new(0, 0),
            answer: Err(r),
        },
        Ok(()) => Returned {
            drive: Drive::new(capacity_of(sheet) as u16, F::position(sheet) as u16),
            answer: Ok(()),
        },
    }
}

// Writes a sheet of one form as one of another, by a board of 4,095 entries that is not lent.
pub fn convert<F: SheetForm, G: SheetForm>(
    sheet: &[u8],
    output: &mut [u8],
) -> Result<usize, Refusal>
    ensures { Converts F.form G.form G.at sheet.now output.old result output.new }
{
    let mut scratch: [u16; Drive::LARGEST] = names::zeros();
    load::<F>(sheet, &mut scratch)?;
    let p = F::position(sheet);
    G::check_position(p)?;
    G::put(&scratch, capacity_of(sheet), p, output)
}
