// The text of an input, and its numbers. A number is a run of digits, whatever stands around it, modulo 2^64.
ghost use Rattle.std.specs.Prelude.{◌≡◌, IfOk, IfSome, ◌≤◌, ◌%◌, take, length};
ghost use Rattle.std.specs.Iterator.{at_most};

use calls::Drive;
use std::io;
use std::io::Read;

/// How many bytes of an input the programs read.
pub const MOST: usize = 65536;

/// Room for the text of an input. It is lent, so that no program that reads one needs the heap.
pub fn text_room() -> [u8; MOST]
    ensures { 65536 ≡ length result }
{
    [0; MOST]
}

// Reads an input to the start of what is lent, until that is full or the input ends, and says how many bytes it put there. `Err` comes just where a read
// fails, with std's error.
fn fill<R: Read>(input: &mut R, text: &mut [u8]) -> io::Result<usize>
    ensures fits { IfOk result (λ n. n ≤ length text.new) }
    ensures bytes { IfOk result (λ n. IfSome (R.remaining input.old) (λ bytes. take n text.new ≡ take (length text.old) bytes)) }
{
    let mut done: usize = 0;
    while done < text.len() {
        let n = input.read(&mut text[done..])?;
        if n == 0 {
            return Ok(done);
        }
        done += n;
    }
    Ok(done)
}

/// The bytes of an input, or as many of its first ones as what is lent has room for: they are put there. `Err` comes just where a read fails, one that a signal
/// interrupted too, with std's error; what was read before stands at the start of what is lent.
pub fn read_text<R: Read + Drop>(mut input: R, room: &mut [u8]) -> io::Result<&[u8]>
    ensures fits { IfOk result (λ text. length text.now ≤ length room.old) }
    ensures bytes { IfOk result (λ text. IfSome (R.remaining input) (λ bytes. text.now ≡ take (length room.old) bytes)) }
{
    let n = fill(&mut input, room)?;
    Ok(&room[..n])
}

/// The numbers of a text, from the first one on.
#[derive(Drop)]
pub struct Numbers<'a>(pub &'a [u8]);

impl Iterator for Numbers<'_> {
    type Item = u64;

    ghost remaining = { λ numbers. at_most (length numbers.0.now) };

    fn next(&mut self) -> Option<u64> {
        let start = self.0.iter().position(|b| b.is_ascii_digit())?;
        let others = &self.0[start + 1..];
        let n = others
            .iter()
            .position(|b| !b.is_ascii_digit())
            .unwrap_or(others.len());
        let digits = &self.0[start..start + 1 + n];
        self.0 = &others[n..];
        Some(value(digits))
    }
}

impl Numbers<'_> {
    /// The next number as an entry of a board; 0 after the last.
    pub fn entry(&mut self) -> u16 {
        entry_of(self.next().unwrap_or(0))
    }

    /// The next N numbers; zeros after the last.
    pub fn row<const N: usize>(&mut self) -> [u64; N] {
        let mut row = [0u64; N];
        for n in row.iter_mut() {
            *n = self.next().unwrap_or(0);
        }
        row
    }
}

// The number that a row of digits is, modulo 2^64. `parse` would refuse one that is larger, and a text may have any.
fn value(digits: &[u8]) -> u64 {
    digits.iter().fold(
        0u64,
        |n, b| n.wrapping_mul(10).wrapping_add(u64::from(*b % 16)),
    )
}

/// A number as an entry of a board: modulo 65,536.
pub fn entry_of(n: u64) -> u16
    ensures { result ≡ n % 65536 }
{
    (n % 65536) as u16
}

/// The number at a place of a text, counted from 0 among its numbers; 0 where there is none.
pub fn long_at(text: &[u8], place: usize) -> u64 {
    Numbers(text).nth(place).unwrap_or(0)
}

/// The same as an entry of a board.
pub fn number_at(text: &[u8], place: usize) -> u16 {
    entry_of(long_at(text, place))
}

/// The record that a line gives: C, p and the round's number.
pub fn record_of(line: &[u8]) -> Drive {
    Drive {
        capacity: number_at(line, 0),
        position: number_at(line, 1),
        round: long_at(line, 2),
    }
}

#[cfg(test)]
mod tests {
    use super::*;
    use std::test::Fail;

    #[test]
    fn reads_a_text(rt: HostRuntime) -> Result<(), Fail> {
        let mut room = text_room();
        let text = read_text(&b"12, and 70000\n"[..], &mut room)?;
        assert_eq!(rt; text.len(), 14);
        assert_eq!(rt; Numbers(text).row(), [12, 70000, 0]);
        assert_eq!(rt; number_at(text, 1), 4464);
        Ok(())
    }
}
