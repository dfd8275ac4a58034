// From a line's bytes to a command.
ghost use Rattle.std.specs.Prelude.{◌≡◌, ◌∷◌, []};
ghost use Rattle.lines.specs.Grammar.{numeral, short_number as Grammar·number, lone_word, with_two, command, parsed};

use crate::Command;

// The words of the language.
const OPEN: &[u8] = b"open";

const ADD: &[u8] = b"add";

const REMOVE: &[u8] = b"remove";

const SLOT: &[u8] = b"slot";

const ROUND: &[u8] = b"round";

const FETCH: &[u8] = b"fetch";

// Numbers have 1 to 5 digits and are at most 65,535.
const MOST_DIGITS: usize = 5;

// Tickets have 1 to 20 digits and are below 2^64.
const MOST_TICKET_DIGITS: usize = 20;

// The number that a word of at most `most` digits spells, if it is at most `limit`. Digit by digit: std's `parse` takes a sign, and words of any length.
fn number(word: &[u8], most: usize, limit: u64) -> Option<u64>
    ensures { result ≡ numeral most limit word.now }
{
    if word.is_empty() || most < word.len() {
        return None;
    }
    let mut value: u64 = 0;
    for b in word {
        if !b.is_ascii_digit() {
            return None;
        }
        value = value.checked_mul(10)?.checked_add(u64::from(*b - b'0'))?;
        if limit < value {
            return None;
        }
    }
    Some(value)
}

// The number that a word of at most five digits spells.
fn short_number(word: &[u8]) -> Option<u16>
    ensures { result ≡ Grammar·number word.now }
{
    let n = number(word, MOST_DIGITS, u64::from(u16::MAX))?;
    u16::try_from(n).ok()
}

// The command of a line of one word.
fn lone_word(word: &[u8]) -> Option<Command>
    ensures { result ≡ lone_word word.now }
{
    if word == SLOT {
        Some(Command::Slot)
    } else if word == ROUND {
        Some(Command::Round)
    } else {
        None
    }
}

// The command of a line of two words.
fn with_one(word: &[u8], first: &[u8]) -> Option<Command>
    ensures { result ≡ command (word.now ∷ first.now ∷ []) }
{
    if word == FETCH {
        Some(Command::Fetch(number(first, MOST_TICKET_DIGITS, u64::MAX)?))
    } else if word == OPEN {
        Some(Command::Open(short_number(first)?))
    } else if word == REMOVE {
        Some(Command::Remove(short_number(first)?))
    } else {
        None
    }
}

// The command of a line of three words.
fn with_two(word: &[u8], first: &[u8], second: &[u8]) -> Option<Command>
    ensures { result ≡ with_two word.now (Grammar·number first.now) (Grammar·number second.now) }
{
    if word == ADD {
        Some(Command::Add(short_number(first)?, short_number(second)?))
    } else {
        None
    }
}

// The command that a line is, given without its line feed; `None` where it is not understood.
pub fn parse(line: &[u8]) -> Option<Command>
    ensures { result ≡ parsed line.now }
{
    let mut words = line.split(|b| *b == b' ');
    let word = words.next()?;
    let Some(first) = words.next() else {
        return lone_word(word);
    };
    let Some(second) = words.next() else {
        return with_one(word, first);
    };
    match words.next() {
        None => with_two(word, first, second),
        Some(_) => None,
    }
}
