// Numbers as words.

ghost use Rattle.std.specs.Prelude.{◌≡◌};
ghost use Rattle.mdr_top.specs.Budgets.{begins_number, within, number_within, ticks_of, seed_of, size_of};

use std::num::ParseIntError;

/// The largest budget.
const MOST_TICKS: u64 = 100_000_000;

/// The most lines that a seed makes.
const MOST_LINES: u64 = 1000;

fn begins_number(word: &[u8]) -> bool
    ensures { result ≡ begins_number word.now }
{
    match word {
        [first, ..] => b'1' <= *first && *first <= b'9',
        [] => false,
    }
}

/// What was read, where no number is larger.
fn within(most: u64, read: Result<u64, ParseIntError>) -> Option<u64>
    ensures { result ≡ within most read }
{
    match read {
        Ok(number) => { if number <= most { Some(number) } else { None } }
        Err(_) => None,
    }
}

/// The number that a word says: 1 to the largest, in decimal digits of which the first is no zero.
fn number_within(most: u64, word: &str) -> Option<u64>
    ensures { result ≡ number_within most word.now }
{
    if begins_number(word.as_bytes()) {
        within(most, word.parse::<u64>())
    } else {
        None
    }
}

/// The ticks that a word says.
pub(crate) fn ticks_of(word: &str) -> Option<u64>
    ensures { result ≡ ticks_of word.now }
{
    number_within(MOST_TICKS, word)
}

/// The seed that a word says. The number 0 is one, and stands alone.
pub(crate) fn seed_of(word: &str) -> Option<u64>
    ensures { result ≡ seed_of word.now }
{
    if word == "0" {
        Some(0)
    } else {
        number_within(u64::MAX, word)
    }
}

/// The number of lines that a word says.
pub(crate) fn size_of(word: &str) -> Option<u64>
    ensures { result ≡ size_of word.now }
{
    number_within(MOST_LINES, word)
}
