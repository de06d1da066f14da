// The flags behind the words of a run.

ghost use Rattle.std.specs.Prelude.{◌≡◌, map, string_bytes};
ghost use Rattle.mdr_top.specs.Flags.{no_flags, once, ticks_next, with_flag, with_number, with_word, with_words, first_reading, flags_in, flags_of};

use crate::ticks::ticks_of;

/// What the flags of a run say.
#[derive(Clone, Copy)]
pub struct Flags {
    /// Whether the user half is to be held to its annotations: `--watch`.
    pub watch: bool,
    /// The budget, where there is one: `--ticks N`.
    pub ticks: Option<u64>,
    /// Whether the messages are to be shown: `--wire`.
    pub wire: bool,
    /// Whether the layout of the memory is to be shown: `--region`.
    pub region: bool,
}

/// What the words so far say, read as flags.
#[derive(Clone, Copy)]
pub enum Reading {
    /// These flags, and another may follow.
    Flag(Flags),
    /// These flags, and `--ticks`, whose number is to follow.
    Ticks(Flags),
    /// They are no flags, or one stands twice.
    Refused,
}

fn no_flags() -> Flags
    ensures { result ≡ no_flags }
{
    Flags {
        watch: false,
        ticks: None,
        wire: false,
        region: false,
    }
}

/// A flag that stands once alone, with what it says.
fn once(stands: bool, flags: Flags) -> Reading
    ensures { result ≡ once stands flags }
{
    if stands {
        Reading::Refused
    } else {
        Reading::Flag(flags)
    }
}

/// `--ticks`, which stands once alone.
fn ticks_next(flags: Flags) -> Reading
    ensures { result ≡ ticks_next flags flags.ticks }
{
    match flags.ticks {
        None => Reading::Ticks(flags),
        Some(_) => Reading::Refused,
    }
}

/// A word where a flag may stand.
fn with_flag(flags: Flags, word: &str) -> Reading
    ensures { result ≡ with_flag flags word.now }
{
    if word == "--watch" {
        once(
            flags.watch,
            Flags {
                watch: true,
                ..flags
            },
        )
    } else if word == "--wire" {
        once(
            flags.wire,
            Flags {
                wire: true,
                ..flags
            },
        )
    } else if word == "--region" {
        once(
            flags.region,
            Flags {
                region: true,
                ..flags
            },
        )
    } else if word == "--ticks" {
        ticks_next(flags)
    } else {
        Reading::Refused
    }
}

/// What stands where the number of `--ticks` does.
fn with_number(flags: Flags, ticks: Option<u64>) -> Reading
    ensures { result ≡ with_number flags ticks }
{
    match ticks {
        Some(n) => Reading::Flag(Flags {
            ticks: Some(n),
            ..flags
        }),
        None => Reading::Refused,
    }
}

/// A word more.
fn with_word(reading: Reading, word: &str) -> Reading
    ensures { result ≡ with_word reading word.now }
{
    match reading {
        Reading::Flag(flags) => with_flag(flags, word),
        Reading::Ticks(flags) => with_number(flags, ticks_of(word)),
        Reading::Refused => Reading::Refused,
    }
}

/// All words.
#[tactic(auto, unfolding(crate::specs::Flags::with_words))]
fn reading_of(words: &[String]) -> Reading
    ensures { result ≡ with_words first_reading (map string_bytes words.now) }
{
    let mut reading = Reading::Flag(no_flags());
    for word in words {
        reading = with_word(reading, word.as_str());
    }
    reading
}

/// What the words say, where they are flags.
fn flags_in(reading: Reading) -> Option<Flags>
    ensures { result ≡ flags_in reading }
{
    match reading {
        Reading::Flag(flags) => Some(flags),
        Reading::Ticks(_) => None,
        Reading::Refused => None,
    }
}

/// The flags that the words say, where they are flags, each at most once.
pub(crate) fn flags_of(words: &[String]) -> Option<Flags>
    ensures { result ≡ flags_of (map string_bytes words.now) }
{
    flags_in(reading_of(words))
}
