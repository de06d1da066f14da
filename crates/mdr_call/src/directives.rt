// The directives of a `printk` text.

ghost use Rattle.std.specs.Prelude.{◌≡◌, IfOk};
ghost use Rattle.mdr_core.specs.Services.{Reading as CoreReading, plain_directive, long_directive, directives};
ghost use Rattle.mdr_call.specs.declared.directives.Reading.TheVariants as reading;
ghost use Rattle.mdr_call.specs.Turns.{taken, turn, ended};

use mdr_core::{Items, Kind};
use std::alloc::{AllocError, Global};

/// Where a text is read: in plain bytes, behind a `%`, behind `%l`.
#[derive(Clone, Copy)]
pub enum Reading {
    Plain,
    Percent,
    Long,
}

/// What a byte does: it goes on, it ends a directive, or it begins none.
#[derive(Clone, Copy)]
pub enum Effect {
    Goes(Reading),
    Takes(Kind),
    Wrong,
}

fn plain_directive(letter: u8) -> Option<Kind>
    ensures { result ≡ plain_directive letter }
{
    if letter == b'd' || letter == b'c' {
        Some(Kind::S32)
    } else if letter == b'u' || letter == b'x' {
        Some(Kind::U32)
    } else {
        None
    }
}

fn long_directive(letter: u8) -> Option<Kind>
    ensures { result ≡ long_directive letter }
{
    if letter == b'd' {
        Some(Kind::S64)
    } else if letter == b'u' || letter == b'x' {
        Some(Kind::U64)
    } else {
        None
    }
}

fn taken(kind: Option<Kind>) -> Effect
    ensures { result ≡ taken kind }
{
    match kind {
        None => Effect::Wrong,
        Some(kind) => Effect::Takes(kind),
    }
}

fn percent(byte: u8) -> Effect
    ensures { result ≡ turn reading.Percent byte }
{
    if byte == b'%' {
        Effect::Goes(Reading::Plain)
    } else if byte == b'l' {
        Effect::Goes(Reading::Long)
    } else {
        taken(plain_directive(byte))
    }
}

fn turn(reading: Reading, byte: u8) -> Effect
    ensures { result ≡ turn reading byte }
{
    match reading {
        Reading::Plain => {
            if byte == b'%' {
                Effect::Goes(Reading::Percent)
            } else {
                Effect::Goes(Reading::Plain)
            }
        }
        Reading::Percent => percent(byte),
        Reading::Long => taken(long_directive(byte)),
    }
}

fn ended(reading: Reading, kinds: Items<Kind>) -> Option<Items<Kind>>
    ensures { result ≡ ended reading kinds }
{
    match reading {
        Reading::Plain => Some(kinds),
        Reading::Percent | Reading::Long => None,
    }
}

/// The kinds that a text's directives take, where each is one.
pub fn directives(alloc: Global, text: &[u8]) -> Result<Option<Items<Kind>>, AllocError>
    ensures { IfOk result (λ r. r ≡ directives CoreReading.Plain text.now) }
{
    let mut kinds = Items::new(alloc);
    let mut reading = Reading::Plain;
    for byte in text {
        match turn(reading, *byte) {
            Effect::Goes(next) => reading = next,
            Effect::Takes(kind) => {
                kinds.push(kind)?;
                reading = Reading::Plain;
            }
            Effect::Wrong => return Ok(None),
        }
    }
    Ok(ended(reading, kinds))
}
