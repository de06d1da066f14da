// Character constants and texts (C99 6.4.4.4, 6.4.5).

ghost use Rattle.std.specs.Prelude.{◌≡◌, ◌≤◌, length, IfSome, IfOk, false};
ghost use Rattle.mdr_syntax.specs.declared.error.LexError.TheVariants.{OpenText};
ghost use Rattle.mdr_syntax.specs.Gives.{Gives, or_fault};
ghost use Rattle.mdr_syntax.specs.Quoted.{escape_of, character_at, part_of, text_from};

use crate::bytes::is_plain;
use crate::error::LexError;
use mdr_core::{Items, Name, Place};
use std::alloc::Global;

/// What a byte is in a text.
#[derive(Clone, Copy)]
pub enum Part {
    /// It stands for this byte, with the backslash before it if there is one.
    Byte(u8),
    Backslash,
    Close,
    Wrong,
}

/// What a letter behind a backslash stands for.
fn escape_of(letter: u8) -> Option<u8>
    ensures { result ≡ escape_of letter }
{
    match letter {
        b'n' => Some(b'\n'),
        b't' => Some(b'\t'),
        b'r' => Some(b'\r'),
        b'0' => Some(0),
        b'\\' | b'\'' | b'"' => Some(letter),
        _ => None,
    }
}

/// Behind the opening quote of a character constant: the byte that it stands for, and how many bytes there
/// are with the closing quote.
#[tactic(auto, unfolding(crate::specs::Quoted::character_at))]
pub fn character(bytes: &[u8]) -> Option<(u8, usize)>
    ensures value { result ≡ character_at bytes.now }
    ensures within { IfSome result (λ c. c.1 ≤ length bytes.now) }
{
    match bytes {
        [a, b'\'', ..] if is_plain(b'\'', *a) => Some((*a, 2)),
        [b'\\', b, b'\'', ..] => {
            let byte = escape_of(*b)?;
            Some((byte, 3))
        }
        _ => None,
    }
}

fn part_of(is_escaped: bool, b: u8) -> Part
    ensures { result ≡ part_of is_escaped b }
{
    if is_escaped {
        match escape_of(b) {
            Some(byte) => Part::Byte(byte),
            None => Part::Wrong,
        }
    } else if b == b'"' {
        Part::Close
    } else if b == b'\\' {
        Part::Backslash
    } else if is_plain(b'"', b) {
        Part::Byte(b)
    } else {
        Part::Wrong
    }
}

/// Behind the opening quote of a text: the bytes that it stands for, and how many bytes there are with the
/// closing quote.
pub fn text(alloc: Global, place: Place, bytes: &[u8]) -> Result<(Name, usize), LexError>
    ensures value { Gives result (or_fault (text_from false bytes.now) (OpenText place)) }
    ensures within { IfOk result (λ t. t.1 ≤ length bytes.now) }
{
    let mut text = Items::new(alloc);
    let mut is_escaped = false;
    for i in 0..bytes.len() {
        match part_of(is_escaped, bytes[i]) {
            Part::Byte(b) => {
                text.push(b)?;
                is_escaped = false;
            }
            Part::Backslash => is_escaped = true,
            Part::Close => return Ok((text, i + 1)),
            Part::Wrong => return Err(LexError::OpenText(place)),
        }
    }
    Err(LexError::OpenText(place))
}
