// Lines of `#include` and `#define` (C99 6.10).

ghost use Rattle.std.specs.Prelude.{◌≡◌, ◌≤◌, ◌<◌, ◌+◌, ◌^◌, length, IfSome, IfOk, IsTrue, ◌&&◌, codes};
ghost use Rattle.std.specs.Str.{bytes_eq};
ghost use Rattle.std.specs.Option.{option_map};
ghost use Rattle.mdr_syntax.specs.Gives.{Gives};
ghost use Rattle.mdr_syntax.specs.Pieces.{skip_blanks, begins_letter, begins_digit, sign_at, define_head, define_piece, directive_piece};

use crate::bytes::{is_letter, line_len, name_len, skip_blanks};
use crate::error::LexError;
use crate::piece::{Piece, number_at};
use crate::token::Lexeme;
use crate::words::is_reserved;
use mdr_core::{Items, Place};
use std::alloc::Global;

fn begins_letter(bytes: &[u8]) -> bool
    ensures { result ≡ begins_letter bytes.now }
{
    match bytes {
        [b, ..] => is_letter(*b),
        [] => false,
    }
}

fn begins_digit(bytes: &[u8]) -> bool
    ensures value { result ≡ begins_digit bytes.now }
    ensures some { IsTrue result → 0 < length bytes.now }
{
    match bytes {
        [b, ..] => b.is_ascii_digit(),
        [] => false,
    }
}

/// A sign, and what stands behind it.
fn sign_at(bytes: &[u8]) -> (bool, &[u8])
    ensures value { (result.0, result.1.now) ≡ sign_at bytes.now }
    ensures within { length result.1.now ≤ length bytes.now }
{
    match bytes {
        [b'-', rest @ ..] => (true, skip_blanks(rest)),
        _ => (false, bytes),
    }
}

/// Behind `#define`: the name, whether a `-` stands there, and what the number begins.
#[tactic(auto, unfolding(crate::specs::Pieces::define_head))]
fn define_head(bytes: &[u8]) -> Option<(&[u8], bool, &[u8])>
    ensures value { option_map (λ h. (h.0.now, h.1, h.2.now)) result ≡ define_head bytes.now }
    ensures within { IfSome result (λ h. length h.2.now ≤ length bytes.now) }
    ensures some { IfSome result (λ h. 0 < length h.2.now) }
{
    let start = skip_blanks(bytes);
    let (name, rest) = start.split_at(name_len(start));
    let (is_negative, number) = sign_at(skip_blanks(rest));
    if !begins_letter(name) || is_reserved(name) || !begins_digit(number) {
        return None;
    }
    Some((name, is_negative, number))
}

/// A line of `#define`, of which `bytes` stand behind the word, and `len` bytes from the `#` on.
#[tactic(auto, unfolding(crate::specs::Pieces::define_piece))]
fn define_piece(alloc: Global, place: Place, len: usize, bytes: &[u8]) -> Result<Piece, LexError>
    requires inside { length bytes.now < len }
    requires narrow { place.column + len < 2 ^ 32 }
    ensures value { Gives result (define_piece place len bytes.now) }
    ensures within { IfOk result (λ p. p.more < len) }
{
    let Some((name, is_negative, number)) = define_head(bytes) else {
        return Err(LexError::BadByte(place));
    };
    let at = len - number.len();
    let number_place = Place {
        line: place.line,
        column: place.column + at as u32,
    };
    let Some((value, kind, more)) = number_at(number) else {
        return Err(LexError::BadNumber(number_place));
    };
    let name = Items::from_slice(alloc, name)?;
    Ok(Piece::token(Lexeme::Define(name, is_negative, value, kind), at + more))
}

fn is_include(is_fresh: bool, word: &[u8]) -> bool
    ensures { result ≡ (is_fresh && bytes_eq word.now (codes "include")) }
{
    is_fresh && word == b"include".as_slice()
}

fn is_define(word: &[u8]) -> bool
    ensures { result ≡ bytes_eq word.now (codes "define") }
{
    word == b"define".as_slice()
}

/// From a `#` on. A line of `#include` is skipped where no token stands before it on its line.
#[tactic(auto, unfolding(crate::specs::Pieces::directive_piece))]
pub fn directive_piece(
    alloc: Global,
    is_fresh: bool,
    place: Place,
    bytes: &[u8],
) -> Result<Piece, LexError>
    requires some { 0 < length bytes.now }
    requires narrow { place.column + length bytes.now < 2 ^ 32 }
    ensures value { Gives result (directive_piece is_fresh place bytes.now) }
    ensures within { IfOk result (λ p. p.more < length bytes.now) }
{
    let rest = &bytes[1..];
    let (word, after) = rest.split_at(name_len(rest));
    if is_include(is_fresh, word) {
        return Ok(Piece::gap(line_len(rest)));
    }
    if is_define(word) {
        return define_piece(alloc, place, bytes.len(), after);
    }
    Err(LexError::BadByte(place))
}
