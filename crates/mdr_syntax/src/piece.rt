// What stands at the front of a text.

ghost use Rattle.std.specs.Prelude.{◌≡◌, ◌+◌, ◌<◌, ◌^◌, length, IfOk, IfSome};
ghost use Rattle.mdr_syntax.specs.declared.error.LexError.TheVariants.{BadNumber, OpenText};
ghost use Rattle.mdr_syntax.specs.Gives.{Gives, or_fault};
ghost use Rattle.mdr_syntax.specs.Pieces.{gap_of, token_of, word_at, number_at, number_piece, character_piece, text_piece, punctuation_piece, piece_at};

use crate::bytes::{is_letter, is_space, name_len, number_len};
use crate::comment::slash_piece;
use crate::directive::directive_piece;
use crate::error::LexError;
use crate::number::number_of;
use crate::quoted::{character, text};
use crate::token::Lexeme;
use crate::words::punctuation_len;
use mdr_core::{Items, Kind, Place};
use std::alloc::Global;

/// A token, or what separates tokens, and how many bytes it has behind its first.
#[derive(Drop)]
pub struct Piece {
    pub what: Option<Lexeme>,
    pub more: usize,
}

impl Piece {
    ghost use Rattle.mdr_syntax.specs.Pieces.{gap_of, token_of};

    pub fn gap(more: usize) -> Piece
        ensures { result ≡ gap_of more }
    {
        Piece { what: None, more }
    }

    pub fn token(what: Lexeme, more: usize) -> Piece
        ensures { result ≡ token_of what more }
    {
        Piece {
            what: Some(what),
            more,
        }
    }
}

#[tactic(auto, unfolding(crate::specs::Pieces::word_at))]
fn word(alloc: Global, bytes: &[u8]) -> Result<Piece, LexError>
    requires { 0 < length bytes.now }
    ensures value { Gives result (Ok (word_at bytes.now)) }
    ensures within { IfOk result (λ p. p.more < length bytes.now) }
{
    let more = name_len(&bytes[1..]);
    let name = Items::from_slice(alloc, &bytes[..1 + more])?;
    Ok(Piece::token(Lexeme::Word(name), more))
}

/// The number at the front, if it is one: its value, its kind, and how many bytes it has behind its first.
#[tactic(auto, unfolding(crate::specs::Pieces::number_at))]
pub fn number_at(bytes: &[u8]) -> Option<(u64, Kind, usize)>
    requires { 0 < length bytes.now }
    ensures value { (place : Place) → number_at place bytes.now ≡ or_fault result (BadNumber place) }
    ensures within { IfSome result (λ n. n.2 < length bytes.now) }
{
    let more = number_len(&bytes[1..]);
    match number_of(&bytes[..1 + more]) {
        Some((value, kind)) => Some((value, kind, more)),
        None => None,
    }
}

#[tactic(auto, unfolding(crate::specs::Pieces::number_piece))]
fn number_piece(bytes: &[u8]) -> Option<Piece>
    requires { 0 < length bytes.now }
    ensures value { (place : Place) → number_piece place bytes.now ≡ or_fault result (BadNumber place) }
    ensures within { IfSome result (λ p. p.more < length bytes.now) }
{
    match number_at(bytes) {
        Some((value, kind, more)) => Some(Piece::token(Lexeme::Number(value, kind), more)),
        None => None,
    }
}

#[tactic(auto, unfolding(crate::specs::Pieces::character_piece))]
fn character_piece(bytes: &[u8]) -> Option<Piece>
    requires { 0 < length bytes.now }
    ensures value { (place : Place) → character_piece place bytes.now ≡ or_fault result (OpenText place) }
    ensures within { IfSome result (λ p. p.more < length bytes.now) }
{
    match character(&bytes[1..]) {
        Some((byte, more)) => Some(Piece::token(Lexeme::Number(byte as u64, Kind::S32), more)),
        None => None,
    }
}

#[tactic(auto, unfolding(crate::specs::Pieces::text_piece))]
fn text_piece(alloc: Global, place: Place, bytes: &[u8]) -> Result<Piece, LexError>
    requires { 0 < length bytes.now }
    ensures value { Gives result (text_piece place bytes.now) }
    ensures within { IfOk result (λ p. p.more < length bytes.now) }
{
    let (text, more) = text(alloc, place, &bytes[1..])?;
    Ok(Piece::token(Lexeme::Text(text), more))
}

#[tactic(auto, unfolding(crate::specs::Pieces::punctuation_piece))]
pub fn punctuation_piece(alloc: Global, place: Place, bytes: &[u8]) -> Result<Piece, LexError>
    ensures value { Gives result (punctuation_piece place bytes.now) }
    ensures within { IfOk result (λ p. p.more < length bytes.now) }
{
    let len = punctuation_len(bytes);
    if len == 0 {
        return Err(LexError::BadByte(place));
    }
    let name = Items::from_slice(alloc, &bytes[..len])?;
    Ok(Piece::token(Lexeme::Punct(name), len - 1))
}

/// The piece at the front. `is_fresh` says that no token stands before it on its line.
#[tactic(auto, unfolding(crate::specs::Pieces::piece_at))]
pub fn piece_at(
    alloc: Global,
    is_fresh: bool,
    place: Place,
    bytes: &[u8],
) -> Result<Piece, LexError>
    requires some { 0 < length bytes.now }
    requires narrow { place.column + length bytes.now < 2 ^ 32 }
    ensures value { Gives result (piece_at is_fresh place bytes.now) }
    ensures within { IfOk result (λ p. p.more < length bytes.now) }
{
    let first = bytes[0];
    if is_space(first) {
        Ok(Piece::gap(0))
    } else if is_letter(first) {
        word(alloc, bytes)
    } else if first.is_ascii_digit() {
        number_piece(bytes).ok_or(LexError::BadNumber(place))
    } else {
        match first {
            b'\'' => character_piece(bytes).ok_or(LexError::OpenText(place)),
            b'"' => text_piece(alloc, place, bytes),
            b'/' => slash_piece(alloc, place, bytes),
            b'#' => directive_piece(alloc, is_fresh, place, bytes),
            _ => punctuation_piece(alloc, place, bytes),
        }
    }
}
