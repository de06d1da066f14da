// The tokens of a text.

ghost use Rattle.std.specs.Prelude.{◌≡◌, ◌≤◌, ◌<◌, ◌+◌, ◌-◌, ◌^◌, length, OnOk, ◌++◌, ◌==◌, Err};
ghost use Rattle.std.specs.List.{list_any};
ghost use Rattle.mdr_syntax.specs.Places.{place_past, place_after};
ghost use Rattle.mdr_syntax.specs.Gives.{Gives};
ghost use Rattle.mdr_syntax.specs.Tokens.{is_fresh_after, tokens_of_piece, tokens_of};

use crate::error::LexError;
use crate::piece::piece_at;
use crate::token::{Lexeme, Token};
use mdr_core::{Items, Limit, Place, within};
use std::alloc::{AllocError, Global};

/// The place behind a byte.
fn place_past(place: Place, b: u8) -> Place
    requires line { place.line + 1 < 2 ^ 32 }
    requires column { place.column + 1 < 2 ^ 32 }
    ensures { result ≡ place_past place b }
{
    if b == b'\n' {
        Place {
            line: place.line + 1,
            column: 1,
        }
    } else {
        Place {
            line: place.line,
            column: place.column + 1,
        }
    }
}

/// The place behind these bytes.
fn place_after(place: Place, bytes: &[u8]) -> Place
    requires line { place.line + length bytes.now < 2 ^ 32 }
    requires column { place.column + length bytes.now < 2 ^ 32 }
    ensures value { result ≡ place_after place bytes.now }
    ensures line { result.line ≤ place.line + length bytes.now }
    ensures column { result.column ≤ place.column + length bytes.now }
{
    let mut after = place;
    for b in bytes {
        after = place_past(after, *b);
    }
    after
}

fn has_newline(bytes: &[u8]) -> bool
    ensures { result ≡ list_any (λ b. b == 10) bytes.now }
{
    bytes.iter().any(|b| *b == b'\n')
}

/// Whether no token stands on the line behind a piece of these bytes.
fn is_fresh_after(is_fresh: bool, what: &Option<Lexeme>, taken: &[u8]) -> bool
    ensures { result ≡ is_fresh_after is_fresh what.now taken.now }
{
    match what {
        None => is_fresh || has_newline(taken),
        Some(_) => false,
    }
}

/// Adds the token of a piece, if it is one.
fn push_piece(
    tokens: &mut Items<Token>,
    place: Place,
    what: Option<Lexeme>,
) -> Result<(), AllocError>
    ensures { OnOk result (tokens.new ≡ tokens.old ++ tokens_of_piece place what) }
{
    if let Some(what) = what {
        tokens.push(Token { place, what })?;
    }
    Ok(())
}

/// The tokens of a text, with its end behind them, or the first fault. A longer text than `Limit::Bytes` would have
/// places that 32 bits don't hold.
pub fn tokens(alloc: Global, bytes: &[u8]) -> Result<Items<Token>, LexError>
    ensures exact { Gives result (tokens_of bytes.now) }
    ensures long { 2 ^ 32 - 2 < length bytes.now → result ≡ Err LexError.OutOfMemory }
{
    within(bytes.len() as u64, Limit::Bytes)?;
    let mut tokens = Items::new(alloc);
    let mut place = Place { line: 1, column: 1 };
    let mut is_fresh = true;
    let mut rest = bytes;
    while !rest.is_empty() {
        let piece = piece_at(alloc, is_fresh, place, rest)?;
        let (taken, after) = rest.split_at(1 + piece.more);
        is_fresh = is_fresh_after(is_fresh, &piece.what, taken);
        push_piece(&mut tokens, place, piece.what)?;
        place = place_after(place, taken);
        rest = after;
    }
    tokens.push(Token {
        place,
        what: Lexeme::End,
    })?;
    Ok(tokens)
}
