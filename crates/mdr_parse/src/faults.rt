// The error at the first token that can't stand where it does.

ghost use Rattle.std.specs.Prelude.{◌≡◌, ◌-◌, length, slice_get, IfOk};
ghost use Rattle.std.specs.List.{list_any};
ghost use Rattle.std.specs.Str.{bytes_eq};
ghost use Rattle.std.specs.Option.{option_copied};
ghost use Rattle.mdr_parse.specs.Parsing.{left_out as listed_words, is_left_out as is_listed, error_at as fault_at, error_in as fault_in, end_place as place_of_end};

use crate::error::ParseError;
use mdr_core::Place;
use mdr_reader::look::{copied, text_of};
use mdr_syntax::{Lexeme, Token};
use std::alloc::{AllocError, Global};

/// The words of C99 that sources do without.
const LEFT_OUT: [&str; 15] = [
    "typedef",
    "union",
    "float",
    "double",
    "goto",
    "sizeof",
    "asm",
    "__asm__",
    "extern",
    "auto",
    "register",
    "restrict",
    "_Bool",
    "_Complex",
    "_Imaginary",
];

/// Whether a word is one of these.
fn is_one_of(words: &[&str], word: &[u8]) -> bool
    ensures { result ≡ list_any (λ w. bytes_eq w.now word.now) words.now }
{
    words.iter().any(|w| w.as_bytes() == word)
}

/// Whether sources do without a word.
fn is_left_out_word(word: &[u8]) -> bool
    ensures { result ≡ list_any (λ w. bytes_eq w word.now) listed_words }
{
    is_one_of(&LEFT_OUT, word)
}

/// Whether sources do without a token.
#[tactic(auto, unfolding(crate::specs::Parsing::is_left_out))]
fn is_left_out(what: &Lexeme) -> bool
    ensures { result ≡ is_listed what.now }
{
    match what {
        Lexeme::Word(text) => is_left_out_word(text.as_slice()),
        Lexeme::Punct(text) => text.as_slice() == "...".as_bytes(),
        Lexeme::Number(_, _) | Lexeme::Text(_) | Lexeme::Define(_, _, _, _) | Lexeme::End => false,
    }
}

/// The error at a token.
fn error_at(alloc: Global, token: &Token) -> Result<ParseError, AllocError>
    ensures { IfOk result (λ e. e ≡ fault_at token.now) }
{
    if is_left_out(&token.what) {
        let word = copied(alloc, text_of(&token.what))?;
        Ok(ParseError::NotInProfile(token.place, word))
    } else {
        Ok(ParseError::Expected(token.place))
    }
}

/// The place of the last of these tokens.
fn end_place(tokens: &[Token]) -> Place
    ensures { result ≡ place_of_end tokens.now }
{
    let mut place = Place { line: 1, column: 1 };
    for token in tokens {
        place = token.place;
    }
    place
}

/// The n-th token.
fn token_at(tokens: &[Token], n: usize) -> Option<&Token>
    ensures { option_copied result ≡ slice_get tokens.now n }
{
    tokens.get(n)
}

/// The error where so many tokens are left.
pub fn first_error(alloc: Global, tokens: &[Token], left: usize) -> Result<ParseError, AllocError>
    ensures { IfOk result (λ e. e ≡ fault_in (place_of_end tokens.now) (slice_get tokens.now (length tokens.now - left))) }
{
    match token_at(tokens, tokens.len().saturating_sub(left)) {
        Some(token) => error_at(alloc, token),
        None => Ok(ParseError::Expected(end_place(tokens))),
    }
}
