// The tokens of a source (C99 6.4).

use mdr_core::{Kind, Name, Place};

/// What a token is.
#[derive(Drop)]
pub enum Lexeme {
    /// A name or a word of the language.
    Word(Name),
    /// A number or a character constant: its value and its kind.
    Number(u64, Kind),
    /// The bytes that a text stands for.
    Text(Name),
    Punct(Name),
    /// A `#define` line: its name, whether a `-` stands before its number, and the number.
    Define(Name, bool, u64, Kind),
    /// The end of the source.
    End,
}

/// A token and the place of its first byte.
#[derive(Drop)]
pub struct Token {
    pub place: Place,
    pub what: Lexeme,
}
