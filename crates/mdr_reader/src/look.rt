// Single tokens.

ghost use Rattle.std.specs.Prelude.{◌≡◌, ◌<◌, length, IfOk, IfSome};
ghost use Rattle.mdr_grammar.specs.Expressions.{text_of, number_in, kind_in, may_open, is_level_free};
ghost use Rattle.mdr_grammar.specs.Front.{word_at};
ghost use Rattle.mdr_reader.specs.Gives.{Tells, Splits, Past};

use crate::failure::Refused;
use crate::sorting::sort_of;
use mdr_core::{Items, Kind, Name};
use mdr_grammar::sort::Sort;
use mdr_syntax::{Lexeme, Token};
use std::alloc::{AllocError, Global};

/// What all of reading needs: an allocator, and whether `__remote` may stand in the text.
#[derive(Clone, Copy)]
pub struct Reader {
    pub alloc: Global,
    pub halves: bool,
}

/// The first token with its sort, and those behind it.
pub fn split(halves: bool, tokens: &[Token]) -> Option<(Sort, &Token, &[Token])>
    ensures found { Splits halves (λ x. x.0) (λ x. x.1.now) (λ x. x.2.now) result tokens.now }
    ensures shorter { IfSome result (λ x. length x.2.now < length tokens.now) }
{
    match tokens {
        [] => None,
        [first, rest @ ..] => Some((sort_of(&first.what, halves), first, rest)),
    }
}

/// The first token, which has to be of the sort, and those behind it.
#[tactic(auto, unfolding(mdr_grammar::specs::Front::word_at))]
pub fn take(halves: bool, sort: Sort, tokens: &[Token]) -> Result<(&Token, &[Token]), Refused>
    ensures reads { Tells (λ x. x.0.now) (λ x. x.1.now) result (word_at halves sort tokens.now) }
    ensures shorter { IfOk result (λ x. length x.1.now < length tokens.now) }
{
    match split(halves, tokens) {
        Some((found, first, rest)) if sort.is(found) => Ok((first, rest)),
        _ => Err(Refused { left: tokens.len() }),
    }
}

/// The first token and those behind it, if it is of the sort.
#[tactic(auto, unfolding(mdr_grammar::specs::Front::word_at))]
pub fn past(halves: bool, sort: Sort, tokens: &[Token]) -> Option<(&Token, &[Token])>
    ensures found { Past halves sort (λ x. x.0.now) (λ x. x.1.now) result tokens.now }
    ensures shorter { IfSome result (λ x. length x.1.now < length tokens.now) }
{
    match split(halves, tokens) {
        Some((found, first, rest)) => {
            if sort.is(found) {
                Some((first, rest))
            } else {
                None
            }
        }
        None => None,
    }
}

/// The text of a word, a text, a mark or a `#define`'s name.
pub fn text_of(what: &Lexeme) -> &[u8]
    ensures { result.now ≡ text_of what.now }
{
    match what {
        Lexeme::Word(text) => text.as_slice(),
        Lexeme::Number(_, _) => &[],
        Lexeme::Text(bytes) => bytes.as_slice(),
        Lexeme::Punct(text) => text.as_slice(),
        Lexeme::Define(name, _, _, _) => name.as_slice(),
        Lexeme::End => &[],
    }
}

/// The number of a token.
pub fn number_in(what: &Lexeme) -> u64
    ensures { result ≡ number_in what.now }
{
    match what {
        Lexeme::Number(n, _) => *n,
        Lexeme::Define(_, _, n, _) => *n,
        Lexeme::Word(_) | Lexeme::Text(_) | Lexeme::Punct(_) | Lexeme::End => 0,
    }
}

/// The kind of a token's number.
pub fn kind_in(what: &Lexeme) -> Kind
    ensures { result ≡ kind_in what.now }
{
    match what {
        Lexeme::Number(_, kind) => *kind,
        Lexeme::Define(_, _, _, kind) => *kind,
        Lexeme::Word(_) | Lexeme::Text(_) | Lexeme::Punct(_) | Lexeme::End => Kind::S32,
    }
}

/// A copy of a name.
pub fn copied(alloc: Global, name: &[u8]) -> Result<Name, AllocError>
    ensures { IfOk result (λ n. n ≡ name.now) }
{
    Items::from_slice(alloc, name)
}

/// Whether tokens may stand inside so many parentheses.
pub fn may_open(depth: u32) -> bool
    ensures { result ≡ may_open depth }
{
    depth <= 512
}

/// Whether a form or statement may stand at a level.
pub fn is_level_free(level: u32) -> bool
    ensures { result ≡ is_level_free level }
{
    level <= 256
}
