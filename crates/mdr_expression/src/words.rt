// Arguments that are no expressions: texts behind `KERN_` words, and types.

ghost use Rattle.std.specs.Prelude.{◌≡◌, ◌<◌, ◌≤◌, length, IfOk, IfSome, ℕ};
ghost use Rattle.mdr_grammar.specs.Forms.Nonterminal.{text_after as text_afterwards, text_behind as text_next};
ghost use Rattle.mdr_grammar.specs.Front.{first as first_read, front};
ghost use Rattle.mdr_grammar.specs.Sorts.{is_level as is_a_level};
ghost use Rattle.mdr_grammar.specs.Expressions.{height, text_of as text_in, word_argument};
ghost use Rattle.mdr_expression.specs.Tails.{type_form as a_type, text_or_none, text_or_kept, Leveled, Worded, IsMeasured};
ghost use Rattle.mdr_reader.specs.Gives.{Gives};

use crate::forms::{text_part, type_part};
use crate::parts::Part;
use crate::tails::is_level;
use mdr_grammar::sort::Sort;
use mdr_reader::constants::stars;
use mdr_reader::failure::Failure;
use mdr_reader::look::{Reader, past, split, take, text_of};
use mdr_reader::types::base;
use mdr_syntax::Token;

/// What stands behind a `KERN_` word.
fn past_level(halves: bool, tokens: &[Token]) -> Option<&[Token]>
    ensures found { Leveled halves (λ x. x.now) result tokens.now }
    ensures shorter { IfSome result (λ x. length x.now < length tokens.now) }
{
    match past(halves, Sort::Name, tokens) {
        Some((token, rest)) => {
            if is_level(text_of(&token.what)) {
                Some(rest)
            } else {
                None
            }
        }
        None => None,
    }
}

/// A text, perhaps behind further `KERN_` words.
fn text_after(reader: Reader, tokens: &[Token]) -> Result<(Part, &[Token]), Failure>
    ensures reads { Gives (λ x. x.0.form) (λ x. x.1.now) result (first_read reader.halves text_afterwards tokens.now) }
    ensures shorter { IfOk result (λ x. length x.1.now < length tokens.now) }
    ensures measured { IfOk result (λ x. (x.0.height ≡ height x.0.form) × (x.0.height ≡ 0)) }
{
    let mut rest = tokens;
    while let Some(behind) = past_level(reader.halves, rest) {
        rest = behind;
    }
    let (token, rest) = take(reader.halves, Sort::Text, rest)?;
    Ok((text_part(reader, token)?, rest))
}

/// Whether a text begins, perhaps with further `KERN_` words.
fn text_begins(halves: bool, tokens: &[Token]) -> bool
    ensures { first_read halves text_next tokens.now ≡ text_or_none result halves tokens.now }
{
    let Some((sort, token, _)) = split(halves, tokens) else {
        return false;
    };
    match sort {
        Sort::Text => true,
        Sort::Name => is_level(text_of(&token.what)),
        _ => false,
    }
}

/// Whether a word is a `KERN_` word and a text is behind it.
fn is_dropped(halves: bool, token: &Token, tokens: &[Token]) -> bool
    ensures { (l d : ℕ) → front halves (word_argument (is_a_level (text_in token.now.what)) l d token.now) tokens.now ≡ text_or_kept result halves l d token.now tokens.now }
{
    is_level(text_of(&token.what)) && text_begins(halves, tokens)
}

/// The text behind a word, if it is a `KERN_` word and there is one.
pub fn dropped<'t>(
    reader: Reader,
    token: &Token,
    tokens: &'t [Token],
) -> Result<Option<(Part, &'t [Token])>, Failure>
    ensures reads { Worded reader.halves token.now (λ x. x.0.form) (λ x. x.1.now) result tokens.now }
    ensures shorter { IfOk result (λ o. IfSome o (λ x. length x.1.now < length tokens.now)) }
    ensures measured { IfOk result (λ o. IfSome o (λ x. (x.0.height ≡ height x.0.form) × (x.0.height ≡ 0))) }
{
    if is_dropped(reader.halves, token, tokens) {
        Ok(Some(text_after(reader, tokens)?))
    } else {
        Ok(None)
    }
}

/// A type as an argument.
pub fn type_argument<'t>(
    reader: Reader,
    token: &Token,
    tokens: &'t [Token],
) -> Result<(Part, &'t [Token]), Failure>
    ensures reads { Gives (λ x. x.0.form) (λ x. x.1.now) result (front reader.halves (a_type token.now) tokens.now) }
    ensures shorter { IfOk result (λ x. length x.1.now < length tokens.now) }
    ensures measured { IfOk result (λ x. (x.0.height ≡ height x.0.form) × (x.0.height ≡ 0)) }
{
    let (named, rest) = base(reader, tokens)?;
    let (count, rest) = stars(reader, rest);
    Ok((type_part(reader, token, named.base, count)?, rest))
}
