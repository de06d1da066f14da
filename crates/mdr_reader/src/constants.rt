// Constants, sizes and annotations.

ghost use Rattle.std.specs.Prelude.{◌≡◌, ◌<◌, ◌≤◌, length, suc, IfOk, IfErr, Ok, true, false, List};
ghost use Rattle.mdr_syntax.specs.declared.token.Token.{Token as token};
ghost use Rattle.mdr_grammar.specs.Expressions.{may_open as may_be_open};
ghost use Rattle.mdr_grammar.specs.Forms.Part.{constant as a_constant, annotation as an_annotation, size as a_size, value as a_value};
ghost use Rattle.mdr_grammar.specs.Forms.Nonterminal.{part, option, stars as some_stars};
ghost use Rattle.mdr_grammar.specs.Front.{first, front};
ghost use Rattle.mdr_grammar.specs.Declarations.{some_bracketed, constant_there, array_behind as behind_array, sentinel_behind as behind_sentinel};
ghost use Rattle.mdr_grammar.specs.Declarations.{negative_behind as behind_minus, number_const, name_const};
ghost use Rattle.mdr_reader.specs.Gives.{Gives, Tells};
ghost use Rattle.mdr_reader.specs.declared.failure.Failure.TheVariants.{Memory};

use crate::failure::{Failure, Refused};
use crate::look::{Reader, copied, kind_in, may_open, number_in, past, split, take, text_of};
use crate::openings::perhaps;
use mdr_core::Place;
use mdr_grammar::sort::Sort;
use mdr_syntax::{AnnText, Const, Token};

fn number_constant(negative: bool, place: Place, token: &Token) -> Const
    ensures { result ≡ number_const negative place token.now }
{
    Const::Number(
        place,
        negative,
        number_in(&token.what),
        kind_in(&token.what),
    )
}

fn name_constant(reader: Reader, token: &Token) -> Result<Const, Failure>
    ensures value { IfOk result (λ c. c ≡ name_const token.now) }
    ensures memory { IfErr result (λ e. e ≡ Memory) }
{
    Ok(Const::Name(token.place, copied(reader.alloc, text_of(&token.what))?))
}

/// The number behind a `-`.
fn negative_behind<'t>(
    reader: Reader,
    minus: &Token,
    tokens: &'t [Token],
) -> Result<(Const, &'t [Token]), Refused>
    ensures reads { Tells (λ x. x.0) (λ x. x.1.now) result (front reader.halves (behind_minus minus.now) tokens.now) }
    ensures shorter { IfOk result (λ x. length x.1.now < length tokens.now) }
{
    let (number, rest) = take(reader.halves, Sort::Number, tokens)?;
    Ok((number_constant(true, minus.place, number), rest))
}

/// A constant.
pub fn constant(reader: Reader, tokens: &[Token]) -> Result<(Const, &[Token]), Failure>
    ensures reads { Gives (λ x. x.0) (λ x. x.1.now) result (first reader.halves (part a_constant) tokens.now) }
    ensures shorter { IfOk result (λ x. length x.1.now < length tokens.now) }
{
    let Some((sort, token, rest)) = split(reader.halves, tokens) else {
        return Err(Failure::Fault(tokens.len()));
    };
    match sort {
        Sort::Minus => Ok(negative_behind(reader, token, rest)?),
        Sort::Number => Ok((number_constant(false, token.place, token), rest)),
        Sort::Name => Ok((name_constant(reader, token)?, rest)),
        _ => Err(Failure::Fault(tokens.len())),
    }
}

/// The number of elements and the bracket behind it.
fn bracketed(reader: Reader, tokens: &[Token]) -> Result<(Option<Const>, &[Token]), Failure>
    ensures reads { Gives (λ x. x.0) (λ x. x.1.now) result (front reader.halves some_bracketed tokens.now) }
    ensures shorter { IfOk result (λ x. length x.1.now < length tokens.now) }
{
    let (c, rest) = constant(reader, tokens)?;
    let (_, rest) = take(reader.halves, Sort::CloseBracket, rest)?;
    Ok((Some(c), rest))
}

/// What stands behind `__array`.
fn array_behind(reader: Reader, tokens: &[Token]) -> Result<(AnnText, &[Token]), Failure>
    ensures reads { Gives (λ x. x.0) (λ x. x.1.now) result (front reader.halves behind_array tokens.now) }
    ensures shorter { IfOk result (λ x. length x.1.now < length tokens.now) }
{
    let (_, rest) = take(reader.halves, Sort::Open, tokens)?;
    let (c, rest) = constant(reader, rest)?;
    let (_, rest) = take(reader.halves, Sort::Close, rest)?;
    Ok((AnnText::Array(c), rest))
}

/// What stands behind `__sentinel`.
fn sentinel_behind(reader: Reader, tokens: &[Token]) -> Result<(AnnText, &[Token]), Failure>
    ensures reads { Gives (λ x. x.0) (λ x. x.1.now) result (front reader.halves behind_sentinel tokens.now) }
    ensures shorter { IfOk result (λ x. length x.1.now < length tokens.now) }
{
    let (_, rest) = take(reader.halves, Sort::Open, tokens)?;
    let (name, rest) = take(reader.halves, Sort::Name, rest)?;
    let (_, rest) = take(reader.halves, Sort::Close, rest)?;
    Ok((
        AnnText::Sentinel(name.place, copied(reader.alloc, text_of(&name.what))?),
        rest,
    ))
}

/// An annotation inside so many parentheses.
fn annotation(reader: Reader, tokens: &[Token], depth: u32) -> Result<(AnnText, &[Token]), Failure>
    requires inside { depth ≤ 512 }
    ensures reads { Gives (λ x. x.0) (λ x. x.1.now) result (first reader.halves (part (an_annotation depth)) tokens.now) }
    ensures shorter { IfOk result (λ x. length x.1.now < length tokens.now) }
{
    let Some((sort, _, rest)) = split(reader.halves, tokens) else {
        return Err(Failure::Fault(tokens.len()));
    };
    match sort {
        Sort::Array => {
            if may_open(depth + 1) {
                array_behind(reader, rest)
            } else {
                Err(Failure::Fault(tokens.len()))
            }
        }
        Sort::Sentinel => {
            if may_open(depth + 1) {
                sentinel_behind(reader, rest)
            } else {
                Err(Failure::Fault(tokens.len()))
            }
        }
        Sort::NullTerm => Ok((AnnText::NullTerm, rest)),
        Sort::Opaque => Ok((AnnText::Opaque, rest)),
        _ => Err(Failure::Fault(tokens.len())),
    }
}

/// The number of elements in brackets, if there is one.
pub fn size(reader: Reader, tokens: &[Token]) -> Result<(Option<Const>, &[Token]), Failure>
    ensures reads { Gives (λ x. x.0) (λ x. x.1.now) result (first reader.halves (option true a_size) tokens.now) }
    ensures shorter { IfOk result (λ x. length x.1.now ≤ length tokens.now) }
{
    match past(reader.halves, Sort::OpenBracket, tokens) {
        Some((_, rest)) => bracketed(reader, rest),
        None => Ok((None, tokens)),
    }
}

/// The stars of a type name.
pub fn stars(reader: Reader, tokens: &[Token]) -> (u32, &[Token])
    ensures reads { first reader.halves (some_stars 0) tokens.now ≡ Ok (result.0, result.1.now) }
    ensures shorter { length result.1.now ≤ length tokens.now }
{
    let mut count = 0u32;
    let mut rest = tokens;
    while count < u32::MAX {
        match past(reader.halves, Sort::Star, rest) {
            Some((_, after)) => {
                count += 1;
                rest = after;
            }
            None => return (count, rest),
        }
    }
    (count, rest)
}

/// An annotation, if there is one.
pub fn annotation_option(
    reader: Reader,
    tokens: &[Token],
    depth: u32,
) -> Result<(Option<AnnText>, &[Token]), Failure>
    requires inside { depth ≤ 512 }
    ensures reads { Gives (λ x. x.0) (λ x. x.1.now) result (first reader.halves (option true (an_annotation depth)) tokens.now) }
    ensures shorter { IfOk result (λ x. length x.1.now ≤ length tokens.now) }
{
    perhaps(annotation(reader, tokens, depth), tokens)
}

/// The value of an enumeration constant, if it has one.
pub fn value_option(reader: Reader, tokens: &[Token]) -> Result<(Option<Const>, &[Token]), Failure>
    ensures reads { Gives (λ x. x.0) (λ x. x.1.now) result (first reader.halves (option true a_value) tokens.now) }
    ensures shorter { IfOk result (λ x. length x.1.now ≤ length tokens.now) }
{
    match past(reader.halves, Sort::Equals, tokens) {
        Some((_, rest)) => some_constant(reader, rest),
        None => Ok((None, tokens)),
    }
}

/// A constant that has to be there.
fn some_constant(reader: Reader, tokens: &[Token]) -> Result<(Option<Const>, &[Token]), Failure>
    ensures reads { Gives (λ x. x.0) (λ x. x.1.now) result (front reader.halves constant_there tokens.now) }
    ensures shorter { IfOk result (λ x. length x.1.now < length tokens.now) }
{
    let (c, rest) = constant(reader, tokens)?;
    Ok((Some(c), rest))
}
