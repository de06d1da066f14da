// Calls and their arguments (C99 6.5.2.2).

ghost use Rattle.std.specs.Prelude.{◌≡◌, ◌<◌, ◌≤◌, ◌+◌, length, suc, IfOk};
ghost use Rattle.mdr_grammar.specs.Forms.Part.{argument as an_argument};
ghost use Rattle.mdr_grammar.specs.Forms.Nonterminal.{part, commas};
ghost use Rattle.mdr_grammar.specs.Forms.Separated.{arguments_at};
ghost use Rattle.mdr_grammar.specs.Front.{first as first_read, front};
ghost use Rattle.mdr_grammar.specs.Sorts.{is_level};
ghost use Rattle.mdr_grammar.specs.Expressions.{text_of as text_in, word_argument};
ghost use Rattle.mdr_expression.specs.Tails.{called, closed_arguments as closed, listed_arguments as listed, AreMeasured, operand_of, IsMeasured};
ghost use Rattle.mdr_reader.specs.Gives.{Gives};

use crate::forms::{call_part, name_part, no_arguments, one_argument, text_part, with_argument};
use crate::operators::{choice, expression, operators};
use crate::parts::{Arguments, Part};
use crate::postfix::postfix;
use crate::tails::{begins_type, past_comma};
use crate::words::{dropped, type_argument};
use mdr_core::Place;
use mdr_grammar::sort::Sort;
use mdr_reader::failure::Failure;
use mdr_reader::look::{Reader, past, split, take};
use mdr_syntax::Token;

/// A call of a form, behind its `(`.
#[cycle(expression)]
pub fn call(
    reader: Reader,
    tokens: &[Token],
    first: Place,
    part: Part,
    level: u32,
    depth: u32,
) -> Result<(Part, &[Token]), Failure>
    requires low { level + suc part.height ≤ 256 }
    requires inside { depth < 512 }
    requires measured { IsMeasured part level }
    ensures reads { Gives (λ x. operand_of x.0) (λ x. x.1.now) result (front reader.halves (called level depth first part.form) tokens.now) }
    ensures shorter { IfOk result (λ x. length x.1.now ≤ length tokens.now) }
    ensures measured { IfOk result (λ x. IsMeasured x.0 level) }
{
    let (arguments, rest) = closed_arguments(reader, tokens, level + 1, depth + 1)?;
    Ok((call_part(reader, first, part, arguments)?, rest))
}

/// Arguments and the `)` behind them.
#[cycle(expression)]
fn closed_arguments(
    reader: Reader,
    tokens: &[Token],
    level: u32,
    depth: u32,
) -> Result<(Arguments, &[Token]), Failure>
    requires low { level ≤ 256 }
    requires inside { depth ≤ 512 }
    ensures reads { Gives (λ x. x.0.forms) (λ x. x.1.now) result (front reader.halves (closed level depth) tokens.now) }
    ensures shorter { IfOk result (λ x. length x.1.now ≤ length tokens.now) }
    ensures measured { IfOk result (λ x. AreMeasured x.0 level) }
{
    match past(reader.halves, Sort::Close, tokens) {
        Some((_, rest)) => Ok((no_arguments(reader), rest)),
        None => listed_arguments(reader, tokens, level, depth),
    }
}

/// At least one argument, and the `)` behind them.
#[cycle(expression)]
fn listed_arguments(
    reader: Reader,
    tokens: &[Token],
    level: u32,
    depth: u32,
) -> Result<(Arguments, &[Token]), Failure>
    requires low { level ≤ 256 }
    requires inside { depth ≤ 512 }
    ensures reads { Gives (λ x. x.0.forms) (λ x. x.1.now) result (front reader.halves (listed level depth) tokens.now) }
    ensures shorter { IfOk result (λ x. length x.1.now ≤ length tokens.now) }
    ensures measured { IfOk result (λ x. AreMeasured x.0 level) }
{
    let (first, rest) = argument(reader, tokens, level, depth)?;
    let (arguments, rest) = more_arguments(
        reader,
        rest,
        one_argument(reader, first)?,
        level,
        depth,
    )?;
    let (_, rest) = take(reader.halves, Sort::Close, rest)?;
    Ok((arguments, rest))
}

/// Arguments so far, and the further ones behind them, each behind a comma.
#[cycle(expression)]
fn more_arguments(
    reader: Reader,
    tokens: &[Token],
    arguments: Arguments,
    level: u32,
    depth: u32,
) -> Result<(Arguments, &[Token]), Failure>
    requires low { level ≤ 256 }
    requires inside { depth ≤ 512 }
    requires measured { AreMeasured arguments level }
    ensures reads { Gives (λ x. x.0.forms) (λ x. x.1.now) result (first_read reader.halves (commas (arguments_at level depth) arguments.forms) tokens.now) }
    ensures shorter { IfOk result (λ x. length x.1.now ≤ length tokens.now) }
    ensures measured { IfOk result (λ x. AreMeasured x.0 level) }
{
    let mut so_far = arguments;
    let mut rest = tokens;
    while let Some(behind) = past_comma(reader.halves, rest) {
        let (next, after) = argument(reader, behind, level, depth)?;
        so_far = with_argument(so_far, next)?;
        rest = after;
    }
    Ok((so_far, rest))
}

/// An argument: a text, a type or an expression.
#[cycle(expression)]
fn argument(
    reader: Reader,
    tokens: &[Token],
    level: u32,
    depth: u32,
) -> Result<(Part, &[Token]), Failure>
    requires low { level ≤ 256 }
    requires inside { depth ≤ 512 }
    ensures reads { Gives (λ x. x.0.form) (λ x. x.1.now) result (first_read reader.halves (part (an_argument level depth)) tokens.now) }
    ensures shorter { IfOk result (λ x. length x.1.now < length tokens.now) }
    ensures measured { IfOk result (λ x. IsMeasured x.0 level) }
{
    let Some((sort, token, rest)) = split(reader.halves, tokens) else {
        return Err(Failure::Fault(tokens.len()));
    };
    match sort {
        Sort::Text => Ok((text_part(reader, token)?, rest)),
        Sort::Name => word(reader, token, rest, level, depth),
        _ => {
            if begins_type(sort) {
                type_argument(reader, token, tokens)
            } else {
                expression(reader, tokens, level, depth)
            }
        }
    }
}

/// What stands behind a word that begins an argument.
#[cycle(expression)]
fn word<'t>(
    reader: Reader,
    token: &Token,
    tokens: &'t [Token],
    level: u32,
    depth: u32,
) -> Result<(Part, &'t [Token]), Failure>
    requires low { level ≤ 256 }
    requires inside { depth ≤ 512 }
    ensures reads { Gives (λ x. x.0.form) (λ x. x.1.now) result (front reader.halves (word_argument (is_level (text_in token.now.what)) level depth token.now) tokens.now) }
    ensures shorter { IfOk result (λ x. length x.1.now ≤ length tokens.now) }
    ensures measured { IfOk result (λ x. IsMeasured x.0 level) }
{
    match dropped(reader, token, tokens)? {
        Some((text, rest)) => Ok((text, rest)),
        None => {
            let name = name_part(reader, token)?;
            let (x, rest) = postfix(reader, tokens, token.place, name, level, depth)?;
            let (x, rest) = operators(reader, rest, 1, x, level, depth)?;
            choice(reader, rest, x, level, depth)
        }
    }
}
