// Operands (C99 6.5.1, 6.5.3, 6.5.4).

ghost use Rattle.std.specs.Prelude.{◌≡◌, ◌<◌, ◌≤◌, length, IfOk, Bool};
ghost use Rattle.mdr_grammar.specs.Forms.Part.{operand as an_operand};
ghost use Rattle.mdr_grammar.specs.Forms.Nonterminal.{part, opened as an_opened};
ghost use Rattle.mdr_grammar.specs.Front.{first as first_read, front};
ghost use Rattle.mdr_expression.specs.Tails.{operator_behind as behind_operator, service_behind as behind_service, behind_parenthesis, grouped as a_group, cast as a_cast, operand_of, IsMeasured};
ghost use Rattle.mdr_reader.specs.Gives.{Gives};

use crate::arguments::call;
use crate::forms::{cast_part, name_part, null_part, number_part, prefix_part};
use crate::operators::expression;
use crate::parts::Part;
use crate::postfix::postfix;
use crate::tails::{begins_cast, is_call_free, is_prefix};
use mdr_core::Place;
use mdr_grammar::sort::Sort;
use mdr_reader::constants::stars;
use mdr_reader::failure::Failure;
use mdr_reader::look::{Reader, is_level_free, may_open, split, take};
use mdr_reader::types::base;
use mdr_syntax::Token;

/// An operand at a level, inside so many parentheses; a `(` may begin a cast where casts may stand.
#[cycle(expression)]
pub fn operand(
    reader: Reader,
    tokens: &[Token],
    casts: bool,
    level: u32,
    depth: u32,
) -> Result<(Part, &[Token]), Failure>
    requires low { level ≤ 256 }
    requires inside { depth ≤ 512 }
    ensures reads { Gives (λ x. operand_of x.0) (λ x. x.1.now) result (first_read reader.halves (part (an_operand casts level depth)) tokens.now) }
    ensures shorter { IfOk result (λ x. length x.1.now < length tokens.now) }
    ensures measured { IfOk result (λ x. IsMeasured x.0 level) }
{
    let Some((sort, token, rest)) = split(reader.halves, tokens) else {
        return Err(Failure::Fault(tokens.len()));
    };
    match sort {
        Sort::Name => postfix(
            reader,
            rest,
            token.place,
            name_part(reader, token)?,
            level,
            depth,
        ),
        Sort::Number => postfix(
            reader,
            rest,
            token.place,
            number_part(reader, token)?,
            level,
            depth,
        ),
        Sort::Null => postfix(
            reader,
            rest,
            token.place,
            null_part(reader, token)?,
            level,
            depth,
        ),
        Sort::Service => {
            if is_call_free(level, depth) {
                service(reader, token, rest, level, depth)
            } else {
                Err(Failure::Fault(tokens.len()))
            }
        }
        Sort::Open => {
            if may_open(depth + 1) {
                parentheses(reader, rest, casts, token.place, level, depth)
            } else {
                Err(Failure::Fault(tokens.len()))
            }
        }
        Sort::Step => {
            if is_level_free(level + 1) {
                operator_behind(reader, token, rest, true, level, depth)
            } else {
                Err(Failure::Fault(tokens.len()))
            }
        }
        _ => {
            if is_prefix(sort) {
                if is_level_free(level + 1) {
                    operator_behind(reader, token, rest, false, level, depth)
                } else {
                    Err(Failure::Fault(tokens.len()))
                }
            } else {
                Err(Failure::Fault(tokens.len()))
            }
        }
    }
}

/// What stands behind an operator before its operand; behind `++` and `--` there is no cast.
#[cycle(expression)]
fn operator_behind<'t>(
    reader: Reader,
    token: &Token,
    tokens: &'t [Token],
    is_step: bool,
    level: u32,
    depth: u32,
) -> Result<(Part, &'t [Token]), Failure>
    requires low { level < 256 }
    requires inside { depth ≤ 512 }
    ensures reads { Gives (λ x. operand_of x.0) (λ x. x.1.now) result (front reader.halves (behind_operator is_step level depth token.now) tokens.now) }
    ensures shorter { IfOk result (λ x. length x.1.now < length tokens.now) }
    ensures measured { IfOk result (λ x. IsMeasured x.0 level) }
{
    let (x, rest) = operand(reader, tokens, !is_step, level + 1, depth)?;
    Ok((prefix_part(reader, token, x, is_step)?, rest))
}

/// What stands behind the name of a service: it is called there.
#[cycle(expression)]
fn service<'t>(
    reader: Reader,
    token: &Token,
    tokens: &'t [Token],
    level: u32,
    depth: u32,
) -> Result<(Part, &'t [Token]), Failure>
    requires low { level < 256 }
    requires inside { depth < 512 }
    ensures reads { Gives (λ x. operand_of x.0) (λ x. x.1.now) result (front reader.halves (behind_service level depth token.now) tokens.now) }
    ensures shorter { IfOk result (λ x. length x.1.now < length tokens.now) }
    ensures measured { IfOk result (λ x. IsMeasured x.0 level) }
{
    let name = name_part(reader, token)?;
    let (_, rest) = take(reader.halves, Sort::Open, tokens)?;
    let (made, rest) = call(reader, rest, token.place, name, level, depth)?;
    postfix(reader, rest, token.place, made, level, depth)
}

/// What stands behind a `(`.
#[cycle(expression)]
fn parentheses(
    reader: Reader,
    tokens: &[Token],
    casts: bool,
    first: Place,
    level: u32,
    depth: u32,
) -> Result<(Part, &[Token]), Failure>
    requires low { level ≤ 256 }
    requires inside { depth < 512 }
    ensures reads { Gives (λ x. operand_of x.0) (λ x. x.1.now) result (front reader.halves (behind_parenthesis casts level depth first) tokens.now) }
    ensures shorter { IfOk result (λ x. length x.1.now < length tokens.now) }
    ensures measured { IfOk result (λ x. IsMeasured x.0 level) }
{
    if begins_cast(reader.halves, casts, tokens) {
        if is_level_free(level + 1) {
            cast(reader, tokens, first, level, depth)
        } else {
            Err(Failure::Fault(tokens.len()))
        }
    } else {
        grouped(reader, tokens, first, level, depth)
    }
}

/// An expression, the `)` behind it and what follows.
#[cycle(expression)]
fn grouped(
    reader: Reader,
    tokens: &[Token],
    first: Place,
    level: u32,
    depth: u32,
) -> Result<(Part, &[Token]), Failure>
    requires low { level ≤ 256 }
    requires inside { depth < 512 }
    ensures reads { Gives (λ x. operand_of x.0) (λ x. x.1.now) result (front reader.halves (a_group level depth first) tokens.now) }
    ensures shorter { IfOk result (λ x. length x.1.now < length tokens.now) }
    ensures measured { IfOk result (λ x. IsMeasured x.0 level) }
{
    let (x, rest) = expression(reader, tokens, level, depth + 1)?;
    let (_, rest) = take(reader.halves, Sort::Close, rest)?;
    postfix(
        reader,
        rest,
        first,
        Part {
            form: x.form,
            alone: false,
            height: x.height,
        },
        level,
        depth,
    )
}

/// A type, the `)` behind it and the operand that is cast.
#[cycle(expression)]
fn cast(
    reader: Reader,
    tokens: &[Token],
    first: Place,
    level: u32,
    depth: u32,
) -> Result<(Part, &[Token]), Failure>
    requires low { level < 256 }
    requires inside { depth ≤ 512 }
    ensures reads { Gives (λ x. operand_of x.0) (λ x. x.1.now) result (front reader.halves (a_cast level depth first) tokens.now) }
    ensures shorter { IfOk result (λ x. length x.1.now < length tokens.now) }
    ensures measured { IfOk result (λ x. IsMeasured x.0 level) }
{
    let (named, rest) = base(reader, tokens)?;
    let (count, rest) = stars(reader, rest);
    let (_, rest) = take(reader.halves, Sort::Close, rest)?;
    let (x, rest) = operand(reader, rest, true, level + 1, depth)?;
    Ok((cast_part(reader, first, named.base, count, x)?, rest))
}
