// Operators between operands (C99 6.5.5 to 6.5.15).

ghost use Rattle.std.specs.Prelude.{◌≡◌, ◌<◌, ◌≤◌, ◌+◌, ◌-◌, length, suc, IfOk};
ghost use Rattle.mdr_grammar.specs.Forms.Part.{expression as an_expression};
ghost use Rattle.mdr_grammar.specs.Forms.Nonterminal.{part, choice as a_choice};
ghost use Rattle.mdr_grammar.specs.Front.{first as first_read, front};
ghost use Rattle.mdr_grammar.specs.Expressions.{operators_from, tighter as a_tighter};
ghost use Rattle.mdr_expression.specs.Tails.{branches as a_branches, operand_of, IsMeasured};
ghost use Rattle.mdr_reader.specs.Gives.{Gives};

use crate::forms::{binary_part, choice_part};
use crate::operands::operand;
use crate::parts::Part;
use crate::tails::{may_sink, next_operator};
use mdr_grammar::sort::Sort;
use mdr_reader::failure::Failure;
use mdr_reader::look::{Reader, past, take};
use mdr_syntax::Token;

/// An expression at a level, inside so many parentheses.
#[cycle(expression)]
pub fn expression(
    reader: Reader,
    tokens: &[Token],
    level: u32,
    depth: u32,
) -> Result<(Part, &[Token]), Failure>
    requires low { level ≤ 256 }
    requires inside { depth ≤ 512 }
    ensures reads { Gives (λ x. x.0.form) (λ x. x.1.now) result (first_read reader.halves (part (an_expression level depth)) tokens.now) }
    ensures shorter { IfOk result (λ x. length x.1.now < length tokens.now) }
    ensures measured { IfOk result (λ x. IsMeasured x.0 level) }
{
    let (x, rest) = tighter(reader, tokens, 1, level, depth)?;
    choice(reader, rest, x, level, depth)
}

/// An operand, and the operators behind it that bind more tightly than a precedence.
#[cycle(expression)]
fn tighter(
    reader: Reader,
    tokens: &[Token],
    above: u32,
    level: u32,
    depth: u32,
) -> Result<(Part, &[Token]), Failure>
    requires low { level ≤ 256 }
    requires inside { depth ≤ 512 }
    requires bound { above ≤ 11 }
    ensures reads { Gives (λ x. x.0.form) (λ x. x.1.now) result (front reader.halves (a_tighter above level depth) tokens.now) }
    ensures shorter { IfOk result (λ x. length x.1.now < length tokens.now) }
    ensures measured { IfOk result (λ x. IsMeasured x.0 level) }
{
    let (x, rest) = operand(reader, tokens, true, level, depth)?;
    operators(reader, rest, above, x, level, depth)
}

/// A form, and the operators behind it that bind more tightly than a precedence.
#[cycle(expression)]
pub fn operators(
    reader: Reader,
    tokens: &[Token],
    above: u32,
    part: Part,
    level: u32,
    depth: u32,
) -> Result<(Part, &[Token]), Failure>
    requires low { level ≤ 256 }
    requires inside { depth ≤ 512 }
    requires bound { above ≤ 11 }
    requires measured { IsMeasured part level }
    ensures reads { Gives (λ x. x.0.form) (λ x. x.1.now) result (front reader.halves (operators_from (11 - above) (suc above) level depth part.form) tokens.now) }
    ensures shorter { IfOk result (λ x. length x.1.now ≤ length tokens.now) }
    ensures measured { IfOk result (λ x. IsMeasured x.0 level) }
{
    let mut so_far = part;
    let mut most = 11;
    let mut rest = tokens;
    while let Some((precedence, token, behind)) = next_operator(reader.halves, rest, above, most) {
        if may_sink(level, so_far.height) {
            let (right, after) = tighter(reader, behind, precedence, level + 1, depth)?;
            so_far = binary_part(reader, token, so_far, right)?;
            most = precedence;
            rest = after;
        } else {
            return Ok((so_far, rest));
        }
    }
    Ok((so_far, rest))
}

/// A form, or a choice whose condition it is.
#[cycle(expression)]
pub fn choice(
    reader: Reader,
    tokens: &[Token],
    part: Part,
    level: u32,
    depth: u32,
) -> Result<(Part, &[Token]), Failure>
    requires low { level ≤ 256 }
    requires inside { depth ≤ 512 }
    requires measured { IsMeasured part level }
    ensures reads { Gives (λ x. x.0.form) (λ x. x.1.now) result (first_read reader.halves (a_choice level depth part.form) tokens.now) }
    ensures shorter { IfOk result (λ x. length x.1.now ≤ length tokens.now) }
    ensures measured { IfOk result (λ x. IsMeasured x.0 level) }
{
    match past(reader.halves, Sort::Question, tokens) {
        Some((token, behind)) => {
            if may_sink(level, part.height) {
                branches(reader, token, behind, part, level, depth)
            } else {
                Ok((part, tokens))
            }
        }
        None => Ok((part, tokens)),
    }
}

/// What stands behind a `?`: the two forms of a choice.
#[cycle(expression)]
fn branches<'t>(
    reader: Reader,
    token: &Token,
    tokens: &'t [Token],
    part: Part,
    level: u32,
    depth: u32,
) -> Result<(Part, &'t [Token]), Failure>
    requires low { level + suc part.height ≤ 256 }
    requires inside { depth ≤ 512 }
    requires measured { IsMeasured part level }
    ensures reads { Gives (λ x. x.0.form) (λ x. x.1.now) result (front reader.halves (a_branches level depth part.form token.now) tokens.now) }
    ensures shorter { IfOk result (λ x. length x.1.now ≤ length tokens.now) }
    ensures measured { IfOk result (λ x. IsMeasured x.0 level) }
{
    let (a, rest) = expression(reader, tokens, level + 1, depth)?;
    let (_, rest) = take(reader.halves, Sort::Colon, rest)?;
    let (b, rest) = expression(reader, rest, level + 1, depth)?;
    Ok((choice_part(reader, token, part, a, b)?, rest))
}
