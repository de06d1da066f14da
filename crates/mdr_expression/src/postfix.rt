// Postfix forms (C99 6.5.2).

ghost use Rattle.std.specs.Prelude.{◌≡◌, ◌<◌, ◌≤◌, length, ◌+◌, suc, IfOk, IsTrue};
ghost use Rattle.mdr_grammar.specs.Forms.Nonterminal.{postfix as postfix_forms};
ghost use Rattle.mdr_grammar.specs.Front.{first as first_read, front};
ghost use Rattle.mdr_expression.specs.Tails.{longer as a_longer, subscripted, tail_fits, operand_of, IsMeasured};
ghost use Rattle.mdr_reader.specs.Gives.{Gives};

use crate::arguments::call;
use crate::forms::{member_part, post_part, subscript_part};
use crate::operators::expression;
use crate::parts::Part;
use crate::tails::{Tail, next_tail};
use mdr_core::Place;
use mdr_grammar::sort::Sort;
use mdr_reader::failure::Failure;
use mdr_reader::look::{Reader, take};
use mdr_syntax::Token;

/// A form that began at a place, and the postfix operators behind it.
#[cycle(expression)]
pub fn postfix(
    reader: Reader,
    tokens: &[Token],
    first: Place,
    part: Part,
    level: u32,
    depth: u32,
) -> Result<(Part, &[Token]), Failure>
    requires low { level ≤ 256 }
    requires inside { depth ≤ 512 }
    requires measured { IsMeasured part level }
    ensures reads { Gives (λ x. operand_of x.0) (λ x. x.1.now) result (first_read reader.halves (postfix_forms level depth first part.form part.alone) tokens.now) }
    ensures shorter { IfOk result (λ x. length x.1.now ≤ length tokens.now) }
    ensures measured { IfOk result (λ x. IsMeasured x.0 level) }
{
    let mut so_far = part;
    let mut rest = tokens;
    while let Some((tail, token, behind)) = next_tail(
        reader.halves,
        rest,
        level,
        depth,
        so_far.height,
    ) {
        let (made, after) = longer(reader, token, behind, first, so_far, tail, level, depth)?;
        so_far = made;
        rest = after;
    }
    Ok((so_far, rest))
}

/// What a postfix operator makes of a form, behind the operator's first token.
#[cycle(expression)]
fn longer<'t>(
    reader: Reader,
    token: &Token,
    tokens: &'t [Token],
    first: Place,
    part: Part,
    tail: Tail,
    level: u32,
    depth: u32,
) -> Result<(Part, &'t [Token]), Failure>
    requires low { level + suc part.height ≤ 256 }
    requires inside { depth ≤ 512 }
    requires fits { IsTrue (tail_fits tail depth) }
    requires measured { IsMeasured part level }
    ensures reads { Gives (λ x. operand_of x.0) (λ x. x.1.now) result (front reader.halves (a_longer level depth first part.form tail token.now) tokens.now) }
    ensures shorter { IfOk result (λ x. length x.1.now ≤ length tokens.now) }
    ensures measured { IfOk result (λ x. IsMeasured x.0 level) }
{
    match tail {
        Tail::Subscript => subscript(reader, tokens, first, part, level, depth),
        Tail::Member(is_arrow) => {
            let (name, rest) = take(reader.halves, Sort::Name, tokens)?;
            Ok((member_part(reader, first, part, is_arrow, name)?, rest))
        }
        Tail::Call => call(reader, tokens, first, part, level, depth),
        Tail::Step => Ok((post_part(reader, first, token, part)?, tokens)),
    }
}

/// The index and the `]` behind it.
#[cycle(expression)]
fn subscript(
    reader: Reader,
    tokens: &[Token],
    first: Place,
    part: Part,
    level: u32,
    depth: u32,
) -> Result<(Part, &[Token]), Failure>
    requires low { level + suc part.height ≤ 256 }
    requires inside { depth ≤ 512 }
    requires measured { IsMeasured part level }
    ensures reads { Gives (λ x. operand_of x.0) (λ x. x.1.now) result (front reader.halves (subscripted level depth first part.form) tokens.now) }
    ensures shorter { IfOk result (λ x. length x.1.now ≤ length tokens.now) }
    ensures measured { IfOk result (λ x. IsMeasured x.0 level) }
{
    let (index, rest) = expression(reader, tokens, level + 1, depth)?;
    let (_, rest) = take(reader.halves, Sort::CloseBracket, rest)?;
    Ok((subscript_part(reader, first, part, index)?, rest))
}
