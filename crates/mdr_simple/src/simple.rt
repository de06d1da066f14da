// Assignments, and calls that stand alone.

ghost use Rattle.std.specs.Prelude.{◌≡◌, ◌<◌, ◌≤◌, ◌+◌, length, IfOk, IfErr, true};
ghost use Rattle.mdr_syntax.specs.declared.tree.NodeWhat as node_is;
ghost use Rattle.mdr_grammar.specs.Expressions.{text_of as text_in, is_level_free as may_stand};
ghost use Rattle.mdr_grammar.specs.Forms.Part.{simple as a_simple, expression as an_expression};
ghost use Rattle.mdr_grammar.specs.Forms.Nonterminal.{part, option, assignment as an_assignment};
ghost use Rattle.mdr_grammar.specs.Forms.Empty.{may};
ghost use Rattle.mdr_grammar.specs.Front.{first, front, nothing_at};
ghost use Rattle.mdr_grammar.specs.Statements.{node_at, assigned as an_assigned, simple_in as in_simple, assignment_rule};
ghost use Rattle.mdr_reader.specs.Gives.{Gives, Tells, Behind, read_from};
ghost use Rattle.mdr_reader.specs.declared.failure.Failure.TheVariants.{Memory};

use mdr_core::{Boxed, Place};
use mdr_expression::operands::operand;
use mdr_expression::operators::expression;
use mdr_grammar::sort::Sort;
use mdr_reader::failure::{Failure, Refused};
use mdr_reader::look::{Reader, copied, is_level_free, split, text_of};
use mdr_reader::openings::perhaps;
use mdr_syntax::{Form, Node, NodeWhat, Token};

/// The form of an expression, in its box.
pub fn form(
    reader: Reader,
    tokens: &[Token],
    level: u32,
    depth: u32,
) -> Result<(Boxed<Form>, &[Token]), Failure>
    requires low { level ≤ 256 }
    requires inside { depth ≤ 512 }
    ensures reads { Gives (λ x. x.0) (λ x. x.1.now) result (first reader.halves (part (an_expression level depth)) tokens.now) }
    ensures shorter { IfOk result (λ x. length x.1.now < length tokens.now) }
{
    let (x, rest) = expression(reader, tokens, level, depth)?;
    Ok((x.form, rest))
}

/// An expression, if there is one.
pub fn form_option(
    reader: Reader,
    tokens: &[Token],
    level: u32,
    depth: u32,
) -> Result<(Option<Boxed<Form>>, &[Token]), Failure>
    requires low { level ≤ 256 }
    requires inside { depth ≤ 512 }
    ensures reads { Gives (λ x. x.0) (λ x. x.1.now) result (first reader.halves (option true (an_expression level depth)) tokens.now) }
    ensures shorter { IfOk result (λ x. length x.1.now ≤ length tokens.now) }
{
    perhaps(form(reader, tokens, level, depth), tokens)
}

/// An assignment.
fn assign_node(
    reader: Reader,
    first: Place,
    token: &Token,
    left: Boxed<Form>,
    right: Boxed<Form>,
) -> Result<Node, Failure>
    ensures value { IfOk result (λ n. n ≡ node_at first (node_is.Assign token.now.place (text_in token.now.what) left right)) }
    ensures memory { IfErr result (λ e. e ≡ Memory) }
{
    let operator = copied(reader.alloc, text_of(&token.what))?;
    Ok(Node {
        place: first,
        what: NodeWhat::Assign(token.place, operator, left.into_inner(), right.into_inner()),
    })
}

/// What stands behind the operator of an assignment.
fn assigned<'t>(
    reader: Reader,
    tokens: &'t [Token],
    token: &Token,
    first: Place,
    left: Boxed<Form>,
    level: u32,
    depth: u32,
) -> Result<(Node, &'t [Token]), Failure>
    requires low { level < 256 }
    requires inside { depth ≤ 512 }
    ensures reads { Behind (an_assigned first level depth left token.now) (λ r. Gives (λ x. x.0) (λ x. x.1.now) result (front reader.halves r tokens.now)) }
    ensures shorter { IfOk result (λ x. length x.1.now ≤ length tokens.now) }
{
    let (right, rest) = form(reader, tokens, level + 1, depth)?;
    Ok((assign_node(reader, first, token, left, right)?, rest))
}

/// A call, or a form with `++` or `--`, as a statement.
fn alone(
    tokens: &[Token],
    first: Place,
    form: Boxed<Form>,
    is_alone: bool,
) -> Result<(Node, &[Token]), Refused>
    ensures reads { Tells (λ x. x.0) (λ x. x.1.now) result (nothing_at (may is_alone (node_at first (node_is.Plain form))) tokens.now) }
    ensures shorter { IfOk result (λ x. length x.1.now ≤ length tokens.now) }
{
    if is_alone {
        Ok((
            Node {
                place: first,
                what: NodeWhat::Plain(form.into_inner()),
            },
            tokens,
        ))
    } else {
        Err(Refused { left: tokens.len() })
    }
}

/// What stands behind the form that a simple statement begins with.
fn assignment(
    reader: Reader,
    tokens: &[Token],
    place: Place,
    left: Boxed<Form>,
    is_alone: bool,
    level: u32,
    depth: u32,
) -> Result<(Node, &[Token]), Failure>
    requires low { level < 256 }
    requires inside { depth ≤ 512 }
    ensures reads { Gives (λ x. x.0) (λ x. x.1.now) result (first reader.halves (an_assignment place level depth left is_alone) tokens.now) }
    ensures shorter { IfOk result (λ x. length x.1.now ≤ length tokens.now) }
{
    assignment_by(reader, tokens, place, left, is_alone, level, depth)
}

/// An operator and what it assigns, or nothing.
fn assignment_by(
    reader: Reader,
    tokens: &[Token],
    place: Place,
    left: Boxed<Form>,
    is_alone: bool,
    level: u32,
    depth: u32,
) -> Result<(Node, &[Token]), Failure>
    requires low { level < 256 }
    requires inside { depth ≤ 512 }
    ensures reads { Gives (λ x. x.0) (λ x. x.1.now) result (read_from (may is_alone (node_at place (node_is.Plain left))) reader.halves (assignment_rule place level depth left) tokens.now) }
    ensures shorter { IfOk result (λ x. length x.1.now ≤ length tokens.now) }
{
    let Some((sort, token, rest)) = split(reader.halves, tokens) else {
        return Ok(alone(tokens, place, left, is_alone)?);
    };
    match sort {
        Sort::Equals => assigned(reader, rest, token, place, left, level, depth),
        Sort::Compound => assigned(reader, rest, token, place, left, level, depth),
        _ => Ok(alone(tokens, place, left, is_alone)?),
    }
}

/// A simple statement whose first token has a place.
fn simple_at(
    reader: Reader,
    tokens: &[Token],
    place: Place,
    level: u32,
    depth: u32,
) -> Result<(Node, &[Token]), Failure>
    requires low { level < 256 }
    requires inside { depth ≤ 512 }
    ensures reads { Gives (λ x. x.0) (λ x. x.1.now) result (front reader.halves (in_simple place level depth) tokens.now) }
    ensures shorter { IfOk result (λ x. length x.1.now < length tokens.now) }
{
    let (x, rest) = operand(reader, tokens, false, level + 1, depth)?;
    assignment(reader, rest, place, x.form, x.alone, level, depth)
}

/// An assignment or a call.
pub fn simple(
    reader: Reader,
    tokens: &[Token],
    level: u32,
    depth: u32,
) -> Result<(Node, &[Token]), Failure>
    requires low { level < 256 }
    requires inside { depth ≤ 512 }
    ensures reads { Gives (λ x. x.0) (λ x. x.1.now) result (first reader.halves (part (a_simple level depth)) tokens.now) }
    ensures shorter { IfOk result (λ x. length x.1.now < length tokens.now) }
{
    let Some((_, token, _)) = split(reader.halves, tokens) else {
        return Err(Failure::Fault(tokens.len()));
    };
    simple_at(reader, tokens, token.place, level, depth)
}

/// An assignment or a call where one may stand, if there is one.
pub fn simple_option(
    reader: Reader,
    tokens: &[Token],
    level: u32,
    depth: u32,
) -> Result<(Option<Node>, &[Token]), Failure>
    requires low { level ≤ 256 }
    requires inside { depth ≤ 512 }
    ensures reads { Gives (λ x. x.0) (λ x. x.1.now) result (first reader.halves (option (may_stand (level + 1)) (a_simple level depth)) tokens.now) }
    ensures shorter { IfOk result (λ x. length x.1.now ≤ length tokens.now) }
{
    if is_level_free(level + 1) {
        perhaps(simple(reader, tokens, level, depth), tokens)
    } else {
        Ok((None, tokens))
    }
}
