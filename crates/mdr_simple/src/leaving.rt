// Statements without statements in them, and what statements end with (C99 6.8.3, 6.8.6).

ghost use Rattle.std.specs.Prelude.{◌<◌, ◌≤◌, ◌+◌, length, IfOk, IfSome, true};
ghost use Rattle.mdr_syntax.specs.declared.tree.NodeWhat as node_is;
ghost use Rattle.mdr_grammar.specs.Expressions.{is_level_free as may_stand};
ghost use Rattle.mdr_grammar.specs.Forms.Part.{expression as an_expression};
ghost use Rattle.mdr_grammar.specs.Forms.Nonterminal.{option};
ghost use Rattle.mdr_grammar.specs.Front.{first, front, and_read};
ghost use Rattle.mdr_grammar.specs.Statements.{leaving_by, keyword_rule, simple_statement_in, semicolon_behind, locals_rule};
ghost use Rattle.mdr_simple.specs.Behind.{ended_of, ended_by as ends_by, done, while_behind, after_condition};
ghost use Rattle.mdr_simple.specs.Others.{GoesOn};
ghost use Rattle.mdr_reader.specs.Gives.{Gives, Tells, Behind, read_by};
ghost use Rattle.mdr_grammar.specs.declared.sort.Sort.TheVariants as sort_is;

use crate::conditions::condition;
use crate::locals::locals;
use crate::nodes::{break_node, continue_node, do_node, return_node};
use crate::parts::Branch;
use crate::simple::{form_option, simple};
use mdr_core::{Boxed, Items, Place};
use mdr_grammar::parts::Ended;
use mdr_grammar::sort::Sort;
use mdr_reader::failure::{Failure, Refused};
use mdr_reader::look::{Reader, is_level_free, past, take};
use mdr_syntax::{Form, Node, Token};

/// A statement and the token that ends it.
pub fn ended_by(
    reader: Reader,
    sort: Sort,
    tokens: &[Token],
    node: Node,
) -> Result<(Ended, &[Token]), Refused>
    ensures reads { Tells (λ x. x.0) (λ x. x.1.now) result (front reader.halves (ends_by sort node) tokens.now) }
    ensures shorter { IfOk result (λ x. length x.1.now < length tokens.now) }
{
    match take(reader.halves, sort, tokens) {
        Ok((_, rest)) => Ok((Ended { node, closed: true }, rest)),
        Err(e) => {
            drop(node);
            Err(e)
        }
    }
}

/// What stands behind `break`.
pub fn break_behind(
    reader: Reader,
    tokens: &[Token],
    place: Place,
) -> Result<(Ended, &[Token]), Refused>
    ensures reads { Tells (λ x. x.0) (λ x. x.1.now) result (front reader.halves (leaving_by place node_is.Break) tokens.now) }
    ensures shorter { IfOk result (λ x. length x.1.now < length tokens.now) }
{
    ended_by(reader, Sort::Semicolon, tokens, break_node(place))
}

/// What stands behind `continue`.
pub fn continue_behind(
    reader: Reader,
    tokens: &[Token],
    place: Place,
) -> Result<(Ended, &[Token]), Refused>
    ensures reads { Tells (λ x. x.0) (λ x. x.1.now) result (front reader.halves (leaving_by place node_is.Continue) tokens.now) }
    ensures shorter { IfOk result (λ x. length x.1.now < length tokens.now) }
{
    ended_by(reader, Sort::Semicolon, tokens, continue_node(place))
}

/// The value of a `return`, if it has one.
fn value_option(
    reader: Reader,
    tokens: &[Token],
    level: u32,
) -> Result<(Option<Boxed<Form>>, &[Token]), Failure>
    requires low { level ≤ 256 }
    ensures reads { Gives (λ x. x.0) (λ x. x.1.now) result (first reader.halves (option (may_stand (level + 1)) (an_expression (level + 1) 0)) tokens.now) }
    ensures shorter { IfOk result (λ x. length x.1.now ≤ length tokens.now) }
{
    if is_level_free(level + 1) {
        form_option(reader, tokens, level + 1, 0)
    } else {
        Ok((None, tokens))
    }
}

/// What stands behind `return`.
pub fn return_behind<'t>(
    reader: Reader,
    tokens: &'t [Token],
    word: &Token,
    level: u32,
) -> Result<(Ended, &'t [Token]), Failure>
    requires low { level ≤ 256 }
    ensures reads { Behind (keyword_rule level sort_is.Return word.now) (λ r. Gives (λ x. x.0) (λ x. x.1.now) result (front reader.halves r tokens.now)) }
    ensures shorter { IfOk result (λ x. length x.1.now < length tokens.now) }
{
    let (value, rest) = value_option(reader, tokens, level)?;
    Ok(ended_by(
        reader,
        Sort::Semicolon,
        rest,
        return_node(word.place, value),
    )?)
}

/// An assignment or a call, and its semicolon.
pub fn simple_statement(
    reader: Reader,
    tokens: &[Token],
    level: u32,
) -> Result<(Ended, &[Token]), Failure>
    requires low { level < 256 }
    ensures reads { Gives (λ x. x.0) (λ x. x.1.now) result (front reader.halves (simple_statement_in level) tokens.now) }
    ensures shorter { IfOk result (λ x. length x.1.now < length tokens.now) }
{
    let (node, rest) = simple(reader, tokens, level, 0)?;
    Ok(ended_by(reader, Sort::Semicolon, rest, node)?)
}

/// A declaration of locals and its semicolon.
pub fn declaration(
    reader: Reader,
    tokens: &[Token],
    level: u32,
) -> Result<(Items<Node>, &[Token]), Failure>
    requires low { level ≤ 256 }
    ensures reads { Gives (λ x. x.0) (λ x. x.1.now) result (and_read (read_by reader.halves (locals_rule level 0) tokens.now) (λ ns us. front reader.halves (semicolon_behind ns) us)) }
    ensures shorter { IfOk result (λ x. length x.1.now < length tokens.now) }
{
    let (nodes, rest) = locals(reader, tokens, level, 0)?;
    let (_, rest) = take(reader.halves, Sort::Semicolon, rest)?;
    Ok((nodes, rest))
}

/// The condition of a `do`, and its semicolon.
fn do_condition(
    reader: Reader,
    tokens: &[Token],
    place: Place,
    body: Branch,
    level: u32,
) -> Result<(Ended, &[Token]), Failure>
    requires low { level < 256 }
    ensures reads { Gives (λ x. x.0) (λ x. x.1.now) result (after_condition reader.halves level (done place (ended_of body)) tokens.now) }
    ensures shorter { IfOk result (λ x. length x.1.now < length tokens.now) }
{
    let (test, rest) = condition(reader, tokens, level)?;
    Ok(ended_by(reader, Sort::Semicolon, rest, do_node(place, body, test))?)
}

/// What stands behind the body of a `do`.
pub fn do_end(
    reader: Reader,
    tokens: &[Token],
    place: Place,
    body: Branch,
    level: u32,
) -> Result<(Ended, &[Token]), Failure>
    requires low { level < 256 }
    ensures reads { Gives (λ x. x.0) (λ x. x.1.now) result (while_behind reader.halves place level (ended_of body) tokens.now) }
    ensures shorter { IfOk result (λ x. length x.1.now < length tokens.now) }
{
    let (_, rest) = take(reader.halves, Sort::While, tokens)?;
    do_condition(reader, rest, place, body, level)
}

/// What stands behind an `else`. Behind a branch that isn't closed there is none: it belongs to that.
pub fn past_else(halves: bool, is_closed: bool, tokens: &[Token]) -> Option<&[Token]>
    ensures found { GoesOn halves is_closed (λ x. x.now) result tokens.now }
    ensures shorter { IfSome result (λ x. length x.now < length tokens.now) }
{
    match past(halves, Sort::Else, tokens) {
        Some((_, rest)) => { if is_closed { Some(rest) } else { None } }
        None => None,
    }
}
