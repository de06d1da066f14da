// Conditions, and what a `for` begins with (C99 6.8.4, 6.8.5).

ghost use Rattle.std.specs.Prelude.{◌<◌, ◌≤◌, ◌+◌, length, IfOk, true};
ghost use Rattle.mdr_grammar.specs.Expressions.{is_level_free as may_stand};
ghost use Rattle.mdr_grammar.specs.Forms.Part.{opening as an_opening, simple as a_simple};
ghost use Rattle.mdr_grammar.specs.Forms.Nonterminal.{part, option};
ghost use Rattle.mdr_grammar.specs.Front.{first, front};
ghost use Rattle.mdr_grammar.specs.Statements.{condition as a_condition, opening_simple_in, opening_simple_rule};
ghost use Rattle.mdr_simple.specs.Behind.{head_of, loop_init as a_loop_init, loop_test as a_loop_test, loop_step as a_loop_step, loop_parts};
ghost use Rattle.mdr_reader.specs.Gives.{Gives, read_by};

use crate::locals::{locals, one_of};
use crate::nodes::{boxed_option, opened};
use crate::parts::LoopHead;
use crate::simple::{form, form_option, simple, simple_option};
use mdr_core::{Boxed, Items};
use mdr_grammar::sort::Sort;
use mdr_reader::failure::Failure;
use mdr_reader::look::{Reader, is_level_free, take};
use mdr_reader::openings::perhaps;
use mdr_syntax::{Form, Node, Token};

/// A condition in its parentheses.
pub fn condition(
    reader: Reader,
    tokens: &[Token],
    level: u32,
) -> Result<(Boxed<Form>, &[Token]), Failure>
    requires low { level < 256 }
    ensures reads { Gives (λ x. x.0) (λ x. x.1.now) result (front reader.halves (a_condition level) tokens.now) }
    ensures shorter { IfOk result (λ x. length x.1.now < length tokens.now) }
{
    let (_, rest) = take(reader.halves, Sort::Open, tokens)?;
    let (test, rest) = form(reader, rest, level + 1, 1)?;
    let (_, rest) = take(reader.halves, Sort::Close, rest)?;
    Ok((test, rest))
}

/// A simple statement as a list.
fn one_simple(
    reader: Reader,
    tokens: &[Token],
    level: u32,
    depth: u32,
) -> Result<(Items<Node>, &[Token]), Failure>
    requires low { level < 256 }
    requires inside { depth ≤ 512 }
    ensures reads { Gives (λ x. x.0) (λ x. x.1.now) result (front reader.halves (opening_simple_in level depth) tokens.now) }
    ensures shorter { IfOk result (λ x. length x.1.now < length tokens.now) }
{
    let (node, rest) = simple(reader, tokens, level, depth)?;
    Ok((one_of(reader, node)?, rest))
}

/// A simple statement where one may stand, as a list.
fn opening_simple(
    reader: Reader,
    tokens: &[Token],
    level: u32,
    depth: u32,
) -> Result<(Items<Node>, &[Token]), Failure>
    requires low { level ≤ 256 }
    requires inside { depth ≤ 512 }
    ensures reads { Gives (λ x. x.0) (λ x. x.1.now) result (read_by reader.halves (opening_simple_rule level depth) tokens.now) }
    ensures shorter { IfOk result (λ x. length x.1.now < length tokens.now) }
{
    if is_level_free(level + 1) {
        one_simple(reader, tokens, level, depth)
    } else {
        Err(Failure::Fault(tokens.len()))
    }
}

/// What a `for` begins with: a declaration or a simple statement.
fn opening(
    reader: Reader,
    tokens: &[Token],
    level: u32,
    depth: u32,
) -> Result<(Items<Node>, &[Token]), Failure>
    requires low { level ≤ 256 }
    requires inside { depth ≤ 512 }
    ensures reads { Gives (λ x. x.0) (λ x. x.1.now) result (first reader.halves (part (an_opening level depth)) tokens.now) }
    ensures shorter { IfOk result (λ x. length x.1.now < length tokens.now) }
{
    match locals(reader, tokens, level, depth) {
        Ok(x) => Ok(x),
        Err(e) => {
            if e.is_at(tokens.len()) {
                opening_simple(reader, tokens, level, depth)
            } else {
                Err(e)
            }
        }
    }
}

/// What a `for` begins with, if it is there.
fn opening_option(
    reader: Reader,
    tokens: &[Token],
    level: u32,
    depth: u32,
) -> Result<(Option<Items<Node>>, &[Token]), Failure>
    requires low { level ≤ 256 }
    requires inside { depth ≤ 512 }
    ensures reads { Gives (λ x. x.0) (λ x. x.1.now) result (first reader.halves (option true (an_opening level depth)) tokens.now) }
    ensures shorter { IfOk result (λ x. length x.1.now ≤ length tokens.now) }
{
    perhaps(opening(reader, tokens, level, depth), tokens)
}

/// The parenthesis of a `for`, and what stands before its test.
fn loop_init(
    reader: Reader,
    tokens: &[Token],
    level: u32,
) -> Result<(Items<Node>, &[Token]), Failure>
    requires low { level < 256 }
    ensures reads { Gives (λ x. x.0) (λ x. x.1.now) result (front reader.halves (a_loop_init level) tokens.now) }
    ensures shorter { IfOk result (λ x. length x.1.now < length tokens.now) }
{
    let (_, rest) = take(reader.halves, Sort::Open, tokens)?;
    let (init, rest) = opening_option(reader, rest, level + 1, 1)?;
    let (_, rest) = take(reader.halves, Sort::Semicolon, rest)?;
    Ok((opened(reader, init), rest))
}

/// The test of a `for`, if it has one.
fn loop_test(
    reader: Reader,
    tokens: &[Token],
    level: u32,
) -> Result<(Option<Boxed<Form>>, &[Token]), Failure>
    requires low { level < 256 }
    ensures reads { Gives (λ x. x.0) (λ x. x.1.now) result (front reader.halves (a_loop_test level) tokens.now) }
    ensures shorter { IfOk result (λ x. length x.1.now < length tokens.now) }
{
    let (test, rest) = form_option(reader, tokens, level + 1, 1)?;
    let (_, rest) = take(reader.halves, Sort::Semicolon, rest)?;
    Ok((test, rest))
}

/// The step of a `for`, if it has one, in a box.
fn boxed_step(
    reader: Reader,
    tokens: &[Token],
    level: u32,
) -> Result<(Option<Boxed<Node>>, &[Token]), Failure>
    requires low { level ≤ 256 }
    ensures reads { Gives (λ x. x.0) (λ x. x.1.now) result (first reader.halves (option (may_stand (level + 1)) (a_simple level 1)) tokens.now) }
    ensures shorter { IfOk result (λ x. length x.1.now ≤ length tokens.now) }
{
    let (step, rest) = simple_option(reader, tokens, level, 1)?;
    Ok((boxed_option(reader, step)?, rest))
}

/// The step of a `for`, and the parenthesis behind it.
fn loop_step(
    reader: Reader,
    tokens: &[Token],
    level: u32,
) -> Result<(Option<Boxed<Node>>, &[Token]), Failure>
    requires low { level < 256 }
    ensures reads { Gives (λ x. x.0) (λ x. x.1.now) result (front reader.halves (a_loop_step level) tokens.now) }
    ensures shorter { IfOk result (λ x. length x.1.now < length tokens.now) }
{
    let (step, rest) = boxed_step(reader, tokens, level + 1)?;
    let (_, rest) = take(reader.halves, Sort::Close, rest)?;
    Ok((step, rest))
}

/// What a `for` begins with, its test and its step, in their parentheses.
pub fn loop_head(
    reader: Reader,
    tokens: &[Token],
    level: u32,
) -> Result<(LoopHead, &[Token]), Failure>
    requires low { level < 256 }
    ensures reads { Gives (λ x. head_of x.0) (λ x. x.1.now) result (loop_parts reader.halves level tokens.now) }
    ensures shorter { IfOk result (λ x. length x.1.now < length tokens.now) }
{
    let (init, rest) = loop_init(reader, tokens, level)?;
    let (test, rest) = loop_test(reader, rest, level)?;
    let (step, rest) = loop_step(reader, rest, level)?;
    Ok((LoopHead { init, test, step }, rest))
}
