// `while`, `for` and `do` (C99 6.8.5).

ghost use Rattle.std.specs.Prelude.{◌<◌, length, IfOk};
ghost use Rattle.mdr_grammar.specs.Front.{front};
ghost use Rattle.mdr_simple.specs.Behind.{head_of, after_condition, after_head, after_do, repeated_while, repeated_for};
ghost use Rattle.mdr_reader.specs.Gives.{Gives};

use crate::statements::boxed_body;
use mdr_core::{Boxed, Place};
use mdr_grammar::parts::Ended;
use mdr_reader::failure::Failure;
use mdr_reader::look::Reader;
use mdr_simple::conditions::{condition, loop_head};
use mdr_simple::leaving::do_end;
use mdr_simple::nodes::{for_statement, while_statement};
use mdr_simple::parts::LoopHead;
use mdr_syntax::{Form, Token};

/// What stands behind `while`.
#[cycle(statement)]
pub fn while_behind(
    reader: Reader,
    tokens: &[Token],
    place: Place,
    level: u32,
) -> Result<(Ended, &[Token]), Failure>
    requires low { level < 256 }
    ensures reads { Gives (λ x. x.0) (λ x. x.1.now) result (after_condition reader.halves level (repeated_while place level) tokens.now) }
    ensures shorter { IfOk result (λ x. length x.1.now < length tokens.now) }
{
    let (test, rest) = condition(reader, tokens, level)?;
    while_body(reader, rest, place, test, level)
}

/// The body of a `while`.
#[cycle(statement)]
fn while_body(
    reader: Reader,
    tokens: &[Token],
    place: Place,
    test: Boxed<Form>,
    level: u32,
) -> Result<(Ended, &[Token]), Failure>
    requires low { level < 256 }
    ensures reads { Gives (λ x. x.0) (λ x. x.1.now) result (front reader.halves (repeated_while place level test) tokens.now) }
    ensures shorter { IfOk result (λ x. length x.1.now < length tokens.now) }
{
    let (inner, rest) = boxed_body(reader, tokens, level + 1)?;
    Ok((while_statement(place, test, inner), rest))
}

/// What stands behind `for`.
#[cycle(statement)]
pub fn for_behind(
    reader: Reader,
    tokens: &[Token],
    place: Place,
    level: u32,
) -> Result<(Ended, &[Token]), Failure>
    requires low { level < 256 }
    ensures reads { Gives (λ x. x.0) (λ x. x.1.now) result (after_head reader.halves level (repeated_for place level) tokens.now) }
    ensures shorter { IfOk result (λ x. length x.1.now < length tokens.now) }
{
    let (head, rest) = loop_head(reader, tokens, level)?;
    for_body(reader, rest, place, head, level)
}

/// The body of a `for`.
#[cycle(statement)]
fn for_body(
    reader: Reader,
    tokens: &[Token],
    place: Place,
    head: LoopHead,
    level: u32,
) -> Result<(Ended, &[Token]), Failure>
    requires low { level < 256 }
    ensures reads { Gives (λ x. x.0) (λ x. x.1.now) result (front reader.halves (repeated_for place level (head_of head)) tokens.now) }
    ensures shorter { IfOk result (λ x. length x.1.now < length tokens.now) }
{
    let (inner, rest) = boxed_body(reader, tokens, level + 1)?;
    Ok((for_statement(place, head, inner), rest))
}

/// What stands behind `do`.
#[cycle(statement)]
pub fn do_behind(
    reader: Reader,
    tokens: &[Token],
    place: Place,
    level: u32,
) -> Result<(Ended, &[Token]), Failure>
    requires low { level < 256 }
    ensures reads { Gives (λ x. x.0) (λ x. x.1.now) result (after_do reader.halves place level tokens.now) }
    ensures shorter { IfOk result (λ x. length x.1.now < length tokens.now) }
{
    let (inner, rest) = boxed_body(reader, tokens, level + 1)?;
    do_end(reader, rest, place, inner, level)
}
