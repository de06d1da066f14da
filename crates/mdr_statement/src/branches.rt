// `if` and `else` (C99 6.8.4.1).

ghost use Rattle.std.specs.Prelude.{◌<◌, ◌≤◌, length, IfOk};
ghost use Rattle.mdr_grammar.specs.Front.{front};
ghost use Rattle.mdr_simple.specs.Behind.{ended_of, after_condition, branches, other_behind};
ghost use Rattle.mdr_reader.specs.Gives.{Gives};

use crate::statements::{boxed_body, otherwise};
use mdr_core::{Boxed, Place};
use mdr_grammar::parts::Ended;
use mdr_reader::failure::Failure;
use mdr_reader::look::Reader;
use mdr_simple::conditions::condition;
use mdr_simple::nodes::if_statement;
use mdr_simple::parts::Branch;
use mdr_syntax::{Form, Token};

/// What stands behind `if`.
#[cycle(statement)]
pub fn if_behind(
    reader: Reader,
    tokens: &[Token],
    place: Place,
    level: u32,
) -> Result<(Ended, &[Token]), Failure>
    requires low { level < 256 }
    ensures reads { Gives (λ x. x.0) (λ x. x.1.now) result (after_condition reader.halves level (branches place level) tokens.now) }
    ensures shorter { IfOk result (λ x. length x.1.now < length tokens.now) }
{
    let (test, rest) = condition(reader, tokens, level)?;
    first_branch(reader, rest, place, test, level)
}

/// The branch behind a condition, and what follows it.
#[cycle(statement)]
fn first_branch(
    reader: Reader,
    tokens: &[Token],
    place: Place,
    test: Boxed<Form>,
    level: u32,
) -> Result<(Ended, &[Token]), Failure>
    requires low { level < 256 }
    ensures reads { Gives (λ x. x.0) (λ x. x.1.now) result (front reader.halves (branches place level test) tokens.now) }
    ensures shorter { IfOk result (λ x. length x.1.now < length tokens.now) }
{
    let (first, rest) = boxed_body(reader, tokens, level + 1)?;
    second_branch(reader, rest, place, test, first, level)
}

/// What stands behind the first branch.
#[cycle(statement)]
fn second_branch(
    reader: Reader,
    tokens: &[Token],
    place: Place,
    test: Boxed<Form>,
    first: Branch,
    level: u32,
) -> Result<(Ended, &[Token]), Failure>
    requires low { level < 256 }
    ensures reads { Gives (λ x. x.0) (λ x. x.1.now) result (front reader.halves (other_behind place level test (ended_of first)) tokens.now) }
    ensures shorter { IfOk result (λ x. length x.1.now ≤ length tokens.now) }
{
    let (other, rest) = otherwise(reader, tokens, level + 1, first.closed)?;
    Ok((if_statement(place, test, first, other), rest))
}
