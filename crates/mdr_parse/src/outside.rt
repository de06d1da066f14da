// What a type begins outside functions: globals, prototypes and functions (C99 6.9).

ghost use Rattle.std.specs.Prelude.{◌<◌, ◌≤◌, length, IfOk};
ghost use Rattle.mdr_grammar.specs.Forms.Nonterminal.{outer as an_outer, critical as a_critical};
ghost use Rattle.mdr_grammar.specs.Front.{first, front};
ghost use Rattle.mdr_grammar.specs.Statements.{outer_rule, critical_rule};
ghost use Rattle.mdr_parse.specs.Outside.{named_in};
ghost use Rattle.mdr_reader.specs.Gives.{Gives, read_by, after_stars};

use crate::functions::{critical_there, function};
use crate::named::{named_globals, pointer_globals};
use mdr_core::{Items, Place};
use mdr_grammar::parts::Specifier;
use mdr_grammar::sort::Sort;
use mdr_reader::constants::stars;
use mdr_reader::failure::Failure;
use mdr_reader::look::{Reader, past, split};
use mdr_syntax::{Item, Token};

/// What stands behind the name of a global or function.
fn named<'t>(
    reader: Reader,
    tokens: &'t [Token],
    place: Place,
    base: &Specifier,
    count: u32,
    name: &Token,
) -> Result<(Items<Item>, &'t [Token]), Failure>
    ensures reads { Gives (λ x. x.0) (λ x. x.1.now) result (front reader.halves (named_in place base.now count name.now) tokens.now) }
    ensures shorter { IfOk result (λ x. length x.1.now ≤ length tokens.now) }
{
    match past(reader.halves, Sort::Open, tokens) {
        Some((_, rest)) => function(reader, rest, place, base, count, name),
        None => named_globals(reader, tokens, place, base, count, name),
    }
}

/// What stands behind the stars of a type.
fn outer_starred<'t>(
    reader: Reader,
    tokens: &'t [Token],
    place: Place,
    base: &Specifier,
    count: u32,
) -> Result<(Items<Item>, &'t [Token]), Failure>
    ensures reads { Gives (λ x. x.0) (λ x. x.1.now) result (read_by reader.halves (after_stars (outer_rule place base.now count)) tokens.now) }
    ensures shorter { IfOk result (λ x. length x.1.now < length tokens.now) }
{
    let Some((sort, token, rest)) = split(reader.halves, tokens) else {
        return Err(Failure::Fault(tokens.len()));
    };
    match sort {
        Sort::Name => named(reader, rest, place, base, count, token),
        _ => pointer_globals(reader, tokens, place, base, count),
    }
}

/// What stands behind a type outside functions.
pub fn outer<'t>(
    reader: Reader,
    tokens: &'t [Token],
    place: Place,
    base: &Specifier,
) -> Result<(Items<Item>, &'t [Token]), Failure>
    ensures reads { Gives (λ x. x.0) (λ x. x.1.now) result (first reader.halves (an_outer place base.now 0) tokens.now) }
    ensures shorter { IfOk result (λ x. length x.1.now < length tokens.now) }
{
    let (count, rest) = stars(reader, tokens);
    outer_starred(reader, rest, place, base, count)
}

/// What stands behind the stars of a `__critical` function.
fn critical_starred<'t>(
    reader: Reader,
    tokens: &'t [Token],
    place: Place,
    base: &Specifier,
    count: u32,
) -> Result<(Items<Item>, &'t [Token]), Failure>
    ensures reads { Gives (λ x. x.0) (λ x. x.1.now) result (read_by reader.halves (after_stars (critical_rule place base.now count)) tokens.now) }
    ensures shorter { IfOk result (λ x. length x.1.now < length tokens.now) }
{
    let Some((sort, token, rest)) = split(reader.halves, tokens) else {
        return Err(Failure::Fault(tokens.len()));
    };
    match sort {
        Sort::Name => critical_there(reader, rest, place, base, count, token),
        _ => Err(Failure::Fault(tokens.len())),
    }
}

/// What stands behind the type of a `__critical` function.
pub fn critical<'t>(
    reader: Reader,
    tokens: &'t [Token],
    place: Place,
    base: &Specifier,
) -> Result<(Items<Item>, &'t [Token]), Failure>
    ensures reads { Gives (λ x. x.0) (λ x. x.1.now) result (first reader.halves (a_critical place base.now 0) tokens.now) }
    ensures shorter { IfOk result (λ x. length x.1.now < length tokens.now) }
{
    let (count, rest) = stars(reader, tokens);
    critical_starred(reader, rest, place, base, count)
}
