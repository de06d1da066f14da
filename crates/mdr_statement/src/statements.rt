// Statements, and bodies of other statements (C99 6.8).

ghost use Rattle.std.specs.Prelude.{◌<◌, ◌≤◌, ◌+◌, length, IfOk};
ghost use Rattle.mdr_grammar.specs.Forms.Part.{statement as a_statement, body as a_body};
ghost use Rattle.mdr_grammar.specs.Forms.Nonterminal.{part, otherwise as an_otherwise};
ghost use Rattle.mdr_grammar.specs.Front.{first, front};
ghost use Rattle.mdr_grammar.specs.Statements.{deeper_rule, single_rule, single_in, body_there};
ghost use Rattle.mdr_simple.specs.Behind.{ended_of, other_of};
ghost use Rattle.mdr_reader.specs.Gives.{Gives, read_by};

use crate::blocks::block;
use crate::branches::if_behind;
use crate::iteration::{do_behind, for_behind, while_behind};
use crate::switches::switch_behind;
use mdr_core::Place;
use mdr_grammar::parts::Ended;
use mdr_grammar::sort::Sort;
use mdr_reader::failure::Failure;
use mdr_reader::look::{Reader, is_level_free, past, split};
use mdr_simple::leaving::{
    break_behind, continue_behind, past_else, return_behind, simple_statement,
};
use mdr_simple::nodes::{branch, empty_statement, in_block};
use mdr_simple::parts::Branch;
use mdr_syntax::Token;

/// A statement.
#[cycle(statement)]
pub fn statement(reader: Reader, tokens: &[Token], level: u32) -> Result<(Ended, &[Token]), Failure>
    requires low { level ≤ 256 }
    ensures reads { Gives (λ x. x.0) (λ x. x.1.now) result (first reader.halves (part (a_statement level)) tokens.now) }
    ensures shorter { IfOk result (λ x. length x.1.now < length tokens.now) }
{
    let Some((sort, token, rest)) = split(reader.halves, tokens) else {
        return Err(Failure::Fault(tokens.len()));
    };
    match sort {
        Sort::Semicolon => Ok((empty_statement(token.place), rest)),
        Sort::OpenBrace => block(reader, rest, token.place, level),
        Sort::Break => Ok(break_behind(reader, rest, token.place)?),
        Sort::Continue => Ok(continue_behind(reader, rest, token.place)?),
        Sort::Return => return_behind(reader, rest, token, level),
        _ => {
            if is_level_free(level + 1) {
                deeper(reader, tokens, level)
            } else {
                Err(Failure::Fault(tokens.len()))
            }
        }
    }
}

/// A statement whose parts are a level deeper.
#[cycle(statement)]
fn deeper(reader: Reader, tokens: &[Token], level: u32) -> Result<(Ended, &[Token]), Failure>
    requires low { level < 256 }
    ensures reads { Gives (λ x. x.0) (λ x. x.1.now) result (read_by reader.halves (deeper_rule level) tokens.now) }
    ensures shorter { IfOk result (λ x. length x.1.now < length tokens.now) }
{
    let Some((sort, token, rest)) = split(reader.halves, tokens) else {
        return Err(Failure::Fault(tokens.len()));
    };
    match sort {
        Sort::If => if_behind(reader, rest, token.place, level),
        Sort::While => while_behind(reader, rest, token.place, level),
        Sort::For => for_behind(reader, rest, token.place, level),
        Sort::Do => do_behind(reader, rest, token.place, level),
        Sort::Switch => switch_behind(reader, rest, token.place, level),
        _ => simple_statement(reader, tokens, level),
    }
}

/// A body of another statement, as a block.
#[cycle(statement)]
fn body(reader: Reader, tokens: &[Token], level: u32) -> Result<(Ended, &[Token]), Failure>
    requires low { level ≤ 256 }
    ensures reads { Gives (λ x. x.0) (λ x. x.1.now) result (first reader.halves (part (a_body level)) tokens.now) }
    ensures shorter { IfOk result (λ x. length x.1.now < length tokens.now) }
{
    let Some((_, token, _)) = split(reader.halves, tokens) else {
        return Err(Failure::Fault(tokens.len()));
    };
    match past(reader.halves, Sort::OpenBrace, tokens) {
        Some((brace, rest)) => block(reader, rest, brace.place, level),
        None => single(reader, tokens, token.place, level),
    }
}

/// A body that isn't a block, where a statement may stand in one.
#[cycle(statement)]
fn single(
    reader: Reader,
    tokens: &[Token],
    place: Place,
    level: u32,
) -> Result<(Ended, &[Token]), Failure>
    requires low { level ≤ 256 }
    ensures reads { Gives (λ x. x.0) (λ x. x.1.now) result (read_by reader.halves (single_rule place level) tokens.now) }
    ensures shorter { IfOk result (λ x. length x.1.now < length tokens.now) }
{
    if is_level_free(level + 1) {
        single_at(reader, tokens, place, level)
    } else {
        Err(Failure::Fault(tokens.len()))
    }
}

/// A statement in a block of its own.
#[cycle(statement)]
fn single_at(
    reader: Reader,
    tokens: &[Token],
    place: Place,
    level: u32,
) -> Result<(Ended, &[Token]), Failure>
    requires low { level < 256 }
    ensures reads { Gives (λ x. x.0) (λ x. x.1.now) result (front reader.halves (single_in place level) tokens.now) }
    ensures shorter { IfOk result (λ x. length x.1.now < length tokens.now) }
{
    let (inner, rest) = statement(reader, tokens, level + 1)?;
    Ok((in_block(reader, place, inner)?, rest))
}

/// A body of another statement.
#[cycle(statement)]
pub fn boxed_body(
    reader: Reader,
    tokens: &[Token],
    level: u32,
) -> Result<(Branch, &[Token]), Failure>
    requires low { level ≤ 256 }
    ensures reads { Gives (λ x. ended_of x.0) (λ x. x.1.now) result (first reader.halves (part (a_body level)) tokens.now) }
    ensures shorter { IfOk result (λ x. length x.1.now < length tokens.now) }
{
    let (inner, rest) = body(reader, tokens, level)?;
    Ok((branch(reader, inner)?, rest))
}

/// The branch behind `else`.
#[cycle(statement)]
fn other_branch(
    reader: Reader,
    tokens: &[Token],
    level: u32,
) -> Result<(Option<Branch>, &[Token]), Failure>
    requires low { level ≤ 256 }
    ensures reads { Gives (λ x. other_of x.0) (λ x. x.1.now) result (front reader.halves (body_there level) tokens.now) }
    ensures shorter { IfOk result (λ x. length x.1.now < length tokens.now) }
{
    let (inner, rest) = boxed_body(reader, tokens, level)?;
    Ok((Some(inner), rest))
}

/// The branch behind `else`, if there is one.
#[cycle(statement)]
pub fn otherwise(
    reader: Reader,
    tokens: &[Token],
    level: u32,
    is_closed: bool,
) -> Result<(Option<Branch>, &[Token]), Failure>
    requires low { level ≤ 256 }
    ensures reads { Gives (λ x. other_of x.0) (λ x. x.1.now) result (first reader.halves (an_otherwise level is_closed) tokens.now) }
    ensures shorter { IfOk result (λ x. length x.1.now ≤ length tokens.now) }
{
    match past_else(reader.halves, is_closed, tokens) {
        Some(rest) => other_branch(reader, rest, level),
        None => Ok((None, tokens)),
    }
}
