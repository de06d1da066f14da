// `switch` and its clauses (C99 6.8.4.2).

ghost use Rattle.std.specs.Prelude.{◌<◌, ◌≤◌, ◌+◌, length, IfOk, IfSome, true, [], ◌∷◌};
ghost use Rattle.mdr_grammar.specs.Forms.Part.{plain as a_plain, clause as a_clause};
ghost use Rattle.mdr_grammar.specs.Forms.Repeated.{statements as some_statements, clauses as some_clauses};
ghost use Rattle.mdr_grammar.specs.Forms.Nonterminal.{part, option, many};
ghost use Rattle.mdr_grammar.specs.Front.{first, front};
ghost use Rattle.mdr_grammar.specs.Statements.{plain_in, clause_in};
ghost use Rattle.mdr_simple.specs.Behind.{after_condition, switched, clause_from};
ghost use Rattle.mdr_reader.specs.Gives.{Gives};

use crate::statements::statement;
use mdr_core::{Boxed, Items, Place};
use mdr_grammar::parts::Ended;
use mdr_grammar::sort::Sort;
use mdr_reader::failure::Failure;
use mdr_reader::look::{Reader, take};
use mdr_reader::openings::perhaps;
use mdr_simple::conditions::condition;
use mdr_simple::labels::{label, more_labels, one_label};
use mdr_simple::leaving::ended_by;
use mdr_simple::locals::one_of;
use mdr_simple::nodes::switch_node;
use mdr_syntax::{Clause, Form, Label, Node, Token};

/// What stands behind `switch`.
#[cycle(statement)]
pub fn switch_behind(
    reader: Reader,
    tokens: &[Token],
    place: Place,
    level: u32,
) -> Result<(Ended, &[Token]), Failure>
    requires low { level < 256 }
    ensures reads { Gives (λ x. x.0) (λ x. x.1.now) result (after_condition reader.halves level (switched place level) tokens.now) }
    ensures shorter { IfOk result (λ x. length x.1.now < length tokens.now) }
{
    let (value, rest) = condition(reader, tokens, level)?;
    switch_body(reader, rest, place, value, level)
}

/// The clauses of a `switch` in their braces.
#[cycle(statement)]
fn switch_body(
    reader: Reader,
    tokens: &[Token],
    place: Place,
    value: Boxed<Form>,
    level: u32,
) -> Result<(Ended, &[Token]), Failure>
    requires low { level < 256 }
    ensures reads { Gives (λ x. x.0) (λ x. x.1.now) result (front reader.halves (switched place level value) tokens.now) }
    ensures shorter { IfOk result (λ x. length x.1.now < length tokens.now) }
{
    let (_, rest) = take(reader.halves, Sort::OpenBrace, tokens)?;
    let (list, rest) = clauses(reader, rest, level + 1)?;
    Ok(ended_by(
        reader,
        Sort::CloseBrace,
        rest,
        switch_node(place, value, list),
    )?)
}

/// The clauses of a `switch`.
#[cycle(statement)]
fn clauses(
    reader: Reader,
    tokens: &[Token],
    level: u32,
) -> Result<(Items<Clause>, &[Token]), Failure>
    requires low { level ≤ 256 }
    ensures reads { Gives (λ x. x.0) (λ x. x.1.now) result (first reader.halves (many true (some_clauses level) []) tokens.now) }
    ensures shorter { IfOk result (λ x. length x.1.now ≤ length tokens.now) }
{
    let mut all = Items::new(reader.alloc);
    let mut rest = tokens;
    'more: loop {
        let (found, behind) = clause_option(reader, rest, level)?;
        let Some(x) = found else {
            return Ok((all, behind));
        };
        all.push(x)?;
        rest = behind;
    }
}

/// A clause, if there is one.
#[cycle(statement)]
fn clause_option(
    reader: Reader,
    tokens: &[Token],
    level: u32,
) -> Result<(Option<Clause>, &[Token]), Failure>
    requires low { level ≤ 256 }
    ensures reads { Gives (λ x. x.0) (λ x. x.1.now) result (first reader.halves (option true (a_clause level)) tokens.now) }
    ensures shorter { IfOk result (λ x. length x.1.now ≤ length tokens.now) }
    ensures taken { IfOk result (λ x. IfSome x.0 (λ v. length x.1.now < length tokens.now)) }
{
    perhaps(clause(reader, tokens, level), tokens)
}

/// A part of a `switch`.
#[cycle(statement)]
fn clause(reader: Reader, tokens: &[Token], level: u32) -> Result<(Clause, &[Token]), Failure>
    requires low { level ≤ 256 }
    ensures reads { Gives (λ x. x.0) (λ x. x.1.now) result (first reader.halves (part (a_clause level)) tokens.now) }
    ensures shorter { IfOk result (λ x. length x.1.now < length tokens.now) }
{
    labelled(reader, tokens, level)
}

/// Labels and what follows them.
#[cycle(statement)]
fn labelled(reader: Reader, tokens: &[Token], level: u32) -> Result<(Clause, &[Token]), Failure>
    requires low { level ≤ 256 }
    ensures reads { Gives (λ x. x.0) (λ x. x.1.now) result (front reader.halves (clause_in level) tokens.now) }
    ensures shorter { IfOk result (λ x. length x.1.now < length tokens.now) }
{
    let (x, rest) = label(reader, tokens)?;
    let (labels, rest) = more_labels(reader, rest, one_label(reader, x)?)?;
    clause_body(reader, rest, labels, level)
}

/// What follows the labels of a clause.
#[cycle(statement)]
fn clause_body(
    reader: Reader,
    tokens: &[Token],
    labels: Items<Label>,
    level: u32,
) -> Result<(Clause, &[Token]), Failure>
    requires low { level ≤ 256 }
    ensures reads { Gives (λ x. x.0) (λ x. x.1.now) result (front reader.halves (clause_from level labels) tokens.now) }
    ensures shorter { IfOk result (λ x. length x.1.now < length tokens.now) }
{
    let (node, rest) = plain(reader, tokens, level)?;
    let (body, rest) = more_statements(reader, rest, one_of(reader, node)?, level)?;
    Ok((Clause { labels, body }, rest))
}

/// The further statements of a clause.
#[cycle(statement)]
fn more_statements(
    reader: Reader,
    tokens: &[Token],
    list: Items<Node>,
    level: u32,
) -> Result<(Items<Node>, &[Token]), Failure>
    requires low { level ≤ 256 }
    ensures reads { Gives (λ x. x.0) (λ x. x.1.now) result (first reader.halves (many true (some_statements level) list) tokens.now) }
    ensures shorter { IfOk result (λ x. length x.1.now ≤ length tokens.now) }
{
    let mut all = list;
    let mut rest = tokens;
    'more: loop {
        let (found, behind) = plain_option(reader, rest, level)?;
        let Some(x) = found else {
            return Ok((all, behind));
        };
        all.push(x)?;
        rest = behind;
    }
}

/// A statement of a clause, if there is one.
#[cycle(statement)]
fn plain_option(
    reader: Reader,
    tokens: &[Token],
    level: u32,
) -> Result<(Option<Node>, &[Token]), Failure>
    requires low { level ≤ 256 }
    ensures reads { Gives (λ x. x.0) (λ x. x.1.now) result (first reader.halves (option true (a_plain level)) tokens.now) }
    ensures shorter { IfOk result (λ x. length x.1.now ≤ length tokens.now) }
    ensures taken { IfOk result (λ x. IfSome x.0 (λ v. length x.1.now < length tokens.now)) }
{
    perhaps(plain(reader, tokens, level), tokens)
}

/// A statement of a clause.
#[cycle(statement)]
fn plain(reader: Reader, tokens: &[Token], level: u32) -> Result<(Node, &[Token]), Failure>
    requires low { level ≤ 256 }
    ensures reads { Gives (λ x. x.0) (λ x. x.1.now) result (first reader.halves (part (a_plain level)) tokens.now) }
    ensures shorter { IfOk result (λ x. length x.1.now < length tokens.now) }
{
    plain_node(reader, tokens, level)
}

/// A statement itself.
#[cycle(statement)]
fn plain_node(reader: Reader, tokens: &[Token], level: u32) -> Result<(Node, &[Token]), Failure>
    requires low { level ≤ 256 }
    ensures reads { Gives (λ x. x.0) (λ x. x.1.now) result (front reader.halves (plain_in level) tokens.now) }
    ensures shorter { IfOk result (λ x. length x.1.now < length tokens.now) }
{
    let (x, rest) = statement(reader, tokens, level)?;
    Ok((x.node, rest))
}
