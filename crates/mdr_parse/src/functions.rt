// Functions (C99 6.9.1).

ghost use Rattle.std.specs.Prelude.{◌≡◌, ◌<◌, ◌≤◌, length, IfOk, IfErr, true, false};
ghost use Rattle.mdr_syntax.specs.declared.tree.ItemWhat.TheVariants as item_is;
ghost use Rattle.mdr_grammar.specs.Forms.Nonterminal.{function_end as an_end};
ghost use Rattle.mdr_grammar.specs.Front.{and_read, first, front};
ghost use Rattle.mdr_grammar.specs.Statements.{item_at, items_in, function_body as body_in, function_head as head_in};
ghost use Rattle.mdr_grammar.specs.Statements.{function_with as with_body, are_named as all_named, critical_there as there_critical};
ghost use Rattle.mdr_parse.specs.Outside.{body_end, function_item, critical_end};
ghost use Rattle.mdr_reader.specs.Gives.{Gives};
ghost use Rattle.mdr_reader.specs.declared.failure.Failure.TheVariants.{Memory, Fault};

use crate::heads::{function_head, prototype};
use mdr_core::{Items, Place};
use mdr_declaration::globals::one_of;
use mdr_grammar::parts::Specifier;
use mdr_grammar::sort::Sort;
use mdr_reader::failure::Failure;
use mdr_reader::look::{Reader, split, take};
use mdr_statement::blocks::block_items;
use mdr_syntax::{Decl, Head, Item, ItemWhat, Node, Token};

/// What stands in a function's body, and its `}`.
fn closed_items(reader: Reader, tokens: &[Token]) -> Result<(Items<Node>, &[Token]), Failure>
    ensures reads { Gives (λ x. x.0) (λ x. x.1.now) result (and_read (front reader.halves (items_in 0) tokens.now) (λ ns us. front reader.halves (body_end ns) us)) }
    ensures shorter { IfOk result (λ x. length x.1.now ≤ length tokens.now) }
{
    let (list, rest) = block_items(reader, tokens, 0)?;
    let (_, rest) = take(reader.halves, Sort::CloseBrace, rest)?;
    Ok((list, rest))
}

/// A function's body behind its `{`.
fn function_body(reader: Reader, tokens: &[Token]) -> Result<(Items<Node>, &[Token]), Failure>
    ensures reads { Gives (λ x. x.0) (λ x. x.1.now) result (front reader.halves body_in tokens.now) }
    ensures shorter { IfOk result (λ x. length x.1.now ≤ length tokens.now) }
{
    closed_items(reader, tokens)
}

/// A function as the list of one item.
fn function_of(
    reader: Reader,
    place: Place,
    head: Head,
    is_critical: bool,
    body: Items<Node>,
) -> Result<Items<Item>, Failure>
    ensures value { IfOk result (λ l. l ≡ item_at place (item_is.Func head is_critical body)) }
    ensures memory { IfErr result (λ e. e ≡ Memory) }
{
    one_of(
        reader,
        Item {
            place,
            what: ItemWhat::Func(head, is_critical, body),
        },
    )
}

/// A function's body behind its `{`, with its head.
fn body_behind(
    reader: Reader,
    tokens: &[Token],
    place: Place,
    head: Head,
    is_critical: bool,
) -> Result<(Items<Item>, &[Token]), Failure>
    ensures reads { Gives (λ x. x.0) (λ x. x.1.now) result (and_read (front reader.halves body_in tokens.now) (λ ns us. front reader.halves (function_item place head is_critical ns) us)) }
    ensures shorter { IfOk result (λ x. length x.1.now ≤ length tokens.now) }
{
    match function_body(reader, tokens) {
        Ok((body, rest)) => Ok((function_of(reader, place, head, is_critical, body)?, rest)),
        Err(e) => {
            drop(head);
            Err(e)
        }
    }
}

/// A function behind its head and its `{`.
fn function_with(
    reader: Reader,
    tokens: &[Token],
    place: Place,
    head: Head,
    is_critical: bool,
) -> Result<(Items<Item>, &[Token]), Failure>
    ensures reads { Gives (λ x. x.0) (λ x. x.1.now) result (front reader.halves (with_body place head is_critical) tokens.now) }
    ensures shorter { IfOk result (λ x. length x.1.now ≤ length tokens.now) }
{
    body_behind(reader, tokens, place, head, is_critical)
}

/// Whether all parameters have names.
fn are_named(params: &[Decl]) -> bool
    ensures { result ≡ all_named params.now }
{
    params.iter().all(|p| p.name.is_some())
}

/// A head behind which the first token can't stand.
fn refused(tokens: &[Token], _head: Head) -> Failure
    ensures { result ≡ Fault (length tokens.now) }
{
    Failure::Fault(tokens.len())
}

/// What stands behind a head: a semicolon or a body.
fn function_end(
    reader: Reader,
    tokens: &[Token],
    place: Place,
    head: Head,
) -> Result<(Items<Item>, &[Token]), Failure>
    ensures reads { Gives (λ x. x.0) (λ x. x.1.now) result (first reader.halves (an_end place head) tokens.now) }
    ensures shorter { IfOk result (λ x. length x.1.now < length tokens.now) }
{
    let Some((sort, _, rest)) = split(reader.halves, tokens) else {
        return Err(refused(tokens, head));
    };
    match sort {
        Sort::Semicolon => Ok((prototype(reader, place, head, false)?, rest)),
        Sort::OpenBrace => {
            if are_named(head.params.as_slice()) {
                function_with(reader, rest, place, head, false)
            } else {
                Err(refused(tokens, head))
            }
        }
        _ => Err(refused(tokens, head)),
    }
}

/// A function or a prototype behind the `(` of its parameters.
pub fn function<'t>(
    reader: Reader,
    tokens: &'t [Token],
    place: Place,
    base: &Specifier,
    count: u32,
    name: &Token,
) -> Result<(Items<Item>, &'t [Token]), Failure>
    ensures reads { Gives (λ x. x.0) (λ x. x.1.now) result (and_read (front reader.halves (head_in false base.now count name.now) tokens.now) (λ h us. first reader.halves (an_end place h) us)) }
    ensures shorter { IfOk result (λ x. length x.1.now ≤ length tokens.now) }
{
    let (head, rest) = function_head(reader, tokens, false, base, count, name)?;
    function_end(reader, rest, place, head)
}

/// The head of a `__critical` function, and what stands behind it.
fn critical_head<'t>(
    reader: Reader,
    tokens: &'t [Token],
    place: Place,
    base: &Specifier,
    count: u32,
    name: &Token,
) -> Result<(Items<Item>, &'t [Token]), Failure>
    ensures reads { Gives (λ x. x.0) (λ x. x.1.now) result (and_read (front reader.halves (head_in true base.now count name.now) tokens.now) (λ h us. front reader.halves (critical_end place h) us)) }
    ensures shorter { IfOk result (λ x. length x.1.now ≤ length tokens.now) }
{
    let (head, rest) = function_head(reader, tokens, true, base, count, name)?;
    match take(reader.halves, Sort::OpenBrace, rest) {
        Ok((_, rest)) => function_with(reader, rest, place, head, true),
        Err(e) => {
            drop(head);
            Err(Failure::from(e))
        }
    }
}

/// What stands behind the name of a `__critical` function.
pub fn critical_there<'t>(
    reader: Reader,
    tokens: &'t [Token],
    place: Place,
    base: &Specifier,
    count: u32,
    name: &Token,
) -> Result<(Items<Item>, &'t [Token]), Failure>
    ensures reads { Gives (λ x. x.0) (λ x. x.1.now) result (front reader.halves (there_critical place base.now count name.now) tokens.now) }
    ensures shorter { IfOk result (λ x. length x.1.now ≤ length tokens.now) }
{
    let (_, rest) = take(reader.halves, Sort::Open, tokens)?;
    critical_head(reader, rest, place, base, count, name)
}
