// Items, and all of a source (C99 6.9).

ghost use Rattle.std.specs.Prelude.{◌≡◌, ◌<◌, ◌≤◌, length, IfOk, IfErr, IfSome, true};
ghost use Rattle.mdr_grammar.specs.Forms.Part.{item as an_item};
ghost use Rattle.mdr_grammar.specs.Forms.Nonterminal.{part, option, qualified as a_qualified, outer as an_outer};
ghost use Rattle.mdr_grammar.specs.Front.{and_read, first, front};
ghost use Rattle.mdr_grammar.specs.Statements.{item_rule, source as all_source};
ghost use Rattle.mdr_parse.specs.Outside.{remote_typed as in_remote, critical_typed as in_critical, outer_typed as in_outer, unqualified_rule, struct_specifier};
ghost use Rattle.mdr_parse.specs.Outside.{struct_behind as in_struct, item_lists as in_item_lists, source_end, source_items as in_source};
ghost use Rattle.mdr_parse.specs.Ending.{closed, Ends};
ghost use Rattle.mdr_grammar.specs.Running.{run};
ghost use Rattle.mdr_reader.specs.Gives.{Gives, Behind, read_by};
ghost use Rattle.mdr_reader.specs.declared.failure.Failure.TheVariants.{Memory};
ghost use Rattle.mdr_grammar.specs.declared.sort.Sort.TheVariants as sort_is;

use crate::heads::remote;
use crate::outside::{critical, outer};
use crate::structs::{define, enum_behind, fields};
use mdr_core::{Items, Place};
use mdr_grammar::parts::Specifier;
use mdr_grammar::sort::Sort;
use mdr_reader::failure::Failure;
use mdr_reader::lists::followed;
use mdr_reader::look::{Reader, past, split, take};
use mdr_reader::openings::perhaps;
use mdr_reader::types::{base, struct_named};
use mdr_syntax::{Item, Token, Tree};

/// A type and what stands behind it outside functions.
fn outer_typed(
    reader: Reader,
    tokens: &[Token],
    place: Place,
) -> Result<(Items<Item>, &[Token]), Failure>
    ensures reads { Gives (λ x. x.0) (λ x. x.1.now) result (front reader.halves (in_outer place) tokens.now) }
    ensures shorter { IfOk result (λ x. length x.1.now < length tokens.now) }
{
    let (base, rest) = base(reader, tokens)?;
    outer(reader, rest, place, &base)
}

/// What stands behind `__remote`.
fn remote_typed(
    reader: Reader,
    tokens: &[Token],
    place: Place,
) -> Result<(Items<Item>, &[Token]), Failure>
    ensures reads { Gives (λ x. x.0) (λ x. x.1.now) result (front reader.halves (in_remote place) tokens.now) }
    ensures shorter { IfOk result (λ x. length x.1.now < length tokens.now) }
{
    let (base, rest) = base(reader, tokens)?;
    remote(reader, rest, place, &base)
}

/// What stands behind `__critical`.
fn critical_typed(
    reader: Reader,
    tokens: &[Token],
    place: Place,
) -> Result<(Items<Item>, &[Token]), Failure>
    ensures reads { Gives (λ x. x.0) (λ x. x.1.now) result (front reader.halves (in_critical place) tokens.now) }
    ensures shorter { IfOk result (λ x. length x.1.now < length tokens.now) }
{
    let (base, rest) = base(reader, tokens)?;
    critical(reader, rest, place, &base)
}

/// What stands behind qualifiers.
fn unqualified(
    reader: Reader,
    tokens: &[Token],
    place: Place,
) -> Result<(Items<Item>, &[Token]), Failure>
    ensures reads { Gives (λ x. x.0) (λ x. x.1.now) result (read_by reader.halves (unqualified_rule place) tokens.now) }
    ensures shorter { IfOk result (λ x. length x.1.now < length tokens.now) }
{
    let Some((sort, _, rest)) = split(reader.halves, tokens) else {
        return Err(Failure::Fault(tokens.len()));
    };
    match sort {
        Sort::Remote => remote_typed(reader, rest, place),
        Sort::Critical => critical_typed(reader, rest, place),
        _ => outer_typed(reader, tokens, place),
    }
}

/// Qualifiers and what stands behind them.
fn qualified(
    reader: Reader,
    tokens: &[Token],
    place: Place,
) -> Result<(Items<Item>, &[Token]), Failure>
    ensures reads { Gives (λ x. x.0) (λ x. x.1.now) result (first reader.halves (a_qualified place) tokens.now) }
    ensures shorter { IfOk result (λ x. length x.1.now < length tokens.now) }
{
    let mut rest = tokens;
    'qualifiers: loop {
        match past(reader.halves, Sort::Qualifier, rest) {
            Some((_, after)) => rest = after,
            None => return unqualified(reader, rest, place),
        }
    }
}

/// The type of a struct's name.
fn struct_type(reader: Reader, word: &Token, name: &Token) -> Result<Specifier, Failure>
    ensures value { IfOk result (λ b. b ≡ struct_specifier word.now name.now) }
    ensures memory { IfErr result (λ e. e ≡ Memory) }
{
    Ok(Specifier {
        base: struct_named(reader, name)?,
        place: word.place,
    })
}

/// What stands behind a struct's name that begins no struct of its own.
fn struct_outer<'t>(
    reader: Reader,
    tokens: &'t [Token],
    word: &Token,
    name: &Token,
) -> Result<(Items<Item>, &'t [Token]), Failure>
    ensures reads { Gives (λ x. x.0) (λ x. x.1.now) result (first reader.halves (an_outer word.now.place (struct_specifier word.now name.now) 0) tokens.now) }
    ensures shorter { IfOk result (λ x. length x.1.now < length tokens.now) }
{
    let base = struct_type(reader, word, name)?;
    outer(reader, tokens, word.place, &base)
}

/// What stands behind the name of a struct.
fn struct_behind<'t>(
    reader: Reader,
    tokens: &'t [Token],
    word: &Token,
    name: &Token,
) -> Result<(Items<Item>, &'t [Token]), Failure>
    ensures reads { Gives (λ x. x.0) (λ x. x.1.now) result (front reader.halves (in_struct word.now name.now) tokens.now) }
    ensures shorter { IfOk result (λ x. length x.1.now < length tokens.now) }
{
    match past(reader.halves, Sort::OpenBrace, tokens) {
        Some((_, rest)) => fields(reader, rest, word.place, name),
        None => struct_outer(reader, tokens, word, name),
    }
}

/// What stands behind `struct`.
fn struct_there<'t>(
    reader: Reader,
    tokens: &'t [Token],
    word: &Token,
) -> Result<(Items<Item>, &'t [Token]), Failure>
    ensures reads { Behind (item_rule sort_is.Struct word.now) (λ r. Gives (λ x. x.0) (λ x. x.1.now) result (front reader.halves r tokens.now)) }
    ensures shorter { IfOk result (λ x. length x.1.now ≤ length tokens.now) }
{
    let (name, rest) = take(reader.halves, Sort::Name, tokens)?;
    struct_behind(reader, rest, word, name)
}

/// An item: the globals of one declaration are each one.
fn item(reader: Reader, tokens: &[Token]) -> Result<(Items<Item>, &[Token]), Failure>
    ensures reads { Gives (λ x. x.0) (λ x. x.1.now) result (first reader.halves (part an_item) tokens.now) }
    ensures shorter { IfOk result (λ x. length x.1.now < length tokens.now) }
{
    let Some((sort, token, rest)) = split(reader.halves, tokens) else {
        return Err(Failure::Fault(tokens.len()));
    };
    match sort {
        Sort::Define => Ok((define(reader, token)?, rest)),
        Sort::Enum => enum_behind(reader, rest, token),
        Sort::Struct => struct_there(reader, rest, token),
        _ => qualified(reader, tokens, token.place),
    }
}

/// An item, if there is one.
fn item_option(reader: Reader, tokens: &[Token]) -> Result<(Option<Items<Item>>, &[Token]), Failure>
    ensures reads { Gives (λ x. x.0) (λ x. x.1.now) result (first reader.halves (option true an_item) tokens.now) }
    ensures shorter { IfOk result (λ x. length x.1.now ≤ length tokens.now) }
    ensures taken { IfOk result (λ x. IfSome x.0 (λ v. length x.1.now < length tokens.now)) }
{
    perhaps(item(reader, tokens), tokens)
}

/// All items.
fn item_lists(reader: Reader, tokens: &[Token]) -> Result<(Items<Item>, &[Token]), Failure>
    ensures reads { Gives (λ x. x.0) (λ x. x.1.now) result (front reader.halves in_item_lists tokens.now) }
    ensures shorter { IfOk result (λ x. length x.1.now ≤ length tokens.now) }
{
    let mut all = Items::new(reader.alloc);
    let mut rest = tokens;
    'more: loop {
        let (found, behind) = item_option(reader, rest)?;
        let Some(list) = found else {
            return Ok((all, behind));
        };
        all = followed(all, list)?;
        rest = behind;
    }
}

/// All items, and the end behind them.
fn ended_items(reader: Reader, tokens: &[Token]) -> Result<(Items<Item>, &[Token]), Failure>
    ensures { Gives (λ x. x.0) (λ x. x.1.now) result (and_read (front reader.halves in_item_lists tokens.now) (λ is us. front reader.halves (source_end is) us)) }
{
    let (list, rest) = item_lists(reader, tokens)?;
    let (_, rest) = take(reader.halves, Sort::End, rest)?;
    Ok((list, rest))
}

/// The items of a source.
fn source_items(reader: Reader, tokens: &[Token]) -> Result<(Items<Item>, &[Token]), Failure>
    ensures { Gives (λ x. x.0) (λ x. x.1.now) result (front reader.halves in_source tokens.now) }
{
    ended_items(reader, tokens)
}

/// The tree of a source behind which no token comes.
fn closed_source(reader: Reader, tokens: &[Token]) -> Result<Tree, Failure>
    ensures { Ends result (closed (front reader.halves in_source tokens.now)) }
{
    let (items, rest) = source_items(reader, tokens)?;
    if rest.is_empty() {
        Ok(Tree { items })
    } else {
        Err(Failure::Fault(rest.len()))
    }
}

/// The tree of all tokens.
pub fn source(reader: Reader, tokens: &[Token]) -> Result<Tree, Failure>
    ensures { Ends result (run reader.halves all_source tokens.now) }
{
    closed_source(reader, tokens)
}
