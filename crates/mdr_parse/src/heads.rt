// Heads of functions, and prototypes (C99 6.9.1, 6.7.5.3).

ghost use Rattle.std.specs.Prelude.{◌≡◌, ◌<◌, ◌≤◌, length, IfOk, IfErr, true, false};
ghost use Rattle.mdr_syntax.specs.declared.tree.ItemWhat.TheVariants as item_is;
ghost use Rattle.mdr_grammar.specs.Forms.Nonterminal.{remote as a_remote};
ghost use Rattle.mdr_grammar.specs.Front.{and_read, first, front};
ghost use Rattle.mdr_grammar.specs.Statements.{head_of as head_with, function_head as head_in, item_at, remote_rule, remote_there as there_remote};
ghost use Rattle.mdr_parse.specs.Outside.{remote_end};
ghost use Rattle.mdr_reader.specs.Gives.{Gives, read_by, after_stars};
ghost use Rattle.mdr_reader.specs.declared.failure.Failure.TheVariants.{Memory};

use mdr_core::{Items, Place};
use mdr_declaration::declarators::{named_base, parameters};
use mdr_declaration::globals::one_of;
use mdr_grammar::parts::Specifier;
use mdr_grammar::sort::Sort;
use mdr_reader::constants::{annotation_option, stars};
use mdr_reader::failure::Failure;
use mdr_reader::look::{Reader, split, take};
use mdr_syntax::{AnnText, Decl, Head, Item, ItemWhat, Token};

/// The head of a function with its parts.
fn head_of(
    reader: Reader,
    base: &Specifier,
    stars: u32,
    name: &Token,
    params: Items<Decl>,
    ann: Option<AnnText>,
) -> Result<Head, Failure>
    ensures value { IfOk result (λ h. h ≡ head_with base.now stars name.now params ann) }
    ensures memory { IfErr result (λ e. e ≡ Memory) }
{
    match named_base(reader, &base.base, name) {
        Ok((text, base)) => Ok(Head {
            place: name.place,
            name: text,
            base,
            stars,
            params,
            ann,
        }),
        Err(e) => {
            drop(params);
            drop(ann);
            Err(e)
        }
    }
}

/// What stands behind the `(` of a function's parameters, up to the result's annotation.
pub fn function_head<'t>(
    reader: Reader,
    tokens: &'t [Token],
    are_named: bool,
    base: &Specifier,
    count: u32,
    name: &Token,
) -> Result<(Head, &'t [Token]), Failure>
    ensures reads { Gives (λ x. x.0) (λ x. x.1.now) result (front reader.halves (head_in are_named base.now count name.now) tokens.now) }
    ensures shorter { IfOk result (λ x. length x.1.now ≤ length tokens.now) }
{
    let (params, rest) = parameters(reader, tokens, are_named, 1)?;
    let (_, rest) = take(reader.halves, Sort::Close, rest)?;
    let (ann, rest) = annotation_option(reader, rest, 0)?;
    Ok((head_of(reader, base, count, name, params, ann)?, rest))
}

/// A prototype as the list of one item.
pub fn prototype(
    reader: Reader,
    place: Place,
    head: Head,
    is_remote: bool,
) -> Result<Items<Item>, Failure>
    ensures value { IfOk result (λ l. l ≡ item_at place (item_is.Proto head is_remote)) }
    ensures memory { IfErr result (λ e. e ≡ Memory) }
{
    one_of(
        reader,
        Item {
            place,
            what: ItemWhat::Proto(head, is_remote),
        },
    )
}

/// The head of a `__remote` prototype, and its semicolon.
fn remote_head<'t>(
    reader: Reader,
    tokens: &'t [Token],
    place: Place,
    base: &Specifier,
    count: u32,
    name: &Token,
) -> Result<(Items<Item>, &'t [Token]), Failure>
    ensures reads { Gives (λ x. x.0) (λ x. x.1.now) result (and_read (front reader.halves (head_in false base.now count name.now) tokens.now) (λ h us. front reader.halves (remote_end place h) us)) }
    ensures shorter { IfOk result (λ x. length x.1.now ≤ length tokens.now) }
{
    let (head, rest) = function_head(reader, tokens, false, base, count, name)?;
    match take(reader.halves, Sort::Semicolon, rest) {
        Ok((_, rest)) => Ok((prototype(reader, place, head, true)?, rest)),
        Err(e) => {
            drop(head);
            Err(Failure::from(e))
        }
    }
}

/// What stands behind the name of a `__remote` prototype.
fn remote_there<'t>(
    reader: Reader,
    tokens: &'t [Token],
    place: Place,
    base: &Specifier,
    count: u32,
    name: &Token,
) -> Result<(Items<Item>, &'t [Token]), Failure>
    ensures reads { Gives (λ x. x.0) (λ x. x.1.now) result (front reader.halves (there_remote place base.now count name.now) tokens.now) }
    ensures shorter { IfOk result (λ x. length x.1.now ≤ length tokens.now) }
{
    let (_, rest) = take(reader.halves, Sort::Open, tokens)?;
    remote_head(reader, rest, place, base, count, name)
}

/// What stands behind the stars of a `__remote` prototype.
fn remote_starred<'t>(
    reader: Reader,
    tokens: &'t [Token],
    place: Place,
    base: &Specifier,
    count: u32,
) -> Result<(Items<Item>, &'t [Token]), Failure>
    ensures reads { Gives (λ x. x.0) (λ x. x.1.now) result (read_by reader.halves (after_stars (remote_rule place base.now count)) tokens.now) }
    ensures shorter { IfOk result (λ x. length x.1.now < length tokens.now) }
{
    let Some((sort, token, rest)) = split(reader.halves, tokens) else {
        return Err(Failure::Fault(tokens.len()));
    };
    match sort {
        Sort::Name => remote_there(reader, rest, place, base, count, token),
        _ => Err(Failure::Fault(tokens.len())),
    }
}

/// What stands behind the type of a `__remote` prototype.
pub fn remote<'t>(
    reader: Reader,
    tokens: &'t [Token],
    place: Place,
    base: &Specifier,
) -> Result<(Items<Item>, &'t [Token]), Failure>
    ensures reads { Gives (λ x. x.0) (λ x. x.1.now) result (first reader.halves (a_remote place base.now 0) tokens.now) }
    ensures shorter { IfOk result (λ x. length x.1.now < length tokens.now) }
{
    let (count, rest) = stars(reader, tokens);
    remote_starred(reader, rest, place, base, count)
}
