// Declarations of globals.

ghost use Rattle.std.specs.Prelude.{◌≡◌, ◌<◌, ◌≤◌, length, IfOk, IfErr, Ok, true, [], ◌∷◌};
ghost use Rattle.mdr_syntax.specs.declared.tree.ItemWhat.TheVariants as item_is;
ghost use Rattle.mdr_grammar.specs.Forms.Part.{global as a_global, initial as an_initial};
ghost use Rattle.mdr_grammar.specs.Forms.Separated.{globals as some_globals};
ghost use Rattle.mdr_grammar.specs.Forms.Nonterminal.{part, option, commas};
ghost use Rattle.mdr_grammar.specs.Front.{and_read, first, front};
ghost use Rattle.mdr_grammar.specs.Statements.{global_with, global_in, more_globals};
ghost use Rattle.mdr_reader.specs.Gives.{Gives};
ghost use Rattle.mdr_reader.specs.declared.failure.Failure.TheVariants.{Memory};

use crate::declarators::{declarator, with_annotation};
use crate::initialisers::initial_option;
use mdr_core::{Items, Place};
use mdr_grammar::parts::Specifier;
use mdr_grammar::sort::Sort;
use mdr_reader::constants::annotation_option;
use mdr_reader::failure::Failure;
use mdr_reader::look::{Reader, past, take};
use mdr_syntax::{Decl, Item, ItemWhat, Token};

/// A global behind its declarator.
pub fn global_behind(
    reader: Reader,
    tokens: &[Token],
    place: Place,
    decl: Decl,
) -> Result<(Item, &[Token]), Failure>
    ensures reads { Gives (λ x. x.0) (λ x. x.1.now) result (front reader.halves (global_with place decl) tokens.now) }
    ensures shorter { IfOk result (λ x. length x.1.now ≤ length tokens.now) }
{
    match annotation_option(reader, tokens, 0) {
        Ok((ann, rest)) => initialised(reader, rest, place, with_annotation(decl, ann)),
        Err(e) => {
            drop(decl);
            Err(e)
        }
    }
}

/// A global behind its annotation.
pub fn initialised(
    reader: Reader,
    tokens: &[Token],
    place: Place,
    decl: Decl,
) -> Result<(Item, &[Token]), Failure>
    ensures reads { Gives (λ x. x.0) (λ x. x.1.now) result (and_read (first reader.halves (option true an_initial) tokens.now) (λ i us. Ok (record { place = place; what = item_is.Global decl i }, us))) }
    ensures shorter { IfOk result (λ x. length x.1.now ≤ length tokens.now) }
{
    match initial_option(reader, tokens) {
        Ok((init, rest)) => Ok((
            Item {
                place,
                what: ItemWhat::Global(decl, init),
            },
            rest,
        )),
        Err(e) => {
            drop(decl);
            Err(e)
        }
    }
}

/// A declarator and its global.
fn declared_global<'t>(
    reader: Reader,
    tokens: &'t [Token],
    place: Place,
    base: &Specifier,
) -> Result<(Item, &'t [Token]), Failure>
    ensures reads { Gives (λ x. x.0) (λ x. x.1.now) result (front reader.halves (global_in place base.now) tokens.now) }
    ensures shorter { IfOk result (λ x. length x.1.now < length tokens.now) }
{
    let (decl, rest) = declarator(reader, tokens, base, 0)?;
    global_behind(reader, rest, place, decl)
}

/// A global behind its type.
fn global<'t>(
    reader: Reader,
    tokens: &'t [Token],
    place: Place,
    base: &Specifier,
) -> Result<(Item, &'t [Token]), Failure>
    ensures reads { Gives (λ x. x.0) (λ x. x.1.now) result (first reader.halves (part (a_global place base.now)) tokens.now) }
    ensures shorter { IfOk result (λ x. length x.1.now < length tokens.now) }
{
    declared_global(reader, tokens, place, base)
}

/// A list of one item.
pub fn one_of(reader: Reader, item: Item) -> Result<Items<Item>, Failure>
    ensures value { IfOk result (λ l. l ≡ item ∷ []) }
    ensures memory { IfErr result (λ e. e ≡ Memory) }
{
    let mut list = Items::new(reader.alloc);
    list.push(item)?;
    Ok(list)
}

/// The further globals of a declaration.
fn further<'t>(
    reader: Reader,
    tokens: &'t [Token],
    list: Items<Item>,
    place: Place,
    base: &Specifier,
) -> Result<(Items<Item>, &'t [Token]), Failure>
    ensures reads { Gives (λ x. x.0) (λ x. x.1.now) result (first reader.halves (commas (some_globals place base.now) list) tokens.now) }
    ensures shorter { IfOk result (λ x. length x.1.now ≤ length tokens.now) }
{
    let mut all = list;
    let mut rest = tokens;
    'more: loop {
        match past(reader.halves, Sort::Comma, rest) {
            Some((_, after)) => {
                let (x, behind) = global(reader, after, place, base)?;
                all.push(x)?;
                rest = behind;
            }
            None => return Ok((all, rest)),
        }
    }
}

/// The further globals of a declaration, and its semicolon.
pub fn ended_globals<'t>(
    reader: Reader,
    tokens: &'t [Token],
    item: Item,
    place: Place,
    base: &Specifier,
) -> Result<(Items<Item>, &'t [Token]), Failure>
    ensures reads { Gives (λ x. x.0) (λ x. x.1.now) result (front reader.halves (more_globals place base.now item) tokens.now) }
    ensures shorter { IfOk result (λ x. length x.1.now ≤ length tokens.now) }
{
    let (list, rest) = further(reader, tokens, one_of(reader, item)?, place, base)?;
    let (_, rest) = take(reader.halves, Sort::Semicolon, rest)?;
    Ok((list, rest))
}
