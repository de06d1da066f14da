// Globals behind the name of the first, and globals of which the first is a pointer to functions.

ghost use Rattle.std.specs.Prelude.{◌≡◌, ◌<◌, ◌≤◌, length, IfOk, IfErr};
ghost use Rattle.mdr_grammar.specs.Front.{and_read, front};
ghost use Rattle.mdr_grammar.specs.Declarations.{declarator_rule};
ghost use Rattle.mdr_grammar.specs.Statements.{global_with, globals_with, more_globals};
ghost use Rattle.mdr_parse.specs.Outside.{named_decl as decl_with, global_named};
ghost use Rattle.mdr_reader.specs.Gives.{Gives, read_by, after_stars};
ghost use Rattle.mdr_reader.specs.declared.failure.Failure.TheVariants.{Memory};

use mdr_core::{Items, Place};
use mdr_declaration::declarators::{behind_stars, named_base};
use mdr_declaration::globals::{ended_globals, global_behind, initialised};
use mdr_grammar::parts::Specifier;
use mdr_reader::constants::{annotation_option, size};
use mdr_reader::failure::Failure;
use mdr_reader::look::Reader;
use mdr_syntax::{AnnText, Const, Decl, Item, Token};

/// The declarator of a global with its parts.
fn named_decl(
    reader: Reader,
    base: &Specifier,
    stars: u32,
    name: &Token,
    size: Option<Const>,
    ann: Option<AnnText>,
) -> Result<Decl, Failure>
    ensures value { IfOk result (λ d. d ≡ decl_with base.now stars name.now size ann) }
    ensures memory { IfErr result (λ e. e ≡ Memory) }
{
    match named_base(reader, &base.base, name) {
        Ok((text, base)) => Ok(Decl {
            place: name.place,
            name: Some(text),
            base,
            stars,
            size,
            fun: None,
            ann,
        }),
        Err(e) => {
            drop(size);
            drop(ann);
            Err(e)
        }
    }
}

/// A global behind its name.
fn named_global<'t>(
    reader: Reader,
    tokens: &'t [Token],
    place: Place,
    base: &Specifier,
    count: u32,
    name: &Token,
) -> Result<(Item, &'t [Token]), Failure>
    ensures reads { Gives (λ x. x.0) (λ x. x.1.now) result (front reader.halves (global_named place base.now count name.now) tokens.now) }
    ensures shorter { IfOk result (λ x. length x.1.now ≤ length tokens.now) }
{
    let (size, rest) = size(reader, tokens)?;
    let (ann, rest) = annotation_option(reader, rest, 0)?;
    let decl = named_decl(reader, base, count, name, size, ann)?;
    initialised(reader, rest, place, decl)
}

/// Globals behind the name of the first.
pub fn named_globals<'t>(
    reader: Reader,
    tokens: &'t [Token],
    place: Place,
    base: &Specifier,
    count: u32,
    name: &Token,
) -> Result<(Items<Item>, &'t [Token]), Failure>
    ensures reads { Gives (λ x. x.0) (λ x. x.1.now) result (and_read (front reader.halves (global_named place base.now count name.now) tokens.now) (λ g us. front reader.halves (more_globals place base.now g) us)) }
    ensures shorter { IfOk result (λ x. length x.1.now ≤ length tokens.now) }
{
    let (item, rest) = named_global(reader, tokens, place, base, count, name)?;
    ended_globals(reader, rest, item, place, base)
}

/// Globals behind the declarator of the first.
fn declared_globals<'t>(
    reader: Reader,
    tokens: &'t [Token],
    place: Place,
    base: &Specifier,
    decl: Decl,
) -> Result<(Items<Item>, &'t [Token]), Failure>
    ensures reads { Gives (λ x. x.0) (λ x. x.1.now) result (and_read (front reader.halves (global_with place decl) tokens.now) (λ g us. front reader.halves (more_globals place base.now g) us)) }
    ensures shorter { IfOk result (λ x. length x.1.now ≤ length tokens.now) }
{
    let (item, rest) = global_behind(reader, tokens, place, decl)?;
    ended_globals(reader, rest, item, place, base)
}

/// Globals behind the declarator of the first, as the grammar has them.
fn other_globals<'t>(
    reader: Reader,
    tokens: &'t [Token],
    place: Place,
    base: &Specifier,
    decl: Decl,
) -> Result<(Items<Item>, &'t [Token]), Failure>
    ensures reads { Gives (λ x. x.0) (λ x. x.1.now) result (front reader.halves (globals_with place base.now decl) tokens.now) }
    ensures shorter { IfOk result (λ x. length x.1.now ≤ length tokens.now) }
{
    declared_globals(reader, tokens, place, base, decl)
}

/// Globals of which the first is a pointer to functions, behind their type's stars.
pub fn pointer_globals<'t>(
    reader: Reader,
    tokens: &'t [Token],
    place: Place,
    base: &Specifier,
    count: u32,
) -> Result<(Items<Item>, &'t [Token]), Failure>
    ensures reads { Gives (λ x. x.0) (λ x. x.1.now) result (and_read (read_by reader.halves (after_stars (declarator_rule 0 base.now count)) tokens.now) (λ d us. front reader.halves (globals_with place base.now d) us)) }
    ensures shorter { IfOk result (λ x. length x.1.now < length tokens.now) }
{
    let (decl, rest) = behind_stars(reader, tokens, base, count, 0)?;
    other_globals(reader, rest, place, base, decl)
}
