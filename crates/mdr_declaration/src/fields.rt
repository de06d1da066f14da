// Fields of structs, and enumeration constants (C99 6.7.2).

ghost use Rattle.std.specs.Prelude.{◌≡◌, ◌<◌, ◌≤◌, length, IfOk, IfSome, true};
ghost use Rattle.mdr_grammar.specs.Forms.Part.{field as a_field, field_group as a_field_group, enumerator as an_enumerator};
ghost use Rattle.mdr_grammar.specs.Forms.Separated.{fields_of};
ghost use Rattle.mdr_grammar.specs.Forms.Enclosed.{enumerators as some_enumerators};
ghost use Rattle.mdr_grammar.specs.Forms.Nonterminal.{part, option, commas, commas_open};
ghost use Rattle.mdr_grammar.specs.Front.{first, front};
ghost use Rattle.mdr_grammar.specs.Declarations.{fields_in, field_in, group_in, enumerator_rule};
ghost use Rattle.mdr_reader.specs.Gives.{Gives, Behind};
ghost use Rattle.mdr_grammar.specs.declared.sort.Sort.TheVariants as sort_is;

use crate::declarators::{annotated, declarator, one_of, specifiers};
use mdr_core::Items;
use mdr_grammar::parts::Specifier;
use mdr_grammar::sort::Sort;
use mdr_reader::constants::value_option;
use mdr_reader::failure::Failure;
use mdr_reader::look::{Reader, copied, past, take, text_of};
use mdr_reader::openings::perhaps;
use mdr_syntax::{Decl, Enumerator, Token};

/// A field behind its type.
fn field<'t>(
    reader: Reader,
    tokens: &'t [Token],
    base: &Specifier,
) -> Result<(Decl, &'t [Token]), Failure>
    ensures reads { Gives (λ x. x.0) (λ x. x.1.now) result (first reader.halves (part (a_field base.now)) tokens.now) }
    ensures shorter { IfOk result (λ x. length x.1.now < length tokens.now) }
{
    annotated_field(reader, tokens, base)
}

/// A declarator with its annotation.
fn annotated_field<'t>(
    reader: Reader,
    tokens: &'t [Token],
    base: &Specifier,
) -> Result<(Decl, &'t [Token]), Failure>
    ensures reads { Gives (λ x. x.0) (λ x. x.1.now) result (front reader.halves (field_in base.now) tokens.now) }
    ensures shorter { IfOk result (λ x. length x.1.now < length tokens.now) }
{
    let (x, rest) = declarator(reader, tokens, base, 0)?;
    annotated(reader, rest, x, 0)
}

/// The further fields of a declaration.
fn more_fields<'t>(
    reader: Reader,
    tokens: &'t [Token],
    list: Items<Decl>,
    base: &Specifier,
) -> Result<(Items<Decl>, &'t [Token]), Failure>
    ensures reads { Gives (λ x. x.0) (λ x. x.1.now) result (first reader.halves (commas (fields_of base.now) list) tokens.now) }
    ensures shorter { IfOk result (λ x. length x.1.now ≤ length tokens.now) }
{
    let mut all = list;
    let mut rest = tokens;
    'more: loop {
        match past(reader.halves, Sort::Comma, rest) {
            Some((_, after)) => {
                let (x, behind) = field(reader, after, base)?;
                all.push(x)?;
                rest = behind;
            }
            None => return Ok((all, rest)),
        }
    }
}

/// The fields of a declaration behind its type.
fn fields_behind<'t>(
    reader: Reader,
    tokens: &'t [Token],
    base: &Specifier,
) -> Result<(Items<Decl>, &'t [Token]), Failure>
    ensures reads { Gives (λ x. x.0) (λ x. x.1.now) result (front reader.halves (fields_in base.now) tokens.now) }
    ensures shorter { IfOk result (λ x. length x.1.now ≤ length tokens.now) }
{
    let (x, rest) = field(reader, tokens, base)?;
    let (list, rest) = more_fields(reader, rest, one_of(reader, x)?, base)?;
    let (_, rest) = take(reader.halves, Sort::Semicolon, rest)?;
    Ok((list, rest))
}

/// The fields of a declaration.
pub fn field_group(reader: Reader, tokens: &[Token]) -> Result<(Items<Decl>, &[Token]), Failure>
    ensures reads { Gives (λ x. x.0) (λ x. x.1.now) result (first reader.halves (part a_field_group) tokens.now) }
    ensures shorter { IfOk result (λ x. length x.1.now < length tokens.now) }
{
    typed_fields(reader, tokens)
}

/// A type and its fields.
fn typed_fields(reader: Reader, tokens: &[Token]) -> Result<(Items<Decl>, &[Token]), Failure>
    ensures reads { Gives (λ x. x.0) (λ x. x.1.now) result (front reader.halves group_in tokens.now) }
    ensures shorter { IfOk result (λ x. length x.1.now < length tokens.now) }
{
    let (base, rest) = specifiers(reader, tokens)?;
    fields_behind(reader, rest, &base)
}

/// An enumeration constant.
pub fn enumerator(reader: Reader, tokens: &[Token]) -> Result<(Enumerator, &[Token]), Failure>
    ensures reads { Gives (λ x. x.0) (λ x. x.1.now) result (first reader.halves (part an_enumerator) tokens.now) }
    ensures shorter { IfOk result (λ x. length x.1.now < length tokens.now) }
{
    match past(reader.halves, Sort::Name, tokens) {
        Some((name, rest)) => enumerator_behind(reader, rest, name),
        None => Err(Failure::Fault(tokens.len())),
    }
}

/// What stands behind the name of an enumeration constant.
fn enumerator_behind<'t>(
    reader: Reader,
    tokens: &'t [Token],
    name: &Token,
) -> Result<(Enumerator, &'t [Token]), Failure>
    ensures reads { Behind (enumerator_rule sort_is.Name name.now) (λ r. Gives (λ x. x.0) (λ x. x.1.now) result (front reader.halves r tokens.now)) }
    ensures shorter { IfOk result (λ x. length x.1.now ≤ length tokens.now) }
{
    let (value, rest) = value_option(reader, tokens)?;
    let name_text = copied(reader.alloc, text_of(&name.what))?;
    Ok((
        Enumerator {
            place: name.place,
            name: name_text,
            value,
        },
        rest,
    ))
}

/// An enumeration constant, if there is one.
fn enumerator_option(
    reader: Reader,
    tokens: &[Token],
) -> Result<(Option<Enumerator>, &[Token]), Failure>
    ensures reads { Gives (λ x. x.0) (λ x. x.1.now) result (first reader.halves (option true an_enumerator) tokens.now) }
    ensures shorter { IfOk result (λ x. length x.1.now ≤ length tokens.now) }
    ensures taken { IfOk result (λ x. IfSome x.0 (λ v. length x.1.now < length tokens.now)) }
{
    perhaps(enumerator(reader, tokens), tokens)
}

/// The further enumeration constants.
pub fn more_enumerators(
    reader: Reader,
    tokens: &[Token],
    list: Items<Enumerator>,
) -> Result<(Items<Enumerator>, &[Token]), Failure>
    ensures reads { Gives (λ x. x.0) (λ x. x.1.now) result (first reader.halves (commas_open some_enumerators list) tokens.now) }
    ensures shorter { IfOk result (λ x. length x.1.now ≤ length tokens.now) }
{
    let mut all = list;
    let mut rest = tokens;
    'more: loop {
        let Some((_, after)) = past(reader.halves, Sort::Comma, rest) else {
            return Ok((all, rest));
        };
        let (found, behind) = enumerator_option(reader, after)?;
        let Some(x) = found else {
            return Ok((all, behind));
        };
        all.push(x)?;
        rest = behind;
    }
}
