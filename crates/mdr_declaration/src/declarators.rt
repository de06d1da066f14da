// Declarators and parameters (C99 6.7.5).

ghost use Rattle.std.specs.Prelude.{◌≡◌, ◌<◌, ◌≤◌, length, IfOk, IfErr, Ok, true, false, not, Some, None, [], ◌∷◌};
ghost use Rattle.mdr_syntax.specs.declared.token.Token.{Token as token_value};
ghost use Rattle.mdr_grammar.specs.Forms.Part.{specifiers as some_specifiers, declarator as a_declarator, parameter as a_parameter};
ghost use Rattle.mdr_grammar.specs.Forms.Separated.{parameters_at};
ghost use Rattle.mdr_grammar.specs.Forms.Nonterminal.{part, option, commas, parameters as some_parameters};
ghost use Rattle.mdr_grammar.specs.Forms.Nonterminal.{after_void as behind_void, parameter_name as a_parameter_name, parameter_declarator as parameter_declarators};
ghost use Rattle.mdr_grammar.specs.Forms.Empty.{may};
ghost use Rattle.mdr_grammar.specs.Front.{first, front, nothing_at};
ghost use Rattle.mdr_grammar.specs.Declarations.{declarator_rule, declared, unnamed as unnamed_decl, perhaps_named as maybe_named, with_annotation as with_ann};
ghost use Rattle.mdr_grammar.specs.Declarations.{annotated_parameter, parameter_in, parameters_in, declared_void, annotated_void};
ghost use Rattle.mdr_grammar.specs.Declarations.{after_void_rule, pointed_parameters as parameters_pointed, parameter_declarator_rule, void_base};
ghost use Rattle.mdr_grammar.specs.Expressions.{text_of as text_in};
ghost use Rattle.mdr_reader.specs.Gives.{Gives, Tells, Behind, read_by, read_from, after_stars};
ghost use Rattle.std.specs.Option.{option_copied};
ghost use Rattle.mdr_reader.specs.declared.failure.Failure.TheVariants.{Memory};
ghost use Rattle.mdr_grammar.specs.declared.sort.Sort.TheVariants as sort_is;

use mdr_core::{Items, Name, Place};
use mdr_grammar::parts::Specifier;
use mdr_grammar::sort::Sort;
use mdr_reader::constants::{annotation_option, size, stars};
use mdr_reader::failure::{Failure, Refused};
use mdr_reader::look::{Reader, copied, may_open, past, split, take, text_of};
use mdr_reader::types::base;
use mdr_syntax::{AnnText, Base, Const, Decl, Token};
use std::alloc::Global;

/// A copy of a type.
pub fn same_base(alloc: Global, base: &Base) -> Result<Base, Failure>
    ensures value { IfOk result (λ b. b ≡ base.now) }
    ensures memory { IfErr result (λ e. e ≡ Memory) }
{
    match base {
        Base::Int(kind) => Ok(Base::Int(*kind)),
        Base::Struct(place, name) => Ok(Base::Struct(*place, copied(alloc, name.as_slice())?)),
        Base::Void => Ok(Base::Void),
        Base::Lock => Ok(Base::Lock),
    }
}

/// The text of a name, and a copy of the type before it.
pub fn named_base(reader: Reader, base: &Base, name: &Token) -> Result<(Name, Base), Failure>
    ensures value { IfOk result (λ x. (x.0 ≡ text_in name.now.what) × (x.1 ≡ base.now)) }
    ensures memory { IfErr result (λ e. e ≡ Memory) }
{
    let text = copied(reader.alloc, text_of(&name.what))?;
    Ok((text, same_base(reader.alloc, base)?))
}

/// A declarator with a name.
fn declared(
    reader: Reader,
    base: &Specifier,
    stars: u32,
    name: &Token,
    size: Option<Const>,
    fun: Option<Items<Decl>>,
) -> Result<Decl, Failure>
    ensures value { IfOk result (λ d. d ≡ declared base.now stars name.now size fun) }
    ensures memory { IfErr result (λ e. e ≡ Memory) }
{
    match named_base(reader, &base.base, name) {
        Ok((text, base)) => Ok(Decl {
            place: name.place,
            name: Some(text),
            base,
            stars,
            size,
            fun,
            ann: None,
        }),
        Err(e) => {
            drop(size);
            drop(fun);
            Err(e)
        }
    }
}

/// A declarator without a name.
fn unnamed(
    reader: Reader,
    base: &Specifier,
    stars: u32,
    fun: Option<Items<Decl>>,
) -> Result<Decl, Failure>
    ensures value { IfOk result (λ d. d ≡ unnamed_decl base.now stars fun) }
    ensures memory { IfErr result (λ e. e ≡ Memory) }
{
    Ok(Decl {
        place: base.place,
        name: None,
        base: same_base(reader.alloc, &base.base)?,
        stars,
        size: None,
        fun,
        ann: None,
    })
}

/// A declarator with its annotation.
pub fn with_annotation(decl: Decl, ann: Option<AnnText>) -> Decl
    ensures { result ≡ with_ann decl ann }
{
    Decl {
        place: decl.place,
        name: decl.name,
        base: decl.base,
        stars: decl.stars,
        size: decl.size,
        fun: decl.fun,
        ann,
    }
}

/// Qualifiers and a type.
pub fn specifiers(reader: Reader, tokens: &[Token]) -> Result<(Specifier, &[Token]), Failure>
    ensures reads { Gives (λ x. x.0) (λ x. x.1.now) result (first reader.halves (part some_specifiers) tokens.now) }
    ensures shorter { IfOk result (λ x. length x.1.now < length tokens.now) }
{
    let mut rest = tokens;
    'qualifiers: loop {
        match past(reader.halves, Sort::Qualifier, rest) {
            Some((_, after)) => rest = after,
            None => return base(reader, rest),
        }
    }
}

/// What stands behind a declarator's stars.
pub fn behind_stars<'t>(
    reader: Reader,
    tokens: &'t [Token],
    base: &Specifier,
    count: u32,
    depth: u32,
) -> Result<(Decl, &'t [Token]), Failure>
    requires inside { depth ≤ 512 }
    ensures reads { Gives (λ x. x.0) (λ x. x.1.now) result (read_by reader.halves (after_stars (declarator_rule depth base.now count)) tokens.now) }
    ensures shorter { IfOk result (λ x. length x.1.now < length tokens.now) }
{
    let Some((sort, token, rest)) = split(reader.halves, tokens) else {
        return Err(Failure::Fault(tokens.len()));
    };
    match sort {
        Sort::Name => named(reader, rest, token, base, count),
        Sort::Open => {
            if may_open(depth + 1) {
                pointer(reader, rest, token, base, count, depth)
            } else {
                Err(Failure::Fault(tokens.len()))
            }
        }
        _ => Err(Failure::Fault(tokens.len())),
    }
}

/// What stands behind a declarator's name.
fn named<'t>(
    reader: Reader,
    tokens: &'t [Token],
    name: &Token,
    base: &Specifier,
    count: u32,
) -> Result<(Decl, &'t [Token]), Failure>
    ensures reads { Behind (declarator_rule 0 base.now count sort_is.Name name.now) (λ r. Gives (λ x. x.0) (λ x. x.1.now) result (front reader.halves r tokens.now)) }
    ensures shorter { IfOk result (λ x. length x.1.now ≤ length tokens.now) }
{
    let (size, rest) = size(reader, tokens)?;
    Ok((declared(reader, base, count, name, size, None)?, rest))
}

/// What stands behind the `(` of a function pointer's declarator.
fn pointer<'t>(
    reader: Reader,
    tokens: &'t [Token],
    bracket: &Token,
    base: &Specifier,
    count: u32,
    depth: u32,
) -> Result<(Decl, &'t [Token]), Failure>
    requires inside { depth < 512 }
    ensures reads { Behind (declarator_rule depth base.now count sort_is.Open bracket.now) (λ r. Gives (λ x. x.0) (λ x. x.1.now) result (front reader.halves r tokens.now)) }
    ensures shorter { IfOk result (λ x. length x.1.now ≤ length tokens.now) }
{
    let (_, rest) = take(reader.halves, Sort::Star, tokens)?;
    let (name, rest) = take(reader.halves, Sort::Name, rest)?;
    let (size, rest) = size(reader, rest)?;
    match pointed_parameters(reader, rest, depth) {
        Ok((list, rest)) => Ok((declared(reader, base, count, name, size, Some(list))?, rest)),
        Err(e) => {
            drop(size);
            Err(e)
        }
    }
}

/// A declarator with a name.
pub fn declarator<'t>(
    reader: Reader,
    tokens: &'t [Token],
    base: &Specifier,
    depth: u32,
) -> Result<(Decl, &'t [Token]), Failure>
    requires inside { depth ≤ 512 }
    ensures reads { Gives (λ x. x.0) (λ x. x.1.now) result (first reader.halves (part (a_declarator depth base.now 0)) tokens.now) }
    ensures shorter { IfOk result (λ x. length x.1.now < length tokens.now) }
{
    let (count, rest) = stars(reader, tokens);
    behind_stars(reader, rest, base, count, depth)
}

/// The parameters of a function pointer, behind its name.
#[cycle(parameters)]
fn pointed_parameters(
    reader: Reader,
    tokens: &[Token],
    depth: u32,
) -> Result<(Items<Decl>, &[Token]), Failure>
    requires inside { depth < 512 }
    ensures reads { Gives (λ x. x.0) (λ x. x.1.now) result (front reader.halves (parameters_pointed depth) tokens.now) }
    ensures shorter { IfOk result (λ x. length x.1.now ≤ length tokens.now) }
{
    let (_, rest) = take(reader.halves, Sort::Close, tokens)?;
    let (_, rest) = take(reader.halves, Sort::Open, rest)?;
    let (list, rest) = parameters(reader, rest, false, depth + 1)?;
    let (_, rest) = take(reader.halves, Sort::Close, rest)?;
    Ok((list, rest))
}

/// The parameters of a function or of a function pointer.
#[cycle(parameters)]
pub fn parameters(
    reader: Reader,
    tokens: &[Token],
    are_named: bool,
    depth: u32,
) -> Result<(Items<Decl>, &[Token]), Failure>
    requires inside { depth ≤ 512 }
    ensures reads { Gives (λ x. x.0) (λ x. x.1.now) result (first reader.halves (some_parameters are_named depth) tokens.now) }
    ensures shorter { IfOk result (λ x. length x.1.now ≤ length tokens.now) }
{
    match past(reader.halves, Sort::Void, tokens) {
        Some((word, rest)) => after_void(reader, rest, word.place, are_named, depth),
        None => listed_parameters(reader, tokens, are_named, depth),
    }
}

/// Parameters of which the first isn't of type `void`.
#[cycle(parameters)]
fn listed_parameters(
    reader: Reader,
    tokens: &[Token],
    are_named: bool,
    depth: u32,
) -> Result<(Items<Decl>, &[Token]), Failure>
    requires inside { depth ≤ 512 }
    ensures reads { Gives (λ x. x.0) (λ x. x.1.now) result (front reader.halves (parameters_in are_named depth) tokens.now) }
    ensures shorter { IfOk result (λ x. length x.1.now < length tokens.now) }
{
    let (x, rest) = parameter(reader, tokens, are_named, depth)?;
    more_parameters(reader, rest, one_of(reader, x)?, are_named, depth)
}

/// The further ones behind some parameters.
#[cycle(parameters)]
fn more_parameters(
    reader: Reader,
    tokens: &[Token],
    list: Items<Decl>,
    are_named: bool,
    depth: u32,
) -> Result<(Items<Decl>, &[Token]), Failure>
    requires inside { depth ≤ 512 }
    ensures reads { Gives (λ x. x.0) (λ x. x.1.now) result (first reader.halves (commas (parameters_at are_named depth) list) tokens.now) }
    ensures shorter { IfOk result (λ x. length x.1.now ≤ length tokens.now) }
{
    let mut all = list;
    let mut rest = tokens;
    'more: loop {
        match past(reader.halves, Sort::Comma, rest) {
            Some((_, after)) => {
                let (x, behind) = parameter(reader, after, are_named, depth)?;
                all.push(x)?;
                rest = behind;
            }
            None => return Ok((all, rest)),
        }
    }
}

/// A parameter.
#[cycle(parameters)]
fn parameter(
    reader: Reader,
    tokens: &[Token],
    is_named: bool,
    depth: u32,
) -> Result<(Decl, &[Token]), Failure>
    requires inside { depth ≤ 512 }
    ensures reads { Gives (λ x. x.0) (λ x. x.1.now) result (first reader.halves (part (a_parameter is_named depth)) tokens.now) }
    ensures shorter { IfOk result (λ x. length x.1.now < length tokens.now) }
{
    typed_parameter(reader, tokens, is_named, depth)
}

/// A type and what makes it a parameter.
#[cycle(parameters)]
fn typed_parameter(
    reader: Reader,
    tokens: &[Token],
    is_named: bool,
    depth: u32,
) -> Result<(Decl, &[Token]), Failure>
    requires inside { depth ≤ 512 }
    ensures reads { Gives (λ x. x.0) (λ x. x.1.now) result (front reader.halves (parameter_in is_named depth) tokens.now) }
    ensures shorter { IfOk result (λ x. length x.1.now < length tokens.now) }
{
    let (base, rest) = specifiers(reader, tokens)?;
    let (x, rest) = parameter_declarator(reader, rest, is_named, &base, depth)?;
    annotated(reader, rest, x, depth)
}

/// A declarator with its annotation.
pub fn annotated<'t>(
    reader: Reader,
    tokens: &'t [Token],
    decl: Decl,
    depth: u32,
) -> Result<(Decl, &'t [Token]), Failure>
    requires inside { depth ≤ 512 }
    ensures reads { Gives (λ x. x.0) (λ x. x.1.now) result (front reader.halves (annotated_parameter depth decl) tokens.now) }
    ensures shorter { IfOk result (λ x. length x.1.now ≤ length tokens.now) }
{
    match annotation_option(reader, tokens, depth) {
        Ok((ann, rest)) => Ok((with_annotation(decl, ann), rest)),
        Err(e) => {
            drop(decl);
            Err(e)
        }
    }
}

/// A list of one declarator.
pub fn one_of(reader: Reader, decl: Decl) -> Result<Items<Decl>, Failure>
    ensures value { IfOk result (λ l. l ≡ decl ∷ []) }
    ensures memory { IfErr result (λ e. e ≡ Memory) }
{
    let mut list = Items::new(reader.alloc);
    list.push(decl)?;
    Ok(list)
}

/// A parameter's name, which function pointers and prototypes needn't give.
fn parameter_name(
    reader: Reader,
    tokens: &[Token],
    is_named: bool,
) -> Result<(Option<&Token>, &[Token]), Refused>
    ensures reads { Tells (λ x. option_copied x.0) (λ x. x.1.now) result (first reader.halves (a_parameter_name is_named) tokens.now) }
    ensures shorter { IfOk result (λ x. length x.1.now ≤ length tokens.now) }
{
    match past(reader.halves, Sort::Name, tokens) {
        Some((name, rest)) => Ok((Some(name), rest)),
        None => {
            if is_named {
                Err(Refused { left: tokens.len() })
            } else {
                Ok((None, tokens))
            }
        }
    }
}

/// A declarator with a name or without one.
fn perhaps_named(
    reader: Reader,
    base: &Specifier,
    count: u32,
    name: Option<&Token>,
    fun: Option<Items<Decl>>,
) -> Result<Decl, Failure>
    ensures value { IfOk result (λ d. d ≡ maybe_named base.now count (option_copied name.entry) fun) }
    ensures memory { IfErr result (λ e. e ≡ Memory) }
{
    match name {
        Some(name) => declared(reader, base, count, name, None, fun),
        None => unnamed(reader, base, count, fun),
    }
}

/// A parameter's declarator where no token of its own comes.
fn no_declarator<'t>(
    reader: Reader,
    tokens: &'t [Token],
    is_named: bool,
    base: &Specifier,
    count: u32,
) -> Result<(Decl, &'t [Token]), Failure>
    ensures reads { Gives (λ x. x.0) (λ x. x.1.now) result (nothing_at (may (not is_named) (unnamed_decl base.now count None)) tokens.now) }
    ensures shorter { IfOk result (λ x. length x.1.now ≤ length tokens.now) }
{
    if is_named {
        return Err(Failure::Fault(tokens.len()));
    }
    Ok((unnamed(reader, base, count, None)?, tokens))
}

/// What stands behind a parameter's base type.
#[cycle(parameters)]
fn parameter_declarator<'t>(
    reader: Reader,
    tokens: &'t [Token],
    is_named: bool,
    base: &Specifier,
    depth: u32,
) -> Result<(Decl, &'t [Token]), Failure>
    requires inside { depth ≤ 512 }
    ensures reads { Gives (λ x. x.0) (λ x. x.1.now) result (first reader.halves (parameter_declarators is_named depth base.now 0) tokens.now) }
    ensures shorter { IfOk result (λ x. length x.1.now ≤ length tokens.now) }
{
    let (count, rest) = stars(reader, tokens);
    parameter_behind_stars(reader, rest, is_named, base, count, depth)
}

/// What stands behind a parameter's stars.
#[cycle(parameters)]
fn parameter_behind_stars<'t>(
    reader: Reader,
    tokens: &'t [Token],
    is_named: bool,
    base: &Specifier,
    count: u32,
    depth: u32,
) -> Result<(Decl, &'t [Token]), Failure>
    requires inside { depth ≤ 512 }
    ensures reads { Gives (λ x. x.0) (λ x. x.1.now) result (read_from (may (not is_named) (unnamed_decl base.now count None)) reader.halves (after_stars (parameter_declarator_rule is_named depth base.now count)) tokens.now) }
    ensures shorter { IfOk result (λ x. length x.1.now ≤ length tokens.now) }
{
    let Some((sort, token, rest)) = split(reader.halves, tokens) else {
        return no_declarator(reader, tokens, is_named, base, count);
    };
    match sort {
        Sort::Name => Ok((declared(reader, base, count, token, None, None)?, rest)),
        Sort::Open => {
            if may_open(depth + 1) {
                parameter_pointer(reader, rest, token, is_named, base, count, depth)
            } else {
                no_declarator(reader, tokens, is_named, base, count)
            }
        }
        _ => no_declarator(reader, tokens, is_named, base, count),
    }
}

/// What stands behind the `(` of a parameter that is a function pointer.
#[cycle(parameters)]
fn parameter_pointer<'t>(
    reader: Reader,
    tokens: &'t [Token],
    bracket: &Token,
    is_named: bool,
    base: &Specifier,
    count: u32,
    depth: u32,
) -> Result<(Decl, &'t [Token]), Failure>
    requires inside { depth < 512 }
    ensures reads { Behind (parameter_declarator_rule is_named depth base.now count sort_is.Open bracket.now) (λ r. Gives (λ x. x.0) (λ x. x.1.now) result (front reader.halves r tokens.now)) }
    ensures shorter { IfOk result (λ x. length x.1.now ≤ length tokens.now) }
{
    let (_, rest) = take(reader.halves, Sort::Star, tokens)?;
    let (name, rest) = parameter_name(reader, rest, is_named)?;
    let (list, rest) = pointed_parameters(reader, rest, depth)?;
    Ok((perhaps_named(reader, base, count, name, Some(list))?, rest))
}

/// The type of a first `void`.
fn void_at(place: Place) -> Specifier
    ensures { result ≡ void_base place }
{
    Specifier {
        base: Base::Void,
        place,
    }
}

/// A parameter of type `void` without a name.
fn unnamed_void(reader: Reader, place: Place) -> Result<Decl, Failure>
    ensures value { IfOk result (λ d. d ≡ unnamed_decl (void_base place) 0 None) }
    ensures memory { IfErr result (λ e. e ≡ Memory) }
{
    unnamed(reader, &void_at(place), 0, None)
}

/// A list of one parameter of type `void` without a name.
fn lone_void(reader: Reader, place: Place) -> Result<Items<Decl>, Failure>
    ensures value { IfOk result (λ l. l ≡ unnamed_decl (void_base place) 0 None ∷ []) }
    ensures memory { IfErr result (λ e. e ≡ Memory) }
{
    one_of(reader, unnamed_void(reader, place)?)
}

/// A list of one parameter of type `void` with an annotation alone.
fn lone_annotated(reader: Reader, place: Place, ann: AnnText) -> Result<Items<Decl>, Failure>
    ensures value { IfOk result (λ l. l ≡ with_ann (unnamed_decl (void_base place) 0 None) (Some ann) ∷ []) }
    ensures memory { IfErr result (λ e. e ≡ Memory) }
{
    match unnamed_void(reader, place) {
        Ok(x) => one_of(reader, with_annotation(x, Some(ann))),
        Err(e) => {
            drop(ann);
            Err(e)
        }
    }
}

/// What stands behind a first `void`, which alone is no parameter.
#[cycle(parameters)]
fn after_void(
    reader: Reader,
    tokens: &[Token],
    place: Place,
    are_named: bool,
    depth: u32,
) -> Result<(Items<Decl>, &[Token]), Failure>
    requires inside { depth ≤ 512 }
    ensures reads { Gives (λ x. x.0) (λ x. x.1.now) result (first reader.halves (behind_void are_named depth place) tokens.now) }
    ensures shorter { IfOk result (λ x. length x.1.now ≤ length tokens.now) }
{
    let Some((sort, token, rest)) = split(reader.halves, tokens) else {
        return Ok((Items::new(reader.alloc), tokens));
    };
    match sort {
        Sort::Comma => {
            if are_named {
                Ok((Items::new(reader.alloc), tokens))
            } else {
                void_first(reader, rest, token, place, are_named, depth)
            }
        }
        Sort::Star => void_declared(reader, tokens, place, are_named, depth),
        Sort::Name => void_declared(reader, tokens, place, are_named, depth),
        Sort::Open => {
            if may_open(depth + 1) {
                void_declared(reader, tokens, place, are_named, depth)
            } else {
                Ok((Items::new(reader.alloc), tokens))
            }
        }
        _ => {
            if are_named {
                Ok((Items::new(reader.alloc), tokens))
            } else {
                void_annotated(reader, tokens, place, are_named, depth)
            }
        }
    }
}

/// What stands behind the comma behind a first `void`.
#[cycle(parameters)]
fn void_first<'t>(
    reader: Reader,
    tokens: &'t [Token],
    comma: &Token,
    place: Place,
    are_named: bool,
    depth: u32,
) -> Result<(Items<Decl>, &'t [Token]), Failure>
    requires inside { depth ≤ 512 }
    ensures reads { Behind (after_void_rule are_named depth place sort_is.Comma comma.now) (λ r. Gives (λ x. x.0) (λ x. x.1.now) result (front reader.halves r tokens.now)) }
    ensures shorter { IfOk result (λ x. length x.1.now ≤ length tokens.now) }
{
    let mut list = lone_void(reader, place)?;
    let (x, rest) = parameter(reader, tokens, are_named, depth)?;
    list.push(x)?;
    more_parameters(reader, rest, list, are_named, depth)
}

/// A first parameter of type `void` with a declarator, and the further ones.
#[cycle(parameters)]
fn void_declared(
    reader: Reader,
    tokens: &[Token],
    place: Place,
    are_named: bool,
    depth: u32,
) -> Result<(Items<Decl>, &[Token]), Failure>
    requires inside { depth ≤ 512 }
    ensures reads { Gives (λ x. x.0) (λ x. x.1.now) result (front reader.halves (declared_void are_named depth place) tokens.now) }
    ensures shorter { IfOk result (λ x. length x.1.now ≤ length tokens.now) }
{
    let (x, rest) = parameter_declarator(reader, tokens, are_named, &void_at(place), depth)?;
    let (x, rest) = annotated(reader, rest, x, depth)?;
    more_parameters(reader, rest, one_of(reader, x)?, are_named, depth)
}

/// A first parameter of type `void` with an annotation alone, and the further ones.
#[cycle(parameters)]
fn void_annotated(
    reader: Reader,
    tokens: &[Token],
    place: Place,
    are_named: bool,
    depth: u32,
) -> Result<(Items<Decl>, &[Token]), Failure>
    requires inside { depth ≤ 512 }
    ensures reads { Gives (λ x. x.0) (λ x. x.1.now) result (front reader.halves (annotated_void are_named depth place) tokens.now) }
    ensures shorter { IfOk result (λ x. length x.1.now ≤ length tokens.now) }
{
    let (ann, rest) = annotation_option(reader, tokens, depth)?;
    let Some(ann) = ann else {
        return Ok((Items::new(reader.alloc), rest));
    };
    let list = lone_annotated(reader, place, ann)?;
    more_parameters(reader, rest, list, are_named, depth)
}
