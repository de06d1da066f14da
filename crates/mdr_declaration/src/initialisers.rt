// Initialisers of globals (C99 6.7.8).

ghost use Rattle.std.specs.Prelude.{◌≡◌, ◌<◌, ◌≤◌, length, IfOk, IfErr, IfSome, Some, true, [], ◌∷◌};
ghost use Rattle.mdr_grammar.specs.Expressions.{may_nest as may_be_nested};
ghost use Rattle.mdr_grammar.specs.Forms.Part.{initial as an_initial, initialiser as an_initialiser, element as an_element};
ghost use Rattle.mdr_grammar.specs.Forms.Enclosed.{elements as some_elements};
ghost use Rattle.mdr_grammar.specs.Forms.Nonterminal.{part, option, commas_open};
ghost use Rattle.mdr_grammar.specs.Front.{first, front};
ghost use Rattle.mdr_grammar.specs.Declarations.{other_initialiser, element_rule, element_in, constant_in, initialiser_there};
ghost use Rattle.mdr_grammar.specs.Expressions.{text_of as text_in};
ghost use Rattle.mdr_syntax.specs.declared.tree.Init as init_is;
ghost use Rattle.mdr_reader.specs.Gives.{Gives, Behind};
ghost use Rattle.mdr_reader.specs.declared.failure.Failure.TheVariants.{Memory};
ghost use Rattle.mdr_grammar.specs.declared.sort.Sort.TheVariants as sort_is;

use mdr_core::Items;
use mdr_grammar::sort::Sort;
use mdr_reader::constants::constant;
use mdr_reader::failure::Failure;
use mdr_reader::look::{Reader, copied, past, split, take, text_of};
use mdr_reader::openings::perhaps;
use mdr_syntax::{Elem, FieldName, Init, Token};

/// Whether so many braces of an initialiser may be open.
fn may_nest(braces: u32) -> bool
    ensures { result ≡ may_be_nested braces }
{
    braces <= 256
}

/// The name behind an `&`.
fn address_behind<'t>(
    reader: Reader,
    tokens: &'t [Token],
    and: &Token,
) -> Result<(Init, &'t [Token]), Failure>
    ensures reads { Behind (other_initialiser 0 sort_is.And and.now) (λ r. Gives (λ x. x.0) (λ x. x.1.now) result (front reader.halves r tokens.now)) }
    ensures shorter { IfOk result (λ x. length x.1.now ≤ length tokens.now) }
{
    let (name, rest) = take(reader.halves, Sort::Name, tokens)?;
    Ok((
        Init::Address(name.place, copied(reader.alloc, text_of(&name.what))?),
        rest,
    ))
}

/// The text of a token.
fn text_init(reader: Reader, token: &Token) -> Result<Init, Failure>
    ensures value { IfOk result (λ i. i ≡ init_is.Text token.now.place (text_in token.now.what)) }
    ensures memory { IfErr result (λ e. e ≡ Memory) }
{
    Ok(Init::Text(token.place, copied(reader.alloc, text_of(&token.what))?))
}

/// A constant as an initialiser.
fn constant_init(reader: Reader, tokens: &[Token]) -> Result<(Init, &[Token]), Failure>
    ensures reads { Gives (λ x. x.0) (λ x. x.1.now) result (front reader.halves constant_in tokens.now) }
    ensures shorter { IfOk result (λ x. length x.1.now < length tokens.now) }
{
    let (c, rest) = constant(reader, tokens)?;
    Ok((Init::Const(c), rest))
}

/// An initialiser inside so many braces.
#[cycle(initialisers)]
pub fn initialiser(
    reader: Reader,
    tokens: &[Token],
    braces: u32,
) -> Result<(Init, &[Token]), Failure>
    requires inside { braces ≤ 256 }
    ensures reads { Gives (λ x. x.0) (λ x. x.1.now) result (first reader.halves (part (an_initialiser braces)) tokens.now) }
    ensures shorter { IfOk result (λ x. length x.1.now < length tokens.now) }
{
    let Some((sort, token, rest)) = split(reader.halves, tokens) else {
        return Err(Failure::Fault(tokens.len()));
    };
    match sort {
        Sort::Null => Ok((Init::Null(token.place), rest)),
        Sort::And => address_behind(reader, rest, token),
        Sort::Text => Ok((text_init(reader, token)?, rest)),
        Sort::OpenBrace => {
            if may_nest(braces + 1) {
                braces_behind(reader, rest, token, braces)
            } else {
                Err(Failure::Fault(tokens.len()))
            }
        }
        _ => constant_init(reader, tokens),
    }
}

/// The elements behind a `{`.
#[cycle(initialisers)]
fn braces_behind<'t>(
    reader: Reader,
    tokens: &'t [Token],
    brace: &Token,
    braces: u32,
) -> Result<(Init, &'t [Token]), Failure>
    requires inside { braces < 256 }
    ensures reads { Behind (other_initialiser braces sort_is.OpenBrace brace.now) (λ r. Gives (λ x. x.0) (λ x. x.1.now) result (front reader.halves r tokens.now)) }
    ensures shorter { IfOk result (λ x. length x.1.now ≤ length tokens.now) }
{
    let (x, rest) = element(reader, tokens, braces + 1)?;
    let (list, rest) = more_elements(reader, rest, one_of(reader, x)?, braces + 1)?;
    let (_, rest) = take(reader.halves, Sort::CloseBrace, rest)?;
    Ok((Init::List(brace.place, list), rest))
}

/// A list of one element.
fn one_of(reader: Reader, element: Elem) -> Result<Items<Elem>, Failure>
    ensures value { IfOk result (λ l. l ≡ element ∷ []) }
    ensures memory { IfErr result (λ e. e ≡ Memory) }
{
    let mut list = Items::new(reader.alloc);
    list.push(element)?;
    Ok(list)
}

/// The further elements of a list.
#[cycle(initialisers)]
fn more_elements(
    reader: Reader,
    tokens: &[Token],
    list: Items<Elem>,
    braces: u32,
) -> Result<(Items<Elem>, &[Token]), Failure>
    requires inside { braces ≤ 256 }
    ensures reads { Gives (λ x. x.0) (λ x. x.1.now) result (first reader.halves (commas_open (some_elements braces) list) tokens.now) }
    ensures shorter { IfOk result (λ x. length x.1.now ≤ length tokens.now) }
{
    let mut all = list;
    let mut rest = tokens;
    'more: loop {
        let Some((_, after)) = past(reader.halves, Sort::Comma, rest) else {
            return Ok((all, rest));
        };
        let (found, behind) = element_option(reader, after, braces)?;
        let Some(x) = found else {
            return Ok((all, behind));
        };
        all.push(x)?;
        rest = behind;
    }
}

/// An element of a list, if there is one.
#[cycle(initialisers)]
fn element_option(
    reader: Reader,
    tokens: &[Token],
    braces: u32,
) -> Result<(Option<Elem>, &[Token]), Failure>
    requires inside { braces ≤ 256 }
    ensures reads { Gives (λ x. x.0) (λ x. x.1.now) result (first reader.halves (option true (an_element braces)) tokens.now) }
    ensures shorter { IfOk result (λ x. length x.1.now ≤ length tokens.now) }
    ensures taken { IfOk result (λ x. IfSome x.0 (λ v. length x.1.now < length tokens.now)) }
{
    perhaps(element(reader, tokens, braces), tokens)
}

/// An element of a list.
#[cycle(initialisers)]
fn element(reader: Reader, tokens: &[Token], braces: u32) -> Result<(Elem, &[Token]), Failure>
    requires inside { braces ≤ 256 }
    ensures reads { Gives (λ x. x.0) (λ x. x.1.now) result (first reader.halves (part (an_element braces)) tokens.now) }
    ensures shorter { IfOk result (λ x. length x.1.now < length tokens.now) }
{
    match past(reader.halves, Sort::Dot, tokens) {
        Some((dot, rest)) => field_element(reader, rest, dot, braces),
        None => bare_element(reader, tokens, braces),
    }
}

/// An element for the field of a name.
fn element_of(reader: Reader, name: &Token, init: Init) -> Result<Elem, Failure>
    ensures value { IfOk result (λ e. e ≡ record { field = Some (record { place = name.now.place; name = text_in name.now.what }); init = init }) }
    ensures memory { IfErr result (λ e. e ≡ Memory) }
{
    match copied(reader.alloc, text_of(&name.what)) {
        Ok(text) => Ok(Elem {
            field: Some(FieldName {
                place: name.place,
                name: text,
            }),
            init,
        }),
        Err(error) => {
            drop(init);
            Err(error.into())
        }
    }
}

/// What stands behind a `.`.
#[cycle(initialisers)]
fn field_element<'t>(
    reader: Reader,
    tokens: &'t [Token],
    dot: &Token,
    braces: u32,
) -> Result<(Elem, &'t [Token]), Failure>
    requires inside { braces ≤ 256 }
    ensures reads { Behind (element_rule braces sort_is.Dot dot.now) (λ r. Gives (λ x. x.0) (λ x. x.1.now) result (front reader.halves r tokens.now)) }
    ensures shorter { IfOk result (λ x. length x.1.now ≤ length tokens.now) }
{
    let (name, rest) = take(reader.halves, Sort::Name, tokens)?;
    let (_, rest) = take(reader.halves, Sort::Equals, rest)?;
    let (init, rest) = initialiser(reader, rest, braces)?;
    Ok((element_of(reader, name, init)?, rest))
}

/// An initialiser as an element.
#[cycle(initialisers)]
fn bare_element(reader: Reader, tokens: &[Token], braces: u32) -> Result<(Elem, &[Token]), Failure>
    requires inside { braces ≤ 256 }
    ensures reads { Gives (λ x. x.0) (λ x. x.1.now) result (front reader.halves (element_in braces) tokens.now) }
    ensures shorter { IfOk result (λ x. length x.1.now < length tokens.now) }
{
    let (init, rest) = initialiser(reader, tokens, braces)?;
    Ok((Elem { field: None, init }, rest))
}

/// An initialiser behind `=`, if there is one.
pub fn initial_option(reader: Reader, tokens: &[Token]) -> Result<(Option<Init>, &[Token]), Failure>
    ensures reads { Gives (λ x. x.0) (λ x. x.1.now) result (first reader.halves (option true an_initial) tokens.now) }
    ensures shorter { IfOk result (λ x. length x.1.now ≤ length tokens.now) }
{
    match past(reader.halves, Sort::Equals, tokens) {
        Some((_, rest)) => some_initialiser(reader, rest),
        None => Ok((None, tokens)),
    }
}

/// An initialiser that has to be there.
fn some_initialiser(reader: Reader, tokens: &[Token]) -> Result<(Option<Init>, &[Token]), Failure>
    ensures reads { Gives (λ x. x.0) (λ x. x.1.now) result (front reader.halves initialiser_there tokens.now) }
    ensures shorter { IfOk result (λ x. length x.1.now < length tokens.now) }
{
    let (init, rest) = initialiser(reader, tokens, 0)?;
    Ok((Some(init), rest))
}
