// Structs, enumerations and `#define` lines as items (C99 6.7.2).

ghost use Rattle.std.specs.Prelude.{◌≡◌, ◌<◌, ◌≤◌, length, IfOk, IfErr, IfSome, true, [], ◌∷◌};
ghost use Rattle.mdr_syntax.specs.declared.tree.ItemWhat.TheVariants as item_is;
ghost use Rattle.mdr_grammar.specs.Expressions.{text_of as text_in, number_in as number_of, kind_in as kind_of};
ghost use Rattle.mdr_grammar.specs.Forms.Part.{field_group as a_field_group};
ghost use Rattle.mdr_grammar.specs.Forms.Nonterminal.{option};
ghost use Rattle.mdr_grammar.specs.Front.{and_read, first, front};
ghost use Rattle.mdr_grammar.specs.Statements.{item_at, item_rule, is_negative as has_minus};
ghost use Rattle.mdr_parse.specs.Outside.{field_lists as in_field_lists, struct_end};
ghost use Rattle.mdr_reader.specs.Gives.{Gives, Behind};
ghost use Rattle.mdr_reader.specs.declared.failure.Failure.TheVariants.{Memory};
ghost use Rattle.mdr_grammar.specs.declared.sort.Sort.TheVariants as sort_is;

use mdr_core::{Items, Place};
use mdr_declaration::fields::{enumerator, field_group, more_enumerators};
use mdr_declaration::globals::one_of;
use mdr_grammar::sort::Sort;
use mdr_reader::failure::Failure;
use mdr_reader::lists::followed;
use mdr_reader::look::{Reader, copied, kind_in, number_in, take, text_of};
use mdr_reader::openings::perhaps;
use mdr_syntax::{Decl, Enumerator, Item, ItemWhat, Lexeme, Token};

/// Whether a `-` stands before a `#define`'s number.
fn is_negative(what: &Lexeme) -> bool
    ensures { result ≡ has_minus what.now }
{
    match what {
        Lexeme::Define(_, negative, _, _) => *negative,
        Lexeme::Word(_) | Lexeme::Number(_, _) | Lexeme::Text(_) | Lexeme::Punct(_) | Lexeme::End =>
            false,
    }
}

/// A `#define` line as the list of one item.
pub fn define(reader: Reader, token: &Token) -> Result<Items<Item>, Failure>
    ensures value { IfOk result (λ l. l ≡ item_at token.now.place (item_is.Define (text_in token.now.what) (has_minus token.now.what) (number_of token.now.what) (kind_of token.now.what))) }
    ensures memory { IfErr result (λ e. e ≡ Memory) }
{
    let name = copied(reader.alloc, text_of(&token.what))?;
    let what = ItemWhat::Define(
        name,
        is_negative(&token.what),
        number_in(&token.what),
        kind_in(&token.what),
    );
    one_of(
        reader,
        Item {
            place: token.place,
            what,
        },
    )
}

/// A list of one enumeration constant.
fn one_enumerator(reader: Reader, x: Enumerator) -> Result<Items<Enumerator>, Failure>
    ensures value { IfOk result (λ l. l ≡ x ∷ []) }
    ensures memory { IfErr result (λ e. e ≡ Memory) }
{
    let mut list = Items::new(reader.alloc);
    list.push(x)?;
    Ok(list)
}

/// Enumeration constants as the list of one item.
fn enumeration(
    reader: Reader,
    place: Place,
    list: Items<Enumerator>,
) -> Result<Items<Item>, Failure>
    ensures value { IfOk result (λ l. l ≡ item_at place (item_is.Enum list)) }
    ensures memory { IfErr result (λ e. e ≡ Memory) }
{
    one_of(
        reader,
        Item {
            place,
            what: ItemWhat::Enum(list),
        },
    )
}

/// What stands behind `enum`.
pub fn enum_behind<'t>(
    reader: Reader,
    tokens: &'t [Token],
    word: &Token,
) -> Result<(Items<Item>, &'t [Token]), Failure>
    ensures reads { Behind (item_rule sort_is.Enum word.now) (λ r. Gives (λ x. x.0) (λ x. x.1.now) result (front reader.halves r tokens.now)) }
    ensures shorter { IfOk result (λ x. length x.1.now ≤ length tokens.now) }
{
    let (_, rest) = take(reader.halves, Sort::OpenBrace, tokens)?;
    let (x, rest) = enumerator(reader, rest)?;
    let (list, rest) = more_enumerators(reader, rest, one_enumerator(reader, x)?)?;
    let (_, rest) = take(reader.halves, Sort::CloseBrace, rest)?;
    let (_, rest) = take(reader.halves, Sort::Semicolon, rest)?;
    Ok((enumeration(reader, word.place, list)?, rest))
}

/// The fields of a declaration, if there is one.
fn group_option(
    reader: Reader,
    tokens: &[Token],
) -> Result<(Option<Items<Decl>>, &[Token]), Failure>
    ensures reads { Gives (λ x. x.0) (λ x. x.1.now) result (first reader.halves (option true a_field_group) tokens.now) }
    ensures shorter { IfOk result (λ x. length x.1.now ≤ length tokens.now) }
    ensures taken { IfOk result (λ x. IfSome x.0 (λ v. length x.1.now < length tokens.now)) }
{
    perhaps(field_group(reader, tokens), tokens)
}

/// The fields of a struct.
fn field_lists(reader: Reader, tokens: &[Token]) -> Result<(Items<Decl>, &[Token]), Failure>
    ensures reads { Gives (λ x. x.0) (λ x. x.1.now) result (front reader.halves in_field_lists tokens.now) }
    ensures shorter { IfOk result (λ x. length x.1.now ≤ length tokens.now) }
{
    let mut all = Items::new(reader.alloc);
    let mut rest = tokens;
    'more: loop {
        let (found, behind) = group_option(reader, rest)?;
        let Some(list) = found else {
            return Ok((all, behind));
        };
        all = followed(all, list)?;
        rest = behind;
    }
}

/// A struct as the list of one item.
fn structure(
    reader: Reader,
    place: Place,
    name: &Token,
    list: Items<Decl>,
) -> Result<Items<Item>, Failure>
    ensures value { IfOk result (λ l. l ≡ item_at place (item_is.Struct name.now.place (text_in name.now.what) list)) }
    ensures memory { IfErr result (λ e. e ≡ Memory) }
{
    let name_text = copied(reader.alloc, text_of(&name.what))?;
    one_of(
        reader,
        Item {
            place,
            what: ItemWhat::Struct(name.place, name_text, list),
        },
    )
}

/// What stands behind the `{` of a struct.
pub fn fields<'t>(
    reader: Reader,
    tokens: &'t [Token],
    place: Place,
    name: &Token,
) -> Result<(Items<Item>, &'t [Token]), Failure>
    ensures reads { Gives (λ x. x.0) (λ x. x.1.now) result (and_read (front reader.halves in_field_lists tokens.now) (λ fs us. front reader.halves (struct_end place name.now fs) us)) }
    ensures shorter { IfOk result (λ x. length x.1.now ≤ length tokens.now) }
{
    let (list, rest) = field_lists(reader, tokens)?;
    let (_, rest) = take(reader.halves, Sort::CloseBrace, rest)?;
    let (_, rest) = take(reader.halves, Sort::Semicolon, rest)?;
    Ok((structure(reader, place, name, list)?, rest))
}
