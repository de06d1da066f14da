// Declarations of locals.

ghost use Rattle.std.specs.Prelude.{◌≡◌, ◌<◌, ◌≤◌, ◌+◌, length, IfOk, IfErr, true, [], ◌∷◌};
ghost use Rattle.mdr_grammar.specs.Expressions.{is_level_free as may_stand, text_form as form_of_text};
ghost use Rattle.mdr_grammar.specs.Forms.Part.{right_side as a_right_side, right as a_right, local as a_local};
ghost use Rattle.mdr_grammar.specs.Forms.Separated.{locals as some_locals};
ghost use Rattle.mdr_grammar.specs.Forms.Nonterminal.{part, option, commas};
ghost use Rattle.mdr_grammar.specs.Front.{first, front};
ghost use Rattle.mdr_grammar.specs.Statements.{locals_rule, locals_of, locals_in as in_locals, local_in, right_there};
ghost use Rattle.mdr_reader.specs.Gives.{Gives, read_by};
ghost use Rattle.mdr_reader.specs.declared.failure.Failure.TheVariants.{Memory};

use crate::nodes::local_node;
use crate::simple::form;
use mdr_core::{Boxed, Items, Place};
use mdr_declaration::declarators::{declarator, specifiers};
use mdr_expression::forms::text_part;
use mdr_grammar::parts::Specifier;
use mdr_grammar::sort::Sort;
use mdr_reader::failure::Failure;
use mdr_reader::look::{Reader, is_level_free, past, split};
use mdr_syntax::{Form, Node, Token};

/// The form of a text.
fn text_form(reader: Reader, token: &Token) -> Result<Boxed<Form>, Failure>
    ensures value { IfOk result (λ f. f ≡ form_of_text token.now) }
    ensures memory { IfErr result (λ e. e ≡ Memory) }
{
    Ok(text_part(reader, token)?.form)
}

/// What a local is set to: an expression or a text.
fn right_side(
    reader: Reader,
    tokens: &[Token],
    level: u32,
    depth: u32,
) -> Result<(Boxed<Form>, &[Token]), Failure>
    requires low { level ≤ 256 }
    requires inside { depth ≤ 512 }
    ensures reads { Gives (λ x. x.0) (λ x. x.1.now) result (first reader.halves (part (a_right_side level depth)) tokens.now) }
    ensures shorter { IfOk result (λ x. length x.1.now < length tokens.now) }
{
    match past(reader.halves, Sort::Text, tokens) {
        Some((token, rest)) => Ok((text_form(reader, token)?, rest)),
        None => form(reader, tokens, level, depth),
    }
}

/// What a local is set to, behind `=`, if it is set.
fn right_option(
    reader: Reader,
    tokens: &[Token],
    level: u32,
    depth: u32,
) -> Result<(Option<Boxed<Form>>, &[Token]), Failure>
    requires low { level ≤ 256 }
    requires inside { depth ≤ 512 }
    ensures reads { Gives (λ x. x.0) (λ x. x.1.now) result (first reader.halves (option (may_stand (level + 1)) (a_right (level + 1) depth)) tokens.now) }
    ensures shorter { IfOk result (λ x. length x.1.now ≤ length tokens.now) }
{
    if is_level_free(level + 1) {
        right_or_none(reader, tokens, level + 1, depth)
    } else {
        Ok((None, tokens))
    }
}

/// A right side behind `=`, if there is one.
fn right_or_none(
    reader: Reader,
    tokens: &[Token],
    level: u32,
    depth: u32,
) -> Result<(Option<Boxed<Form>>, &[Token]), Failure>
    requires low { level ≤ 256 }
    requires inside { depth ≤ 512 }
    ensures reads { Gives (λ x. x.0) (λ x. x.1.now) result (first reader.halves (option true (a_right level depth)) tokens.now) }
    ensures shorter { IfOk result (λ x. length x.1.now ≤ length tokens.now) }
{
    match past(reader.halves, Sort::Equals, tokens) {
        Some((_, rest)) => some_right(reader, rest, level, depth),
        None => Ok((None, tokens)),
    }
}

/// A right side that has to be there.
fn some_right(
    reader: Reader,
    tokens: &[Token],
    level: u32,
    depth: u32,
) -> Result<(Option<Boxed<Form>>, &[Token]), Failure>
    requires low { level ≤ 256 }
    requires inside { depth ≤ 512 }
    ensures reads { Gives (λ x. x.0) (λ x. x.1.now) result (front reader.halves (right_there level depth) tokens.now) }
    ensures shorter { IfOk result (λ x. length x.1.now < length tokens.now) }
{
    let (right, rest) = right_side(reader, tokens, level, depth)?;
    Ok((Some(right), rest))
}

/// A local behind its type.
fn local<'t>(
    reader: Reader,
    tokens: &'t [Token],
    place: Place,
    base: &Specifier,
    level: u32,
    depth: u32,
) -> Result<(Node, &'t [Token]), Failure>
    requires low { level ≤ 256 }
    requires inside { depth ≤ 512 }
    ensures reads { Gives (λ x. x.0) (λ x. x.1.now) result (first reader.halves (part (a_local place base.now level depth)) tokens.now) }
    ensures shorter { IfOk result (λ x. length x.1.now < length tokens.now) }
{
    declared_local(reader, tokens, place, base, level, depth)
}

/// A declarator and what its local is set to.
fn declared_local<'t>(
    reader: Reader,
    tokens: &'t [Token],
    place: Place,
    base: &Specifier,
    level: u32,
    depth: u32,
) -> Result<(Node, &'t [Token]), Failure>
    requires low { level ≤ 256 }
    requires inside { depth ≤ 512 }
    ensures reads { Gives (λ x. x.0) (λ x. x.1.now) result (front reader.halves (local_in place base.now level depth) tokens.now) }
    ensures shorter { IfOk result (λ x. length x.1.now < length tokens.now) }
{
    let (decl, rest) = declarator(reader, tokens, base, depth)?;
    match right_option(reader, rest, level, depth) {
        Ok((right, rest)) => Ok((local_node(place, decl, right), rest)),
        Err(e) => {
            drop(decl);
            Err(e)
        }
    }
}

/// A list of one statement.
pub fn one_of(reader: Reader, node: Node) -> Result<Items<Node>, Failure>
    ensures value { IfOk result (λ l. l ≡ node ∷ []) }
    ensures memory { IfErr result (λ e. e ≡ Memory) }
{
    let mut list = Items::new(reader.alloc);
    list.push(node)?;
    Ok(list)
}

/// The further locals of a declaration.
fn more_locals<'t>(
    reader: Reader,
    tokens: &'t [Token],
    list: Items<Node>,
    place: Place,
    base: &Specifier,
    level: u32,
    depth: u32,
) -> Result<(Items<Node>, &'t [Token]), Failure>
    requires low { level ≤ 256 }
    requires inside { depth ≤ 512 }
    ensures reads { Gives (λ x. x.0) (λ x. x.1.now) result (first reader.halves (commas (some_locals place base.now level depth) list) tokens.now) }
    ensures shorter { IfOk result (λ x. length x.1.now ≤ length tokens.now) }
{
    let mut all = list;
    let mut rest = tokens;
    'more: loop {
        match past(reader.halves, Sort::Comma, rest) {
            Some((_, after)) => {
                let (x, behind) = local(reader, after, place, base, level, depth)?;
                all.push(x)?;
                rest = behind;
            }
            None => return Ok((all, rest)),
        }
    }
}

/// The locals of a declaration behind its type.
fn locals_behind<'t>(
    reader: Reader,
    tokens: &'t [Token],
    place: Place,
    base: &Specifier,
    level: u32,
    depth: u32,
) -> Result<(Items<Node>, &'t [Token]), Failure>
    requires low { level ≤ 256 }
    requires inside { depth ≤ 512 }
    ensures reads { Gives (λ x. x.0) (λ x. x.1.now) result (front reader.halves (locals_of place base.now level depth) tokens.now) }
    ensures shorter { IfOk result (λ x. length x.1.now ≤ length tokens.now) }
{
    let (x, rest) = local(reader, tokens, place, base, level, depth)?;
    more_locals(reader, rest, one_of(reader, x)?, place, base, level, depth)
}

/// A declaration whose first token has a place.
fn locals_at(
    reader: Reader,
    tokens: &[Token],
    place: Place,
    level: u32,
    depth: u32,
) -> Result<(Items<Node>, &[Token]), Failure>
    requires low { level ≤ 256 }
    requires inside { depth ≤ 512 }
    ensures reads { Gives (λ x. x.0) (λ x. x.1.now) result (front reader.halves (in_locals place level depth) tokens.now) }
    ensures shorter { IfOk result (λ x. length x.1.now < length tokens.now) }
{
    let (base, rest) = specifiers(reader, tokens)?;
    locals_behind(reader, rest, place, &base, level, depth)
}

/// A declaration of locals without its semicolon.
pub fn locals(
    reader: Reader,
    tokens: &[Token],
    level: u32,
    depth: u32,
) -> Result<(Items<Node>, &[Token]), Failure>
    requires low { level ≤ 256 }
    requires inside { depth ≤ 512 }
    ensures reads { Gives (λ x. x.0) (λ x. x.1.now) result (read_by reader.halves (locals_rule level depth) tokens.now) }
    ensures shorter { IfOk result (λ x. length x.1.now < length tokens.now) }
{
    let Some((_, token, _)) = split(reader.halves, tokens) else {
        return Err(Failure::Fault(tokens.len()));
    };
    locals_at(reader, tokens, token.place, level, depth)
}
