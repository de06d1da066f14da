// The types that declarations begin with.

ghost use Rattle.std.specs.Prelude.{◌≡◌, ◌<◌, ◌≤◌, length, IfOk, IfErr, Ok, true, false};
ghost use Rattle.mdr_syntax.specs.declared.token.Token.{Token as token_value};
ghost use Rattle.mdr_grammar.specs.Forms.Part.{base as a_base, specifiers as some_specifiers};
ghost use Rattle.mdr_grammar.specs.Forms.Nonterminal.{part, unsigned_word as an_unsigned_word};
ghost use Rattle.mdr_grammar.specs.Front.{first, front};
ghost use Rattle.mdr_grammar.specs.Expressions.{base_rule, struct_of};
ghost use Rattle.mdr_reader.specs.Gives.{Gives, Tells, Behind};
ghost use Rattle.mdr_reader.specs.declared.failure.Failure.TheVariants.{Memory};
ghost use Rattle.mdr_grammar.specs.declared.sort.Sort.TheVariants as sort_is;

use crate::failure::{Failure, Refused};
use crate::look::{Reader, copied, past, split, take, text_of};
use mdr_core::{Kind, Place};
use mdr_grammar::parts::Specifier;
use mdr_grammar::sort::Sort;
use mdr_syntax::{Base, Token};

/// What stands behind `unsigned`, if anything does.
fn unsigned_word(reader: Reader, tokens: &[Token]) -> (Base, &[Token])
    ensures reads { first reader.halves an_unsigned_word tokens.now ≡ Ok (result.0, result.1.now) }
    ensures shorter { length result.1.now ≤ length tokens.now }
{
    let Some((sort, _, rest)) = split(reader.halves, tokens) else {
        return (Base::Int(Kind::U32), tokens);
    };
    match sort {
        Sort::Char => (Base::Int(Kind::U8), rest),
        Sort::Short => (Base::Int(Kind::U16), rest),
        Sort::Int => (Base::Int(Kind::U32), rest),
        Sort::Long => (Base::Int(Kind::U64), rest),
        _ => (Base::Int(Kind::U32), tokens),
    }
}

/// What stands behind `signed`.
fn signed_behind<'t>(
    reader: Reader,
    token: &Token,
    tokens: &'t [Token],
) -> Result<(Specifier, &'t [Token]), Refused>
    ensures reads { Behind (base_rule sort_is.Signed token.now) (λ r. Tells (λ x. x.0) (λ x. x.1.now) result (front reader.halves r tokens.now)) }
    ensures shorter { IfOk result (λ x. length x.1.now ≤ length tokens.now) }
{
    let (_, rest) = take(reader.halves, Sort::Char, tokens)?;
    Ok((
        Specifier {
            base: Base::Int(Kind::S8),
            place: token.place,
        },
        rest,
    ))
}

/// What stands behind `unsigned`.
fn unsigned_behind<'t>(
    reader: Reader,
    token: &Token,
    tokens: &'t [Token],
) -> (Specifier, &'t [Token])
    ensures reads { Behind (base_rule sort_is.Unsigned token.now) (λ r. front reader.halves r tokens.now ≡ Ok (result.0, result.1.now)) }
    ensures shorter { length result.1.now ≤ length tokens.now }
{
    let (base, rest) = unsigned_word(reader, tokens);
    (
        Specifier {
            base,
            place: token.place,
        },
        rest,
    )
}

/// The struct of a name.
pub fn struct_named(reader: Reader, name: &Token) -> Result<Base, Failure>
    ensures value { IfOk result (λ b. b ≡ struct_of name.now) }
    ensures memory { IfErr result (λ e. e ≡ Memory) }
{
    Ok(Base::Struct(name.place, copied(reader.alloc, text_of(&name.what))?))
}

/// What stands behind `struct`.
fn struct_behind<'t>(
    reader: Reader,
    token: &Token,
    tokens: &'t [Token],
) -> Result<(Specifier, &'t [Token]), Failure>
    ensures reads { Behind (base_rule sort_is.Struct token.now) (λ r. Gives (λ x. x.0) (λ x. x.1.now) result (front reader.halves r tokens.now)) }
    ensures shorter { IfOk result (λ x. length x.1.now ≤ length tokens.now) }
{
    let (name, rest) = take(reader.halves, Sort::Name, tokens)?;
    let base = struct_named(reader, name)?;
    Ok((
        Specifier {
            base,
            place: token.place,
        },
        rest,
    ))
}

/// A base type.
pub fn base(reader: Reader, tokens: &[Token]) -> Result<(Specifier, &[Token]), Failure>
    ensures reads { Gives (λ x. x.0) (λ x. x.1.now) result (first reader.halves (part a_base) tokens.now) }
    ensures shorter { IfOk result (λ x. length x.1.now < length tokens.now) }
{
    let Some((sort, token, rest)) = split(reader.halves, tokens) else {
        return Err(Failure::Fault(tokens.len()));
    };
    let place = token.place;
    match sort {
        Sort::Integer(kind) => Ok((
            Specifier {
                base: Base::Int(kind),
                place,
            },
            rest,
        )),
        Sort::Char => Ok((
            Specifier {
                base: Base::Int(Kind::S8),
                place,
            },
            rest,
        )),
        Sort::Short => Ok((
            Specifier {
                base: Base::Int(Kind::S16),
                place,
            },
            rest,
        )),
        Sort::Int => Ok((
            Specifier {
                base: Base::Int(Kind::S32),
                place,
            },
            rest,
        )),
        Sort::Long => Ok((
            Specifier {
                base: Base::Int(Kind::S64),
                place,
            },
            rest,
        )),
        Sort::Signed => Ok(signed_behind(reader, token, rest)?),
        Sort::Unsigned => Ok(unsigned_behind(reader, token, rest)),
        Sort::Void => Ok((
            Specifier {
                base: Base::Void,
                place,
            },
            rest,
        )),
        Sort::Lock => Ok((
            Specifier {
                base: Base::Lock,
                place,
            },
            rest,
        )),
        Sort::Struct => struct_behind(reader, token, rest),
        _ => Err(Failure::Fault(tokens.len())),
    }
}
