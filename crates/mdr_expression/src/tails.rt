// What may stand behind an operand.

ghost use Rattle.std.specs.Prelude.{◌≡◌, ◌<◌, ◌≤◌, ◌+◌, suc, length, IfSome, IsTrue, ℕ, ◌&&◌};
ghost use Rattle.mdr_syntax.specs.declared.token.Token.{Token as token_value};
ghost use Rattle.mdr_core.specs.declared.place.Place.{Place as place};
ghost use Rattle.mdr_grammar.specs.Front.{front};
ghost use Rattle.mdr_grammar.specs.Sorts.{is_level as is_a_level};
ghost use Rattle.mdr_grammar.specs.Expressions.{is_level_free as is_free, may_open as may_be_open, precedence_of as precedence_in, base_rule};
ghost use Rattle.mdr_expression.specs.Tails.{begins, behind_parenthesis, cast_or_group, is_before, tail_at, tail_fits, Tailed, Operated, Further};

use mdr_grammar::sort::Sort;
use mdr_reader::look::{is_level_free, may_open, past, split};
use mdr_syntax::Token;

/// A postfix operator, told by its first token.
#[derive(Clone, Copy)]
pub enum Tail {
    Subscript,
    /// A member; true for `->`.
    Member(bool),
    Call,
    Step,
}

/// Whether a form at a level, with so many levels below its own, may become the first part of a larger form.
pub fn may_sink(level: u32, height: u32) -> bool
    requires low { (level ≤ 256) × (height ≤ 256) }
    ensures { result ≡ is_free (level + suc height) }
{
    level + (height + 1) <= 256
}

/// The postfix operator that a sort of token begins.
fn tail_of(sort: Sort) -> Option<Tail>
    ensures { result ≡ tail_at sort }
{
    match sort {
        Sort::OpenBracket => Some(Tail::Subscript),
        Sort::Dot => Some(Tail::Member(false)),
        Sort::Arrow => Some(Tail::Member(true)),
        Sort::Open => Some(Tail::Call),
        Sort::Step => Some(Tail::Step),
        _ => None,
    }
}

/// Whether so many parentheses are few enough for the operator.
fn fits(tail: Tail, depth: u32) -> bool
    requires inside { depth ≤ 512 }
    ensures { result ≡ tail_fits tail depth }
{
    match tail {
        Tail::Call => may_open(depth + 1),
        Tail::Subscript | Tail::Member(_) | Tail::Step => true,
    }
}

/// Whether the bounds allow the operator behind a form at a level with so many levels below its own.
fn is_allowed(tail: Tail, level: u32, depth: u32, height: u32) -> bool
    requires low { (level ≤ 256) × (height ≤ 256) }
    requires inside { depth ≤ 512 }
    ensures { result ≡ (is_free (level + suc height) && tail_fits tail depth) }
{
    may_sink(level, height) && fits(tail, depth)
}

/// The postfix operator that a form with so many levels below its own goes on with, its first token and those behind it.
pub fn next_tail(
    halves: bool,
    tokens: &[Token],
    level: u32,
    depth: u32,
    height: u32,
) -> Option<(Tail, &Token, &[Token])>
    requires low { (level ≤ 256) × (height ≤ 256) }
    requires inside { depth ≤ 512 }
    ensures found { Tailed halves level depth height (λ x. x.0) (λ x. x.1.now) (λ x. x.2.now) result tokens.now }
    ensures shorter { IfSome result (λ x. length x.2.now < length tokens.now) }
    ensures sinks { IfSome result (λ x. level + suc height ≤ 256) }
    ensures fits { IfSome result (λ x. IsTrue (tail_fits x.0 depth)) }
{
    let Some((sort, token, rest)) = split(halves, tokens) else {
        return None;
    };
    let Some(tail) = tail_of(sort) else {
        return None;
    };
    if is_allowed(tail, level, depth, height) {
        Some((tail, token, rest))
    } else {
        None
    }
}

/// Whether the bounds allow a call at a level inside so many parentheses.
pub fn is_call_free(level: u32, depth: u32) -> bool
    requires low { (level ≤ 256) × (depth ≤ 512) }
    ensures { result ≡ (is_free (level + 1) && may_be_open (depth + 1)) }
{
    is_level_free(level + 1) && may_open(depth + 1)
}

/// How tightly an operator binds.
fn precedence_of(sort: Sort) -> u32
    ensures { result ≡ precedence_in sort }
{
    match sort {
        Sort::Question => 1,
        Sort::OrElse => 2,
        Sort::AndThen => 3,
        Sort::Or => 4,
        Sort::Xor => 5,
        Sort::And => 6,
        Sort::Equality => 7,
        Sort::Relation => 8,
        Sort::Shift => 9,
        Sort::Plus | Sort::Minus => 10,
        Sort::Star | Sort::Slash => 11,
        Sort::OpenBracket | Sort::Dot | Sort::Arrow | Sort::Open | Sort::Step => 12,
        _ => 0,
    }
}

/// The precedence of the first token, if it is an operator that binds more tightly than one precedence and at most
/// as tightly as another, the token and those behind it.
pub fn next_operator(
    halves: bool,
    tokens: &[Token],
    above: u32,
    most: u32,
) -> Option<(u32, &Token, &[Token])>
    requires low { (above ≤ most) × (most ≤ 11) }
    ensures found { Operated halves above most (λ x. x.0) (λ x. x.1.now) (λ x. x.2.now) result tokens.now }
    ensures shorter { IfSome result (λ x. length x.2.now < length tokens.now) }
{
    let Some((sort, token, rest)) = split(halves, tokens) else {
        return None;
    };
    let precedence = precedence_of(sort);
    if above < precedence && precedence <= most {
        Some((precedence, token, rest))
    } else {
        None
    }
}

/// Whether a sort of token begins a type.
pub fn begins_type(sort: Sort) -> bool
    ensures { (t : token_value) → begins (base_rule sort t) ≡ result }
{
    match sort {
        Sort::Integer(_)
        | Sort::Char
        | Sort::Short
        | Sort::Int
        | Sort::Long
        | Sort::Signed
        | Sort::Unsigned
        | Sort::Void
        | Sort::Lock
        | Sort::Struct => true,
        _ => false,
    }
}

/// Whether an operator may stand before its operand, but for `++` and `--`.
pub fn is_prefix(sort: Sort) -> bool
    ensures { result ≡ is_before sort }
{
    match sort {
        Sort::Minus | Sort::Plus | Sort::And | Sort::Star | Sort::Not => true,
        _ => false,
    }
}

/// Whether a cast begins behind a `(`, where casts may stand.
pub fn begins_cast(halves: bool, casts: bool, tokens: &[Token]) -> bool
    ensures { (l d : ℕ) (first : place) → front halves (behind_parenthesis casts l d first) tokens.now ≡ cast_or_group result halves l d first tokens.now }
{
    match split(halves, tokens) {
        Some((sort, _, _)) => casts && begins_type(sort),
        None => false,
    }
}

/// What stands behind the comma before a further argument.
pub fn past_comma(halves: bool, tokens: &[Token]) -> Option<&[Token]>
    ensures found { Further halves (λ x. x.now) result tokens.now }
    ensures shorter { IfSome result (λ x. length x.now < length tokens.now) }
{
    match past(halves, Sort::Comma, tokens) {
        Some((_, rest)) => Some(rest),
        None => None,
    }
}

/// Whether a name is a `KERN_` word.
#[tactic(auto, unfolding(mdr_grammar::specs::Sorts::is_level))]
pub fn is_level(text: &[u8]) -> bool
    ensures { result ≡ is_a_level text.now }
{
    "KERN_ERR".as_bytes() == text
        || "KERN_WARNING".as_bytes() == text
        || "KERN_NOTICE".as_bytes() == text
        || "KERN_INFO".as_bytes() == text
        || "KERN_DEBUG".as_bytes() == text
}
