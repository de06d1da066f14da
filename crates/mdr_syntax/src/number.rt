// Numbers (C99 6.4.4.1).

ghost use Rattle.std.specs.Prelude.{◌≡◌, ◌≤◌, ◌<◌, ◌+◌, ◌*◌, ◌^◌, length, IsNone, IfSome};
ghost use Rattle.std.specs.List.{prefix_len};
ghost use Rattle.mdr_syntax.specs.Numbers.{digit_of, is_digit_of, radix_of, is_u, is_l, suffix_of, kind_of, value_of, number_of};

use mdr_core::Kind;

/// What a number's suffix says.
#[derive(Clone, Copy)]
pub struct Suffix {
    pub unsigned: bool,
    pub long: bool,
}

/// What a digit is worth; 16 for what is no digit.
fn digit_of(b: u8) -> u8
    ensures { result ≡ digit_of b }
{
    match b {
        b'0'..=b'9' => b - b'0',
        b'a'..=b'f' => b - b'a' + 10,
        b'A'..=b'F' => b - b'A' + 10,
        _ => 16,
    }
}

/// How many bytes at the front are digits of this radix.
fn digits_len(radix: u8, bytes: &[u8]) -> usize
    ensures count { result ≡ prefix_len (is_digit_of radix) bytes.now }
    ensures within { result ≤ length bytes.now }
{
    bytes.iter().take_while(|b| digit_of(**b) < radix).count()
}

/// The radix that the first bytes of a number tell, and what its digits begin.
fn radix_of(bytes: &[u8]) -> (u8, &[u8])
    ensures value { (result.0, result.1.now) ≡ radix_of bytes.now }
    ensures radix { 0 < result.0 }
{
    match bytes {
        [b'0', b'x' | b'X', digits @ ..] => (16, digits),
        [b'0', ..] => (8, bytes),
        _ => (10, bytes),
    }
}

fn is_u(b: u8) -> bool
    ensures { result ≡ is_u b }
{
    b == b'u' || b == b'U'
}

fn is_l(b: u8) -> bool
    ensures { result ≡ is_l b }
{
    b == b'l' || b == b'L'
}

/// What a suffix says. The two letters of an `ll` are alike.
#[tactic(auto, unfolding(crate::specs::Numbers::suffix_of))]
fn suffix_of(bytes: &[u8]) -> Option<Suffix>
    ensures { result ≡ suffix_of bytes.now }
{
    let (unsigned, long) = match bytes {
        [] => (false, false),
        [a] if is_u(*a) => (true, false),
        [a] if is_l(*a) => (false, true),
        [a, b] if is_u(*a) && is_l(*b) || is_l(*a) && is_u(*b) => (true, true),
        [a, b] if is_l(*a) && a == b => (false, true),
        [a, b, c] if is_u(*a) && is_l(*b) && b == c || is_l(*a) && a == b && is_u(*c) => {
            (true, true)
        }
        _ => return None,
    };
    Some(Suffix { unsigned, long })
}

/// The first kind of the list in C99 6.4.4.1 that holds the number.
#[tactic(auto, unfolding(crate::specs::Numbers::kind_of))]
fn kind_of(is_decimal: bool, suffix: Suffix, n: u64) -> Option<Kind>
    ensures { result ≡ kind_of is_decimal suffix n }
{
    let may_be_unsigned = suffix.unsigned || !is_decimal;
    if !suffix.unsigned && !suffix.long && n < 1 << 31 {
        Some(Kind::S32)
    } else if !suffix.long && may_be_unsigned && n < 1 << 32 {
        Some(Kind::U32)
    } else if !suffix.unsigned && n < 1 << 63 {
        Some(Kind::S64)
    } else if may_be_unsigned {
        Some(Kind::U64)
    } else {
        None
    }
}

/// What a number is worth with one more digit, where 64 bits hold it.
fn next_value(radix: u8, value: u64, b: u8) -> Option<u64>
    ensures none { IsNone result → 2 ^ 64 ≤ value * radix + digit_of b }
    ensures some { IfSome result (λ n. n ≡ value * radix + digit_of b) }
{
    value
        .checked_mul(radix as u64)?
        .checked_add(digit_of(b) as u64)
}

/// What the digits are worth, where 64 bits hold it.
#[tactic(auto, unfolding(crate::specs::Numbers::value_of))]
fn value_of(radix: u8, digits: &[u8]) -> Option<u64>
    requires { 0 < radix }
    ensures { result ≡ value_of radix digits.now }
{
    let mut value = 0u64;
    for b in digits {
        value = next_value(radix, value, *b)?;
    }
    Some(value)
}

/// The number that the whole of a text spells.
#[tactic(auto, unfolding(crate::specs::Numbers::number_of))]
pub fn number_of(bytes: &[u8]) -> Option<(u64, Kind)>
    ensures { result ≡ number_of bytes.now }
{
    let (radix, digits) = radix_of(bytes);
    let len = digits_len(radix, digits);
    if len == 0 {
        return None;
    }
    let (digits, suffix) = digits.split_at(len);
    let suffix = suffix_of(suffix)?;
    let value = value_of(radix, digits)?;
    let kind = kind_of(radix == 10, suffix, value)?;
    Some((value, kind))
}
