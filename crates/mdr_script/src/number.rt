// Numbers, and the ranges in which they lie.

ghost use Rattle.std.specs.Prelude.{◌≡◌, ◌≤◌, ◌<◌, ◌-◌, ◌+◌, ◌*◌, ◌^◌, ◌&&◌, not, min, length, None, IfSome};
ghost use Rattle.std.specs.List.{list_all};
ghost use Rattle.std.specs.Option.{option_map};
ghost use Rattle.mdr_syntax.specs.Numbers.{digit_of, is_digit_of};
ghost use Rattle.mdr_script.specs.Words.{is_empty};
ghost use Rattle.mdr_script.specs.Numbers.{value_of, hex_digits, is_canonical, hexadecimal_of, decimal_of, number_of, fitted, number_in, reg_at, value_at};
ghost use Rattle.mdr_script.specs.Numbers.{count_at, ticks_at, which_at, idle_at, positive, negative, positive_of, negative_of, integer_of};

use crate::words::piece_at;

/// What a digit is worth; 16 for what is no digit.
fn digit_of(b: u8) -> u8
    ensures { result ≡ digit_of b }
{
    match b {
        b'0'..=b'9' => b - b'0',
        b'a'..=b'f' => b - b'a' + 10,
        b'A'..=b'F' => b - b'A' + 10,
        _ => 16,
    }
}

/// A digit more.
fn next_value(radix: u8, value: u128, b: u8) -> u128
    ensures { result ≡ min (value * radix + digit_of b) (2 ^ 128 - 1) }
{
    value
        .saturating_mul(radix as u128)
        .saturating_add(digit_of(b) as u128)
}

/// What digits are worth, at most as much as 128 bits hold.
#[tactic(auto, unfolding(crate::specs::Numbers::value_of))]
fn value_of(radix: u8, digits: &[u8]) -> u128
    requires { 0 < radix }
    ensures { result ≡ value_of radix digits.now }
{
    let mut value = 0u128;
    for b in digits {
        value = next_value(radix, value, *b);
    }
    value
}

fn are_digits(radix: u8, bytes: &[u8]) -> bool
    ensures { result ≡ list_all (is_digit_of radix) bytes.now }
{
    bytes.iter().all(|b| digit_of(*b) < radix)
}

/// What stands behind `0x`.
fn hex_digits(word: &[u8]) -> Option<&[u8]>
    ensures { option_map (λ r. r.now) result ≡ hex_digits word.now }
{
    match word {
        [b'0', b'x', digits @ ..] => Some(digits),
        _ => None,
    }
}

/// Whether there is a first digit, which is no zero before others.
fn is_canonical(digits: &[u8]) -> bool
    ensures { result ≡ is_canonical digits.now }
{
    match digits {
        [] => false,
        [_] => true,
        [first, ..] => *first != b'0',
    }
}

fn are_hex_digits(digits: &[u8]) -> bool
    ensures { result ≡ (not (is_empty digits.now) && list_all (is_digit_of 16) digits.now) }
{
    !digits.is_empty() && are_digits(16, digits)
}

fn are_decimal_digits(digits: &[u8]) -> bool
    ensures { result ≡ (is_canonical digits.now && list_all (is_digit_of 10) digits.now) }
{
    is_canonical(digits) && are_digits(10, digits)
}

#[tactic(auto, unfolding(crate::specs::Numbers::hexadecimal_of))]
fn hexadecimal_of(digits: &[u8]) -> Option<u128>
    ensures { result ≡ hexadecimal_of digits.now }
{
    if are_hex_digits(digits) {
        Some(value_of(16, digits))
    } else {
        None
    }
}

#[tactic(auto, unfolding(crate::specs::Numbers::decimal_of))]
fn decimal_of(digits: &[u8]) -> Option<u128>
    ensures { result ≡ decimal_of digits.now }
{
    if are_decimal_digits(digits) {
        Some(value_of(10, digits))
    } else {
        None
    }
}

/// A word that is a number, which is told up to 2^128 - 1.
#[tactic(auto, unfolding(crate::specs::Numbers::number_of))]
fn number_of(word: &[u8]) -> Option<u128>
    ensures { result ≡ number_of word.now }
{
    match hex_digits(word) {
        Some(digits) => hexadecimal_of(digits),
        None => decimal_of(word),
    }
}

/// A number in its range, or the least one of this where any will do.
#[tactic(auto, unfolding(crate::specs::Numbers::fitted))]
fn fitted(any: bool, low: u64, high: u64, n: u128) -> Option<u64>
    requires { low ≤ high }
    ensures value { result ≡ fitted any low high n }
    ensures most { IfSome result (λ m. m ≤ high) }
{
    if u128::from(low) <= n && n <= u128::from(high) {
        Some(n as u64)
    } else if any {
        Some(low)
    } else {
        None
    }
}

/// A number in its range, and what stands behind it.
#[tactic(auto, unfolding(crate::specs::Numbers::number_in))]
fn number_in(any: bool, low: u64, high: u64, bytes: &[u8]) -> Option<(u64, &[u8])>
    requires { low ≤ high }
    ensures value { option_map (λ x. (x.0, x.1.now)) result ≡ number_in any low high bytes.now }
    ensures most { IfSome result (λ x. x.0 ≤ high) }
{
    let (word, rest) = piece_at(bytes);
    let n = number_of(word)?;
    let n = fitted(any, low, high, n)?;
    Some((n, rest))
}

/// A register.
pub fn reg_at(any: bool, bytes: &[u8]) -> Option<(u32, &[u8])>
    ensures { option_map (λ x. (x.0, x.1.now)) result ≡ reg_at any bytes.now }
{
    let (n, rest) = number_in(any, 0, 4095, bytes)?;
    Some((n as u32, rest))
}

/// A word of 32 bits.
pub fn value_at(any: bool, bytes: &[u8]) -> Option<(u32, &[u8])>
    ensures { option_map (λ x. (x.0, x.1.now)) result ≡ value_at any bytes.now }
{
    let (n, rest) = number_in(any, 0, 0xffff_ffff, bytes)?;
    Some((n as u32, rest))
}

/// A count-down.
pub fn count_at(any: bool, bytes: &[u8]) -> Option<(u32, &[u8])>
    ensures { option_map (λ x. (x.0, x.1.now)) result ≡ count_at any bytes.now }
{
    let (n, rest) = number_in(any, 0, 15, bytes)?;
    Some((n as u32, rest))
}

/// How many ticks a count-down has.
pub fn ticks_at(any: bool, bytes: &[u8]) -> Option<(u32, &[u8])>
    ensures { option_map (λ x. (x.0, x.1.now)) result ≡ ticks_at any bytes.now }
{
    let (n, rest) = number_in(any, 1, 0xffff_ffff, bytes)?;
    Some((n as u32, rest))
}

/// Which of all allocations or ticks.
pub fn which_at(any: bool, bytes: &[u8]) -> Option<(u64, &[u8])>
    ensures { option_map (λ x. (x.0, x.1.now)) result ≡ which_at any bytes.now }
{
    number_in(any, 1, u64::MAX, bytes)
}

/// How many ticks are idle.
pub fn idle_at(any: bool, bytes: &[u8]) -> Option<(u64, &[u8])>
    ensures { option_map (λ x. (x.0, x.1.now)) result ≡ idle_at any bytes.now }
{
    number_in(any, 1, 100_000_000, bytes)
}

/// A number without a sign as an integer.
fn positive(any: bool, n: u128) -> Option<i128>
    ensures { result ≡ positive any n }
{
    if n < 1 << 127 {
        Some(n as i128)
    } else if any {
        Some(0)
    } else {
        None
    }
}

/// A number with a minus as an integer.
fn negative(any: bool, n: u128) -> Option<i128>
    ensures { result ≡ negative any n }
{
    if n == 0 {
        Some(0)
    } else if n <= 1 << 127 {
        Some(-((n - 1) as i128) - 1)
    } else if any {
        Some(0)
    } else {
        None
    }
}

#[tactic(auto, unfolding(crate::specs::Numbers::positive_of))]
fn positive_of(any: bool, word: &[u8]) -> Option<i128>
    ensures { result ≡ positive_of any word.now }
{
    let n = number_of(word)?;
    positive(any, n)
}

#[tactic(auto, unfolding(crate::specs::Numbers::negative_of))]
fn negative_of(any: bool, word: &[u8]) -> Option<i128>
    ensures { result ≡ negative_of any word.now }
{
    let n = number_of(word)?;
    negative(any, n)
}

/// A number with or without a sign.
#[tactic(auto, unfolding(crate::specs::Numbers::integer_of))]
pub fn integer_of(any: bool, word: &[u8]) -> Option<i128>
    ensures { result ≡ integer_of any word.now }
{
    match word {
        [] => None,
        [b'-', digits @ ..] => negative_of(any, digits),
        _ => positive_of(any, word),
    }
}
