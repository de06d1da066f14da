// Bytes in pairs of hexadecimal digits, in lower case.

ghost use Rattle.std.specs.Prelude.{◌≡◌, ◌+◌, ◌*◌, ◌<◌, ◌%◌, ◌==◌, [], ◌∷◌, IfOk, MatchOption, length};
ghost use Rattle.std.specs.List.{list_all};
ghost use Rattle.mdr_verify.specs.Digits.{worth, is_digit, are_pairs, bytes_of, message_of};

use mdr_core::Items;
use std::alloc::{AllocError, Global};

/// What a digit is worth.
fn worth(b: u8) -> u8
    ensures value { result ≡ worth b }
    ensures few { result < 16 }
{
    match b {
        b'0'..=b'9' => b - b'0',
        b'a'..=b'f' => b - b'a' + 10,
        _ => 0,
    }
}

fn is_digit(b: u8) -> bool
    ensures { result ≡ is_digit b }
{
    (b'0' <= b && b <= b'9') || (b'a' <= b && b <= b'f')
}

fn are_digits(bytes: &[u8]) -> bool
    ensures { result ≡ list_all is_digit bytes.now }
{
    bytes.iter().all(|b| is_digit(*b))
}

fn are_even(bytes: &[u8]) -> bool
    ensures { result ≡ (length bytes.now % 2 == 0) }
{
    bytes.len() % 2 == 0
}

fn are_pairs(bytes: &[u8]) -> bool
    ensures { result ≡ are_pairs bytes.now }
{
    are_even(bytes) && are_digits(bytes)
}

/// What a pair is worth.
fn byte_of(high: u8, low: u8) -> u8
    ensures { result ≡ worth high * 16 + worth low }
{
    worth(high) * 16 + worth(low)
}

/// What the first pair is worth, and what stands behind it.
#[tactic(auto, unfolding(crate::specs::Digits::bytes_of))]
fn next_byte(digits: &[u8]) -> Option<(u8, &[u8])>
    ensures { MatchOption result (bytes_of digits.now ≡ []) (λ x. (bytes_of digits.now ≡ x.0 ∷ bytes_of x.1.now) × (length x.1.now < length digits.now)) }
{
    match digits {
        [high, low, after @ ..] => Some((byte_of(*high, *low), after)),
        [_] => None,
        [] => None,
    }
}

/// What each pair is worth.
fn bytes_of(alloc: Global, digits: &[u8]) -> Result<Items<u8>, AllocError>
    ensures { IfOk result (λ bytes. bytes ≡ bytes_of digits.now) }
{
    let mut bytes = Vec::new(alloc);
    let mut rest = digits;
    while let Some((byte, after)) = next_byte(rest) {
        bytes.push(byte)?;
        rest = after;
    }
    Ok(Items::from_vec(bytes))
}

/// The bytes that pairs of digits are, where they are pairs of digits.
pub fn message_of(alloc: Global, digits: &[u8]) -> Result<Option<Items<u8>>, AllocError>
    ensures { IfOk result (λ message. message ≡ message_of digits.now) }
{
    if are_pairs(digits) {
        Ok(Some(bytes_of(alloc, digits)?))
    } else {
        Ok(None)
    }
}
