// Numbers in decimal digits.

ghost use Rattle.std.specs.Prelude.{◌≡◌, ◌≤◌, ◌<◌, ◌+◌, ◌*◌, ◌-◌, ◌^◌, length, None, Some, IfSome};
ghost use Rattle.std.specs.List.{list_all};
ghost use Rattle.std.specs.Char.{is_ascii_digit};
ghost use Rattle.mdr_plan.specs.Numbers.{is_canonical, value_of, is_number, number_of};

/// A digit more, where the number still fits.
fn next_value(value: u64, digit: u8) -> Option<u64>
    ensures some { IfSome result (λ n. n ≡ value * 10 + (digit - 48)) }
    ensures none { result ≡ None → 2 ^ 64 ≤ value * 10 + (digit - 48) }
{
    let worth = u64::from(digit.saturating_sub(48));
    value.checked_mul(10)?.checked_add(worth)
}

fn value_of(digits: &[u8]) -> Option<u64>
    ensures { result ≡ value_of digits.now }
{
    let mut value = 0u64;
    for b in digits {
        value = next_value(value, *b)?;
    }
    Some(value)
}

fn are_digits(bytes: &[u8]) -> bool
    ensures { result ≡ list_all is_ascii_digit bytes.now }
{
    bytes.iter().all(|b| b.is_ascii_digit())
}

/// Whether there is a first byte, which is no zero before others.
fn is_canonical(bytes: &[u8]) -> bool
    ensures { result ≡ is_canonical bytes.now }
{
    match bytes {
        [] => false,
        [_] => true,
        [first, ..] => *first != b'0',
    }
}

/// Whether these are digits without a leading zero.
#[tactic(auto, unfolding(crate::specs::Numbers::is_number))]
pub fn is_number(bytes: &[u8]) -> bool
    ensures { result ≡ is_number bytes.now }
{
    are_digits(bytes) && is_canonical(bytes)
}

/// The number that these digits are, without a leading zero. One past 64 bits is none.
#[tactic(auto, unfolding(crate::specs::Numbers::number_of))]
pub fn number_of(bytes: &[u8]) -> Option<u64>
    ensures { result ≡ number_of bytes.now }
{
    if is_number(bytes) {
        value_of(bytes)
    } else {
        None
    }
}
