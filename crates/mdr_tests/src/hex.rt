// Bytes that are written as digits.

use std::alloc::{AllocError, Global};

fn digit(letter: u8) -> u8 {
    if letter >= b'a' {
        letter.wrapping_sub(b'a').wrapping_add(10)
    } else {
        letter.wrapping_sub(b'0')
    }
}

/// The bytes that pairs of hexadecimal digits are.
pub(crate) fn bytes_of(alloc: Global, hex: &str) -> Result<Vec<u8>, AllocError> {
    let mut bytes = Vec::new(alloc);
    for pair in hex.as_bytes().chunks(2) {
        if let [high, low] = pair {
            bytes.push(digit(*high).wrapping_mul(16).wrapping_add(digit(*low)))?;
        }
    }
    Ok(bytes)
}
