// Bytes in reports.

ghost use Rattle.std.specs.Prelude.{◌≡◌, ◌++◌, ◌<◌, ◌&&◌, ◌==◌, [], ◌∷◌, OnOk, codes, false, nat_le, nat_lt};
ghost use Rattle.std.specs.Fmt.{digit_glyph};
ghost use Rattle.mdr_core.specs.Layout.{chosen};
ghost use Rattle.mdr_plain.specs.Report.{escaped, escaped_byte, hex, hex_byte};

use crate::put::put_word;
use std::alloc::AllocError;

/// A digit of base 16, in lower case.
fn hex_digit(digit: u8) -> u8
    requires { digit < 16 }
    ensures { result ≡ digit_glyph false digit }
{
    if digit < 10 {
        b'0' + digit
    } else {
        b'a' - 10 + digit
    }
}

fn put_byte(out: &mut Vec<u8>, byte: u8) -> Result<(), AllocError>
    ensures { OnOk result (out.new.items ≡ out.old.items ++ byte ∷ []) }
{
    out.push(byte)?;
    Ok(())
}

/// A byte as two digits.
fn put_hex_byte(out: &mut Vec<u8>, byte: u8) -> Result<(), AllocError>
    ensures { OnOk result (out.new.items ≡ out.old.items ++ hex_byte byte) }
{
    put_byte(out, hex_digit(byte / 16))?;
    put_byte(out, hex_digit(byte % 16))?;
    Ok(())
}

/// Two digits for each byte.
#[tactic(auto, unfolding(mdr_plain::specs::Report::hex))]
pub fn put_hex(out: &mut Vec<u8>, bytes: &[u8]) -> Result<(), AllocError>
    ensures { OnOk result (out.new.items ≡ out.old.items ++ hex bytes.now) }
{
    for byte in bytes {
        put_hex_byte(out, *byte)?;
    }
    Ok(())
}

fn stands_as_it_is(byte: u8) -> bool
    ensures { result ≡ (nat_le 32 byte && nat_lt byte 127) }
{
    32 <= byte && byte < 127
}

/// A byte that isn't shown by itself, nor as a backslash.
fn put_hidden_byte(out: &mut Vec<u8>, byte: u8) -> Result<(), AllocError>
    ensures { OnOk result (out.new.items ≡ out.old.items ++ chosen (byte == 10) (codes "\\n") (codes "\\x" ++ hex_byte byte)) }
{
    if byte == b'\n' {
        return put_word(out, "\\n");
    }
    put_word(out, "\\x")?;
    put_hex_byte(out, byte)
}

/// A byte of a text.
fn put_escaped_byte(out: &mut Vec<u8>, byte: u8) -> Result<(), AllocError>
    ensures { OnOk result (out.new.items ≡ out.old.items ++ escaped_byte byte) }
{
    if byte == b'\\' {
        return put_word(out, "\\\\");
    }
    if stands_as_it_is(byte) {
        return put_byte(out, byte);
    }
    put_hidden_byte(out, byte)
}

/// The bytes of a text.
#[tactic(auto, unfolding(mdr_plain::specs::Report::escaped))]
pub fn put_escaped(out: &mut Vec<u8>, text: &[u8]) -> Result<(), AllocError>
    ensures { OnOk result (out.new.items ≡ out.old.items ++ escaped text.now) }
{
    for byte in text {
        put_escaped_byte(out, *byte)?;
    }
    Ok(())
}
