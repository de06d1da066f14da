// Cells that are read as bytes.

ghost use Rattle.std.specs.Prelude.{◌≡◌, option_map};
ghost use Rattle.mdr_meaning.specs.Values.{natural_of, wire_of};
ghost use Rattle.mdr_plain.specs.Storage.{number_in, saturated_u8};

use mdr_core::Value;

/// A number as a byte: the greatest one where it is greater.
fn byte_of(n: i128) -> u8
    ensures { result ≡ saturated_u8 (natural_of n) }
{
    if n < 0 {
        return 0;
    }
    if n > 255 {
        return 255;
    }
    n as u8
}

/// What a cell holds as a byte: 0 where it holds no number, or isn't there.
pub fn byte_in(held: Option<Value>) -> u8
    ensures { result ≡ number_in (option_map wire_of held) }
{
    match held {
        Some(Value::Int(_, n)) => byte_of(n),
        Some(_) => 0,
        None => 0,
    }
}
