// The text of a `printk`.

ghost use Rattle.std.specs.Prelude.{◌≡◌, ◌++◌, ◌∷◌, [], List, ℕ, IfOk, OnOk, false, pos, unsigned_abs};
ghost use Rattle.std.specs.Fmt.{digits, decimal, signed_decimal};
ghost use Rattle.std.specs.Int.{int_rem_euclid};
ghost use Rattle.mdr_core.specs.Services.{Percent, Plain};
ghost use Rattle.mdr_meaning.specs.Asking.{counted};
ghost use Rattle.mdr_meaning.specs.Printed.{print_text, printed, shown, told};
ghost use Rattle.mdr_meaning.specs.Values.{integer, natural_of, rest_of, saturated_u64, wire_of};
ghost use Rattle.mdr_events.specs.Values.{wires_of};
ghost use Rattle.mdr_exec.specs.Printing.{printed_as};

use crate::values::{first, integer};
use mdr_core::{Items, Value};
use std::alloc::{AllocError, Global};

/// Where a text is read: in plain bytes, behind a `%`, behind a `%l`.
#[derive(Clone, Copy)]
pub enum Reading {
    Plain,
    Percent,
    Long,
}

/// A number as one of 64 bits: 0 where it is negative.
fn unsigned(n: i128) -> u64
    ensures { result ≡ saturated_u64 (natural_of n) }
{
    if n < 0 {
        return 0;
    }
    if n > 18446744073709551615 {
        return 18446744073709551615;
    }
    n as u64
}

/// How many a call asks for.
pub(crate) fn counted(value: Value) -> u64
    ensures { result ≡ counted (wire_of value) }
{
    unsigned(integer(value))
}

fn put_signed(alloc: Global, out: &mut Vec<u8>, n: i128) -> Result<(), AllocError>
    ensures { OnOk result (out.new.items ≡ out.old.items ++ signed_decimal n) }
{
    let text = n.to_string(alloc)?;
    out.extend_from_slice(text.as_str().as_bytes())?;
    Ok(())
}

fn put_byte_of(out: &mut Vec<u8>, n: i128) -> Result<(), AllocError>
    ensures { OnOk result (out.new.items ≡ out.old.items ++ unsigned_abs (int_rem_euclid n (pos 256)) ∷ []) }
{
    out.push(n.rem_euclid(256) as u8)?;
    Ok(())
}

fn put_hex(alloc: Global, out: &mut Vec<u8>, n: i128) -> Result<(), AllocError>
    ensures { OnOk result (out.new.items ≡ out.old.items ++ digits 16 false (saturated_u64 (natural_of n))) }
{
    let n = unsigned(n);
    let text = format!(in alloc; "{n:x}")?;
    out.extend_from_slice(text.as_str().as_bytes())?;
    Ok(())
}

fn put_decimal(alloc: Global, out: &mut Vec<u8>, n: i128) -> Result<(), AllocError>
    ensures { OnOk result (out.new.items ≡ out.old.items ++ decimal (saturated_u64 (natural_of n))) }
{
    let n = unsigned(n);
    let text = n.to_string(alloc)?;
    out.extend_from_slice(text.as_str().as_bytes())?;
    Ok(())
}

/// A number by its directive's letter.
fn put_shown(alloc: Global, out: &mut Vec<u8>, letter: u8, n: i128) -> Result<(), AllocError>
    ensures { OnOk result (out.new.items ≡ out.old.items ++ shown letter n) }
{
    if letter == 100 {
        put_signed(alloc, out, n)?;
        Ok(())
    } else if letter == 99 {
        put_byte_of(out, n)?;
        Ok(())
    } else if letter == 120 {
        put_hex(alloc, out, n)?;
        Ok(())
    } else {
        put_decimal(alloc, out, n)?;
        Ok(())
    }
}

fn behind_first<'a>(values: &'a [Value]) -> &'a [Value]
    ensures { wires_of result.now ≡ rest_of (wires_of values.now) }
{
    match values.split_first() {
        Some((_, rest)) => rest,
        None => values,
    }
}

/// What a byte of the text does: the reading behind it, and the arguments that are left.
#[derive(Clone, Copy)]
struct Read<'a> {
    reading: Reading,
    args: &'a [Value],
}

fn read_plain<'a>(out: &mut Vec<u8>, byte: u8, args: &'a [Value]) -> Result<Read<'a>, AllocError>
    ensures { IfOk result (λ r. (bs : List ℕ) → out.new.items ++ printed_as r.reading bs r.args.now ≡ out.old.items ++ printed Plain (byte ∷ bs) (wires_of args.now)) }
{
    if byte == 37 {
        Ok(Read {
            reading: Reading::Percent,
            args,
        })
    } else {
        out.push(byte)?;
        Ok(Read {
            reading: Reading::Plain,
            args,
        })
    }
}

fn read_letter<'a>(
    alloc: Global,
    out: &mut Vec<u8>,
    letter: u8,
    args: &'a [Value],
) -> Result<Read<'a>, AllocError>
    ensures { IfOk result (λ r. (bs : List ℕ) → out.new.items ++ printed_as r.reading bs r.args.now ≡ out.old.items ++ told (printed Plain bs) letter (wires_of args.now)) }
{
    put_shown(alloc, out, letter, integer(first(args)))?;
    Ok(Read {
        reading: Reading::Plain,
        args: behind_first(args),
    })
}

fn read_percent<'a>(
    alloc: Global,
    out: &mut Vec<u8>,
    byte: u8,
    args: &'a [Value],
) -> Result<Read<'a>, AllocError>
    ensures { IfOk result (λ r. (bs : List ℕ) → out.new.items ++ printed_as r.reading bs r.args.now ≡ out.old.items ++ printed Percent (byte ∷ bs) (wires_of args.now)) }
{
    if byte == 37 {
        out.push(byte)?;
        return Ok(Read {
            reading: Reading::Plain,
            args,
        });
    }
    if byte == 108 {
        return Ok(Read {
            reading: Reading::Long,
            args,
        });
    }
    let read = read_letter(alloc, out, byte, args)?;
    Ok(read)
}

fn read_byte<'a>(
    alloc: Global,
    out: &mut Vec<u8>,
    reading: Reading,
    byte: u8,
    args: &'a [Value],
) -> Result<Read<'a>, AllocError>
    ensures { IfOk result (λ r. (bs : List ℕ) → out.new.items ++ printed_as r.reading bs r.args.now ≡ out.old.items ++ printed_as reading (byte ∷ bs) args.now) }
{
    match reading {
        Reading::Plain => {
            let read = read_plain(out, byte, args)?;
            Ok(read)
        }
        Reading::Percent => {
            let read = read_percent(alloc, out, byte, args)?;
            Ok(read)
        }
        Reading::Long => {
            let read = read_letter(alloc, out, byte, args)?;
            Ok(read)
        }
    }
}

/// The bytes of a text, with each directive's number in its place.
fn printed(alloc: Global, format: &[u8], args: &[Value]) -> Result<Vec<u8>, AllocError>
    ensures { IfOk result (λ out. out.items ≡ printed Plain format.now (wires_of args.now)) }
{
    let mut out = Vec::new(alloc);
    let mut reading = Reading::Plain;
    let mut left = args;
    for byte in format {
        let read = read_byte(alloc, &mut out, reading, *byte, left)?;
        reading = read.reading;
        left = read.args;
    }
    Ok(out)
}

/// The text of a `printk`: what is longer than 4,096 bytes is cut there.
pub(crate) fn print_text(
    alloc: Global,
    format: &[u8],
    args: &[Value],
) -> Result<Items<u8>, AllocError>
    ensures { IfOk result (λ text. text ≡ print_text format.now (wires_of args.now)) }
{
    let mut text = printed(alloc, format, args)?;
    text.truncate(4096);
    Ok(Items::from_vec(text))
}
