// What a text is put together from. Each function appends its marks.

ghost use Rattle.std.specs.Prelude.{◌≡◌, ◌++◌, OnOk, IfOk, codes, decimal};
ghost use Rattle.mdr_print.specs.Marks.{Appends, word, sign, number, quoted, defined, blank, blank_unless, newline, tabs};
ghost use Rattle.mdr_print.specs.Marks.{spaced, comma, comma_unless, spell, number_text, sign_of, all_escaped, escaped, suffix_of};

use mdr_core::Kind;
use std::alloc::{AllocError, Global};

/// A name or a word of the language.
#[tactic(auto, unfolding(crate::specs::Marks::spell, crate::specs::Marks::token_text))]
pub fn put_word(out: &mut Vec<u8>, text: &[u8]) -> Result<(), AllocError>
    ensures { OnOk result (Appends out.old.items out.new.items (word text.now)) }
{
    out.extend_from_slice(text)
}

/// Punctuation.
#[tactic(auto, unfolding(crate::specs::Marks::spell, crate::specs::Marks::token_text))]
pub fn put_sign(out: &mut Vec<u8>, text: &[u8]) -> Result<(), AllocError>
    ensures { OnOk result (Appends out.old.items out.new.items (sign text.now)) }
{
    out.extend_from_slice(text)
}

#[tactic(auto, unfolding(crate::specs::Marks::spell))]
pub fn put_blank(out: &mut Vec<u8>) -> Result<(), AllocError>
    ensures { OnOk result (Appends out.old.items out.new.items blank) }
{
    out.push(b' ')?;
    Ok(())
}

pub fn put_blank_unless(out: &mut Vec<u8>, is_left_out: bool) -> Result<(), AllocError>
    ensures { OnOk result (Appends out.old.items out.new.items (blank_unless is_left_out)) }
{
    if is_left_out { Ok(()) } else { put_blank(out) }
}

#[tactic(auto, unfolding(crate::specs::Marks::spell))]
pub fn put_newline(out: &mut Vec<u8>) -> Result<(), AllocError>
    ensures { OnOk result (Appends out.old.items out.new.items newline) }
{
    out.push(b'\n')?;
    Ok(())
}

#[tactic(auto, unfolding(crate::specs::Marks::spell))]
fn put_tab(out: &mut Vec<u8>) -> Result<(), AllocError>
    ensures { OnOk result (Appends out.old.items out.new.items (tabs 1)) }
{
    out.push(b'\t')?;
    Ok(())
}

/// The tabs in front of a line, one per block.
pub fn put_tabs(out: &mut Vec<u8>, depth: u64) -> Result<(), AllocError>
    ensures { OnOk result (Appends out.old.items out.new.items (tabs depth)) }
{
    for _ in 0..depth {
        put_tab(out)?;
    }
    Ok(())
}

/// An operator between two blanks.
pub fn put_spaced(out: &mut Vec<u8>, operator: &[u8]) -> Result<(), AllocError>
    ensures { OnOk result (Appends out.old.items out.new.items (spaced operator.now)) }
{
    put_blank(out)?;
    put_sign(out, operator)?;
    put_blank(out)
}

fn put_comma(out: &mut Vec<u8>) -> Result<(), AllocError>
    ensures { OnOk result (Appends out.old.items out.new.items comma) }
{
    put_sign(out, b",")?;
    put_blank(out)
}

/// What stands in front of an item of a list.
pub fn put_comma_unless(out: &mut Vec<u8>, is_first: bool) -> Result<(), AllocError>
    ensures { OnOk result (Appends out.old.items out.new.items (comma_unless is_first)) }
{
    if is_first { Ok(()) } else { put_comma(out) }
}

/// The suffix that a number of a kind has: the kinds of numbers are s32, u32, s64 and u64.
fn suffix_of(kind: Kind) -> &'static str
    ensures { result.now ≡ suffix_of kind }
{
    match kind {
        Kind::U32 => "u",
        Kind::S64 => "l",
        Kind::U64 => "ul",
        Kind::U8 | Kind::U16 | Kind::S8 | Kind::S16 | Kind::S32 => "",
    }
}

/// A number in decimal digits with its suffix.
fn push_number(alloc: Global, out: &mut Vec<u8>, n: u64, kind: Kind) -> Result<(), AllocError>
    ensures { OnOk result (out.new.items ≡ out.old.items ++ number_text n kind) }
{
    let digits = n.to_string(alloc)?;
    out.extend_from_slice(digits.as_str().as_bytes())?;
    out.extend_from_slice(suffix_of(kind).as_bytes())
}

/// A number.
#[tactic(auto, unfolding(crate::specs::Marks::spell, crate::specs::Marks::token_text))]
pub fn put_number(alloc: Global, out: &mut Vec<u8>, n: u64, kind: Kind) -> Result<(), AllocError>
    ensures { OnOk result (Appends out.old.items out.new.items (number n kind)) }
{
    push_number(alloc, out, n, kind)
}

/// A byte of a text, or its escape.
fn push_escaped(out: &mut Vec<u8>, byte: u8) -> Result<(), AllocError>
    ensures { OnOk result (out.new.items ≡ out.old.items ++ escaped byte) }
{
    match byte {
        0 => out.extend_from_slice(b"\\0"),
        b'\t' => out.extend_from_slice(b"\\t"),
        b'\n' => out.extend_from_slice(b"\\n"),
        b'\r' => out.extend_from_slice(b"\\r"),
        b'"' => out.extend_from_slice(b"\\\""),
        b'\\' => out.extend_from_slice(b"\\\\"),
        _ => out.extend_from_slice(&[byte]),
    }
}

fn push_all_escaped(out: &mut Vec<u8>, bytes: &[u8]) -> Result<(), AllocError>
    ensures { OnOk result (out.new.items ≡ out.old.items ++ all_escaped bytes.now) }
{
    for byte in bytes {
        push_escaped(out, *byte)?;
    }
    Ok(())
}

/// A text between its quotes.
#[tactic(auto, unfolding(crate::specs::Marks::spell, crate::specs::Marks::token_text))]
pub fn put_quoted(out: &mut Vec<u8>, bytes: &[u8]) -> Result<(), AllocError>
    ensures { OnOk result (Appends out.old.items out.new.items (quoted bytes.now)) }
{
    out.extend_from_slice(b"\"")?;
    push_all_escaped(out, bytes)?;
    out.extend_from_slice(b"\"")
}

/// `-`, where there is one.
fn push_sign(out: &mut Vec<u8>, is_negative: bool) -> Result<(), AllocError>
    ensures { OnOk result (out.new.items ≡ out.old.items ++ sign_of is_negative) }
{
    if is_negative {
        out.extend_from_slice(b"-")
    } else {
        Ok(())
    }
}

/// A name, a blank and a number.
fn push_definition(
    alloc: Global,
    out: &mut Vec<u8>,
    name: &[u8],
    is_negative: bool,
    n: u64,
    kind: Kind,
) -> Result<(), AllocError>
    ensures { OnOk result (out.new.items ≡ out.old.items ++ (name.now ++ (codes " " ++ (sign_of is_negative ++ number_text n kind)))) }
{
    out.extend_from_slice(name)?;
    out.extend_from_slice(b" ")?;
    push_sign(out, is_negative)?;
    push_number(alloc, out, n, kind)
}

/// A `#define`.
#[tactic(auto, unfolding(crate::specs::Marks::spell, crate::specs::Marks::token_text))]
pub fn put_define(
    alloc: Global,
    out: &mut Vec<u8>,
    name: &[u8],
    is_negative: bool,
    n: u64,
    kind: Kind,
) -> Result<(), AllocError>
    ensures { OnOk result (Appends out.old.items out.new.items (defined name.now is_negative n kind)) }
{
    out.extend_from_slice(b"#define ")?;
    push_definition(alloc, out, name, is_negative, n, kind)
}
