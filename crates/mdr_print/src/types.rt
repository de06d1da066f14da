// The names of types, and stars.

ghost use Rattle.std.specs.Prelude.{◌≡◌, OnOk, codes};
ghost use Rattle.mdr_print.specs.Marks.{Appends, spell};
ghost use Rattle.mdr_print.specs.Types.{kind_name, base_name, stars, type_name};

use crate::put::{put_blank, put_blank_unless, put_sign, put_word};
use mdr_core::Kind;
use mdr_syntax::Base;
use std::alloc::AllocError;

fn kind_word(kind: Kind) -> &'static str
    ensures { result.now ≡ kind_name kind }
{
    match kind {
        Kind::U8 => "u8",
        Kind::U16 => "u16",
        Kind::U32 => "u32",
        Kind::U64 => "u64",
        Kind::S8 => "s8",
        Kind::S16 => "s16",
        Kind::S32 => "s32",
        Kind::S64 => "s64",
    }
}

fn lock_word() -> &'static str
    ensures { result.now ≡ codes "combolock_t" }
{
    "combolock_t"
}

/// A type without its stars.
pub fn put_base(out: &mut Vec<u8>, base: &Base) -> Result<(), AllocError>
    ensures { OnOk result (Appends out.old.items out.new.items (base_name base.now)) }
{
    match base {
        Base::Int(kind) => put_word(out, kind_word(*kind).as_bytes()),
        Base::Struct(_, name) => {
            put_word(out, b"struct")?;
            put_blank(out)?;
            put_word(out, name.as_slice())
        }
        Base::Void => put_word(out, b"void"),
        Base::Lock => put_word(out, lock_word().as_bytes()),
    }
}

/// So many stars, one right behind the other.
pub fn put_stars(out: &mut Vec<u8>, count: u32) -> Result<(), AllocError>
    ensures { OnOk result (Appends out.old.items out.new.items (stars count)) }
{
    for _ in 0..count {
        put_sign(out, b"*")?;
    }
    Ok(())
}

/// A type without a name.
pub fn put_type(out: &mut Vec<u8>, base: &Base, count: u32) -> Result<(), AllocError>
    ensures { OnOk result (Appends out.old.items out.new.items (type_name base.now count)) }
{
    put_base(out, base)?;
    put_blank_unless(out, count == 0)?;
    put_stars(out, count)
}
