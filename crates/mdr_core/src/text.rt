// Types as texts.

ghost use Rattle.std.specs.Prelude.{◌≡◌, ◌++◌, OnOk, codes, drop, map, slice_get};
ghost use Rattle.mdr_core.specs.TypeText.{behind_commas, kind_text, name_or, signature_text, star, text_of, type_text};

use crate::kind::Kind;
use crate::program::{Program, StructDef};
use crate::types::Ty;
use std::alloc::AllocError;

fn put(out: &mut Vec<u8>, bytes: &[u8]) -> Result<(), AllocError>
    ensures { OnOk result (out.new.items ≡ out.old.items ++ bytes.now) }
{
    out.extend_from_slice(bytes)
}

fn put_word(out: &mut Vec<u8>, word: &str) -> Result<(), AllocError>
    ensures { OnOk result (out.new.items ≡ out.old.items ++ word.now) }
{
    put(out, word.as_bytes())
}

fn kind_word(kind: Kind) -> &'static str
    ensures { result.now ≡ kind_text kind }
{
    match kind {
        Kind::U8 => "u8",
        Kind::U16 => "u16",
        Kind::U32 => "u32",
        Kind::U64 => "u64",
        Kind::S8 => "s8",
        Kind::S16 => "s16",
        Kind::S32 => "s32",
        Kind::S64 => "s64",
    }
}

/// A struct's name, or nothing where there is none.
fn put_name(out: &mut Vec<u8>, structs: &[StructDef], s: u32) -> Result<(), AllocError>
    ensures { OnOk result (out.new.items ≡ out.old.items ++ name_or (slice_get structs.now s)) }
{
    match structs.get(s as usize) {
        Some(def) => put(out, def.name.as_slice()),
        None => Ok(()),
    }
}

/// The star behind a type's text.
#[tactic(auto, unfolding(crate::specs::TypeText::text_of))]
fn put_star(out: &mut Vec<u8>, structs: &[StructDef], ty: &Ty) -> Result<(), AllocError>
    ensures { OnOk result (out.new.items ≡ out.old.items ++ star (text_of structs.now ty.now).starred) }
{
    let _ = structs;
    match ty {
        Ty::Ptr(_) | Ty::VoidPtr => put_word(out, "*"),
        Ty::Int(_) | Ty::Lock | Ty::Struct(_) | Ty::Fun(_) | Ty::Void => put_word(out, " *"),
    }
}

#[cycle(put)]
#[tactic(auto, unfolding(crate::specs::TypeText::text_of))]
fn put_type(out: &mut Vec<u8>, structs: &[StructDef], ty: &Ty) -> Result<(), AllocError>
    ensures { OnOk result (out.new.items ≡ out.old.items ++ (text_of structs.now ty.now).bytes) }
{
    match ty {
        Ty::Int(kind) => put_word(out, kind_word(*kind)),
        Ty::Lock => put_word(out, "combolock_t"),
        Ty::Struct(s) => {
            put_word(out, "struct ")?;
            put_name(out, structs, *s)
        }
        Ty::Ptr(target) => {
            put_type(out, structs, target.get())?;
            put_star(out, structs, target.get())
        }
        Ty::VoidPtr => put_word(out, "void *"),
        Ty::Fun(types) => {
            put_word(out, "fn(")?;
            put_signature(out, structs, types.as_slice())?;
            put_word(out, ")")
        }
        Ty::Void => put_word(out, "void"),
    }
}

/// The result, a semicolon and the parameters.
#[cycle(put)]
fn put_signature(out: &mut Vec<u8>, structs: &[StructDef], types: &[Ty]) -> Result<(), AllocError>
    ensures { OnOk result (out.new.items ≡ out.old.items ++ signature_text (map (text_of structs.now) types.now)) }
{
    if types.is_empty() {
        return Ok(());
    }
    put_type(out, structs, &types[0])?;
    put_word(out, ";")?;
    if types.len() == 1 {
        return Ok(());
    }
    put_type(out, structs, &types[1])?;
    put_others(out, structs, types)
}

/// The parameters behind the first.
#[cycle(put)]
#[tactic(auto, unfolding(crate::specs::TypeText::behind_commas))]
fn put_others(out: &mut Vec<u8>, structs: &[StructDef], types: &[Ty]) -> Result<(), AllocError>
    ensures { OnOk result (out.new.items ≡ out.old.items ++ behind_commas (map (text_of structs.now) (drop 2 types.now))) }
{
    for i in 2..types.len() {
        put_word(out, ",")?;
        put_type(out, structs, &types[i])?;
    }
    Ok(())
}

/// Adds the text of a type, as `u32`, `struct buf **` or `fn(void;u32,u8 *)`. Where memory is wanting a part of it may stand
/// there.
pub fn type_text(out: &mut Vec<u8>, program: &Program, ty: &Ty) -> Result<(), AllocError>
    ensures { OnOk result (out.new.items ≡ out.old.items ++ type_text program.now ty.now) }
{
    put_type(out, program.structs.as_slice(), ty)
}
