// The words of types.

ghost use Rattle.std.specs.Prelude.{◌≡◌};
ghost use Rattle.mdr_core.specs.Types.{is_scalar, is_pointer};
ghost use Rattle.mdr_plan.specs.TypeTexts.{is_result, is_void_by};
ghost use Rattle.mdr_plan.specs.TypeReading.{kind_of, plain_of};
ghost use Rattle.mdr_core.specs.declared.types.Ty.{out-Ty};

use mdr_core::{Kind, Ty};

#[tactic(auto, unfolding(crate::specs::TypeReading::kind_of))]
fn kind_of(word: &[u8]) -> Option<Kind>
    ensures { result ≡ kind_of word.now }
{
    if word == b"u8".as_slice() {
        Some(Kind::U8)
    } else if word == b"u16".as_slice() {
        Some(Kind::U16)
    } else if word == b"u32".as_slice() {
        Some(Kind::U32)
    } else if word == b"u64".as_slice() {
        Some(Kind::U64)
    } else if word == b"s8".as_slice() {
        Some(Kind::S8)
    } else if word == b"s16".as_slice() {
        Some(Kind::S16)
    } else if word == b"s32".as_slice() {
        Some(Kind::S32)
    } else if word == b"s64".as_slice() {
        Some(Kind::S64)
    } else {
        None
    }
}

/// A type that one word names, other than `void`.
#[tactic(auto, unfolding(crate::specs::TypeReading::plain_of))]
pub fn plain_of(word: &[u8]) -> Option<Ty>
    ensures { result ≡ plain_of word.now }
{
    if word == b"combolock_t".as_slice() {
        return Some(Ty::Lock);
    }
    match kind_of(word) {
        Some(kind) => Some(Ty::Int(kind)),
        None => None,
    }
}

fn is_void(ty: &Ty) -> bool
    ensures { result ≡ is_void_by (out-Ty ty.now) }
{
    match ty {
        Ty::Void => true,
        Ty::Int(_) | Ty::Lock | Ty::Struct(_) | Ty::Ptr(_) | Ty::VoidPtr | Ty::Fun(_) => false,
    }
}

/// Whether a parameter may have the type.
pub fn is_scalar(ty: &Ty) -> bool
    ensures { result ≡ is_scalar ty.now }
{
    match ty {
        Ty::Int(_) | Ty::Ptr(_) | Ty::VoidPtr | Ty::Fun(_) => true,
        Ty::Lock | Ty::Struct(_) | Ty::Void => false,
    }
}

/// Whether a function may give the type.
pub fn is_result(ty: &Ty) -> bool
    ensures { result ≡ is_result ty.now }
{
    is_void(ty) || is_scalar(ty)
}

/// Whether it is the type of a pointer, to a function too.
pub fn is_pointer(ty: &Ty) -> bool
    ensures { result ≡ is_pointer ty.now }
{
    match ty {
        Ty::Ptr(_) | Ty::VoidPtr | Ty::Fun(_) => true,
        Ty::Int(_) | Ty::Lock | Ty::Struct(_) | Ty::Void => false,
    }
}
