// Reading the text of a type.

ghost use Rattle.std.specs.Prelude.{◌≡◌, ◌++◌, ◌∷◌, [], IfOk, length, Some, None, codes};
ghost use Rattle.mdr_core.specs.declared.types.Ty.TheVariants as ty_is;
ghost use Rattle.mdr_plan.specs.Gives.{Gives};
ghost use Rattle.mdr_plan.specs.TypeTexts.{is_result};
ghost use Rattle.mdr_plan.specs.Naming.{any_struct, struct_number, naming};
ghost use Rattle.mdr_plan.specs.TypeReading.{behind, stars, plain_at, struct_at, typed_by, fun_by, signature_by, params_by, others_by, more_by, type_at, more_at, type_of, pointer_of, when, is_empty};

use crate::front::{strip, word_at};
use crate::names::number_of_struct;
use crate::unread::Unread;
use crate::words::{is_pointer, is_result, is_scalar, plain_of};
use mdr_core::{Boxed, Items, Name, Ty};
use std::alloc::{AllocError, Global};

/// A pointer to the type, and to that for each further star.
fn stars(alloc: Global, ty: Ty, bytes: &[u8]) -> Result<(Ty, &[u8]), AllocError>
    ensures { IfOk result (λ x. (x.0, x.1.now) ≡ stars ty bytes.now) }
{
    match bytes {
        [b'*', rest @ ..] => stars(alloc, Ty::Ptr(Boxed::new(alloc, ty)?), rest),
        _ => Ok((ty, bytes)),
    }
}

/// The type with the stars behind it.
#[tactic(auto, unfolding(crate::specs::TypeReading::behind))]
fn behind(alloc: Global, ty: Ty, bytes: &[u8]) -> Result<(Ty, &[u8]), AllocError>
    ensures { IfOk result (λ x. (x.0, x.1.now) ≡ behind ty (ty_is.Ptr ty) bytes.now) }
{
    match strip(bytes, b" *") {
        Some(rest) => stars(alloc, Ty::Ptr(Boxed::new(alloc, ty)?), rest),
        None => Ok((ty, bytes)),
    }
}

/// `void` with the stars behind it.
#[tactic(auto, unfolding(crate::specs::TypeReading::behind))]
fn void_behind(alloc: Global, bytes: &[u8]) -> Result<(Ty, &[u8]), AllocError>
    ensures { IfOk result (λ x. (x.0, x.1.now) ≡ behind ty_is.Void ty_is.VoidPtr bytes.now) }
{
    match strip(bytes, b" *") {
        Some(rest) => stars(alloc, Ty::VoidPtr, rest),
        None => Ok((Ty::Void, bytes)),
    }
}

#[tactic(auto, unfolding(crate::specs::TypeReading::plain_at))]
fn plain_at<'a>(alloc: Global, word: &[u8], bytes: &'a [u8]) -> Result<(Ty, &'a [u8]), Unread>
    ensures { Gives (λ x. (x.0, x.1.now)) result (plain_at word.now bytes.now) }
{
    match plain_of(word) {
        Some(ty) => Ok(behind(alloc, ty, bytes)?),
        None => Err(Unread::Refused),
    }
}

#[tactic(auto, unfolding(crate::specs::TypeReading::struct_at))]
fn struct_at<'a>(
    alloc: Global,
    any: bool,
    names: &[Name],
    bytes: &'a [u8],
) -> Result<(Ty, &'a [u8]), Unread>
    ensures { Gives (λ x. (x.0, x.1.now)) result (struct_at (naming any names.now) bytes.now) }
{
    let Some(rest) = strip(bytes, b" ") else {
        return Err(Unread::Refused);
    };
    let (name, rest) = word_at(rest);
    match number_of_struct(any, names, name) {
        Some(s) => Ok(behind(alloc, Ty::Struct(s), rest)?),
        None => Err(Unread::Refused),
    }
}

/// What stands behind a result and its semicolon, with the parameters added.
#[cycle(types)]
#[tactic(auto, unfolding(crate::specs::TypeReading::params_by))]
fn params_at<'a>(
    alloc: Global,
    any: bool,
    names: &[Name],
    types: Items<Ty>,
    bytes: &'a [u8],
    depth: usize,
) -> Result<(Items<Ty>, &'a [u8]), Unread>
    ensures { Gives (λ x. (x.0, x.1.now)) result (params_by (λ ts bs. more_at depth (naming any names.now) ts bs) types bytes.now) }
{
    match strip(bytes, b")") {
        Some(rest) => Ok((types, rest)),
        None => more_at(alloc, any, names, types, bytes, depth),
    }
}

/// What stands behind a parameter, with the others added.
#[cycle(types)]
#[tactic(auto, unfolding(crate::specs::TypeReading::others_by))]
fn others_at<'a>(
    alloc: Global,
    any: bool,
    names: &[Name],
    types: Items<Ty>,
    bytes: &'a [u8],
    depth: usize,
) -> Result<(Items<Ty>, &'a [u8]), Unread>
    ensures { Gives (λ x. (x.0, x.1.now)) result (others_by (λ ts bs. more_at depth (naming any names.now) ts bs) types bytes.now) }
{
    match strip(bytes, b")") {
        Some(rest) => Ok((types, rest)),
        None => {
            let Some(rest) = strip(bytes, b",") else {
                return Err(Unread::Refused);
            };
            more_at(alloc, any, names, types, rest, depth)
        }
    }
}

/// A parameter and what stands behind it.
#[cycle(types)]
#[tactic(auto, unfolding(crate::specs::TypeReading::more_by))]
fn param_at<'a>(
    alloc: Global,
    any: bool,
    names: &[Name],
    mut types: Items<Ty>,
    bytes: &'a [u8],
    depth: usize,
) -> Result<(Items<Ty>, &'a [u8]), Unread>
    ensures { Gives (λ x. (x.0, x.1.now)) result (more_by (λ bs. type_at depth (naming any names.now) bs) (λ ts bs. more_at depth (naming any names.now) ts bs) types bytes.now) }
{
    let (ty, rest) = type_at(alloc, any, names, bytes, depth)?;
    if !is_scalar(&ty) {
        return Err(Unread::Refused);
    }
    types.push(ty)?;
    others_at(alloc, any, names, types, rest, depth)
}

/// Parameters, where at most so many types stand inside one another or in a row.
#[cycle(types)]
fn more_at<'a>(
    alloc: Global,
    any: bool,
    names: &[Name],
    types: Items<Ty>,
    bytes: &'a [u8],
    depth: usize,
) -> Result<(Items<Ty>, &'a [u8]), Unread>
    ensures { Gives (λ x. (x.0, x.1.now)) result (more_at depth (naming any names.now) types bytes.now) }
{
    if depth == 0 {
        return Err(Unread::Refused);
    }
    param_at(alloc, any, names, types, bytes, depth - 1)
}

/// The types of a function's signature, behind its result and the semicolon.
#[cycle(types)]
fn behind_result<'a>(
    alloc: Global,
    any: bool,
    names: &[Name],
    ty: Ty,
    bytes: &'a [u8],
    depth: usize,
) -> Result<(Items<Ty>, &'a [u8]), Unread>
    ensures { Gives (λ x. (x.0, x.1.now)) result (when (is_result ty) (params_by (λ ts bs. more_at depth (naming any names.now) ts bs) (ty ∷ []) bytes.now)) }
{
    if !is_result(&ty) {
        return Err(Unread::Refused);
    }
    let mut types = Items::new(alloc);
    types.push(ty)?;
    params_at(alloc, any, names, types, bytes, depth)
}

/// The types of a function's signature, behind its parenthesis.
#[cycle(types)]
#[tactic(auto, unfolding(crate::specs::TypeReading::signature_by))]
fn signature_at<'a>(
    alloc: Global,
    any: bool,
    names: &[Name],
    bytes: &'a [u8],
    depth: usize,
) -> Result<(Items<Ty>, &'a [u8]), Unread>
    ensures { Gives (λ x. (x.0, x.1.now)) result (signature_by (λ bs. type_at depth (naming any names.now) bs) (λ ts bs. more_at depth (naming any names.now) ts bs) bytes.now) }
{
    let (ty, rest) = type_at(alloc, any, names, bytes, depth)?;
    let Some(rest) = strip(rest, b";") else {
        return Err(Unread::Refused);
    };
    behind_result(alloc, any, names, ty, rest, depth)
}

#[cycle(types)]
#[tactic(auto, unfolding(crate::specs::TypeReading::fun_by))]
fn fun_at<'a>(
    alloc: Global,
    any: bool,
    names: &[Name],
    bytes: &'a [u8],
    depth: usize,
) -> Result<(Ty, &'a [u8]), Unread>
    ensures { Gives (λ x. (x.0, x.1.now)) result (fun_by (λ bs. type_at depth (naming any names.now) bs) (λ ts bs. more_at depth (naming any names.now) ts bs) bytes.now) }
{
    let Some(rest) = strip(bytes, b"(") else {
        return Err(Unread::Refused);
    };
    let (types, rest) = signature_at(alloc, any, names, rest, depth)?;
    Ok(behind(alloc, Ty::Fun(types), rest)?)
}

/// The type that begins with this word.
#[cycle(types)]
#[tactic(auto, unfolding(crate::specs::TypeReading::typed_by))]
fn typed<'a>(
    alloc: Global,
    any: bool,
    names: &[Name],
    word: &[u8],
    bytes: &'a [u8],
    depth: usize,
) -> Result<(Ty, &'a [u8]), Unread>
    ensures { Gives (λ x. (x.0, x.1.now)) result (typed_by (λ bs. type_at depth (naming any names.now) bs) (λ ts bs. more_at depth (naming any names.now) ts bs) (naming any names.now) word.now bytes.now) }
{
    if word == b"fn".as_slice() {
        fun_at(alloc, any, names, bytes, depth)
    } else if word == b"struct".as_slice() {
        struct_at(alloc, any, names, bytes)
    } else if word == b"void".as_slice() {
        Ok(void_behind(alloc, bytes)?)
    } else {
        plain_at(alloc, word, bytes)
    }
}

/// The type at the front, where at most so many types stand inside one another or in a row.
#[cycle(types)]
fn type_at<'a>(
    alloc: Global,
    any: bool,
    names: &[Name],
    bytes: &'a [u8],
    depth: usize,
) -> Result<(Ty, &'a [u8]), Unread>
    ensures { Gives (λ x. (x.0, x.1.now)) result (type_at depth (naming any names.now) bytes.now) }
{
    if depth == 0 {
        return Err(Unread::Refused);
    }
    let (word, rest) = word_at(bytes);
    typed(alloc, any, names, word, rest, depth - 1)
}

/// The type that all of the bytes name, where structs have any names.
#[tactic(auto, unfolding(crate::specs::TypeReading::type_of, crate::specs::Naming::naming))]
pub fn type_of_any(alloc: Global, bytes: &[u8]) -> Result<Ty, Unread>
    ensures { Gives (λ t. t) result (type_of any_struct bytes.now) }
{
    let (ty, rest) = type_at(alloc, true, &[], bytes, bytes.len())?;
    if rest.is_empty() {
        Ok(ty)
    } else {
        Err(Unread::Refused)
    }
}

/// The pointer type that all of the bytes name, where the structs have these names.
#[tactic(auto, unfolding(crate::specs::TypeReading::pointer_of, crate::specs::Naming::naming))]
pub fn pointer_type(alloc: Global, names: &[Name], bytes: &[u8]) -> Result<Ty, Unread>
    ensures { Gives (λ t. t) result (pointer_of (struct_number names.now) bytes.now) }
{
    let (ty, rest) = type_at(alloc, false, names, bytes, bytes.len())?;
    if is_pointer(&ty) && rest.is_empty() {
        Ok(ty)
    } else {
        Err(Unread::Refused)
    }
}
