// The type table of a program.

ghost use Rattle.std.specs.Prelude.{◌≡◌, ◌<◌, ◌++◌, ◌∷◌, [], false, insert, slice_get, not, IfOk, OnOk, length, position};
ghost use Rattle.mdr_core.specs.TypeText.{is_before};
ghost use Rattle.mdr_core.specs.Types.{first_types, is_pointer};
ghost use Rattle.mdr_check.specs.Tables.{struct_types, texted, is_same_at, unless_same, put_at, with_type, with_pointer, with_pointers, types_alone, type_table};

use mdr_core::{Items, Kind, Name, OutOfMemory, Program, Ty, type_text};
use mdr_faults::{copied_type, small};
use std::alloc::{AllocError, Global};

/// A type and its text.
#[derive(Drop)]
pub struct TextedType {
    pub text: Name,
    pub ty: Ty,
}

/// Whether a text stands before another in the order of their bytes.
fn is_before(xs: &[u8], ys: &[u8]) -> bool
    ensures { result ≡ is_before xs.now ys.now }
{
    for i in 0..ys.len() {
        if i == xs.len() {
            return true;
        }
        if xs[i] < ys[i] {
            return true;
        }
        if ys[i] < xs[i] {
            return false;
        }
    }
    false
}

fn is_pointer(ty: &Ty) -> bool
    ensures { result ≡ is_pointer ty.now }
{
    match ty {
        Ty::Ptr(_) | Ty::VoidPtr | Ty::Fun(_) => true,
        Ty::Int(_) | Ty::Lock | Ty::Struct(_) | Ty::Void => false,
    }
}

#[tactic(auto, unfolding(crate::specs::Tables::texted))]
fn texted(alloc: Global, program: &Program, ty: &Ty) -> Result<TextedType, AllocError>
    ensures { IfOk result (λ t. t ≡ texted program.now.structs ty.now) }
{
    let mut text = Vec::new(alloc);
    type_text(&mut text, program, ty)?;
    Ok(TextedType {
        text: Items::from_vec(text),
        ty: copied_type(alloc, ty)?,
    })
}

fn stands_before(u: &TextedType, t: &TextedType) -> bool
    ensures { result ≡ is_before u.now.text t.now.text }
{
    is_before(u.text.as_slice(), t.text.as_slice())
}

/// Where a type is put: before the first whose text doesn't stand before its own.
fn spot(types: &[TextedType], t: &TextedType) -> Option<usize>
    ensures { result ≡ position (λ u. not (is_before u.text t.now.text)) types.now }
{
    types.iter().position(|u| !stands_before(u, t))
}

/// Whether the type at a place has the same text.
fn is_there(types: &[TextedType], i: usize, t: &TextedType) -> bool
    ensures same { result ≡ is_same_at (slice_get types.now i) t.now }
    ensures inside { result ≡ false → i < length types.now }
{
    match types.get(i) {
        None => true,
        Some(u) => u.text.as_slice() == t.text.as_slice(),
    }
}

fn inserted(
    types: Items<TextedType>,
    i: usize,
    t: TextedType,
) -> Result<Items<TextedType>, AllocError>
    requires { i < length types }
    ensures { IfOk result (λ ts. ts ≡ insert types i t) }
{
    let mut all = types.into_vec();
    all.insert(i, t)?;
    Ok(Items::from_vec(all))
}

fn unless_same(
    types: Items<TextedType>,
    i: usize,
    t: TextedType,
) -> Result<Items<TextedType>, AllocError>
    ensures { IfOk result (λ ts. ts ≡ unless_same types i t) }
{
    if is_there(types.as_slice(), i, &t) {
        return Ok(types);
    }
    inserted(types, i, t)
}

fn pushed(types: Items<TextedType>, t: TextedType) -> Result<Items<TextedType>, AllocError>
    ensures { IfOk result (λ ts. ts ≡ types ++ t ∷ []) }
{
    let mut all = types;
    all.push(t)?;
    Ok(all)
}

/// A type among others in the order of their texts.
#[tactic(auto, unfolding(crate::specs::Tables::with_type))]
fn with_type(types: Items<TextedType>, t: TextedType) -> Result<Items<TextedType>, AllocError>
    ensures { IfOk result (λ ts. ts ≡ with_type types t) }
{
    match spot(types.as_slice(), &t) {
        None => pushed(types, t),
        Some(i) => unless_same(types, i, t),
    }
}

fn with_pointer(
    alloc: Global,
    program: &Program,
    types: Items<TextedType>,
    ty: &Ty,
) -> Result<Items<TextedType>, AllocError>
    ensures { IfOk result (λ ts. ts ≡ with_pointer (is_pointer ty.now) program.now.structs types ty.now) }
{
    if !is_pointer(ty) {
        return Ok(types);
    }
    let t = texted(alloc, program, ty)?;
    with_type(types, t)
}

#[tactic(auto, unfolding(crate::specs::Tables::with_pointers))]
fn with_pointers(
    alloc: Global,
    program: &Program,
    occurring: &[Ty],
) -> Result<Items<TextedType>, AllocError>
    ensures { IfOk result (λ ts. ts ≡ with_pointers program.now.structs [] occurring.now) }
{
    let mut all = Items::new(alloc);
    for ty in occurring {
        all = with_pointer(alloc, program, all, ty)?;
    }
    Ok(all)
}

fn types_alone(
    alloc: Global,
    first: Items<Ty>,
    types: &[TextedType],
) -> Result<Items<Ty>, AllocError>
    ensures { IfOk result (λ ts. ts ≡ first ++ types_alone types.now) }
{
    let mut all = first;
    for t in types {
        all.push(copied_type(alloc, &t.ty)?)?;
    }
    Ok(all)
}

/// The integer kinds in their order, and the lock.
fn first_types(alloc: Global) -> Result<Items<Ty>, AllocError>
    ensures { IfOk result (λ t. t ≡ first_types) }
{
    let types = vec![in alloc;
        Ty::Int(Kind::U8),
        Ty::Int(Kind::U16),
        Ty::Int(Kind::U32),
        Ty::Int(Kind::U64),
        Ty::Int(Kind::S8),
        Ty::Int(Kind::S16),
        Ty::Int(Kind::S32),
        Ty::Int(Kind::S64),
        Ty::Lock,
    ]?;
    Ok(Items::from_vec(types))
}

/// Adds so many structs.
#[tactic(auto, using(crate::proofs::Tabling::one_struct, crate::proofs::Tabling::no_struct))]
fn with_structs(first: Items<Ty>, n: usize) -> Result<Items<Ty>, OutOfMemory>
    ensures { IfOk result (λ ts. ts ≡ first ++ struct_types n) }
{
    let mut all = first;
    for s in 0..n {
        all.push(Ty::Struct(small(s)?))?;
    }
    Ok(all)
}

/// The type table of a program with these structs, in which these types occur. The program's own table isn't looked at.
#[tactic(auto, unfolding(crate::specs::Tables::type_table))]
pub fn type_table(
    alloc: Global,
    program: &Program,
    occurring: &[Ty],
) -> Result<Items<Ty>, OutOfMemory>
    ensures { IfOk result (λ ts. ts ≡ type_table program.now.structs occurring.now) }
{
    let first = with_structs(first_types(alloc)?, program.structs.len())?;
    let pointers = with_pointers(alloc, program, occurring)?;
    let types = types_alone(alloc, first, pointers.as_slice())?;
    Ok(types)
}
