// What a file declares: its structs, globals and functions by their numbers (C99 6.7, 6.9).

ghost use Rattle.std.specs.Prelude.{◌≡◌, ◌<◌, ◌+◌, ◌++◌, ◌∷◌, [], Err, IfOk, OnErr, length, slice_get, slice_set, position};
ghost use Rattle.std.specs.Option.{option_copied};
ghost use Rattle.std.specs.Str.{bytes_eq};
ghost use Rattle.mdr_core.specs.Limits.{most};
ghost use Rattle.mdr_core.specs.declared.memory_error.Limit.TheVariants as limit;
ghost use Rattle.mdr_lower.specs.Lowering.{lowered};
ghost use Rattle.mdr_program.specs.Parts.{flagged, marked, remote, whole_by, whole, number_among, declared, defined, behind_piece, parts_behind, no_parts, parts_of};

use mdr_check::{Piece, Variable};
use mdr_core::{Func, Items, Local, Name, Param, StructDef};
use mdr_faults::small;
use mdr_headings::{Body, Heading};
use mdr_lower::{Work, lowered};
use std::alloc::{AllocError, Global};

/// The structs, globals and functions of a file, by their numbers.
#[derive(Drop)]
pub struct Parts {
    pub structs: Items<StructDef>,
    pub variables: Items<Variable>,
    pub funcs: Items<Func>,
}

// ---- one function

fn flagged(p: Param, is_object: Option<bool>) -> Param
    ensures { result ≡ flagged p is_object }
{
    let mut p = p;
    if let Some(is_object) = is_object {
        p.object = is_object;
    }
    p
}

fn flag(objects: &[bool], i: usize) -> Option<bool>
    ensures { result ≡ slice_get objects.now i }
{
    objects.get(i).copied()
}

/// Parameters, with what a body says of each.
fn marked(alloc: Global, params: Items<Param>, objects: &[bool]) -> Result<Items<Param>, AllocError>
    ensures { IfOk result (λ ps. ps ≡ marked objects.now 0 params) }
{
    let mut all = Items::new(alloc);
    for p in params.into_vec() {
        let is_object = flag(objects, all.len());
        all.push(flagged(p, is_object))?;
    }
    Ok(all)
}

/// A function that has no body in the file.
fn remote(alloc: Global, name: Name, h: Heading) -> Func
    ensures { result ≡ remote name h }
{
    Func {
        name,
        params: h.params,
        result: h.result,
        ann: h.ann,
        locals: Items::new(alloc),
        critical: false,
        body: None,
    }
}

/// The number of the first new slot.
fn first_slot(params: &[Param], locals: &[Local]) -> Result<u32, AllocError>
    ensures told { IfOk result (λ n. n ≡ length params.now + length locals.now) }
    ensures wanting { OnErr result (most limit.Fields < length params.now + length locals.now) }
{
    let slot = small(params.len().saturating_add(locals.len()))?;
    Ok(slot)
}

fn appended(locals: Items<Local>, more: Items<Local>) -> Result<Items<Local>, AllocError>
    ensures { IfOk result (λ ls. ls ≡ locals ++ more) }
{
    let mut all = locals;
    for l in more.into_vec() {
        all.push(l)?;
    }
    Ok(all)
}

fn with_work(
    alloc: Global,
    name: Name,
    is_critical: bool,
    h: Heading,
    b: Body,
    work: Work,
) -> Result<Func, AllocError>
    ensures { IfOk result (λ f. f ≡ whole_by name is_critical h b work) }
{
    let params = marked(alloc, h.params, b.objects.as_slice())?;
    let locals = appended(b.locals, work.slots)?;
    Ok(Func {
        name,
        params,
        result: h.result,
        ann: h.ann,
        locals,
        critical: is_critical,
        body: Some(work.code),
    })
}

/// The code of a body, and what it needs of new slots.
fn work_of(alloc: Global, h: &Heading, b: &Body) -> Result<Work, AllocError>
    ensures { IfOk result (λ w. w ≡ lowered (length h.now.params + length b.now.locals) b.now.statements) }
{
    let first = first_slot(h.params.as_slice(), b.locals.as_slice())?;
    lowered(alloc, first, b.statements.as_slice())
}

/// Want of memory in place of what was to become a function.
fn left_over<A: Drop, B: Drop>(error: AllocError, _parts: A) -> Result<B, AllocError>
    ensures { result ≡ Err error }
{
    Err(error)
}

/// A function with its body.
fn whole(
    alloc: Global,
    name: Name,
    is_critical: bool,
    h: Heading,
    b: Body,
) -> Result<Func, AllocError>
    ensures { IfOk result (λ f. f ≡ whole name is_critical h b) }
{
    match work_of(alloc, &h, &b) {
        Ok(work) => with_work(alloc, name, is_critical, h, b, work),
        Err(error) => left_over(error, (name, h, b)),
    }
}

// ---- functions by their numbers

fn number_among(funcs: &[Func], name: &[u8]) -> Option<usize>
    ensures { result ≡ number_among funcs.now name.now }
{
    funcs.iter().position(|f| f.name.as_slice() == name)
}

fn pushed(funcs: Items<Func>, f: Func) -> Result<Items<Func>, AllocError>
    ensures { IfOk result (λ fs. fs ≡ funcs ++ f ∷ []) }
{
    let mut all = funcs;
    all.push(f)?;
    Ok(all)
}

fn replaced(funcs: Items<Func>, i: usize, f: Func) -> Items<Func>
    ensures { result ≡ slice_set funcs i f }
{
    let mut all = funcs;
    all.set(i, f);
    all
}

fn declared(funcs: Items<Func>, f: Func) -> Result<Items<Func>, AllocError>
    ensures { IfOk result (λ fs. fs ≡ declared funcs f (number_among funcs f.name)) }
{
    match number_among(funcs.as_slice(), f.name.as_slice()) {
        None => pushed(funcs, f),
        Some(_) => Ok(funcs),
    }
}

fn defined(funcs: Items<Func>, f: Func) -> Result<Items<Func>, AllocError>
    ensures { IfOk result (λ fs. fs ≡ defined funcs f (number_among funcs f.name)) }
{
    match number_among(funcs.as_slice(), f.name.as_slice()) {
        None => pushed(funcs, f),
        Some(i) => Ok(replaced(funcs, i, f)),
    }
}

// ---- a whole file

fn with_struct(parts: Parts, d: StructDef) -> Result<Parts, AllocError>
    ensures { IfOk result (λ ps. ps ≡ record parts { structs = parts.structs ++ d ∷ [] }) }
{
    let mut structs = parts.structs;
    structs.push(d)?;
    Ok(Parts {
        structs,
        variables: parts.variables,
        funcs: parts.funcs,
    })
}

fn with_variable(parts: Parts, v: Variable) -> Result<Parts, AllocError>
    ensures { IfOk result (λ ps. ps ≡ record parts { variables = parts.variables ++ v ∷ [] }) }
{
    let mut variables = parts.variables;
    variables.push(v)?;
    Ok(Parts {
        structs: parts.structs,
        variables,
        funcs: parts.funcs,
    })
}

fn with_prototype(alloc: Global, parts: Parts, name: Name, h: Heading) -> Result<Parts, AllocError>
    ensures { IfOk result (λ ps. ps ≡ record parts { funcs = declared parts.funcs (remote name h) (number_among parts.funcs name) }) }
{
    let f = remote(alloc, name, h);
    Ok(Parts {
        structs: parts.structs,
        variables: parts.variables,
        funcs: declared(parts.funcs, f)?,
    })
}

fn with_function(
    alloc: Global,
    parts: Parts,
    name: Name,
    is_critical: bool,
    h: Heading,
    b: Body,
) -> Result<Parts, AllocError>
    ensures { IfOk result (λ ps. ps ≡ record parts { funcs = defined parts.funcs (whole name is_critical h b) (number_among parts.funcs name) }) }
{
    let f = whole(alloc, name, is_critical, h, b)?;
    Ok(Parts {
        structs: parts.structs,
        variables: parts.variables,
        funcs: defined(parts.funcs, f)?,
    })
}

fn behind_piece(alloc: Global, parts: Parts, piece: Piece) -> Result<Parts, AllocError>
    ensures { IfOk result (λ ps. ps ≡ behind_piece parts piece) }
{
    match piece {
        Piece::Nothing => Ok(parts),
        Piece::Struct(d) => with_struct(parts, d),
        Piece::Global(v) => with_variable(parts, v),
        Piece::Prototype(name, h) => with_prototype(alloc, parts, name, h),
        Piece::Function(name, is_critical, h, b) => {
            with_function(alloc, parts, name, is_critical, h, b)
        }
    }
}

/// What the pieces of a file declare: structs and globals in their order, functions in the order of their first declarations.
pub fn parts_of(alloc: Global, pieces: Items<Piece>) -> Result<Parts, AllocError>
    ensures { IfOk result (λ ps. ps ≡ parts_of pieces) }
{
    let mut parts = Parts {
        structs: Items::new(alloc),
        variables: Items::new(alloc),
        funcs: Items::new(alloc),
    };
    for piece in pieces.into_vec() {
        parts = behind_piece(alloc, parts, piece)?;
    }
    Ok(parts)
}
