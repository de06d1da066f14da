// Which cells a block has: the type of each, found by a walk over its elements.

ghost use Rattle.std.specs.Prelude.{◌≡◌, ℕ, List, nat_lt, slice_get, replicate, MatchOption, Some, None};
ghost use Rattle.std.specs.Option.{option_map};
ghost use Rattle.mdr_core.specs.Layout.{Leaf, repeated, leaves_below, struct_cells, struct_of, fields_of, zero_value};
ghost use Rattle.mdr_meaning.specs.Values.{wire_of};
ghost use Rattle.mdr_model.specs.Memory.{size_of, leaf_at};
ghost use Rattle.mdr_model.specs.Agreement.{cell_zero};
ghost use Rattle.mdr_copy.specs.CellTypes.{Passes, element_types, is_void, type_of, types_of};

use mdr_core::{Field, LockState, Program, StructDef, Ty};
use mdr_model::{New, Wire};

/// What a walk over cells came to: the type of the cell that was sought, or how many cells behind the last one it lies.
#[derive(Clone, Copy)]
struct Passed<'a> {
    found: Option<&'a Ty>,
    left: u64,
}

fn fields(structs: &[StructDef], s: u32) -> &[Field]
    ensures { result.now ≡ fields_of structs.now s }
{
    match structs.get(s as usize) {
        Some(def) => def.fields.as_slice(),
        None => &[],
    }
}

fn behind<'a>(left: u64) -> Passed<'a>
    ensures found { result.found ≡ None }
    ensures left { result.left ≡ left }
{
    Passed { found: None, left }
}

fn struct_named(ty: &Ty) -> Option<u32>
    ensures { result ≡ struct_of ty.now }
{
    match ty {
        Ty::Struct(s) => Some(*s),
        Ty::Void | Ty::Int(_) | Ty::Lock | Ty::Ptr(_) | Ty::VoidPtr | Ty::Fun(_) => None,
    }
}

fn is_void(ty: &Ty) -> bool
    ensures { result ≡ is_void ty.now }
{
    match ty {
        Ty::Void => true,
        Ty::Struct(_) | Ty::Int(_) | Ty::Lock | Ty::Ptr(_) | Ty::VoidPtr | Ty::Fun(_) => false,
    }
}

fn past_row(count: u32, ty: &Ty, left: u64) -> Passed<'_>
    ensures { Passes (replicate count ty.now) left result }
{
    if left < count as u64 {
        Passed {
            found: Some(ty),
            left,
        }
    } else {
        behind(left - count as u64)
    }
}

/// Goes past elements of a type that is no struct.
fn past_scalars(count: u32, ty: &Ty, left: u64) -> Passed<'_>
    requires { struct_of ty.now ≡ None }
    ensures { (known : ℕ → List Leaf) → Passes (element_types known count ty.now) left result }
{
    if is_void(ty) {
        behind(left)
    } else {
        past_row(count, ty, left)
    }
}

/// Goes past the cells of a struct.
#[cycle(past)]
#[tactic(auto, unfolding(mdr_core::specs::Layout::struct_cells))]
fn past_struct(structs: &[StructDef], s: u32, left: u64) -> Passed<'_>
    ensures { Passes (types_of (struct_cells structs.now s)) left result }
{
    let mut rest = left;
    for field in fields(structs, s) {
        let passed = past_field(structs, s, field.count, &field.ty, rest);
        if passed.found.is_some() {
            return passed;
        }
        rest = passed.left;
    }
    behind(rest)
}

/// Goes past the cells of a field, in which only the structs below a number have any.
#[cycle(past)]
fn past_field<'a>(
    structs: &'a [StructDef],
    below: u32,
    count: u32,
    ty: &'a Ty,
    left: u64,
) -> Passed<'a>
    ensures { Passes (element_types (leaves_below structs.now below) count ty.now) left result }
{
    match struct_named(ty) {
        Some(s) => {
            if s < below {
                past_structs(structs, count, s, left)
            } else {
                behind(left)
            }
        }
        None => past_scalars(count, ty, left),
    }
}

/// Goes past the cells of structs in a row.
#[cycle(past)]
fn past_structs(structs: &[StructDef], count: u32, s: u32, left: u64) -> Passed<'_>
    ensures { Passes (types_of (repeated count (struct_cells structs.now s))) left result }
{
    let mut rest = left;
    for _ in 0..count {
        let passed = past_struct(structs, s, rest);
        if passed.found.is_some() {
            return passed;
        }
        rest = passed.left;
    }
    behind(rest)
}

/// Goes past the cells of elements.
fn past_elements<'a>(structs: &'a [StructDef], count: u32, ty: &'a Ty, left: u64) -> Passed<'a>
    ensures { Passes (element_types (struct_cells structs.now) count ty.now) left result }
{
    match struct_named(ty) {
        Some(s) => past_structs(structs, count, s, left),
        None => past_scalars(count, ty, left),
    }
}

fn type_named(program: &Program, ty: u32) -> Option<&Ty>
    ensures { MatchOption result (slice_get program.now.types ty ≡ None) (λ t. slice_get program.now.types ty ≡ Some t.now) }
{
    program.types.as_slice().get(ty as usize)
}

/// The type of a block's cell, where the block has it. In a block of scalars the time is constant, in one of structs that
/// of a walk over the cells before it.
pub fn cell_type(program: &Program, block: New, index: u64) -> Option<&Ty>
    ensures { MatchOption result (leaf_at program.now block index ≡ None) (λ t. option_map type_of (leaf_at program.now block index) ≡ Some t.now) }
{
    match type_named(program, block.ty) {
        Some(ty) => past_elements(program.structs.as_slice(), block.count, ty, index).found,
        None => None,
    }
}

/// Whether a block has a cell at an index.
pub(crate) fn has_cell(program: &Program, block: New, index: u64) -> bool
    ensures { result ≡ nat_lt index (size_of program.now block) }
{
    cell_type(program, block, index).is_some()
}

fn zero(ty: &Ty) -> Wire
    ensures { result ≡ wire_of (zero_value ty.now) }
{
    match ty {
        Ty::Int(kind) => Wire::Int(*kind, 0),
        Ty::Lock => Wire::Lock(LockState::Free),
        Ty::Struct(_) | Ty::Ptr(_) | Ty::VoidPtr | Ty::Fun(_) | Ty::Void => Wire::Null,
    }
}

/// What a cell of a block holds before anything was stored, where the block has it.
pub(crate) fn cell_zero(program: &Program, block: New, index: u64) -> Option<Wire>
    ensures { result ≡ cell_zero program.now block index }
{
    match cell_type(program, block, index) {
        Some(ty) => Some(zero(ty)),
        None => None,
    }
}
