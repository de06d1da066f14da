// How a type lies in cells.

ghost use Rattle.std.specs.Prelude.{◌≡◌, ◌<◌, ℕ, length, IsSomeAnd, slice_get, Option, Some};
ghost use Rattle.std.specs.Option.{option_map};
ghost use Rattle.mdr_core.specs.Layout.{AreSmall, AreFew, fields_of, leaves, leaves_below, struct_cells, struct_of, Alone, Within, cells_at, key_at, key_by, zero_at, zero_value};
ghost use Rattle.mdr_core.specs.Fields.{IsInField};
ghost use Rattle.mdr_core.specs.Sound.{IsSound};

use crate::plan::Key;
use crate::program::{Field, Program, StructDef};
use crate::types::Ty;
use crate::value::{LockState, Value};

/// The fields of a struct.
pub fn fields(structs: &[StructDef], s: u32) -> &[Field]
    ensures { result.now ≡ fields_of structs.now s }
{
    match structs.get(s as usize) {
        Some(def) => def.fields.as_slice(),
        None => &[],
    }
}

/// How many cells a struct has.
#[cycle(size)]
#[tactic(auto, unfolding(crate::specs::Layout::struct_cells))]
pub fn struct_size(structs: &[StructDef], s: u32) -> u32
    requires { AreSmall structs.now }
    ensures { result ≡ length (struct_cells structs.now s) }
{
    let mut total = 0;
    for field in fields(structs, s) {
        total += field.count * size_below(structs, s, &field.ty);
    }
    total
}

/// How many cells an element of a type has, in which only the structs below a number have any.
#[cycle(size)]
#[tactic(auto, unfolding(crate::specs::Layout::leaves))]
fn size_below(structs: &[StructDef], below: u32, ty: &Ty) -> u32
    requires { AreSmall structs.now }
    ensures { result ≡ length (leaves (leaves_below structs.now below) Alone ty.now) }
{
    match ty {
        Ty::Struct(s) => {
            if *s < below {
                struct_size(structs, *s)
            } else {
                0
            }
        }
        Ty::Void => 0,
        Ty::Int(_) | Ty::Lock | Ty::Ptr(_) | Ty::VoidPtr | Ty::Fun(_) => 1,
    }
}

/// A field, by its number, and a cell of it, counted from its first one.
#[derive(Clone, Copy)]
pub struct FieldCell<'a> {
    pub field: &'a Field,
    pub number: u32,
    pub cell: u32,
}

/// The field in which a cell of a struct lies.
#[tactic(auto, unfolding(crate::specs::Layout::struct_cells))]
pub fn field_at(structs: &[StructDef], s: u32, cell: u32) -> Option<FieldCell<'_>>
    requires small { AreSmall structs.now }
    requires few { AreFew structs.now }
    requires inside { cell < length (struct_cells structs.now s) }
    ensures { IsSomeAnd result (λ at. IsInField structs.now s cell at.field.now at.number at.cell) }
{
    let mut left = cell;
    let mut number = 0;
    for field in fields(structs, s) {
        let size = field.count * size_below(structs, s, &field.ty);
        if left < size {
            return Some(FieldCell {
                field,
                number,
                cell: left,
            });
        }
        left -= size;
        number += 1;
    }
    None
}

/// A scalar cell of a struct: the innermost struct around it, the field, and the cell's type.
#[derive(Clone, Copy)]
struct Scalar<'a> {
    owner: u32,
    field: u32,
    ty: &'a Ty,
}

/// The number of a type's struct.
pub fn struct_named(ty: &Ty) -> Option<u32>
    ensures { result ≡ struct_of ty.now }
{
    match ty {
        Ty::Struct(s) => Some(*s),
        Ty::Void | Ty::Int(_) | Ty::Lock | Ty::Ptr(_) | Ty::VoidPtr | Ty::Fun(_) => None,
    }
}

/// What lies in a cell of a struct.
fn scalar_at(structs: &[StructDef], s: u32, cell: u32) -> Option<Scalar<'_>>
    requires small { AreSmall structs.now }
    requires few { AreFew structs.now }
    requires inside { cell < length (struct_cells structs.now s) }
    ensures { IsSomeAnd result (λ at. slice_get (struct_cells structs.now s) cell ≡ Some (record { home = Within at.owner at.field; type = at.ty.now })) }
{
    let at = field_at(structs, s, cell)?;
    match struct_named(&at.field.ty) {
        Some(inner) => scalar_at(structs, inner, at.cell % struct_size(structs, inner)),
        None => Some(Scalar {
            owner: s,
            field: at.number,
            ty: &at.field.ty,
        }),
    }
}

/// A type of the type table.
pub fn type_at(program: &Program, ty: u32) -> &Ty
    requires { ty < length program.now.types }
    ensures { slice_get program.now.types ty ≡ Some result.now }
{
    &program.types.as_slice()[ty as usize]
}

/// How many cells one element of a type has.
#[tactic(auto, unfolding(crate::specs::Layout::leaves))]
fn element_size(structs: &[StructDef], ty: &Ty) -> u32
    requires { AreSmall structs.now }
    ensures { result ≡ length (leaves (struct_cells structs.now) Alone ty.now) }
{
    match ty {
        Ty::Struct(s) => struct_size(structs, *s),
        Ty::Void => 0,
        Ty::Int(_) | Ty::Lock | Ty::Ptr(_) | Ty::VoidPtr | Ty::Fun(_) => 1,
    }
}

/// How many cells one element of the type of this number has. The time is that of a walk over the fields of the structs
/// in it, each struct once for each field that has it, whatever the counts.
pub fn cells_of(program: &Program, ty: u32) -> u32
    requires in_table { ty < length program.now.types }
    requires sound { IsSound program.now }
    ensures { result ≡ length (cells_at program.now ty) }
{
    element_size(program.structs.as_slice(), type_at(program, ty))
}

/// The key of a cell of a struct.
fn struct_key(structs: &[StructDef], s: u32, cell: u32) -> Key
    requires small { AreSmall structs.now }
    requires few { AreFew structs.now }
    requires inside { cell < length (struct_cells structs.now s) }
    ensures { (block : Option ℕ) (ty : ℕ) → option_map (λ l. key_by l.home block ty) (slice_get (struct_cells structs.now s) cell) ≡ Some result }
{
    match scalar_at(structs, s, cell) {
        Some(at) => Key::Field(at.owner, at.field),
        None => Key::Elem(s),
    }
}

/// The key of a cell that no struct is around.
fn lone_key(block: Option<u32>, ty: u32) -> Key
    ensures { result ≡ key_by Alone block ty }
{
    match block {
        Some(global) => Key::Global(global),
        None => Key::Elem(ty),
    }
}

/// The key of a cell of a block whose elements have the type of this number, where `block` is the global's number if
/// the block is a global. The time is that of `cells_of` for each struct on the way from the type to the cell.
pub fn key_of(program: &Program, block: Option<u32>, ty: u32, cell: u32) -> Key
    requires inside { cell < length (cells_at program.now ty) }
    requires sound { IsSound program.now }
    ensures { key_at program.now block ty cell ≡ Some result }
{
    match struct_named(type_at(program, ty)) {
        Some(s) => struct_key(program.structs.as_slice(), s, cell),
        None => lone_key(block, ty),
    }
}

/// The zero of a scalar.
fn zero(ty: &Ty) -> Value
    ensures { result ≡ zero_value ty.now }
{
    match ty {
        Ty::Int(kind) => Value::Int(*kind, 0),
        Ty::Lock => Value::Lock(LockState::Free),
        Ty::Struct(_) | Ty::Ptr(_) | Ty::VoidPtr | Ty::Fun(_) | Ty::Void => Value::Null,
    }
}

/// The zero of a cell of a struct.
fn struct_zero(structs: &[StructDef], s: u32, cell: u32) -> Value
    requires small { AreSmall structs.now }
    requires few { AreFew structs.now }
    requires inside { cell < length (struct_cells structs.now s) }
    ensures { option_map (λ l. zero_value l.type) (slice_get (struct_cells structs.now s) cell) ≡ Some result }
{
    match scalar_at(structs, s, cell) {
        Some(at) => zero(at.ty),
        None => Value::Null,
    }
}

/// What a cell of an element holds that nothing initialised (C99 6.7.8, paragraph 10): the integer 0, a null pointer or a
/// free lock. The time is that of `key_of`.
pub fn zero_of(program: &Program, ty: u32, cell: u32) -> Value
    requires inside { cell < length (cells_at program.now ty) }
    requires sound { IsSound program.now }
    ensures { zero_at program.now ty cell ≡ Some result }
{
    let element = type_at(program, ty);
    match struct_named(element) {
        Some(s) => struct_zero(program.structs.as_slice(), s, cell),
        None => zero(element),
    }
}
