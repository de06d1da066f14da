// First values of globals, cell by cell (C99 6.7.8).

ghost use Rattle.std.specs.Prelude.{◌≡◌, ◌++◌, ◌∷◌, [], IfOk, OnOk, slice_get, position};
ghost use Rattle.std.specs.Option.{option_copied};
ghost use Rattle.mdr_core.specs.Layout.{Alone, fields_of, field_leaves, leaves, leaves_below, repeated, struct_cells, zero_value};
ghost use Rattle.mdr_faults.specs.Alike.{is_alike};
ghost use Rattle.mdr_program.specs.Values.{zeros, object_cells, target_number, address_of, first_cells, first_values};

use mdr_check::{First, Variable};
use mdr_core::{Block, Field, Items, LockState, OutOfMemory, StructDef, Ty, Value, View};
use mdr_faults::{Object, is_alike, small};
use std::alloc::{AllocError, Global};

// ---- cells that nothing initialises

/// The fields of a struct.
fn fields(structs: &[StructDef], s: u32) -> &[Field]
    ensures { result.now ≡ fields_of structs.now s }
{
    match structs.get(s as usize) {
        Some(def) => def.fields.as_slice(),
        None => &[],
    }
}

/// The zero of a scalar.
fn zero(ty: &Ty) -> Value
    ensures { result ≡ zero_value ty.now }
{
    match ty {
        Ty::Int(kind) => Value::Int(*kind, 0),
        Ty::Lock => Value::Lock(LockState::Free),
        Ty::Struct(_) | Ty::Ptr(_) | Ty::VoidPtr | Ty::Fun(_) | Ty::Void => Value::Null,
    }
}

/// The zeros of a struct's cells.
#[cycle(zeros)]
#[tactic(auto, unfolding(mdr_core::specs::Layout::struct_cells))]
fn add_struct(structs: &[StructDef], s: u32, all: &mut Items<Value>) -> Result<(), AllocError>
    ensures { OnOk result (all.new ≡ all.old ++ zeros (struct_cells structs.now s)) }
{
    for field in fields(structs, s) {
        add_field(structs, s, field, all)?;
    }
    Ok(())
}

/// The zeros of a field of struct `s`.
#[cycle(zeros)]
fn add_field(
    structs: &[StructDef],
    s: u32,
    field: &Field,
    all: &mut Items<Value>,
) -> Result<(), AllocError>
    ensures { OnOk result (all.new ≡ all.old ++ zeros (repeated field.now.count (leaves (leaves_below structs.now s) Alone field.now.ty))) }
{
    let mut left = field.count;
    while left > 0 {
        add_below(structs, s, &field.ty, all)?;
        left -= 1;
    }
    Ok(())
}

/// The zeros of an element of a type, in which only the structs below a number have cells.
#[cycle(zeros)]
#[tactic(auto, unfolding(mdr_core::specs::Layout::leaves))]
fn add_below(
    structs: &[StructDef],
    below: u32,
    ty: &Ty,
    all: &mut Items<Value>,
) -> Result<(), AllocError>
    ensures { OnOk result (all.new ≡ all.old ++ zeros (leaves (leaves_below structs.now below) Alone ty.now)) }
{
    match ty {
        Ty::Struct(s) => {
            if *s < below {
                add_struct(structs, *s, all)?;
            }
        }
        Ty::Void => {}
        Ty::Int(_) | Ty::Lock | Ty::Ptr(_) | Ty::VoidPtr | Ty::Fun(_) => all.push(zero(ty))?,
    }
    Ok(())
}

/// The zeros of an element of a type.
#[tactic(auto, unfolding(mdr_core::specs::Layout::leaves))]
fn add_element(structs: &[StructDef], ty: &Ty, all: &mut Items<Value>) -> Result<(), AllocError>
    ensures { OnOk result (all.new ≡ all.old ++ zeros (leaves (struct_cells structs.now) Alone ty.now)) }
{
    match ty {
        Ty::Struct(s) => add_struct(structs, *s, all)?,
        Ty::Void => {}
        Ty::Int(_) | Ty::Lock | Ty::Ptr(_) | Ty::VoidPtr | Ty::Fun(_) => all.push(zero(ty))?,
    }
    Ok(())
}

/// The zeros of an object.
fn add_zeros(structs: &[StructDef], o: &Object, all: &mut Items<Value>) -> Result<(), AllocError>
    ensures { OnOk result (all.new ≡ all.old ++ zeros (object_cells structs.now o.now)) }
{
    let mut left = o.count;
    while left > 0 {
        add_element(structs, &o.ty, all)?;
        left -= 1;
    }
    Ok(())
}

// ---- addresses

fn place_in(types: &[Ty], ty: &Ty) -> Option<usize>
    ensures { result ≡ position (λ u. is_alike u ty.now) types.now }
{
    types.iter().position(|u| is_alike(u, ty))
}

fn target_number(types: &[Ty], v: Option<&Variable>) -> Result<u32, OutOfMemory>
    ensures { IfOk result (λ n. n ≡ target_number types.now (option_copied v.entry)) }
{
    match v {
        None => Ok(0),
        Some(v) => match place_in(types, &v.object.ty) {
            None => Ok(0),
            Some(i) => small(i),
        },
    }
}

/// The address of the global of number `g`.
fn address_of(types: &[Ty], variables: &[Variable], g: u32) -> Result<View, OutOfMemory>
    ensures { IfOk result (λ v. v ≡ address_of types.now g (slice_get variables.now g)) }
{
    let ty = target_number(types, variables.get(g as usize))?;
    Ok(View {
        block: Block {
            slot: 0,
            serial: g as u64,
        },
        first: 0,
        ty,
        count: 1,
        index: 0,
    })
}

// ---- values

fn add_first(
    types: &[Ty],
    structs: &[StructDef],
    variables: &[Variable],
    x: &First,
    all: &mut Items<Value>,
) -> Result<(), OutOfMemory>
    ensures { OnOk result (all.new ≡ all.old ++ first_cells types.now structs.now variables.now x.now) }
{
    match x {
        First::Integer(kind, n) => all.push(Value::Int(*kind, *n))?,
        First::Null => all.push(Value::Null)?,
        First::Address(g) => all.push(Value::Ptr(address_of(types, variables, *g)?))?,
        First::Function(f) => all.push(Value::Fn(*f))?,
        First::Zeros(o) => add_zeros(structs, o, all)?,
    }
    Ok(())
}

/// The first values of all cells of a global. The type table is that of the program, and the variables are all its globals.
#[tactic(auto, unfolding(crate::specs::Values::first_values))]
pub fn first_values(
    alloc: Global,
    types: &[Ty],
    structs: &[StructDef],
    variables: &[Variable],
    xs: &[First],
) -> Result<Items<Value>, OutOfMemory>
    ensures { IfOk result (λ vs. vs ≡ first_values types.now structs.now variables.now xs.now) }
{
    let mut all = Items::new(alloc);
    for x in xs {
        add_first(types, structs, variables, x, &mut all)?;
    }
    Ok(all)
}
