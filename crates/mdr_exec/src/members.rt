// Members of structs (C99 6.5.2.3).

ghost use Rattle.std.specs.Prelude.{◌≡◌, ◌+◌, Some, option_copied, slice_get};
ghost use Rattle.mdr_core.specs.Layout.{field_start, fields_of};
ghost use Rattle.mdr_core.specs.Sound.{IsSound};
ghost use Rattle.mdr_meaning.specs.Bodies.{known_of, without_funcs};
ghost use Rattle.mdr_meaning.specs.declared.wire.Wire.TheVariants as wire;
ghost use Rattle.mdr_meaning.specs.Pointers.{field_by, field_in, member, position, struct_numbered};
ghost use Rattle.mdr_meaning.specs.Values.{wire_of, wire_view};
ghost use Rattle.mdr_events.specs.Outcomes.{wired};
ghost use Rattle.mdr_exec.specs.Evaluation.{after_value};

use crate::layout::{field_start, fields, struct_named};
use crate::pointers::{position, type_number};
use mdr_core::{Block, Field, Program, StopKind, StructDef, Value, View};

/// A pointer to the first of all elements of a field that begins at a cell.
fn pointer_to(block: Block, first: u32, ty: u32, count: u32) -> Value
    ensures { wire_of result ≡ wire.Ptr (record { serial = block.serial; first = first; ty = ty; count = count; index = 0 }) }
{
    Value::Ptr(View {
        block,
        first,
        ty,
        count,
        index: 0,
    })
}

/// The cell at which a field of a struct begins, which a pointer points to.
fn field_cell(program: &Program, view: View, s: u32, f: u32) -> u128
    requires { IsSound program.now }
    ensures { result ≡ position (without_funcs program.now) (wire_view view) + field_start program.now.structs s f }
{
    position(program, view) as u128 + field_start(program.structs.as_slice(), s, f) as u128
}

/// A pointer to the first of all elements of a field of a struct, which a pointer points to.
fn field_pointer(
    program: &Program,
    view: View,
    s: u32,
    f: u32,
    field: &Field,
) -> Result<Value, StopKind>
    requires { IsSound program.now }
    ensures { wired result ≡ field_by (known_of program.now) (wire_view view) s f (Some field.now) }
{
    let first = field_cell(program, view, s, f);
    if first < 4294967296 {
        let ty = type_number(program, &field.ty);
        Ok(pointer_to(view.block, first as u32, ty, field.count))
    } else {
        Err(StopKind::Bounds)
    }
}

/// A field of a struct.
fn field_numbered(structs: &[StructDef], s: u32, f: u32) -> Option<&Field>
    ensures { option_copied result ≡ slice_get (fields_of structs.now s) f }
{
    fields(structs, s).get(f as usize)
}

/// A pointer to a field of a struct, if it has such a field.
fn field_of(program: &Program, view: View, s: u32, f: u32) -> Result<Value, StopKind>
    requires { IsSound program.now }
    ensures { wired result ≡ field_by (known_of program.now) (wire_view view) s f (slice_get (fields_of program.now.structs s) f) }
{
    match field_numbered(program.structs.as_slice(), s, f) {
        Some(field) => field_pointer(program, view, s, f, field),
        None => Err(StopKind::Bounds),
    }
}

/// The struct that the type of this number is.
fn struct_numbered(program: &Program, ty: u32) -> Option<u32>
    ensures { result ≡ struct_numbered (without_funcs program.now) ty }
{
    match program.types.as_slice().get(ty as usize) {
        Some(ty) => struct_named(ty),
        None => None,
    }
}

/// A pointer to a field of what a pointer points to, if that is a struct.
fn field_in(program: &Program, view: View, s: Option<u32>, f: u32) -> Result<Value, StopKind>
    requires { IsSound program.now }
    ensures { wired result ≡ field_in (known_of program.now) (wire_view view) s f }
{
    match s {
        Some(s) => field_of(program, view, s, f),
        None => Err(StopKind::Bounds),
    }
}

fn member_view(program: &Program, view: View, f: u32) -> Result<Value, StopKind>
    requires { IsSound program.now }
    ensures { wired result ≡ member (known_of program.now) (wire.Ptr (wire_view view)) f }
{
    if view.index < view.count {
        field_in(program, view, struct_numbered(program, view.ty), f)
    } else {
        Err(StopKind::Bounds)
    }
}

fn member_value(program: &Program, value: Value, f: u32) -> Result<Value, StopKind>
    requires { IsSound program.now }
    ensures { wired result ≡ member (known_of program.now) (wire_of value) f }
{
    match value {
        Value::Ptr(view) => member_view(program, view, f),
        Value::Dead => Err(StopKind::Dead),
        Value::Int(_, _) => Err(StopKind::Null),
        Value::Null => Err(StopKind::Null),
        Value::Fn(_) => Err(StopKind::Null),
        Value::Lock(_) => Err(StopKind::Null),
        Value::NoValue => Err(StopKind::Null),
    }
}

/// A pointer to a member of the struct that a pointer points to.
pub(crate) fn member(
    program: &Program,
    pointer: Result<Value, StopKind>,
    f: u32,
) -> Result<Value, StopKind>
    requires { IsSound program.now }
    ensures { wired result ≡ after_value (wired pointer) (λ x. member (known_of program.now) x f) }
{
    match pointer {
        Ok(value) => member_value(program, value, f),
        Err(stop) => Err(stop),
    }
}
