// Cells as they are shown.

ghost use Rattle.std.specs.Prelude.{◌≡◌, ◌++◌, IfOk, OnOk, map};
ghost use Rattle.mdr_core.specs.Sound.{IsSound};
ghost use Rattle.mdr_events.specs.Values.{wires_of};
ghost use Rattle.mdr_meaning.specs.declared.wire.Wire.TheVariants as wire;
ghost use Rattle.mdr_meaning.specs.Pointers.{position, size};
ghost use Rattle.mdr_meaning.specs.Values.{wire_of, wire_view};
ghost use Rattle.mdr_model.specs.Outcome.{seen_lock};
ghost use Rattle.mdr_plain.specs.Outcome.{seen_of};
ghost use Rattle.mdr_shown.specs.Met.{AreNumbered};

use crate::met::{Met, number_of};
use mdr_core::{Items, LockState, OutOfMemory, Program, Value, View, cells_of};
use mdr_model::Seen;
use std::alloc::Global;

fn lock_seen(state: LockState) -> Seen
    ensures { result ≡ seen_lock state }
{
    match state {
        LockState::Free => Seen::Free,
        LockState::Spin | LockState::Sleep => Seen::Held,
    }
}

/// How many cells an element has of the type with this number.
#[tactic(auto, unfolding(mdr_meaning::specs::Pointers::size))]
fn size_of(program: &Program, ty: u32) -> u32
    requires { IsSound program.now }
    ensures { result ≡ size program.now ty }
{
    if (ty as usize) < program.types.len() {
        cells_of(program, ty)
    } else {
        0
    }
}

/// The cell of its block that a pointer points to.
fn cell_of(program: &Program, view: View) -> u64
    requires { IsSound program.now }
    ensures { result ≡ position program.now (wire_view view) }
{
    if view.index == 0 {
        return view.first as u64;
    }
    view.first as u64 + view.index as u64 * size_of(program, view.ty) as u64
}

fn seen_pointer(program: &Program, met: &Met, view: View) -> Seen
    requires sound { IsSound program.now }
    requires numbered { AreNumbered met.now }
    ensures { result ≡ seen_of program.now met.now.serials.items (wire.Ptr (wire_view view)) }
{
    Seen::At(number_of(met, view.block.serial), cell_of(program, view))
}

/// A cell's value.
fn seen(program: &Program, met: &Met, value: Value) -> Seen
    requires sound { IsSound program.now }
    requires numbered { AreNumbered met.now }
    ensures { result ≡ seen_of program.now met.now.serials.items (wire_of value) }
{
    match value {
        Value::Int(_, n) => Seen::Int(n),
        Value::Null | Value::NoValue => Seen::Null,
        Value::Ptr(view) => seen_pointer(program, met, view),
        Value::Dead => Seen::Dead,
        Value::Fn(func) => Seen::Fn(func),
        Value::Lock(state) => lock_seen(state),
    }
}

/// The values of a block's cells.
pub fn seen_cells(
    alloc: Global,
    program: &Program,
    met: &Met,
    values: &[Value],
) -> Result<Items<Seen>, OutOfMemory>
    requires sound { IsSound program.now }
    requires numbered { AreNumbered met.now }
    ensures { IfOk result (λ cells. cells ≡ map (seen_of program.now met.now.serials.items) (wires_of values.now)) }
{
    let mut cells = Vec::with_capacity(alloc, values.len())?;
    for value in values {
        cells.push(seen(program, met, *value))?;
    }
    Ok(Items::from_vec(cells))
}
