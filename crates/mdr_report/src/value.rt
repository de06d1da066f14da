// Values in reports.

ghost use Rattle.std.specs.Prelude.{◌≡◌, ◌++◌, OnOk, codes};
ghost use Rattle.mdr_model.specs.Report.{value_shown, argument_shown, cell_shown, arguments_shown, cells_shown, lock_name};

use crate::names::{put_func, put_global};
use crate::put::{put_number, put_signed, put_word};
use mdr_core::{LockState, Program, Value};
use mdr_model::Seen;
use std::alloc::{AllocError, Global};

fn lock_word(state: LockState) -> &'static str
    ensures { result.now ≡ lock_name state }
{
    match state {
        LockState::Free => "free",
        LockState::Spin | LockState::Sleep => "held",
    }
}

/// A value of an event.
#[tactic(auto, unfolding(mdr_model::specs::Report::value_shown))]
pub fn put_value(
    alloc: Global,
    out: &mut Vec<u8>,
    program: &Program,
    value: Value,
) -> Result<(), AllocError>
    ensures { OnOk result (out.new.items ≡ out.old.items ++ value_shown program.now value) }
{
    match value {
        Value::Int(_, n) => put_signed(alloc, out, n),
        Value::Null => put_word(out, "null"),
        Value::Ptr(_) => put_word(out, "ptr"),
        Value::Dead => put_word(out, "dead"),
        Value::Fn(func) => {
            put_word(out, "&")?;
            put_func(out, program, func)
        }
        Value::Lock(state) => put_word(out, lock_word(state)),
        Value::NoValue => put_word(out, "none"),
    }
}

/// An argument of a call, as the script has it.
#[tactic(auto, unfolding(mdr_model::specs::Report::argument_shown))]
fn put_argument(
    alloc: Global,
    out: &mut Vec<u8>,
    program: &Program,
    value: Value,
) -> Result<(), AllocError>
    ensures { OnOk result (out.new.items ≡ out.old.items ++ argument_shown program.now value) }
{
    match value {
        Value::Ptr(view) => {
            put_word(out, "&")?;
            put_global(out, program, view.block.serial)
        }
        Value::Int(_, _)
        | Value::Null
        | Value::Dead
        | Value::Fn(_)
        | Value::Lock(_)
        | Value::NoValue => { put_value(alloc, out, program, value) }
    }
}

/// The arguments of a call, each after a blank.
#[tactic(auto, unfolding(mdr_model::specs::Report::arguments_shown))]
pub fn put_arguments(
    alloc: Global,
    out: &mut Vec<u8>,
    program: &Program,
    args: &[Value],
) -> Result<(), AllocError>
    ensures { OnOk result (out.new.items ≡ out.old.items ++ arguments_shown program.now args.now) }
{
    for value in args {
        put_word(out, " ")?;
        put_argument(alloc, out, program, *value)?;
    }
    Ok(())
}

/// A cell of an object.
#[tactic(auto, unfolding(mdr_model::specs::Report::cell_shown))]
fn put_cell(
    alloc: Global,
    out: &mut Vec<u8>,
    program: &Program,
    seen: Seen,
) -> Result<(), AllocError>
    ensures { OnOk result (out.new.items ≡ out.old.items ++ cell_shown program.now seen) }
{
    match seen {
        Seen::Int(n) => put_signed(alloc, out, n),
        Seen::Null => put_word(out, "null"),
        Seen::Dead => put_word(out, "dead"),
        Seen::At(object, cell) => {
            put_word(out, "@")?;
            put_number(alloc, out, object)?;
            put_word(out, "+")?;
            put_number(alloc, out, cell)
        }
        Seen::Fn(func) => {
            put_word(out, "&")?;
            put_func(out, program, func)
        }
        Seen::Free => put_word(out, "free"),
        Seen::Held => put_word(out, "held"),
    }
}

/// The cells of an object, each after a blank.
#[tactic(auto, unfolding(mdr_model::specs::Report::cells_shown))]
pub fn put_cells(
    alloc: Global,
    out: &mut Vec<u8>,
    program: &Program,
    cells: &[Seen],
) -> Result<(), AllocError>
    ensures { OnOk result (out.new.items ≡ out.old.items ++ cells_shown program.now cells.now) }
{
    for seen in cells {
        put_word(out, " ")?;
        put_cell(alloc, out, program, *seen)?;
    }
    Ok(())
}
