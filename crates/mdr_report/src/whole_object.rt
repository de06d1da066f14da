// The lines of a whole driver's objects.

ghost use Rattle.std.specs.Prelude.{◌≡◌, ◌++◌, OnOk};
ghost use Rattle.mdr_model.specs.Values.{type_at};
ghost use Rattle.mdr_plain.specs.Report.{object_line, object_lines, type_shown};

use crate::object::{put_contents, put_object_number};
use mdr_core::{Program, type_text};
use mdr_model::Object;
use std::alloc::{AllocError, Global};

/// The text of a type of the table, or nothing where there is none.
fn put_type_text(out: &mut Vec<u8>, program: &Program, ty: u32) -> Result<(), AllocError>
    ensures { OnOk result (out.new.items ≡ out.old.items ++ type_shown program.now (type_at program.now ty)) }
{
    match program.types.as_slice().get(ty as usize) {
        Some(t) => type_text(out, program, t),
        None => Ok(()),
    }
}

#[tactic(auto, unfolding(mdr_plain::specs::Report::object_line))]
fn put_object(
    alloc: Global,
    out: &mut Vec<u8>,
    program: &Program,
    number: u64,
    object: &Object,
) -> Result<(), AllocError>
    ensures { OnOk result (out.new.items ≡ out.old.items ++ object_line program.now number object.now) }
{
    put_object_number(alloc, out, number)?;
    put_type_text(out, program, object.ty)?;
    put_contents(alloc, out, program, object)
}

/// A line for each object, numbered from 1.
#[tactic(auto, unfolding(mdr_plain::specs::Report::object_lines))]
pub fn put_whole_objects(
    alloc: Global,
    out: &mut Vec<u8>,
    program: &Program,
    objects: &[Object],
) -> Result<(), AllocError>
    ensures { OnOk result (out.new.items ≡ out.old.items ++ object_lines program.now 1 objects.now) }
{
    for (i, object) in objects.iter().enumerate() {
        put_object(alloc, out, program, i as u64 + 1, object)?;
    }
    Ok(())
}
