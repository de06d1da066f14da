// The lines of objects.

ghost use Rattle.std.specs.Prelude.{◌≡◌, ◌++◌, OnOk, codes, decimal};
ghost use Rattle.mdr_model.specs.Report.{newline, cells_shown};

use crate::put::{put_newline, put_number, put_word};
use crate::value::put_cells;
use mdr_core::Program;
use mdr_model::Object;
use std::alloc::{AllocError, Global};

/// An object's number, in front of its type.
pub fn put_object_number(alloc: Global, out: &mut Vec<u8>, number: u64) -> Result<(), AllocError>
    ensures { OnOk result (out.new.items ≡ out.old.items ++ (codes "obj " ++ (decimal number ++ codes " "))) }
{
    put_word(out, "obj ")?;
    put_number(alloc, out, number)?;
    put_word(out, " ")
}

/// The elements of an object and its cells, up to the end of the line.
pub fn put_contents(
    alloc: Global,
    out: &mut Vec<u8>,
    program: &Program,
    object: &Object,
) -> Result<(), AllocError>
    ensures { OnOk result (out.new.items ≡ out.old.items ++ (codes " x" ++ (decimal object.now.count ++ (codes ":" ++ (cells_shown program.now object.now.cells ++ newline))))) }
{
    put_word(out, " x")?;
    put_number(alloc, out, u64::from(object.count))?;
    put_word(out, ":")?;
    put_cells(alloc, out, program, object.cells.as_slice())?;
    put_newline(out)
}
