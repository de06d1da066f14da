// What stands around the cells of types.

ghost use Rattle.std.specs.Prelude.{◌≡◌, IfOk, Some, length, slice_get};
ghost use Rattle.mdr_core.specs.declared.types.Ty.{out-Ty};
ghost use Rattle.mdr_core.specs.Layout.{field_start};
ghost use Rattle.mdr_meaning.specs.Pointers.{size};
ghost use Rattle.mdr_reach.specs.Spots.{AreLayouts, HasFewCells, IsRowOf, row_at, row_by, row_or, start_in};

use crate::keys::{LoneKeys, lone_keys};
use crate::rows::{Around, Row, no_cells, push_scalar, rows_of};
use mdr_core::{Items, Key, OutOfMemory, Program, Ty};
use std::alloc::Global;

/// The rows of structs, that of a scalar, and that of nothing; and the keys that may be touched of cells that no struct is
/// around.
#[derive(Drop)]
pub struct Layouts {
    pub keys: LoneKeys,
    pub rows: Items<Row>,
    pub lone: Row,
    pub none: Row,
}

/// The table of a program's structs, of which these keys may be touched.
pub(crate) fn layouts_of(
    alloc: Global,
    program: &Program,
    touched: &[Key],
) -> Result<Layouts, OutOfMemory>
    ensures { IfOk result (AreLayouts program.now touched.now) }
{
    let keys = lone_keys(alloc, touched)?;
    let rows = rows_of(alloc, program.structs.as_slice(), touched)?;
    let mut lone = no_cells(alloc);
    push_scalar(&mut lone, Around::Nothing)?;
    let none = no_cells(alloc);
    Ok(Layouts {
        keys,
        rows,
        lone,
        none,
    })
}

/// The row of a struct.
fn struct_row(layouts: &Layouts, s: u32) -> &Row
    ensures { result.now ≡ row_or (slice_get layouts.now.rows s) layouts.now.none }
{
    match layouts.rows.as_slice().get(s as usize) {
        Some(row) => row,
        None => &layouts.none,
    }
}

/// The row of a type.
fn row_of<'a>(layouts: &'a Layouts, ty: &Ty) -> &'a Row
    ensures { result.now ≡ row_by layouts.now (out-Ty ty.now) }
{
    match ty {
        Ty::Struct(s) => struct_row(layouts, *s),
        Ty::Void => &layouts.none,
        Ty::Int(_) | Ty::Lock | Ty::Ptr(_) | Ty::VoidPtr | Ty::Fun(_) => &layouts.lone,
    }
}

/// The row of the type with a number.
fn row_numbered<'a>(layouts: &'a Layouts, program: &Program, ty: u32) -> &'a Row
    ensures { result.now ≡ row_at layouts.now (slice_get program.now.types ty) }
{
    match program.types.as_slice().get(ty as usize) {
        Some(ty) => row_of(layouts, ty),
        None => &layouts.none,
    }
}

/// The cells of an element of the type with a number.
pub(crate) fn row_for<'a>(
    layouts: &'a Layouts,
    program: &Program,
    touched: &[Key],
    ty: u32,
) -> &'a Row
    requires { AreLayouts program.now touched.now layouts.now }
    ensures { IsRowOf program.now touched.now ty result.now }
{
    row_numbered(layouts, program, ty)
}

/// How many cells an element has of the type with a number.
pub(crate) fn size_of(layouts: &Layouts, program: &Program, touched: &[Key], ty: u32) -> u32
    requires { AreLayouts program.now touched.now layouts.now }
    ensures { result ≡ size program.now ty }
{
    cells_of(row_for(layouts, program, touched, ty))
}

/// How many cells a row has.
fn cells_of(row: &Row) -> u32
    requires { HasFewCells row.now }
    ensures { result ≡ length row.now.arounds }
{
    row.arounds.len() as u32
}

/// The cell of a struct with which a field begins.
pub(crate) fn start_of(layouts: &Layouts, program: &Program, touched: &[Key], s: u32, f: u32) -> u32
    requires { AreLayouts program.now touched.now layouts.now }
    ensures { result ≡ field_start program.now.structs s f }
{
    match layouts.rows.as_slice().get(s as usize) {
        Some(row) => start_in(row, f),
        None => 0,
    }
}

fn start_in(row: &Row, f: u32) -> u32
    requires { HasFewCells row.now }
    ensures { result ≡ start_in (Some row.now) f }
{
    match row.starts.as_slice().get(f as usize) {
        Some(start) => *start,
        None => cells_of(row),
    }
}
