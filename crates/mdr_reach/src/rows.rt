// What stands around the cells of structs: a row for each struct, made of the rows of lower ones, so that each struct is
// gone through once.

ghost use Rattle.std.specs.Prelude.{◌≡◌, ◌++◌, ◌∷◌, [], length, option_copied, slice_get, IfOk, OnOk};
ghost use Rattle.mdr_core.specs.Layout.{fields_of, repeated};
ghost use Rattle.mdr_extents.specs.Around.{element_offsets, field_offsets, offsets};
ghost use Rattle.mdr_reach.specs.Spots.{AreRows, HasFewCells, element_arounds, field_arounds, field_starts, in_field, known_arounds, known_offsets};

use crate::keys::is_listed;
use crate::lists::push_all;
use crate::numbers::small;
use mdr_core::{Field, Items, Key, Limit, OutOfMemory, StructDef, Ty, within};
use std::alloc::Global;

/// What stands innermost around a cell: no struct, or a field of one, and whether the field's key is among those that may
/// be touched.
#[derive(Clone, Copy)]
pub enum Around {
    Nothing,
    Field(u32, u32, bool),
}

/// The cells of an element of a type: of each what stands around it, and how many cells of that struct come before it.
/// Of a struct also the cell with which each field begins.
#[derive(Drop)]
pub struct Row {
    pub arounds: Items<Around>,
    pub offsets: Items<usize>,
    pub starts: Items<u32>,
}

/// The row without cells.
pub(crate) fn no_cells(alloc: Global) -> Row
    ensures arounds { result.arounds ≡ [] }
    ensures offsets { result.offsets ≡ [] }
    ensures starts { result.starts ≡ [] }
{
    Row {
        arounds: Items::new(alloc),
        offsets: Items::new(alloc),
        starts: Items::new(alloc),
    }
}

/// Adds a scalar.
pub(crate) fn push_scalar(row: &mut Row, around: Around) -> Result<(), OutOfMemory>
    ensures arounds { OnOk result (row.new.arounds ≡ row.old.arounds ++ around ∷ []) }
    ensures offsets { OnOk result (row.new.offsets ≡ row.old.offsets ++ length row.old.offsets ∷ []) }
    ensures starts { OnOk result (row.new.starts ≡ row.old.starts) }
{
    let at = row.offsets.len();
    row.arounds.push(around)?;
    row.offsets.push(at)?;
    Ok(())
}

/// Adds the cells of a struct.
fn push_cells(row: &mut Row, inner: &Row) -> Result<(), OutOfMemory>
    ensures arounds { OnOk result (row.new.arounds ≡ row.old.arounds ++ inner.now.arounds) }
    ensures offsets { OnOk result (row.new.offsets ≡ row.old.offsets ++ inner.now.offsets) }
    ensures starts { OnOk result (row.new.starts ≡ row.old.starts) }
{
    push_all(&mut row.arounds, inner.arounds.as_slice())?;
    push_all(&mut row.offsets, inner.offsets.as_slice())?;
    Ok(())
}

/// A struct's row.
pub(crate) fn row_at(rows: &[Row], s: u32) -> Option<&Row>
    ensures { option_copied result ≡ slice_get rows.now s }
{
    rows.get(s as usize)
}

/// Adds the cells of a struct that has a row.
fn push_struct(row: &mut Row, rows: &[Row], s: u32) -> Result<(), OutOfMemory>
    ensures arounds { OnOk result (row.new.arounds ≡ row.old.arounds ++ known_arounds rows.now s) }
    ensures offsets { OnOk result (row.new.offsets ≡ row.old.offsets ++ known_offsets rows.now s) }
    ensures starts { OnOk result (row.new.starts ≡ row.old.starts) }
{
    match row_at(rows, s) {
        Some(inner) => push_cells(row, inner),
        None => Ok(()),
    }
}

/// Adds the cells of an element.
#[tactic(auto, unfolding(crate::specs::Spots::element_arounds, mdr_extents::specs::Around::offsets))]
fn push_element(row: &mut Row, rows: &[Row], around: Around, ty: &Ty) -> Result<(), OutOfMemory>
    ensures arounds { OnOk result (row.new.arounds ≡ row.old.arounds ++ element_arounds (known_arounds rows.now) around ty.now) }
    ensures offsets { OnOk result (row.new.offsets ≡ row.old.offsets ++ offsets (known_offsets rows.now) (length row.old.offsets) ty.now) }
    ensures starts { OnOk result (row.new.starts ≡ row.old.starts) }
{
    match ty {
        Ty::Struct(s) => push_struct(row, rows, *s),
        Ty::Void => Ok(()),
        Ty::Int(_) | Ty::Lock | Ty::Ptr(_) | Ty::VoidPtr | Ty::Fun(_) => push_scalar(row, around),
    }
}

/// Adds the cells of so many elements.
fn push_elements(
    row: &mut Row,
    rows: &[Row],
    around: Around,
    ty: &Ty,
    count: u32,
) -> Result<(), OutOfMemory>
    ensures arounds { OnOk result (row.new.arounds ≡ row.old.arounds ++ repeated count (element_arounds (known_arounds rows.now) around ty.now)) }
    ensures offsets { OnOk result (row.new.offsets ≡ row.old.offsets ++ element_offsets (known_offsets rows.now) count (length row.old.offsets) ty.now) }
    ensures starts { OnOk result (row.new.starts ≡ row.old.starts) }
{
    let mut left = count;
    while left > 0 {
        push_element(row, rows, around, ty)?;
        left -= 1;
    }
    Ok(())
}

/// A field of a struct, by its numbers.
fn field_around(touched: &[Key], s: u32, f: u32) -> Around
    ensures { result ≡ in_field touched.now s f }
{
    Around::Field(s, f, is_listed(touched, Key::Field(s, f)))
}

/// Adds the cells of a field.
fn push_field(
    row: &mut Row,
    rows: &[Row],
    touched: &[Key],
    s: u32,
    f: usize,
    field: &Field,
) -> Result<(), OutOfMemory>
    ensures arounds { OnOk result (row.new.arounds ≡ row.old.arounds ++ repeated field.now.count (element_arounds (known_arounds rows.now) (in_field touched.now s f) field.now.ty)) }
    ensures offsets { OnOk result (row.new.offsets ≡ row.old.offsets ++ element_offsets (known_offsets rows.now) field.now.count (length row.old.offsets) field.now.ty) }
    ensures starts { OnOk result (row.new.starts ≡ row.old.starts ++ length row.old.arounds ∷ []) }
{
    let f = small(f)?;
    let start = small(row.arounds.len())?;
    row.starts.push(start)?;
    push_elements(
        row,
        rows,
        field_around(touched, s, f),
        &field.ty,
        field.count,
    )
}

/// The fields of a struct.
pub(crate) fn fields(structs: &[StructDef], s: u32) -> &[Field]
    ensures { result.now ≡ fields_of structs.now s }
{
    match structs.get(s as usize) {
        Some(def) => def.fields.as_slice(),
        None => &[],
    }
}

/// A row has few cells, or is too large to be held.
fn are_few(row: &Row) -> Result<(), OutOfMemory>
    ensures { OnOk result (HasFewCells row.now) }
{
    within(row.arounds.len() as u64, Limit::Cells)?;
    Ok(())
}

/// The row of a struct's fields, where lower structs have theirs.
fn fields_row(
    alloc: Global,
    rows: &[Row],
    touched: &[Key],
    s: u32,
    fields: &[Field],
) -> Result<Row, OutOfMemory>
    ensures arounds { IfOk result (λ row. row.arounds ≡ field_arounds touched.now (known_arounds rows.now) s 0 fields.now) }
    ensures offsets { IfOk result (λ row. row.offsets ≡ field_offsets (known_offsets rows.now) 0 fields.now) }
    ensures starts { IfOk result (λ row. row.starts ≡ field_starts (known_arounds rows.now) 0 fields.now) }
    ensures few { IfOk result HasFewCells }
{
    let mut row = no_cells(alloc);
    for (f, field) in fields.iter().enumerate() {
        push_field(&mut row, rows, touched, s, f, field)?;
    }
    are_few(&row)?;
    Ok(row)
}

/// The rows of all structs, in their order.
pub(crate) fn rows_of(
    alloc: Global,
    structs: &[StructDef],
    touched: &[Key],
) -> Result<Items<Row>, OutOfMemory>
    ensures { IfOk result (λ rows. AreRows structs.now touched.now (length structs.now) rows) }
{
    let mut rows = Items::new(alloc);
    for s in 0..structs.len() {
        let number = small(s)?;
        let row = fields_row(
            alloc,
            rows.as_slice(),
            touched,
            number,
            fields(structs, number),
        )?;
        rows.push(row)?;
    }
    Ok(rows)
}
