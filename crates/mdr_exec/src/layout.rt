// Where the fields of a struct lie (C99 6.7.2.1, paragraph 13).

ghost use Rattle.std.specs.Prelude.{◌≡◌, length};
ghost use Rattle.mdr_core.specs.Layout.{AreSmall, AreFew, Alone, field_start, fields_of, leaves, leaves_below, struct_cells, struct_of};

use mdr_core::{Field, StructDef, Ty};

/// The fields of a struct.
pub(crate) fn fields(structs: &[StructDef], s: u32) -> &[Field]
    ensures { result.now ≡ fields_of structs.now s }
{
    match structs.get(s as usize) {
        Some(def) => def.fields.as_slice(),
        None => &[],
    }
}

/// The number of a type's struct.
pub(crate) fn struct_named(ty: &Ty) -> Option<u32>
    ensures { result ≡ struct_of ty.now }
{
    match ty {
        Ty::Struct(s) => Some(*s),
        Ty::Void | Ty::Int(_) | Ty::Lock | Ty::Ptr(_) | Ty::VoidPtr | Ty::Fun(_) => None,
    }
}

/// How many cells a struct has.
#[cycle(size)]
#[tactic(auto, unfolding(mdr_core::specs::Layout::struct_cells))]
fn struct_size(structs: &[StructDef], s: u32) -> u32
    requires { AreSmall structs.now }
    ensures { result ≡ length (struct_cells structs.now s) }
{
    let mut total = 0;
    for field in fields(structs, s) {
        total += field.count * size_below(structs, s, &field.ty);
    }
    total
}

/// How many cells an element of a type has, in which only the structs below a number have any.
#[cycle(size)]
#[tactic(auto, unfolding(mdr_core::specs::Layout::leaves))]
fn size_below(structs: &[StructDef], below: u32, ty: &Ty) -> u32
    requires { AreSmall structs.now }
    ensures { result ≡ length (leaves (leaves_below structs.now below) Alone ty.now) }
{
    match ty {
        Ty::Struct(s) => {
            if *s < below {
                struct_size(structs, *s)
            } else {
                0
            }
        }
        Ty::Void => 0,
        Ty::Int(_) | Ty::Lock | Ty::Ptr(_) | Ty::VoidPtr | Ty::Fun(_) => 1,
    }
}

/// How many cells of a struct lie before a field: all of them where it has no field of that number. The time is that of
/// `cells_of` for each field before it.
pub(crate) fn field_start(structs: &[StructDef], s: u32, f: u32) -> u32
    requires small { AreSmall structs.now }
    requires few { AreFew structs.now }
    ensures { result ≡ field_start structs.now s f }
{
    let mut total = 0;
    let mut number = 0;
    for field in fields(structs, s) {
        if number == f {
            return total;
        }
        total += field.count * size_below(structs, s, &field.ty);
        number += 1;
    }
    total
}
