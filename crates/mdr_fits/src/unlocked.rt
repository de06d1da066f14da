// Which types have no locks in their cells.

ghost use Rattle.std.specs.Prelude.{◌≡◌, MatchOption, None, Some, not, slice_get};
ghost use Rattle.std.specs.List.{list_all};
ghost use Rattle.mdr_core.specs.Layout.{Alone, Leaf, cells_at, fields_of, leaves, leaves_below, repeated, struct_cells, struct_of};
ghost use Rattle.mdr_core.specs.Suited.{is_lock};
ghost use Rattle.mdr_copy.specs.CellTypes.{types_of};
ghost use Rattle.mdr_fits.specs.Tables.{is_open};

use mdr_core::{Field, Program, StructDef, Ty};

fn fields(structs: &[StructDef], s: u32) -> &[Field]
    ensures { result.now ≡ fields_of structs.now s }
{
    match structs.get(s as usize) {
        Some(def) => def.fields.as_slice(),
        None => &[],
    }
}

fn struct_named(ty: &Ty) -> Option<u32>
    ensures { result ≡ struct_of ty.now }
{
    match ty {
        Ty::Struct(s) => Some(*s),
        Ty::Void | Ty::Int(_) | Ty::Lock | Ty::Ptr(_) | Ty::VoidPtr | Ty::Fun(_) => None,
    }
}

fn is_lock(ty: &Ty) -> bool
    ensures { result ≡ is_lock ty.now }
{
    match ty {
        Ty::Lock => true,
        Ty::Void | Ty::Struct(_) | Ty::Int(_) | Ty::Ptr(_) | Ty::VoidPtr | Ty::Fun(_) => false,
    }
}

/// Whether no cell of a struct is a lock.
#[cycle(unlocked)]
#[tactic(auto, unfolding(mdr_core::specs::Layout::struct_cells))]
fn struct_is_open(structs: &[StructDef], s: u32) -> bool
    ensures { result ≡ list_all is_open (types_of (struct_cells structs.now s)) }
{
    for field in fields(structs, s) {
        if !field_is_open(structs, s, field.count, &field.ty) {
            return false;
        }
    }
    true
}

/// Whether no cell of a field is a lock, in which only the structs below a number have any.
#[cycle(unlocked)]
fn field_is_open(structs: &[StructDef], below: u32, count: u32, ty: &Ty) -> bool
    ensures { result ≡ list_all is_open (types_of (repeated count (leaves (leaves_below structs.now below) Alone ty.now))) }
{
    if count == 0 {
        return true;
    }
    match struct_named(ty) {
        Some(s) => {
            if s < below {
                struct_is_open(structs, s)
            } else {
                true
            }
        }
        None => !is_lock(ty),
    }
}

fn element_is_open(structs: &[StructDef], ty: &Ty) -> bool
    ensures { result ≡ list_all is_open (types_of (leaves (struct_cells structs.now) Alone ty.now)) }
{
    match struct_named(ty) {
        Some(s) => struct_is_open(structs, s),
        None => !is_lock(ty),
    }
}

fn type_named(program: &Program, ty: u32) -> Option<&Ty>
    ensures { MatchOption result (slice_get program.now.types ty ≡ None) (λ t. slice_get program.now.types ty ≡ Some t.now) }
{
    program.types.as_slice().get(ty as usize)
}

/// Whether no cell of the type with a number is a lock. The time is that of a walk over the fields of the structs in it,
/// each struct once for each field that has it, whatever the counts.
pub(crate) fn is_unlocked(program: &Program, ty: u32) -> bool
    ensures { result ≡ list_all (λ (l : Leaf). not (is_lock l.type)) (cells_at program.now ty) }
{
    match type_named(program, ty) {
        Some(named) => element_is_open(program.structs.as_slice(), named),
        None => true,
    }
}
