// Equality of types.

ghost use Rattle.std.specs.Prelude.{◌≡◌, ◌↔◌, ◌<◌, ℕ, IsTrue, MatchOption, Some, slice_get};

use crate::program::Program;
use crate::types::Ty;

/// Whether two types are one (C99 6.2.7: what the profile has are equal types alone). Structs are compared by
/// their numbers.
#[cycle(same)]
pub fn same_type(a: &Ty, b: &Ty) -> bool
    ensures { IsTrue result ↔ (a.now ≡ b.now) }
{
    match (a, b) {
        (Ty::Int(k), Ty::Int(l)) => *k == *l,
        (Ty::Lock, Ty::Lock) => true,
        (Ty::Struct(s), Ty::Struct(t)) => *s == *t,
        (Ty::Ptr(t), Ty::Ptr(u)) => same_type(t.get(), u.get()),
        (Ty::VoidPtr, Ty::VoidPtr) => true,
        (Ty::Fun(ts), Ty::Fun(us)) => same_types(ts.as_slice(), us.as_slice()),
        (Ty::Void, Ty::Void) => true,
        _ => false,
    }
}

/// Whether two lists have the same types.
#[cycle(same)]
fn same_types(ts: &[Ty], us: &[Ty]) -> bool
    ensures { IsTrue result ↔ (ts.now ≡ us.now) }
{
    if ts.len() != us.len() {
        return false;
    }
    for i in 0..ts.len() {
        if !same_type(&ts[i], &us[i]) {
            return false;
        }
    }
    true
}

/// The number of a type in a program's type table, of which a sound program's has at most one.
pub fn type_number(program: &Program, ty: &Ty) -> Option<u32>
    ensures { MatchOption result ((i : ℕ) → i < 4294967296 → slice_get program.now.types i ≡ Some ty.now → ⊥) (λ n. slice_get program.now.types n ≡ Some ty.now) }
{
    let types = program.types.as_slice();
    for i in 0..types.len().min(1 << 32) {
        if same_type(&types[i], ty) {
            return Some(i as u32);
        }
    }
    None
}
