// Which types are one (C99 6.2.7).

ghost use Rattle.std.specs.Prelude.{◌≡◌};
ghost use Rattle.mdr_faults.specs.Alike.{is_alike, are_alike};

use mdr_core::Ty;

/// Whether two types are one.
#[cycle(alike)]
pub fn is_alike(t: &Ty, u: &Ty) -> bool
    ensures { result ≡ is_alike t.now u.now }
{
    match (t, u) {
        (Ty::Int(k), Ty::Int(l)) => k.number() == l.number(),
        (Ty::Lock, Ty::Lock) => true,
        (Ty::Struct(s), Ty::Struct(t)) => *s == *t,
        (Ty::Ptr(t), Ty::Ptr(u)) => is_alike(t.get(), u.get()),
        (Ty::VoidPtr, Ty::VoidPtr) => true,
        (Ty::Fun(ts), Ty::Fun(us)) => are_alike(ts.as_slice(), us.as_slice()),
        (Ty::Void, Ty::Void) => true,
        _ => false,
    }
}

/// Whether two lists have the same types.
#[cycle(alike)]
#[tactic(auto, using(crate::proofs::Likeness::unlike_lengths))]
pub fn are_alike(ts: &[Ty], us: &[Ty]) -> bool
    ensures { result ≡ are_alike ts.now us.now }
{
    if ts.len() != us.len() {
        return false;
    }
    for i in 0..ts.len() {
        if !is_alike(&ts[i], &us[i]) {
            return false;
        }
    }
    true
}
