// Forms with several parts.

ghost use Rattle.std.specs.Prelude.{◌≡◌, ◌++◌, IfOk};
ghost use Rattle.mdr_faults.specs.Faults.{Checked, told, demand, refuse, joined, extended, followed};
ghost use Rattle.mdr_faults.specs.declared.fault.FaultKind.TheVariants.{Mismatch};

use crate::fault::{Fault, FaultKind, lesser};
use mdr_core::{Items, Place};
use std::alloc::AllocError;

/// Two parts: both, or the first fault of either.
pub fn both<A: Drop, B: Drop>(a: Result<A, Fault>, b: Result<B, Fault>) -> Result<(A, B), Fault>
    ensures { result ≡ joined a b }
{
    match a {
        Ok(x) => match b {
            Ok(y) => Ok((x, y)),
            Err(g) => Err(g),
        },
        Err(f) => match b {
            Ok(_y) => Err(f),
            Err(g) => Err(lesser(f, g)),
        },
    }
}

/// One part more.
pub fn extended<A: Drop>(
    all: Result<Items<A>, Fault>,
    next: Result<A, Fault>,
) -> Result<Result<Items<A>, Fault>, AllocError>
    ensures { IfOk result (λ r. r ≡ extended all next) }
{
    match both(all, next) {
        Ok((mut xs, x)) => {
            xs.push(x)?;
            Ok(Ok(xs))
        }
        Err(fault) => Ok(Err(fault)),
    }
}

/// A rule of a form's own: a fault more where the test fails.
pub fn demanded<A: Drop>(
    place: Place,
    kind: FaultKind,
    holds: bool,
    form: Result<A, Fault>,
) -> Result<A, Fault>
    ensures { (c : Checked A) → form ≡ told c → result ≡ told (demand place kind holds c) }
{
    if holds {
        return form;
    }
    match form {
        Ok(_) => Err(Fault { place, kind }),
        Err(fault) => Err(lesser(Fault { place, kind }, fault)),
    }
}

/// A wrong type.
pub fn mismatch<A: Drop>(place: Place) -> Result<A, Fault>
    ensures { result ≡ told (refuse {A = A} place Mismatch) }
{
    Err(Fault {
        place,
        kind: FaultKind::Mismatch,
    })
}

/// All of the one, and then all of the other.
pub fn followed<A: Drop>(
    all: Result<Items<A>, Fault>,
    rest: Result<Items<A>, Fault>,
) -> Result<Result<Items<A>, Fault>, AllocError>
    ensures { IfOk result (λ r. r ≡ followed all rest) }
{
    match both(all, rest) {
        Ok((xs, ys)) => Ok(Ok(appended(xs, ys)?)),
        Err(fault) => Ok(Err(fault)),
    }
}

fn appended<A: Drop>(xs: Items<A>, ys: Items<A>) -> Result<Items<A>, AllocError>
    ensures { IfOk result (λ zs. zs ≡ xs ++ ys) }
{
    let mut all = xs;
    for y in ys.into_vec() {
        all.push(y)?;
    }
    Ok(all)
}
