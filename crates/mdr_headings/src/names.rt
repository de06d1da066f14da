// Names have a greatest length, and those of the parameters of one list are different.

ghost use Rattle.std.specs.Prelude.{◌≡◌, map};
ghost use Rattle.mdr_faults.specs.Faults.{told};
ghost use Rattle.mdr_headings.specs.Names.{Verdict, as_well, first_of, perhaps_short, short_name, spelled, spelled_among, good_names, good_params, good_list, all_good_names};

use mdr_core::{Name, Place};
use mdr_faults::{Fault, FaultKind, demanded, is_declared, lesser};
use mdr_syntax::Decl;

/// The first fault of two verdicts.
pub fn first_of(a: Result<(), Fault>, b: Result<(), Fault>) -> Result<(), Fault>
    ensures { result ≡ first_of a b }
{
    match a {
        Ok(_) => match b {
            Ok(_) => Ok(()),
            Err(g) => Err(g),
        },
        Err(f) => match b {
            Ok(_) => Err(f),
            Err(g) => Err(lesser(f, g)),
        },
    }
}

/// Two verdicts.
pub fn as_well(a: Result<(), Fault>, b: Result<(), Fault>) -> Result<(), Fault>
    ensures { (c d : Verdict) → a ≡ told c → b ≡ told d → result ≡ told (as_well c d) }
{
    first_of(a, b)
}

/// Whether a name has at most 63 bytes.
#[tactic(auto, unfolding(crate::specs::Names::short_name))]
pub fn short_name(place: Place, name: &Name) -> Result<(), Fault>
    ensures { result ≡ told (short_name place name.now) }
{
    if name.len() > 63 {
        return Err(Fault {
            place,
            kind: FaultKind::Limit,
        });
    }
    Ok(())
}

fn perhaps_short(place: Place, name: &Option<Name>) -> Result<(), Fault>
    ensures { result ≡ told (perhaps_short place name.now) }
{
    match name {
        None => Ok(()),
        Some(name) => short_name(place, name),
    }
}

/// The names of a parameter among those before it in its list.
fn spelled_among(before: &[Decl], d: &Decl, names: Result<(), Fault>) -> Result<(), Fault>
    ensures { names ≡ told (spelled d.now).names → result ≡ told (spelled_among (map spelled before.now) (spelled d.now)) }
{
    demanded(
        d.place,
        FaultKind::Redefined,
        !is_declared(before, &d.name),
        names,
    )
}

/// Whether the names in a declarator are good: its own, and those within it.
#[cycle(good_names)]
pub fn good_names(d: &Decl) -> Result<(), Fault>
    ensures { result ≡ told (good_names d.now) }
{
    as_well(perhaps_short(d.place, &d.name), good_params(d))
}

/// Whether the names within a declarator are: those of a function pointer's parameters.
#[cycle(good_names)]
pub fn good_params(d: &Decl) -> Result<(), Fault>
    ensures { result ≡ told (good_params d.now) }
{
    match &d.fun {
        None => Ok(()),
        Some(params) => good_list(params.as_slice()),
    }
}

/// Whether those of a list of parameters are.
#[cycle(good_names)]
#[tactic(auto, using(crate::proofs::Shortness::nothing_before, crate::proofs::Shortness::nothing_behind), unfolding(crate::specs::Names::spelled_list))]
pub fn good_list(ds: &[Decl]) -> Result<(), Fault>
    ensures { result ≡ told (good_list ds.now) }
{
    let mut all = Ok(());
    for i in 0..ds.len() {
        let d = &ds[i];
        let names = good_names(d);
        let among = spelled_among(&ds[..i], d, names);
        all = first_of(all, among);
    }
    all
}

/// Whether those of declarators that are no list of parameters are.
#[tactic(auto, using(crate::proofs::Shortness::nothing_before, crate::proofs::Shortness::nothing_behind))]
pub fn all_good_names(ds: &[Decl]) -> Result<(), Fault>
    ensures { result ≡ told (all_good_names ds.now) }
{
    let mut all = Ok(());
    for d in ds {
        all = first_of(all, good_names(d));
    }
    all
}
