// The names that a file declares have a greatest length, and those of the parameters of one list are different.

ghost use Rattle.std.specs.Prelude.{◌≡◌};
ghost use Rattle.mdr_faults.specs.Faults.{told};
ghost use Rattle.mdr_headings.specs.Names.{all_good_names, as_well, short_name};
ghost use Rattle.mdr_check.specs.Names.{short_enumerators, short_head, short_items, short_what};

use mdr_core::{Name, Place};
use mdr_faults::Fault;
use mdr_headings::{all_good_names, as_well, first_of, good_list, good_names, short_name};
use mdr_syntax::{Decl, Enumerator, Head, Item, ItemWhat};

#[tactic(auto, using(mdr_headings::proofs::Shortness::nothing_before, mdr_headings::proofs::Shortness::nothing_behind))]
fn short_enumerators(es: &[Enumerator]) -> Result<(), Fault>
    ensures { result ≡ told (short_enumerators es.now) }
{
    let mut all = Ok(());
    for e in es {
        all = first_of(all, short_name(e.place, &e.name));
    }
    all
}

fn short_head(h: &Head) -> Result<(), Fault>
    ensures { result ≡ told (short_head h.now) }
{
    as_well(short_name(h.place, &h.name), good_list(h.params.as_slice()))
}

fn short_struct(place: Place, name: &Name, ds: &[Decl]) -> Result<(), Fault>
    ensures { result ≡ told (as_well (short_name place name.now) (all_good_names ds.now)) }
{
    as_well(short_name(place, name), all_good_names(ds))
}

fn short_what(place: Place, what: &ItemWhat) -> Result<(), Fault>
    ensures { result ≡ told (short_what place what.now) }
{
    match what {
        ItemWhat::Define(name, _, _, _) => short_name(place, name),
        ItemWhat::Struct(at, name, ds) => short_struct(*at, name, ds.as_slice()),
        ItemWhat::Enum(es) => short_enumerators(es.as_slice()),
        ItemWhat::Global(d, _) => good_names(d),
        ItemWhat::Proto(h, _) => short_head(h),
        ItemWhat::Func(h, _, _) => short_head(h),
    }
}

/// Whether each name that a file declares outside bodies is short enough; or the first that isn't.
#[tactic(auto, using(mdr_headings::proofs::Shortness::nothing_before, mdr_headings::proofs::Shortness::nothing_behind), unfolding(crate::specs::Names::short_items))]
pub fn short_items(items: &[Item]) -> Result<(), Fault>
    ensures { result ≡ told (short_items items.now) }
{
    let mut all = Ok(());
    for item in items {
        all = first_of(all, short_what(item.place, &item.what));
    }
    all
}
