// The objects of locals that die with a message.

ghost use Rattle.std.specs.Prelude.{◌≡◌};
ghost use Rattle.std.specs.List.{list_all};
ghost use Rattle.mdr_model.specs.Agreement.{has};
ghost use Rattle.mdr_split.specs.User.{agrees, objects_fit};

/// Whether a serial is among some.
#[tactic(auto, unfolding(mdr_model::specs::Agreement::has))]
fn has(serials: &[u64], serial: u64) -> bool
    ensures { result ≡ has serials.now serial }
{
    serials.iter().any(|s| *s == serial)
}

fn agrees(a: bool, b: bool) -> bool
    ensures { result ≡ agrees a b }
{
    if a { b } else { !b }
}

fn object_fits(leaving: &[u64], deaths: &[u64], serial: u64) -> bool
    ensures { result ≡ agrees (has leaving.now serial) (has deaths.now serial) }
{
    agrees(has(leaving, serial), has(deaths, serial))
}

/// Whether of the blocks that came in an answer to service 13 those die that are left now, and no others.
#[tactic(auto, unfolding(mdr_split::specs::User::objects_fit))]
pub(crate) fn objects_fit(leaving: &[u64], deaths: &[u64], entered: &[u64]) -> bool
    ensures { result ≡ objects_fit leaving.now deaths.now entered.now }
{
    entered.iter().all(|n| object_fits(leaving, deaths, *n))
}
