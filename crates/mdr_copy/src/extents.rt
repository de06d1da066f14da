// Where runs lie, and which follow which.

ghost use Rattle.std.specs.Prelude.{◌≡◌, None, option_map};
ghost use Rattle.mdr_copy.specs.Extents.{set_run};
ghost use Rattle.mdr_model.specs.Sets.{follows, follows_maybe};
ghost use Rattle.mdr_model.specs.Faults.{set_run_of};

use mdr_model::Run;

/// Where the cells of a run lie.
#[derive(Clone, Copy)]
pub struct Extent {
    pub serial: u64,
    pub first: u32,
    pub len: usize,
}

/// Where the cells of a run of values lie.
pub fn extent_of(run: &Run) -> Extent
    ensures { set_run result ≡ set_run_of run.now }
{
    Extent {
        serial: run.serial,
        first: run.first,
        len: run.values.len(),
    }
}

fn follows(before: Extent, run: Extent) -> bool
    ensures { result ≡ follows (set_run before) (set_run run) }
{
    before.serial < run.serial
        || (before.serial == run.serial
            && before.first < run.first
            && before.len <= (run.first - before.first) as usize)
}

/// Whether a run begins after the beginning of the one before it, and not before its end.
pub fn follows_maybe(before: Option<Extent>, run: Extent) -> bool
    ensures { result ≡ follows_maybe (option_map set_run before) (set_run run) }
{
    match before {
        Some(before) => follows(before, run),
        None => true,
    }
}
