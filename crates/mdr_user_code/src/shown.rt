// Which cells a message may show.

ghost use Rattle.std.specs.Prelude.{◌≡◌, None};
ghost use Rattle.std.specs.List.{list_all};
ghost use Rattle.mdr_copy.specs.Extents.{set_run};
ghost use Rattle.mdr_core.specs.Sound.{IsSound};
ghost use Rattle.mdr_extents.specs.Reaching.{counts};
ghost use Rattle.mdr_model.specs.Sets.{cells_of_run, rises_after};
ghost use Rattle.mdr_split.specs.User.{may_show, view_fits};

use crate::keys::counts_in;
use mdr_copy::{Extent, RisingBlocks, born_at, follows_maybe};
use mdr_core::{Key, Program};
use mdr_model::SetRun;

fn extent_of_cells(run: SetRun) -> Extent
    ensures { set_run result ≡ run }
{
    Extent {
        serial: run.serial,
        first: run.first,
        len: run.len as usize,
    }
}

/// Whether each run of cells follows the one before it.
fn rise(runs: &[SetRun]) -> bool
    ensures { result ≡ rises_after None runs.now }
{
    let mut before = None;
    for run in runs {
        let extent = extent_of_cells(*run);
        if !follows_maybe(before, extent) {
            return false;
        }
        before = Some(extent);
    }
    true
}

/// Whether user code may touch each cell of a run.
fn all_count(program: &Program, touched: &[Key], copy: &RisingBlocks, run: SetRun) -> bool
    requires { IsSound program.now }
    ensures { result ≡ list_all (counts program.now touched.now copy.now) (cells_of_run run) }
{
    let block = born_at(copy, run.serial);
    for i in 0..run.len {
        if !counts_in(program, touched, block, run.first as u64 + i as u64) {
            return false;
        }
    }
    true
}

fn may_show(program: &Program, touched: &[Key], copy: &RisingBlocks, run: SetRun) -> bool
    requires { IsSound program.now }
    ensures { result ≡ may_show program.now touched.now copy.now run }
{
    0 < run.len && all_count(program, touched, copy, run)
}

fn all_may_show(program: &Program, touched: &[Key], copy: &RisingBlocks, view: &[SetRun]) -> bool
    requires { IsSound program.now }
    ensures { result ≡ list_all (may_show program.now touched.now copy.now) view.now }
{
    view.iter()
        .all(|run| may_show(program, touched, copy, *run))
}

/// Whether the visible cells of a message fit: the runs rise without overlap, and each has cells of a known block that
/// have a key among these, and no other.
#[tactic(auto, unfolding(mdr_split::specs::User::view_fits))]
pub(crate) fn view_fits(
    program: &Program,
    touched: &[Key],
    copy: &RisingBlocks,
    view: &[SetRun],
) -> bool
    requires { IsSound program.now }
    ensures { result ≡ view_fits program.now touched.now copy.now view.now }
{
    rise(view) && all_may_show(program, touched, copy, view)
}
