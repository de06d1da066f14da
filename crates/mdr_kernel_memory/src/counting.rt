// What a run that is guarded has counted.

ghost use Rattle.std.specs.Prelude.{◌≡◌, suc, length};

use mdr_watch::Guarded;

/// The ticks that were counted, those that the budget leaves, how many commands called a function, and how many upcalls
/// are open around the innermost.
#[derive(Clone, Copy)]
pub struct Counts {
    pub ticks: u64,
    pub rest: u64,
    pub calls: u64,
    pub below: u64,
}

/// The counts of a run in which upcalls are open.
pub fn counts_of(guarded: &Guarded) -> Counts
    ensures ticks { result.ticks ≡ guarded.now.world.clock.ticks }
    ensures rest { result.rest ≡ guarded.now.world.clock.rest }
    ensures calls { result.calls ≡ guarded.now.world.kept.calls }
    ensures below { suc result.below ≡ length guarded.now.world.views }
{
    let world = guarded.world();
    Counts {
        ticks: world.ticks(),
        rest: world.rest(),
        calls: world.calls(),
        below: guarded.below(),
    }
}
