// Laws, each as a function that does nothing.

ghost use Rattle.mdr_runs.specs.Anywhere.{AccessesKeepTicks, EachSettingRuns, EachSettingStands, MemoriesAreSeen};
ghost use Rattle.mdr_runs.specs.Laws.{CallsAreStarted, EachRunStands, EachTickStands, RunsMayBeCut, ServicesAreAnswered};
ghost use Rattle.mdr_runs.specs.Pausing.{EachSettingPauses};

// ---- whatever stands around code

/// Accesses to memory give no tick back, whatever cells code may touch.
pub fn accesses_keep_ticks()
    ensures { AccessesKeepTicks }
{}

/// Where nothing around code gives a tick back: code doesn't either, a tree with no more ticks than are left does what the
/// tree does, work that a machine holds when a function was started in it does what the function does, and work that is
/// answered with what a service or the other half gave goes on behind that.
pub fn each_setting_runs()
    ensures { EachSettingRuns }
{}

/// There code that is run up to its next call of the other half, and then on behind the result, does what it does where it is
/// run to its end; and up to there too a tree with no more ticks than are left does what the tree does.
pub fn each_setting_pauses()
    ensures { EachSettingPauses }
{}

/// A machine that ran without a tick came to an event behind which follows what the held work does. So it did where it wanted
/// a tick, all that stands before the tick was done, and it ran with that one tick.
pub fn each_setting_stands<M>()
    ensures { EachSettingStands M }
{}

/// What code does to a memory is what it does to the world in it, where each access is.
pub fn memories_are_seen<M>()
    ensures { MemoriesAreSeen M }
{}

// ---- all of a driver's code on one memory

/// Where what is tried before a tick gives no tick back, a tree with no more ticks than are left does what the tree does.
pub fn runs_may_be_cut()
    ensures { RunsMayBeCut }
{}

/// Work that a machine holds when a function was started in it does what a call of the function does.
pub fn calls_are_started()
    ensures { CallsAreStarted }
{}

/// Work that is answered with what a service gave goes on as the definition does behind that service.
pub fn services_are_answered()
    ensures { ServicesAreAnswered }
{}

/// A machine that ran without a tick came to an event behind which follows what the held work does.
pub fn each_run_stands<M>()
    ensures { EachRunStands M }
{}

/// So it did where it wanted a tick, all that stands before the tick was done, and it ran with that one tick.
pub fn each_tick_stands<M>()
    ensures { EachTickStands M }
{}
