// Laws, each as a function that does nothing.

ghost use Rattle.mdr_plain.specs.Laws.{InterruptsAreGated, ObjectsAreLeast, PlainRunsAreAlone, RunsAreWalks, RunsNeedTicksAlone};

/// An interrupt is taken exactly where the line is raised, a handler is registered and doesn't run, no lock is held and
/// no function of the user half is active.
pub fn interrupts_are_gated()
    ensures { InterruptsAreGated }
{}

/// What code does in a world is its walk to the next event, and then what follows that event: a tick with all that
/// stands before it, a service, or a call of the other half.
pub fn runs_are_walks()
    ensures { RunsAreWalks }
{}

/// A plain run has no visible sets, so that no interrupt in it waits for a function of the user half.
pub fn plain_runs_are_alone()
    ensures { PlainRunsAreAlone }
{}

/// The objects of an outcome are the least list that begins with the globals and in which the cells of each object name
/// their live blocks in order, each block once.
pub fn objects_are_least()
    ensures { ObjectsAreLeast }
{}

/// The tree of a called function runs alike with any fuel above the ticks that are left.
pub fn runs_need_ticks_alone()
    ensures { RunsNeedTicksAlone }
{}
