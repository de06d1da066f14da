// Laws of strict runs, each as a function that does nothing.

ghost use Rattle.mdr_kept.specs.Laws.{LocksAreHeld, StrictOutcomesAgree, StrictReportsAgree, StrictRunsAreFollowed, StrictRunsArePlain};

/// A strict run that meets no stop is the run that is followed, and the one that is watched.
pub fn strict_runs_are_followed()
    ensures { StrictRunsAreFollowed }
{}

/// It is the plain run as well, visible sets and how a lock is held set aside: whatever the program and its plan.
pub fn strict_runs_are_plain()
    ensures { StrictRunsArePlain }
{}

/// So where a strict run meets no stop, the watched run shows what the plain run shows: only how a lock is held may
/// differ, in events that show one.
pub fn strict_outcomes_agree()
    ensures { StrictOutcomesAgree }
{}

/// A report doesn't print how a lock is held.
pub fn locks_are_held()
    ensures { LocksAreHeld }
{}

/// So where a strict run meets no stop, the watched run and the plain run have one report.
pub fn strict_reports_agree()
    ensures { StrictReportsAgree }
{}
