// Laws of reports, each as a function that does nothing.

ghost use Rattle.mdr_kept.specs.ReportLaws.{FollowedRunsAreStrict, KeptReportsAgree, ProgramsHaveGraphs};

/// Each program has a call graph, in which the service that calls back counts or not.
pub fn programs_have_graphs()
    ensures { ProgramsHaveGraphs }
{}

/// A followed run of a sound program passes no pointer to a block that has died, where code names objects of locals only
/// where they live.
pub fn followed_runs_are_strict()
    ensures { FollowedRunsAreStrict }
{}

/// So where such a program keeps its annotations, no interrupt meets user code, and none is called back while a handler
/// runs or a lock is held that spins, the report of the watched run is the report of the plain run.
pub fn kept_reports_agree()
    ensures { KeptReportsAgree }
{}
