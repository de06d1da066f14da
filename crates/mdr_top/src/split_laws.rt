// Laws, each as a function that does nothing.

ghost use Rattle.mdr_top.specs.Ends.{SplitRunsEnd};
ghost use Rattle.mdr_top.specs.Means.{SplitRunsMean};

/// Whatever the far side answers, a run whose answer is refused, or to which none came, tells which, and why.
pub fn split_runs_end()
    ensures { SplitRunsEnd }
{}

/// Over an honest far side no reply is refused, and a run that is done or that stops is reported as the run on one memory
/// whose user half is held to its annotations.
pub fn split_runs_mean()
    ensures { SplitRunsMean }
{}
