// Laws of runs from texts, each the contract of a function that does nothing.

ghost use Rattle.mdr_top.specs.HalvesMeans.{HalvesRunsMean};

/// Over an honest far side no reply is refused, and a run that is done or that stopped is what the source of its texts and
/// its script mean: its report is that of the run on one memory whose user half is held to its annotations.
pub fn halves_runs_mean()
    ensures { HalvesRunsMean }
{}
