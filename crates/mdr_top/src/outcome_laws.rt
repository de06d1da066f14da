// Laws, each as a function that does nothing.

ghost use Rattle.mdr_top.specs.WholeRuns.{OutcomeIsDetermined};

/// A script that is run over a program in one manner has one outcome.
pub fn outcome_is_determined()
    ensures { OutcomeIsDetermined }
{}
