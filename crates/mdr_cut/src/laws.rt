// Laws of a source's texts, each the contract of a function that does nothing.

ghost use Rattle.mdr_cut.specs.Cuts.{PlanIsDetermined, ReportIsDetermined, TextsAreDetermined};

/// A program has one plan.
pub fn plan_is_determined()
    ensures { PlanIsDetermined }
{}

/// A source's tree and its program have one kernel text, one user text and one plan text.
pub fn texts_are_determined()
    ensures { TextsAreDetermined }
{}

/// A program has one report.
pub fn report_is_determined()
    ensures { ReportIsDetermined }
{}
