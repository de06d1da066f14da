// Laws, each as a function that does nothing.

ghost use Rattle.mdr_events.specs.Running.{FunctionsAreStarted, QuestionsAreAnswered, StatementsWantTicks, EachRunIsMade};
ghost use Rattle.mdr_exec.specs.Evaluation.{ValuesArePassed, PlacesArePassed, ListsArePassed};
ghost use Rattle.mdr_exec.specs.Halves.{SidesAreHalves};
ghost use Rattle.mdr_exec.specs.StatementSteps.{EachStatementSteps};
ghost use Rattle.mdr_exec.specs.Unwinding.{HeldWorkGoesOn};

/// The tree of an expression passes on the value that the expression comes to, or stops as it does; that of an lvalue
/// its address, and that of a list of arguments their values.
pub fn evaluation_is_walked<M>()
    ensures values { ValuesArePassed M }
    ensures places { PlacesArePassed M }
    ensures lists { ListsArePassed M }
{}

/// A walk of the tree of held work takes one step for each statement, and the work that is left has the tree that
/// is left.
pub fn each_statement_steps<M>()
    ensures { EachStatementSteps M }
{}

/// So it does where no statement runs: where a block, a loop or a function is left, and where a value, parameters or
/// an object come.
pub fn held_work_goes_on<M>()
    ensures { HeldWorkGoesOn M }
{}

/// A run is made of such steps, and what follows a run is its own.
pub fn each_run_is_made<M>()
    ensures { EachRunIsMade M }
{}

/// A function that is started over held work has its own tree, with that of the held work behind its end.
pub fn functions_are_started()
    ensures { FunctionsAreStarted }
{}

/// Where a question is open, the work that goes on with the answers has the tree that follows them.
pub fn questions_are_answered()
    ensures { QuestionsAreAnswered }
{}

/// The tree of held work in which a statement comes next begins with its tick.
pub fn statements_want_ticks()
    ensures { StatementsWantTicks }
{}

/// The side of a machine enters the bodies that the meaning of its half enters, and asks for objects as that does.
pub fn sides_are_halves()
    ensures { SidesAreHalves }
{}
