// What holds of expressions, assignments and calls as they are typed.

ghost use Rattle.mdr_sound.specs.ExpressionLaws.{ExpressionsAreKnown};
ghost use Rattle.mdr_sound.specs.Steps.{AssignmentsAreKnown, StepsAreKnown, CallsAreKnown};

/// What an expression comes to has the types that the rules of sound programs give it.
pub fn expressions_are_known()
    ensures { ExpressionsAreKnown }
{}

/// What an assignment stores has the type of the object that takes it.
pub fn assignments_are_known()
    ensures { AssignmentsAreKnown }
{}

/// So has what a `++` or `--` stores.
pub fn steps_are_known()
    ensures { StepsAreKnown }
{}

/// What is called takes these arguments, and gives a value of the call's type.
pub fn calls_are_known()
    ensures { CallsAreKnown }
{}
