// Statements and functions worked out, each as a function that does nothing.

ghost use Rattle.mdr_rich_sources.specs.Worked.{PartsAreTaken, CallsStandAlone, PlacesAreTaken, LoopsTurn, ValuesAreRight, KeptValuesAreRead, DoTurns, SwitchTries, CallsAreRight, LoopsAreRight};

/// What is taken in front of an active part, and what isn't, by the ticks of statements.
pub fn parts_are_taken()
    ensures parts { PartsAreTaken }
    ensures places { PlacesAreTaken }
{}

/// Calls, steps, choices and tests, by their ticks and by what they leave. A pointer that was kept and whose object has
/// died by then stops the run.
pub fn values_are_right()
    ensures calls { CallsStandAlone }
    ensures values { ValuesAreRight }
    ensures kept { KeptValuesAreRead }
    ensures loops { LoopsTurn }
{}

/// `do` and `switch`, by their ticks and by what they leave.
pub fn turns_and_clauses()
    ensures turns { DoTurns }
    ensures clauses { SwitchTries }
{}

/// Two whole functions, one with calls inside expressions, a choice and a `switch`, the other with active tests and a `do`.
pub fn functions_are_right()
    ensures calls { CallsAreRight }
    ensures loops { LoopsAreRight }
{}
