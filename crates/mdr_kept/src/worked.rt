// Small drivers worked out, each as a function that does nothing.

ghost use Rattle.mdr_kept.specs.Worked.{AreStrict, DeadResultsAreAlike, TellsCallsBack, TellsLeftObjects, TellsLocks};

/// Runs in which user code touches what pointers lead it to, makes objects of its locals, and is called back are strict.
pub fn ordinary_runs_are_strict()
    ensures { AreStrict }
{}

/// A lock that user code takes sleeps, which `show` notes: so a strict run's events aren't always those of the plain run,
/// whatever is printed of them.
pub fn locks_are_told_apart()
    ensures { TellsLocks }
{}

/// Kernel code that holds a lock which spins may not call user code back: the strict and the followed run stop there, and
/// the plain run goes on.
pub fn calls_back_are_told_apart()
    ensures { TellsCallsBack }
{}

/// A function that gives the address of an object of its own, which died, gives a dead pointer, to code of its own half as
/// to the other: a plain run and a followed run go on with it alike, and stop alike where it is followed.
pub fn dead_results_are_alike()
    ensures { DeadResultsAreAlike }
{}

/// A function that gives the address of an object which died before, with its block, gives a dead pointer to the other half
/// alone. No source names an object behind its block; of code that does, the followed run and the plain run may differ.
pub fn left_objects_are_told_apart()
    ensures { TellsLeftObjects }
{}
