// Laws, each as a function that does nothing.

ghost use Rattle.mdr_watched.specs.Laws.{AccessesAreHeld, InterruptsWait, KeptRunsAgree, KeysAreTouched, NoSetIsLeft, TheDeadLeave, UpcallsClose};
ghost use Rattle.mdr_watched.specs.Order.{OrderIsKept};

/// While an upcall is open no interrupt is taken, in user code as in kernel code that it calls.
pub fn interrupts_wait()
    ensures { InterruptsWait }
{}

/// The cells of a block that dies leave every visible set at once.
pub fn the_dead_leave()
    ensures { TheDeadLeave }
{}

/// Where no stop comes, no access leaves the visible set, no pointer fails and no interrupt is taken while a function of the
/// user half is active, a run that holds interrupts back is the run that takes them as they come.
pub fn kept_runs_agree()
    ensures { KeptRunsAgree }
{}

/// At any time of a watched run the serials of its memory rise, and each cell of a visible set is a live block's. So each set
/// that is taken is the set of the cells to which lists of pointers lead.
pub fn order_is_kept()
    ensures { OrderIsKept }
{}

/// An access of user code stops for its set exactly where the pointer's block lives, its index is in range and its cell isn't
/// in the set: the stops of every access come before.
pub fn accesses_are_held()
    ensures { AccessesAreHeld }
{}

/// An upcall that ended leaves the visible sets of those around it, and where a run met no stop none is left.
pub fn upcalls_close()
    ensures each { UpcallsClose }
    ensures all { NoSetIsLeft }
{}

/// The keys that user code is held to are those of the cells that the called function may touch, with all that it calls in its
/// half.
pub fn keys_are_touched()
    ensures { KeysAreTouched }
{}
