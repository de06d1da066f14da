// Small drivers worked out, each as a function that does nothing.

ghost use Rattle.mdr_split_worked.specs.Worked.{CallbackSpells, CallsBackTwice, KeepsTime, MayNotCallBack, TellsGraph};

/// The messages of a driver whose nodes point to each other, of which kernel code frees one while user code runs, and
/// another block that user code may not look at; user code has an object, lends it to kernel code, and allocates.
pub fn graphs_are_told()
    ensures { TellsGraph }
{}

/// The messages of a driver whose device counts the ticks of user code. Its line rises in an upcall, and the interrupt
/// waits for the end of that, also where user code calls the kernel half meanwhile.
pub fn devices_keep_time()
    ensures { KeepsTime }
{}

/// The messages of a driver whose kernel code calls user code back through a pointer that user code set, in the middle of
/// each of two downcalls: an upcall within the one that waits, deeper than the downcall, with a set of its own; and then the
/// downcall's result.
pub fn callbacks_are_told()
    ensures { CallsBackTwice }
{}

/// Their bytes, and those of the answers.
pub fn callbacks_are_spelled()
    ensures { CallbackSpells }
{}

/// Code of the kernel half that holds a lock which spins calls nothing back: no message is sent, and the run on one memory
/// stops at the same place.
pub fn callbacks_may_not_wait()
    ensures { MayNotCallBack }
{}
