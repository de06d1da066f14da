// Laws, each as a function that does nothing.

ghost use Rattle.mdr_holds.specs.Laws.{CallsBackAreNone, CodeAgrees, CodeLeaves, CodeStays, CommandsLeave, KernelCodeLeaves, ProgramsAreDrivers, RunsHold, ServicesLeave, StatesHold, UserCodeLeaves};

/// A state that holds is in order, with blocks and globals as laws of memories want them; a known pointer names a block of
/// the shape that is known; and values fit as they are passed.
pub fn states_hold()
    ensures { StatesHold }
{}

/// A service that is asked as a fair tree asks it gives what fits, and leaves a state that holds.
pub fn services_leave()
    ensures { ServicesLeave }
{}

/// So does running code of a fair tree, whatever stands around it, where that leaves states that hold.
pub fn code_leaves()
    ensures { CodeLeaves }
{}

/// Code runs alike where what stands around it does the same, wherever a fair tree asks, calls or ticks: with arguments that
/// fit, in a state that holds.
pub fn code_agrees()
    ensures { CodeAgrees }
{}

/// Code of a side that calls no function of the other half does the same whatever such calls would do.
pub fn code_stays()
    ensures { CodeStays }
{}

/// Code of the kernel half, with interrupts taken before its ticks or not.
pub fn kernel_code_leaves()
    ensures { KernelCodeLeaves }
{}

/// Code of the user half, held to its cells.
pub fn user_code_leaves()
    ensures { UserCodeLeaves }
{}

/// A run begins in a state that holds, and each command leaves one. A function that a command calls gets arguments that
/// fit.
pub fn commands_leave()
    ensures { CommandsLeave }
{}

/// So the whole run of a script leaves one, on one memory with user code held to its cells or not.
pub fn runs_hold()
    ensures { RunsHold }
{}

/// Where code of the kernel half calls no function of the user half, it is no matter what such a call would do: a run is the
/// one in which none may be made.
pub fn calls_back_are_none()
    ensures { CallsBackAreNone }
{}

/// A sound program with any plan is such a driver, by what the call graph says; and with the halves that the slicer gives
/// it, code of the kernel half calls no function of the user half.
pub fn programs_are_drivers()
    ensures { ProgramsAreDrivers }
{}
