// Laws, each as a function that does nothing.

ghost use Rattle.mdr_viewed.specs.Laws.{AccessesAreViewed, BirthsAreViewed, KernelCodeIsViewed, ServicesAreViewed, SetsAreViewed, UpcallsAreViewed, UserCodeKeepsTicks};

/// Code may touch a cell of the set where its block lives, so an access comes to the same where the set is kept apart and the
/// cell is looked for in it.
pub fn accesses_are_viewed()
    ensures { AccessesAreViewed }
{}

/// Births and deaths are the same. A set that is older than all births to come never has a cell of a block that is born.
pub fn births_are_viewed()
    ensures { BirthsAreViewed }
{}

/// A service does the same while an upcall is open, whatever set is in the world.
pub fn services_are_viewed()
    ensures { ServicesAreViewed }
{}

/// So does code of the kernel half that user code calls, up to its next call back: interrupts wait.
pub fn kernel_code_is_viewed()
    ensures { KernelCodeIsViewed }
{}

/// A set that is taken, that grows, and that goes, is so beside the world too. To a set that is taken from an old one the dead
/// in it are no matter.
pub fn sets_are_viewed()
    ensures { SetsAreViewed }
{}

/// What user code asks for, and what comes back from what it calls, with the set beside the world.
pub fn upcalls_are_viewed()
    ensures { UpcallsAreViewed }
{}

/// So the laws about code that runs from event to event are those of user code too.
pub fn user_code_keeps_ticks()
    ensures { UserCodeKeepsTicks }
{}
