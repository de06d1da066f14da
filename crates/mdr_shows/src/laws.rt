// Laws, each as a function that does nothing.

ghost use Rattle.mdr_shows.specs.Laws.{AccessesAreShared, AnswersGrowSets, DeathsLeaveSets, KernelCodeMayFollow, MembershipIsOne};
ghost use Rattle.mdr_shows.specs.Laws.{RunsAreSets, ServicesKeepSets, SetsAreCopied, SetsAreOpen, VisibleMayBeShown};

/// The memories that a split run compares, and the sets that annotations give, ask in two ways whether a cell is in a set.
pub fn membership_is_one()
    ensures { MembershipIsOne }
{}

/// A set that is taken may be shown with the message for which it is taken: each cell lies in a block that the user half has, or
/// that a value of the message or a cell of the set names.
pub fn visible_may_be_shown()
    ensures { VisibleMayBeShown }
{}

/// A lock is in no set, where the keys of a plan that suits the program are taken.
pub fn sets_are_open()
    ensures { SetsAreOpen }
{}

/// A cell that is shown stands in a block that the user half has, with the key for which it is shown.
pub fn sets_are_copied()
    ensures { SetsAreCopied }
{}

/// Services and code of the kernel half take the dead from the sets of open upcalls, and nothing else.
pub fn deaths_leave_sets()
    ensures { DeathsLeaveSets }
{}

/// What a service may do to the set of the innermost upcall and to memory. That no lock is in the set is asked for, since taking
/// or freeing one changes its cell.
pub fn services_keep_sets()
    ensures { ServicesKeepSets }
{}

/// Of blocks that were there, code of the kernel half leaves some, as they were born; new ones have higher serials.
pub fn kernel_code_may_follow()
    ensures { KernelCodeMayFollow }
{}

/// User code sees in its memory what it would see in the whole run's, and its stores change both alike.
pub fn accesses_are_shared()
    ensures { AccessesAreShared }
{}

/// A set in a message is the set.
pub fn runs_are_sets()
    ensures { RunsAreSets }
{}

/// The user half keeps its own set over an answer, which tells it no cells.
pub fn answers_grow_sets()
    ensures { AnswersGrowSets }
{}
