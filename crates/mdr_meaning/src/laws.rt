// Laws, each as a function that does nothing.

ghost use Rattle.mdr_meaning.specs.Cut.{CutIsAlike, CutsCut};
ghost use Rattle.mdr_meaning.specs.FairExpressions.{ExpressionsAreFair, LvaluesAreFair};
ghost use Rattle.mdr_meaning.specs.FairTrees.{SidesAreOfPrograms, TreesAreFair, TreesAreFairTo};
ghost use Rattle.mdr_meaning.specs.Few.{QuestionsAreFew};
ghost use Rattle.mdr_meaning.specs.Fuel.{FuelIsNoMatter, StartedFuelIsNoMatter, UserTreesAreEqual};
ghost use Rattle.mdr_meaning.specs.Numbers.{ProgramsAreNumbered};
ghost use Rattle.mdr_meaning.specs.Placed.{TreesArePlaced};
ghost use Rattle.mdr_meaning.specs.Walk.{WalksCut, WalksGoOn};
ghost use Rattle.mdr_meaning.specs.Within.{AllKeepToIt};

/// Equality up to a number of ticks is a relation that each node keeps, and cutting twice is cutting once.
pub fn equality_up_to_ticks_is_alike()
    ensures alike { CutIsAlike }
    ensures once { CutsCut }
{}

/// A walk with more ticks is the walk with fewer, and then on from where that one stands.
pub fn walks_go_on<M>()
    ensures { WalksGoOn M }
{}

/// A walk of a tree that is cut behind the walk's own ticks is the walk of the tree, with what it reaches cut.
pub fn walks_may_be_cut<M>()
    ensures { WalksCut M }
{}

/// Trees of any two fuels above a number of ticks are equal up to so many ticks, of code and of a started function.
pub fn fuel_is_no_matter()
    ensures code { FuelIsNoMatter }
    ensures started { StartedFuelIsNoMatter }
{}

/// A program that is declared alike and has the user half's bodies has the user half's trees.
pub fn user_trees_are_equal()
    ensures { UserTreesAreEqual }
{}

/// A started function asks at most two questions before its first tick, and two more for each tick.
pub fn questions_are_few()
    ensures { QuestionsAreFew }
{}

/// Each type of a program's table has its number there, which no other type has.
pub fn programs_are_numbered()
    ensures { ProgramsAreNumbered }
{}

/// The value of a sound program's expression, and the address of what its lvalue names, name nothing unknown and fit
/// their types; and evaluation comes to no stops but its own.
pub fn expressions_are_fair()
    ensures values { ExpressionsAreFair }
    ensures addresses { LvaluesAreFair }
{}

/// Each step of a started function's tree stands at a statement of its side, with at most 256 functions active; each
/// stop is one that code comes to, and each crossing calls a function that the side has no body of. This holds of any
/// code, sound or not.
pub fn trees_are_placed()
    ensures { TreesArePlaced }
{}

/// The tree of a sound program's function, started with arguments that fit, is fair whatever fitting values it is
/// answered with: it names known blocks alone, passes on values that fit, asks each service as it wants to be asked,
/// calls only functions that its code may call, ends its objects of locals, and stops for its own reasons. So is that of
/// a function that is started where more functions are active, as a handler of interrupts may be. This holds on each side
/// of a program; and as a bound on what code does with functions, no bound will do.
pub fn trees_are_fair()
    ensures fair { TreesAreFair }
    ensures deep { TreesAreFairTo }
    ensures sides { SidesAreOfPrograms }
    ensures all { AllKeepToIt }
{}
