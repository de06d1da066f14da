// What holds of the programs of user halves, and of the plans that are read.

ghost use Rattle.mdr_honest.specs.HalfSources.{HalvesAreSound};
ghost use Rattle.mdr_honest.specs.PlanTexts.{PlansThatAreReadArePlanned, PlansHaveFewTypes};

/// Where no fault is found in the text of a user half, its program is sound, if its types, globals,
/// structs and functions are few.
pub fn halves_are_sound()
    ensures { HalvesAreSound }
{}

/// A plan that is read from its text has one item for each function in each list and its type table in order, and no keys of
/// functions of the kernel half.
pub fn plans_that_are_read_are_planned()
    ensures { PlansThatAreReadArePlanned }
{}

/// And it has no more types than its text has bytes.
pub fn plans_have_few_types()
    ensures { PlansHaveFewTypes }
{}
