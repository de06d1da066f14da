// Laws of what the items of a half come to, each the contract of a function that does nothing.

ghost use Rattle.mdr_half_program.specs.Bodies.{NoUseIsAskedFor};
ghost use Rattle.mdr_half_program.specs.Counted.{TablesHaveTheStructs};
ghost use Rattle.mdr_half_program.specs.Pieces.{HalvesHaveThePieces};
ghost use Rattle.mdr_half_program.specs.Programs.{HalvesHaveThePrograms};
ghost use Rattle.mdr_half_program.specs.Sides.{HalvesHaveTheParts};
ghost use Rattle.mdr_half_program.specs.Suited.{HalvesAreByNames, PlansSuitTheirFunctions};

/// The items of a half come to what those of the whole source come to, with prototypes of the other half's functions,
/// where each function that the source declares has its body there.
pub fn halves_have_the_pieces()
    ensures { HalvesHaveThePieces }
{}

/// What is made of such pieces has the same structs and globals, and functions of the same names and types in the same
/// order: the half's own as they are, and the others without their bodies.
pub fn halves_have_the_parts()
    ensures { HalvesHaveTheParts }
{}

/// With a plan that has the program's type table and suits it, a half's text comes to the half's part of the program.
pub fn halves_have_the_programs()
    ensures { HalvesHaveThePrograms }
{}

/// What a file without faults comes to doesn't depend on what its bodies use: each function that it declares is defined.
pub fn no_use_is_asked_for()
    ensures { NoUseIsAskedFor }
{}

/// A plan that suits the whole program, in which each function has a body, suits the functions and the keys of the user
/// half's text.
pub fn plans_suit_their_functions()
    ensures { PlansSuitTheirFunctions }
{}

/// A plan of the program's functions gives each its half by its name, since no name is that of two functions.
pub fn halves_are_by_names()
    ensures { HalvesAreByNames }
{}

/// A program's type table has as many structs as the program.
pub fn tables_have_the_structs()
    ensures { TablesHaveTheStructs }
{}
