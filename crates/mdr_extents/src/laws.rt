// Laws, each as a function that does nothing.

ghost use Rattle.mdr_extents.specs.Laws.{ExtentsAreInside, SearchesAreExact, StructsAreAround, VisibleIsByPaths};
ghost use Rattle.mdr_extents.specs.Worked.{FindsStructs};

/// The search for the end of a text or a table finds the first element that is one, and finds none where there is none.
pub fn searches_are_exact()
    ensures { SearchesAreExact }
{}

/// An extent has elements of the pointer's view alone.
pub fn extents_are_inside()
    ensures { ExtentsAreInside }
{}

/// The visible set, which is computed by rounds, is the set of the cells that lists of pointers lead to; where a pointer
/// fails, the one with the least argument number is told, else the one in the first cell.
pub fn visible_is_by_paths()
    ensures { VisibleIsByPaths }
{}

/// The struct around a cell, in which siblings stand, begins where it is said to: its cells stand from there on. So in arrays
/// of structs within structs.
pub fn structs_are_found()
    ensures law { StructsAreAround }
    ensures worked { FindsStructs }
{}
