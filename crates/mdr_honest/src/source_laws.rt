// What holds of the plans of sources.

ghost use Rattle.mdr_honest.specs.SourcePlans.{NamesOfSourcesAreNames, PlansOfSourcesAreRead, ProgramsOfSourcesArePlannable};

/// The structs and functions of a source have identifiers for their names.
pub fn names_of_sources_are_names()
    ensures { NamesOfSourcesAreNames }
{}

/// Where no fault is found in a source, its program's plans are read from their texts, if the pointer types that occur are
/// formed and its numbers are short.
pub fn programs_of_sources_are_plannable()
    ensures { ProgramsOfSourcesArePlannable }
{}

/// The plan of such a source and its halves is read from its text as it was.
pub fn plans_of_sources_are_read()
    ensures { PlansOfSourcesAreRead }
{}
