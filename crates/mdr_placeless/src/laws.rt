// Laws of what a source comes to, each the contract of a function that does nothing.

ghost use Rattle.mdr_placeless.specs.Laws.{BodiesLookAtNoPlace, DeclarationsLookAtNoPlace, ExpressionsLookAtNoPlace, FilesLookAtNoPlace};
ghost use Rattle.mdr_placeless.specs.Laws.{HalvesLookAtNoPlace, HeadingsLookAtNoPlace, ProgramsLookAtNoPlace};

/// Expressions that are equal, places aside, come to the same in each scope, or there are faults in both.
pub fn expressions_look_at_no_place()
    ensures { ExpressionsLookAtNoPlace }
{}

/// So do fields, globals and locals.
pub fn declarations_look_at_no_place()
    ensures { DeclarationsLookAtNoPlace }
{}

/// So do the headings of functions.
pub fn headings_look_at_no_place()
    ensures { HeadingsLookAtNoPlace }
{}

/// So do the bodies of functions.
pub fn bodies_look_at_no_place()
    ensures { BodiesLookAtNoPlace }
{}

/// So do whole files, item by item.
pub fn files_look_at_no_place()
    ensures { FilesLookAtNoPlace }
{}

/// Sources that are equal, places aside, have the same program, or there are faults in both.
pub fn programs_look_at_no_place()
    ensures { ProgramsLookAtNoPlace }
{}

/// So do the texts of a user half with a plan.
pub fn halves_look_at_no_place()
    ensures { HalvesLookAtNoPlace }
{}
