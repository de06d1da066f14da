// Laws of whole halves, each the contract of a function that does nothing.

ghost use Rattle.mdr_half_program.specs.Defined.{DefinedFunctionsHaveBodies};
ghost use Rattle.mdr_half_program.specs.HalfTypes.{PlansHaveTheTypes, TypesOfHalvesOccur};
ghost use Rattle.mdr_half_program.specs.Headings.{FunctionsKeepTheirHeadings, TheUserTextKeepsTheHeadings};
ghost use Rattle.mdr_half_program.specs.Replies.{TheUserTextRepliesAsTheWhole};
ghost use Rattle.mdr_half_program.specs.SameTypes.{FunctionsKeepTheirTypes};
ghost use Rattle.mdr_half_program.specs.Sourced.{SourcesHaveBodies};
ghost use Rattle.mdr_half_program.specs.Usable.{BodiesUseWhatIsDeclared};
ghost use Rattle.mdr_half_program.specs.UsedFunctions.{BodiesUseWhatIsDefined, DeclaredFunctionsAreDefined};
ghost use Rattle.mdr_half_program.specs.Whole.{TheUserTextGivesItsPart};

/// Where each function of a source's program has a body among the items, it has it in the program.
pub fn defined_functions_have_bodies()
    ensures { DefinedFunctionsHaveBodies }
{}

/// Each function has in a half's text the result and the types of parameters that it has in the whole source, also where
/// its body is in the other half.
pub fn functions_keep_their_types()
    ensures { FunctionsKeepTheirTypes }
{}

/// Each type that occurs in a half's text occurs in the whole source.
pub fn types_of_halves_occur()
    ensures { TypesOfHalvesOccur }
{}

/// So a plan that has the type table of the source's program has each type that occurs in the text of a half.
pub fn plans_have_the_types()
    ensures { PlansHaveTheTypes }
{}

/// The text that is printed of the user half of a source, read, comes with the source's plan to the user half's part of
/// the source's program.
pub fn the_user_text_gives_its_part()
    ensures { TheUserTextGivesItsPart }
{}

/// A body without faults uses nothing that isn't declared, and nothing that is wrongly declared.
pub fn bodies_use_what_is_declared()
    ensures { BodiesUseWhatIsDeclared }
{}

/// Each function that a file without faults declares is defined in it, used or not.
pub fn declared_functions_are_defined()
    ensures { DeclaredFunctionsAreDefined }
{}

/// So a function of such a file uses none that the file doesn't define, either.
pub fn bodies_use_what_is_defined()
    ensures { BodiesUseWhatIsDefined }
{}

/// Each function of the program of a source without faults has its body.
pub fn sources_have_bodies()
    ensures { SourcesHaveBodies }
{}

/// Each function has in a half's text the result, the types of parameters and the annotations that it has in the whole
/// source, also where its body is in the other half.
pub fn functions_keep_their_headings()
    ensures { FunctionsKeepTheirHeadings }
{}

/// So it is of the program to which the text that is printed of the user half of a source comes, read with any plan.
pub fn the_user_text_keeps_the_headings()
    ensures { TheUserTextKeepsTheHeadings }
{}

/// The text that is printed of the user half of a source, read with the source's plan, comes to a program whose user half
/// gives to any messages the replies of the source's program.
pub fn the_user_text_replies_as_the_whole()
    ensures { TheUserTextRepliesAsTheWhole }
{}
