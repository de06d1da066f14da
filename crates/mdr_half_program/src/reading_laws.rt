// Laws of what the printed text of a half comes to, each the contract of a function that does nothing.

ghost use Rattle.mdr_half_program.specs.Reading.{PrintedHalvesHaveThePrograms};

/// The text that is printed of the user half of a source, read, comes with the plan to the user half's part of the
/// source's program, where each function of the program has a body, and the plan suits the program and has the types
/// that occur in the text.
pub fn printed_halves_have_the_programs()
    ensures { PrintedHalvesHaveThePrograms }
{}
