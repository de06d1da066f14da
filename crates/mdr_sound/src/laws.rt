// What holds of the program that a source comes to.

ghost use Rattle.mdr_sound.specs.Sources.{SourcesAreSound, SourcesHaveOrderedTables};

/// Where no fault is found in a source, the type table of its program has each type that occurs, once, in the order of
/// their texts.
pub fn sources_have_ordered_tables()
    ensures { SourcesHaveOrderedTables }
{}

/// And its program is sound, if its types, globals, structs and functions are few.
pub fn sources_are_sound()
    ensures { SourcesAreSound }
{}
