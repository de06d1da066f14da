// Laws of three texts, each the contract of a function that does nothing.

ghost use Rattle.mdr_halves.specs.Laws.{RefusedTextsAreOfNone, TextsAreOfOne};

/// Texts that are refused are those of no source: nothing that is accepted is cut into them.
pub fn refused_texts_are_of_no_source()
    ensures { RefusedTextsAreOfNone }
{}

/// All sources that are cut into the same texts have the same tree, places aside, and the same program.
pub fn texts_are_of_one_program()
    ensures { TextsAreOfOne }
{}
