// What holds of the texts of types.

ghost use Rattle.mdr_type_table.specs.Apart.{PointerTextsAreRead, TextsTellTypesApart};
ghost use Rattle.mdr_type_table.specs.Worked.{WorkedTexts};

/// Types that are formed have different texts where they differ, if structs have different names.
pub fn texts_tell_types_apart()
    ensures { TextsTellTypesApart }
{}

/// The text of a pointer type that is formed is read as the type.
pub fn pointer_texts_are_read()
    ensures { PointerTextsAreRead }
{}

/// Texts where one struct's name begins another's. Without different names, or of a type that isn't formed, two types may
/// have one text.
pub fn worked_texts()
    ensures { WorkedTexts }
{}
