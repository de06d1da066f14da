// What holds of declarations in which no fault is found.

ghost use Rattle.mdr_sound.specs.DeclarationLaws.{DeclaratorsHaveTypes, ObjectsAreSound, AnnotationsAreSound, StructsAreSound};
ghost use Rattle.mdr_sound.specs.DeclarationLaws.{StructsAreKnown, HeadingsAreSound, HeadingsHaveSignatures, TablesAreSound};

/// A declarator's type is `void` or a type of objects, and as that of a parameter a scalar.
pub fn declarators_have_types()
    ensures { DeclaratorsHaveTypes }
{}

/// An object has a type of objects and a count, has no more than 65,536 cells, and is of no struct that isn't complete.
pub fn objects_are_sound()
    ensures { ObjectsAreSound }
{}

/// An annotation says of its pointer what is so.
pub fn annotations_are_sound()
    ensures { AnnotationsAreSound }
{}

/// A struct keeps to the rules of sound programs, where the types of its fields have numbers in the type table.
pub fn structs_are_sound()
    ensures { StructsAreSound }
{}

/// What is known behind a struct is so of the program, where the struct has these fields there.
pub fn structs_are_known()
    ensures { StructsAreKnown }
{}

/// A function's result and parameters keep to the rules of sound programs, where the types of the parameters have numbers
/// in the type table.
pub fn headings_are_sound()
    ensures { HeadingsAreSound }
{}

/// A heading has the types that uses of the function see, and a pointer to the function has a type of the program.
pub fn headings_have_signatures()
    ensures { HeadingsHaveSignatures }
{}

/// A type table keeps to the rules of sound programs, where the pointers of which it is made are types of objects.
pub fn tables_are_sound()
    ensures { TablesAreSound }
{}
