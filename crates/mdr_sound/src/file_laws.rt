// What holds of whole files.

ghost use Rattle.mdr_sound.specs.FileLaws.{FilesAreSound, TypesOfFilesAreFormed};

/// Each type that occurs in the program of a file without faults is a type of objects, whatever stands in its type table.
pub fn types_of_files_are_formed()
    ensures { TypesOfFilesAreFormed }
{}

/// The program of a file without faults is sound.
pub fn files_are_sound()
    ensures { FilesAreSound }
{}
