// What holds of the names in a file in which no fault is found.

ghost use Rattle.mdr_type_table.specs.FileNames.{FunctionsAreNamed, NamesAreOfItems, StructsAreNamed, TablesOfFilesAreInOrder};

/// Where no fault is found in a file, its structs have different names, and each the name of one of its items.
pub fn structs_have_names_of_their_own()
    ensures { StructsAreNamed }
{}

/// Functions have different names, whatever a file's items come to.
pub fn functions_have_names_of_their_own()
    ensures { FunctionsAreNamed }
{}

/// Where no fault is found in a file, the type table of its program has each type that occurs, once, in the order of their
/// texts, if the pointer types that occur are formed.
pub fn tables_of_files_are_in_order()
    ensures { TablesOfFilesAreInOrder }
{}

/// And its structs and functions have the names that its items give them.
pub fn names_are_those_of_items()
    ensures { NamesAreOfItems }
{}
