// What holds of the type table of a program that is made.

ghost use Rattle.mdr_type_table.specs.Tabled.{TablesHaveEachType, TablesListWhatOccurs, TypesThatOccurHaveNumbers};

/// A program's type table is made of all types that occur in the program.
pub fn tables_list_what_occurs()
    ensures { TablesListWhatOccurs }
{}

/// Where structs have different names and each pointer type that occurs is formed, the type table has each of them, once,
/// in the order of their texts.
pub fn tables_have_each_type()
    ensures { TablesHaveEachType }
{}

/// And each type of objects that occurs has a number, if the table isn't too long for numbers.
pub fn types_that_occur_have_numbers()
    ensures { TypesThatOccurHaveNumbers }
{}
