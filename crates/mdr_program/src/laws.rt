// The laws of the program that is made.

ghost use Rattle.mdr_program.specs.Orders.{TablesAreInOrder, TablesHaveFirstNumbers, TypesOccur};

/// A type table begins with the kinds, the lock and the structs. The pointers behind them stand in the order of their texts, and no
/// text stands there twice.
pub fn type_tables_are_in_order()
    ensures { TablesAreInOrder }
{}

/// In each type table the integer kinds have the numbers 0 to 7, the lock has 8, and struct `s` has 9 + `s`.
pub fn type_tables_have_first_numbers()
    ensures { TablesHaveFirstNumbers }
{}

/// The types of which a program's type table is made are those of its fields, globals, parameters and locals, and those that it
/// allocates.
pub fn types_of_tables_occur()
    ensures { TypesOccur }
{}
