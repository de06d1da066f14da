// A network driver's types, worked out: what the definitions of layout, views and soundness say of them.

ghost use Rattle.mdr_core.specs.Sound.{IsSound};
ghost use Rattle.mdr_core.specs.Worked.{driver, StructsHaveCells, CellsHaveKeys, CellsHaveZeros, BlocksHaveViews, OthersAreNone};

/// The program is sound, as `view_ok` wants of one.
pub fn a_network_driver_is_sound()
    ensures { IsSound driver }
{}

/// How many cells each struct of a network driver has.
pub fn structs_have_cells()
    ensures { StructsHaveCells }
{}

/// The key of each cell of two of these structs, and of a number's.
pub fn cells_have_keys()
    ensures { CellsHaveKeys }
{}

/// What each cell holds that nothing initialised.
pub fn cells_have_zeros()
    ensures { CellsHaveZeros }
{}

/// Pointers to a struct, to parts of it, to an element of an array, and one past an array's end.
pub fn a_pointer_names_a_part()
    ensures { BlocksHaveViews }
{}

/// Views that no pointer has: past what lies behind the end, of another type, of a part of an array.
pub fn other_views_are_none()
    ensures { OthersAreNone }
{}
