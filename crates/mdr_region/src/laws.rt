// Laws, as functions that do nothing.

ghost use Rattle.mdr_region.specs.Laws.{BirthsTakeHoles, DeathsLeaveHoles, BlocksStay, NoneOverlap, HolesAreFew, StaleDeaths, CellsStay};

/// A birth takes the front of the first hole that fits, else the top, and leaves the rest of the hole.
pub fn births_take_holes()
    ensures { BirthsTakeHoles }
{}

/// A death leaves a hole, as one with those that it touches, and none at the top.
pub fn deaths_leave_holes()
    ensures { DeathsLeaveHoles }
{}

/// A new block lies at its own places, and the others stay where they are.
pub fn blocks_stay()
    ensures { BlocksStay }
{}

/// No two blocks have a place in common.
pub fn none_overlap()
    ensures { NoneOverlap }
{}

/// There are at most as many holes as blocks.
pub fn holes_are_few()
    ensures { HolesAreFew }
{}

/// The death of a serial that has no place changes nothing.
pub fn stale_deaths()
    ensures { StaleDeaths }
{}

/// A birth writes its own cells alone, a death none, and a store one.
pub fn cells_stay()
    ensures { CellsStay }
{}
