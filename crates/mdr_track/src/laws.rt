// Laws, as functions that do nothing.

ghost use Rattle.mdr_track.specs.Laws.{PairsAreOneToOne, PairsStayMatched, PointersReturn, StepsKeepNames};
ghost use Rattle.mdr_track.specs.Worked.{CycleIsTold};

/// A serial's block has that serial, a block's serial that block; two serials have two blocks, and two blocks two
/// serials.
pub fn pairs_are_one_to_one()
    ensures { PairsAreOneToOne }
{}

/// A new pair and a death leave both look-ups in accord, change no other pair, and a death takes its pair out of both.
pub fn pairs_stay_matched()
    ensures { PairsStayMatched }
{}

/// A pointer that is read by the one memory and then by the other is the pointer that it was, or a dead one where its
/// object isn't paired.
pub fn pointers_return()
    ensures { PointersReturn }
{}

/// A new pair changes the reading of no pointer but those to its block, and a death turns the pointers to its object into
/// dead ones and changes no other.
pub fn steps_keep_names()
    ensures { StepsKeepNames }
{}

/// Two objects that point to each other and one of them to itself too, read by both memories, and after the death of one.
pub fn a_cycle_with_an_alias_is_told()
    ensures { CycleIsTold }
{}
