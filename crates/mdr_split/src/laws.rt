// Laws of the two halves, each as a function that does nothing.

ghost use Rattle.mdr_split.specs.AnyAnswers.{RefusedChangesNothing};
ghost use Rattle.mdr_split.specs.Fuel.{RepliesTakeAnyFuel};
ghost use Rattle.mdr_split.specs.Refusals.{RefusedAreLeftOut, RefusedLeavesUser};

/// A reply is made with fuel for the ticks that the messages grant, and more fuel makes no other.
pub fn replies_take_any_fuel()
    ensures { RepliesTakeAnyFuel }
{}

/// A message that the user half refuses leaves what it holds, so the reply to some messages is the reply to those of
/// them that it accepted.
pub fn refused_messages_change_nothing()
    ensures stays { RefusedLeavesUser }
    ensures left_out { RefusedAreLeftOut }
{}

/// An answer of any far side that isn't legal ends the run as refused, with its first fault: nothing more is sent, and
/// nothing of the run's state changes. No other answer ends it so.
pub fn refused_answers_change_nothing()
    ensures { RefusedChangesNothing }
{}
