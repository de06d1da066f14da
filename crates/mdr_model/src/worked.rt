// A worked example: a law that computing shows.

ghost use Rattle.mdr_model.specs.Worked.{BumpSpells};

/// The bytes of a run's eight messages.
pub fn bump_messages_are_spelled()
    ensures { BumpSpells }
{}
