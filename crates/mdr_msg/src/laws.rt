// Laws, each as a function that does nothing.

ghost use Rattle.std.specs.Prelude.{◌≡◌, ◌++◌, [], List, ℕ};
ghost use Rattle.mdr_model.specs.declared.message.Message.{Message};
ghost use Rattle.mdr_model.specs.Text.{text};
ghost use Rattle.mdr_msg.specs.WellFormed.{IsMessage};
ghost use Rattle.mdr_msg.specs.Alone.{MessagesStandAlone};

/// Each message has one spelling: messages with one text are one.
pub fn one_spelling()
    ensures { (m n : Message) → IsMessage m → IsMessage n → text m ≡ text n → m ≡ n }
{}

/// No message's spelling begins another's.
pub fn no_spelling_begins_another()
    ensures { (m n : Message) (rest : List ℕ) → IsMessage m → IsMessage n → text m ++ rest ≡ text n → rest ≡ [] }
{}

/// No message's bytes begin another's: with their end cut off, or with bytes added, they are no message, and so no legal
/// reply.
pub fn no_message_begins_another()
    ensures { MessagesStandAlone }
{}
