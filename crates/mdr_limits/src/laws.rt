// Laws, each as a function that does nothing.

ghost use Rattle.mdr_split.specs.AnyAnswers.{LegalIsContained, MessagesAreFew};

/// Wherever a run waits, storing what a legal answer tells changes cells that user code may touch alone, and of them no
/// lock; no block is born, dies or becomes another.
pub fn legal_answers_are_contained()
    ensures { LegalIsContained }
{}

/// Whatever the answers are, the messages sent and answered are at most 8 for each tick and 6 for each command that
/// called a function.
pub fn messages_are_few()
    ensures { MessagesAreFew }
{}
