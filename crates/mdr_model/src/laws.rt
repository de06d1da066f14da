// Laws, each as a function that does nothing.

ghost use Rattle.mdr_model.specs.Agreement.{StepsMayFollow, MessagesAgree, RepliesAgree, AnswersAgree};
ghost use Rattle.mdr_model.specs.MemoryKept.{StoreIsOneCell, DeathIsOneBlock, BirthIsOneBlock};

/// A store changes one cell.
pub fn a_store_changes_one_cell()
    ensures { StoreIsOneCell }
{}

/// A death leaves all other blocks as they are, but for pointers to the one that died.
pub fn a_death_takes_one_block()
    ensures { DeathIsOneBlock }
{}

/// A birth adds one block, of zeros.
pub fn a_birth_adds_one_block()
    ensures { BirthIsOneBlock }
{}

/// Stores, births and deaths leave memories that may follow.
pub fn steps_may_follow()
    ensures { StepsMayFollow }
{}

/// Whatever the kernel half does in between, blocks born and dead among it, the user half accepts what a message tells
/// of them, and both halves have then the visible cells as they are.
pub fn messages_agree()
    ensures { MessagesAgree }
{}

/// Storing what a reply tells gives the whole run's memory, and the agreed copy is then the user half's memory.
pub fn replies_agree()
    ensures { RepliesAgree }
{}

/// An answer to a service tells no cells; both halves have the visible ones as they are all the same.
pub fn answers_agree()
    ensures { AnswersAgree }
{}
