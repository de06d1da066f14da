// Laws, each as a function that does nothing.

ghost use Rattle.mdr_over_bytes.specs.Alone.{LegalRepliesStandAlone};
ghost use Rattle.mdr_over_bytes.specs.OverBytes.{SplitOverBytesIsOneMemory};

/// A split run over bytes, with an honest far side, comes to the watched run's outcome, as long as each message and each
/// answer has a spelling.
pub fn split_over_bytes_is_one_memory()
    ensures { SplitOverBytesIsOneMemory }
{}

/// No legal reply's bytes begin another's, whatever drivers and states the two are legal in: with its end cut off, or with
/// bytes added, a legal reply is legal nowhere.
pub fn no_legal_reply_begins_another()
    ensures { LegalRepliesStandAlone }
{}
