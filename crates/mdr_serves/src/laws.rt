// Laws, each as a function that does nothing.

ghost use Rattle.mdr_split.specs.Law.{SplitIsOneMemory};

/// For honest answers of the user half a split run comes to the watched run's outcome, and to an end.
pub fn split_is_one_memory()
    ensures { SplitIsOneMemory }
{}
