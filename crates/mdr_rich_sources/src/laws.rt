// Laws of sources, each as a function that does nothing.

ghost use Rattle.mdr_rich_sources.specs.Laws.{RunsMeanWhatIsWritten, SourcesAreLowered, SourcesMeanWhatIsWritten};

/// Each body of a source's program is the lowered one of a body that was written and has its types, in the whole program and
/// in both halves, if the program's types, globals, structs and functions are few.
pub fn sources_are_lowered()
    ensures { SourcesAreLowered }
{}

/// So the watched run of a source's program is the run by the bodies as they were written, for each plan, script and budget.
pub fn runs_mean_what_is_written()
    ensures { RunsMeanWhatIsWritten }
{}

/// That is so of each source, by the bodies in its tree.
pub fn sources_mean_what_is_written()
    ensures { SourcesMeanWhatIsWritten }
{}
