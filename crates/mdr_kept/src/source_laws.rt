// What holds of the reports of sources, as a function that does nothing.

ghost use Rattle.mdr_kept.specs.KeptSources.{SourcesKeepReports};

/// Where no fault is found in a source, its annotations are kept, no interrupt meets user code, and none is called back
/// while a handler runs or a lock is held that spins, the report of the watched run is that of the plain run, for each
/// script that is for its program and each budget: if each function has a body, as in each source that isn't a half's text,
/// and its types, globals, structs and functions are few.
pub fn sources_keep_reports()
    ensures { SourcesKeepReports }
{}
