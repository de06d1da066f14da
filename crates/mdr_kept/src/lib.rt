//! Laws of runs that keep their annotations, which no clause of the program needs: where nothing tells a driver's halves
//! from one piece of code, the watched run shows what the plain run shows. Nothing here runs.
//!
//! Proved too: code that names objects of locals only where they live passes on nothing that has died, and the program
//! of each source in which no fault is found is of such code; so where a driver keeps its annotations, the run that
//! holds user code to them has the report of the plain run.
#![tactic(auto)]

mod current_laws;
mod laws;
mod report_laws;
mod scope_laws;
mod source_laws;
mod worked;

pub use current_laws::scoped_trees_are_current;
pub use laws::{
    locks_are_held, strict_outcomes_agree, strict_reports_agree, strict_runs_are_followed,
    strict_runs_are_plain,
};
pub use report_laws::{followed_runs_are_strict, kept_reports_agree, programs_have_graphs};
pub use scope_laws::{bodies_are_scoped, sources_are_scoped};
pub use source_laws::sources_keep_reports;
pub use worked::{
    calls_back_are_told_apart, dead_results_are_alike, left_objects_are_told_apart,
    locks_are_told_apart, ordinary_runs_are_strict,
};
