//! What an honest far side is: it loads the texts of a user half and of a plan, and answers as that
//! half. And that a run over one means what one memory does. Laws alone: nothing here runs.
//!
//! Below that: the program of a user half's text in which no fault is found is sound, and each plan that is read may
//! judge one; the plan that is made of a program is read from its text as it was, and so is the plan of each source.
#![tactic(auto)]

mod half_laws;
mod laws;
mod plan_laws;
mod source_laws;

pub use half_laws::{halves_are_sound, plans_have_few_types, plans_that_are_read_are_planned};
pub use laws::{
    bound_commands_fit, loaded_halves_are_sound, loaded_texts_are_not_refused, run_is_meaning,
    scripts_fit, text_scripts_fit, texts_load_one_thing, texts_of_sources_are_loaded,
    texts_of_sources_are_taken,
};
pub use plan_laws::{a_slicers_plan_is_canonical, a_slicers_plan_is_read_from_its_text};
pub use source_laws::{
    names_of_sources_are_names, plans_of_sources_are_read, programs_of_sources_are_plannable,
};
