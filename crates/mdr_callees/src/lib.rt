//! What running code of a sound program does with functions is what the slicer says of it.
#![tactic(auto)]

mod laws;

pub use laws::{
    code_keeps_to_the_call_graph, crossings_are_spaced, crossings_have_stubs,
    one_graph_where_nothing_calls_back, the_kernel_half_crosses_nowhere,
};
