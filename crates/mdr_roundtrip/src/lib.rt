//! Sources that are read and printed: laws alone, nothing here runs.
//!
//! Proved: the tokens of a printed source are those that its tree is spelled by, where its words, operators, numbers
//! and texts are such as the lexer has; the text that is printed of any source's tree is a source, of the same tree,
//! places aside; neither reading nor printing looks at a place; and expressions and initialisers are read again as they
//! were.
#![tactic(auto)]

mod laws;
mod token_laws;

pub use laws::{
    expressions_are_read_again, initialisers_are_read_again, printed_expressions_are_expressions,
    printed_initialisers_are_initialisers, printed_shapes_are_sources, printed_sources_are_read,
    printed_sources_are_sources, printed_trees_are_trees, printing_looks_at_no_place,
    sources_are_alike, sources_are_printable, sources_are_read_again, tokens_are_lexed,
};
pub use token_laws::{
    printable_expressions_are_apart, printable_expressions_are_read, printable_trees_are_apart,
    printable_trees_are_read,
};
