//! The program of a half's text, from a source and its plan: laws alone, nothing here runs.
//!
//! Proved: where each function of a source's program has a body, the text of a half comes to the same pieces, but for
//! the bodies of the other half's functions, which are prototypes; what is made of them has the same types, structs and
//! globals, and the same functions but for those bodies; and a plan that suits the whole program suits the functions
//! and the keys of the user half's text.
//!
//! The functions of a source without faults have the same types in the text of each half, so each type that occurs
//! there is in the type table of the source's plan; a body without faults uses nothing that isn't declared; each
//! function that a file without faults declares is defined in it, so its bodies use none that isn't, and each function
//! of a source's program has its body; and the text that is printed of the user half, read with the source's plan,
//! comes to the user half's part of the source's program. Each function has in the text of each half the annotations,
//! too, that it has in the whole source (names of parameters may differ, since they are those of a function's body, or
//! else of its first declaration); and the program that the printed text comes to replies to any
//! messages as the whole program's user half does.
#![tactic(auto)]

mod laws;
mod piece_laws;
mod reading_laws;

pub use laws::{
    bodies_use_what_is_declared, bodies_use_what_is_defined, declared_functions_are_defined,
    defined_functions_have_bodies, functions_keep_their_headings, functions_keep_their_types,
    plans_have_the_types, sources_have_bodies, the_user_text_gives_its_part,
    the_user_text_keeps_the_headings, the_user_text_replies_as_the_whole, types_of_halves_occur,
};
pub use piece_laws::{
    halves_are_by_names, halves_have_the_parts, halves_have_the_pieces, halves_have_the_programs,
    no_use_is_asked_for, plans_suit_their_functions, tables_have_the_structs,
};
pub use reading_laws::printed_halves_have_the_programs;
