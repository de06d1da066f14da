//! Declarators, parameters, fields, initialisers and globals, read.
#![tactic(auto)]

pub mod declarators;
pub mod fields;
pub mod globals;
pub mod initialisers;
