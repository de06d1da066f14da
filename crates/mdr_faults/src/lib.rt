//! Faults of a source as they are collected, and the rules of constants, types, declarators and objects.
#![tactic(auto)]

mod alike;
mod constants;
mod declarator;
mod enumerator;
mod fault;
mod joining;
mod names;
mod object;
mod scope;
mod types;

pub use alike::{are_alike, is_alike};
pub use constants::{constant, enumerated, number_constant};
pub use declarator::{
    declarator_type, function_type, is_declared, parameter, parameter_among, parameter_list,
    result_type, type_named,
};
pub use enumerator::{declare, enumerators, new_name};
pub use fault::{Fault, FaultKind, lesser};
pub use joining::{both, demanded, extended, followed, mismatch};
pub use names::{HasName, Names};
pub use object::{cells_of, object_declared};
pub use scope::{
    Candidate, Constant, Entity, Member, Named, Object, Scope, Signature, StructEntry, Tag,
    entity_named, is_declared_name, tag_named,
};
pub use types::{
    copied, copied_type, copied_types, is_scalar, is_void, pointer_to, small, starred,
};
