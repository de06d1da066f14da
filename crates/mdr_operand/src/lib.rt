//! What an expression comes to, as an operand of others: values, objects, arrays and functions, with their conversions
//! and the operators in front of one operand (C99 6.3, 6.5.3, 6.5.4).
#![tactic(auto)]

mod addresses;
mod casts;
mod conversion;
mod operand;
mod operator;
mod prefixes;
mod release;
mod room;
mod sort;

pub use addresses::address;
pub use casts::cast;
pub use conversion::{cast_as, converted_at, null_as, operand_as, scalar_as};
pub use operand::{
    Integer, Operand, Pointer, Scalar, at_kind, condition_at, expression_of, integer_at, literal,
    needed, number, pointer_at, scalar_at, scalar_of, truth, value_at, value_of, value_where,
};
pub use operator::{
    AssignmentOperator, BinaryOperator, PrefixOperator, assignment_operator, binary_operator,
    prefix_operator,
};
pub use prefixes::prefix;
pub use release::{both_given_up, given_up, out_of_memory};
pub use room::{LocalName, local_named};
pub use sort::{is_active_operand, is_complete, is_null, is_number, value_type};
