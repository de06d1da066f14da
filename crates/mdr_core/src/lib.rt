//! The typed program of a driver, its values and its layout: what every other crate speaks of.
#![tactic(auto)]

mod boxed;
mod code;
mod items;
mod kind;
mod layout;
mod limits;
mod memory_error;
mod numbers;
mod place;
mod plan;
mod program;
mod refusal;
mod same;
mod stop;
mod text;
mod types;
mod undefined;
mod value;
mod view;
mod worked;

pub use boxed::Boxed;
pub use code::{BinOp, CallForm, Callee, Expr, Lval, RelOp, Step, Stmt};
pub use items::{Items, Name};
pub use kind::Kind;
pub use layout::{cells_of, key_of, zero_of};
pub use limits::{below, few, most, spent, within};
pub use memory_error::{Limit, OutOfMemory};
pub use numbers::has_few_numbers;
pub use place::{At, Place};
pub use plan::{Half, Key, Plan};
pub use program::{Field, Func, GlobalDef, Local, Param, Program, StructDef};
pub use refusal::RefuseKind;
pub use same::{same_type, type_number};
pub use stop::StopKind;
pub use text::type_text;
pub use types::{Ann, LenOf, Shape, Ty};
pub use undefined::Undefined;
pub use value::{Block, LockState, Value, View};
pub use view::view_ok;
pub use worked::{
    a_network_driver_is_sound, a_pointer_names_a_part, cells_have_keys, cells_have_zeros,
    other_views_are_none, structs_have_cells,
};
