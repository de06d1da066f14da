//! Calls: of functions by name or through a pointer, and of the kernel's services (C99 6.5.2.2).
#![tactic(auto)]

mod allocation;
mod arguments;
mod back;
mod call;
mod directives;
mod function;
mod interrupt;
mod parts;
mod plain;
mod printing;
mod service;
mod star;
mod valued;
mod written;

pub use call::call_rule;
pub use parts::{Argument, Callable, Handle, Target, TypedCall};
pub use service::{PlainService, Service, service_named};
pub use star::{is_handle, is_star, starred};
pub use valued::call_value;
pub use written::argument;
