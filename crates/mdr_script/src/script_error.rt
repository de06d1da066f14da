// Why a script is refused.

ghost use Rattle.std.specs.Prelude.{◌≡◌};
ghost use Rattle.mdr_script.specs.declared.script_error.ScriptError.TheVariants.{OutOfMemory};

use std::alloc::{AllocError, AllocFailed};

/// Why a line is refused.
#[derive(Clone, Copy)]
pub enum ScriptKind {
    /// It is no line of a script, whatever its numbers are.
    Form,
    /// A number isn't one that may stand there.
    Range,
    /// It begins a device or names a failing allocation, and stands behind a command.
    Order,
    /// There is no function of this name.
    NoFunction,
    /// The function has more or fewer parameters.
    Arity,
    /// An argument is of another kind than its parameter.
    ArgKind,
    /// There is no global of this name.
    NoGlobal,
    /// There are too many lines, rules or effects.
    Limit,
}

/// Why a script is refused.
#[derive(Clone, Copy)]
pub enum ScriptError {
    /// The first line that is refused, counted from 1.
    Line(u32, ScriptKind),
    OutOfMemory,
}

impl From<AllocError> for ScriptError {
    ghost from_gives = { λ _ e. e ≡ OutOfMemory };

    fn from(_e: AllocError) -> ScriptError {
        ScriptError::OutOfMemory
    }
}

impl<T: Drop> From<AllocFailed<T>> for ScriptError {
    ghost from_gives = { λ _ e. e ≡ OutOfMemory };

    fn from(_e: AllocFailed<T>) -> ScriptError {
        ScriptError::OutOfMemory
    }
}
