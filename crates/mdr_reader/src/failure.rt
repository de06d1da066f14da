// Why nothing was read.

ghost use Rattle.std.specs.Prelude.{◌≡◌};
ghost use Rattle.mdr_reader.specs.Gives.{is_at as is_fault_at};

use std::alloc::{AllocError, AllocFailed};

/// Why nothing was read: no memory, or a token that can't stand there, told by how many are left.
#[derive(Clone, Copy)]
pub enum Failure {
    Memory,
    Fault(usize),
}

impl Failure {
    /// Whether the first of so many tokens is refused, so that nothing was read.
    pub fn is_at(self, left: usize) -> bool
        ensures { result ≡ is_fault_at self left }
    {
        match self {
            Failure::Memory => false,
            Failure::Fault(at) => at == left,
        }
    }
}

/// A token that can't stand there, told by how many are left: the answer of what takes nothing from an allocator.
#[derive(Clone, Copy)]
pub struct Refused {
    pub left: usize,
}

impl From<Refused> for Failure {
    ghost use Rattle.mdr_reader.specs.declared.failure.Failure.TheVariants.{Fault};

    ghost from_gives = { λ r e. e ≡ Fault r.left };

    fn from(refused: Refused) -> Failure {
        Failure::Fault(refused.left)
    }
}

impl From<AllocError> for Failure {
    ghost use Rattle.mdr_reader.specs.declared.failure.Failure.TheVariants.{Memory};

    ghost from_gives = { λ _ e. e ≡ Memory };

    fn from(_e: AllocError) -> Failure {
        Failure::Memory
    }
}

impl<T: Drop> From<AllocFailed<T>> for Failure {
    ghost use Rattle.mdr_reader.specs.declared.failure.Failure.TheVariants.{Memory};

    ghost from_gives = { λ _ e. e ≡ Memory };

    fn from(_e: AllocFailed<T>) -> Failure {
        Failure::Memory
    }
}
