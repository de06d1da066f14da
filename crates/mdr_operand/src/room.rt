// What is known inside a function beside what its file declares (C99 6.2.1).

ghost use Rattle.std.specs.Prelude.{◌≡◌, None};
ghost use Rattle.std.specs.Option.{option_copied};
ghost use Rattle.mdr_operand.specs.Rooms.{local_from};

use mdr_core::Name;
use mdr_faults::{Fault, Object};

/// A parameter or a local: its slot, whether it is an object of its own, and what it is or what is wrong with its
/// declaration.
#[derive(Drop)]
pub struct LocalName {
    pub name: Name,
    pub slot: u32,
    pub is_object: bool,
    pub means: Result<Object, Fault>,
}

/// The innermost declaration of a name.
#[tactic(auto, unfolding(crate::specs::Rooms::local_from))]
pub fn local_named<'a>(locals: &'a [LocalName], name: &[u8]) -> Option<&'a LocalName>
    ensures { option_copied result ≡ local_from None locals.now name.now }
{
    let mut found = None;
    for local in locals {
        if local.name.as_slice() == name {
            found = Some(local);
        }
    }
    found
}
