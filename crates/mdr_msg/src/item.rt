// What has a spelling.

use crate::error::MsgError;
use mdr_core::OutOfMemory;
use mdr_xdr::Cursor;
use std::alloc::Global;

/// A part of a message. Each has one spelling.
pub trait Item: Drop {
    ghost use Rattle.std.specs.Prelude.{◌≡◌, ◌++◌, ℕ, List, OnOk};
    ghost use Rattle.mdr_model.specs.Xdr.{Input, Read};
    ghost use Rattle.mdr_msg.specs.Decoding.{Gives};

    /// Its spelling.
    ghost text: { Self → List ℕ };
    /// What has to hold of it so that it has one.
    ghost can_be_put: { Self → Type 0 };
    /// Whether it is what its spelling reads as: each number fits its bytes.
    ghost has_spelling: { Self → Type 0 };
    /// What is read where bytes begin with it.
    ghost reader: { Input → Read Self };

    /// Writes its spelling at the end.
    fn put(&self, out: &mut Vec<u8>) -> Result<(), OutOfMemory>
        requires { can_be_put self.now }
        ensures written { OnOk result (out.new.items ≡ out.old.items ++ text self.now) }
        ensures spelled { OnOk result (has_spelling self.now) };

    /// Reads one.
    fn get(alloc: Global, bytes: &[u8], c: &mut Cursor) -> Result<Self, MsgError>
        ensures { Gives bytes.now c.old.at c.new.at result reader };
}
