// The calls of a shelf so far, which contracts see and which take no bytes.

ghost use Rattle.std.specs.Prelude.{◌≡◌, []};
ghost use Rattle.mdr_outside.specs.Calls.{Read, Written, and_then};

use crate::shelf::{ReadAnswer, WriteAnswer};
use mdr_history::{History, Tells};
use std::marker::Model;

/// The type of a call; no value of it is made.
#[derive(Drop)]
pub struct Called;

impl Model for Called {
    ghost use Rattle.std.specs.Prelude.{[]};
    ghost use Rattle.mdr_outside.specs.Calls.{Read, ShelfCall};
    ghost use Rattle.mdr_outside.specs.declared.shelf.ReadAnswer.TheVariants as reads;

    ghost Value = { ShelfCall };

    ghost view = { λ _. Read [] 0 reads.Missing };
}

impl<'a> Tells<Called> for (&'a str, u64, &'a ReadAnswer) {
    ghost use Rattle.mdr_outside.specs.Calls.{Read};

    ghost item = { λ call. Read call.0.now call.1 call.2.now };
}

impl<'a> Tells<Called> for (&'a str, &'a [u8], WriteAnswer) {
    ghost use Rattle.mdr_outside.specs.Calls.{Written};

    ghost item = { λ call. Written call.0.now call.1.now call.2 };
}

/// The calls of a shelf so far, in their order.
#[derive(Drop)]
pub struct ShelfCalls {
    calls: History<Called>,
}

impl Model for ShelfCalls {
    ghost use Rattle.std.specs.Prelude.{List};
    ghost use Rattle.mdr_outside.specs.Calls.{ShelfCall};

    ghost Value = { List ShelfCall };

    ghost view = { λ h. h.calls };
}

impl ShelfCalls {
    /// No call was made.
    pub fn new() -> ShelfCalls
        ensures { result ≡ [] }
    {
        ShelfCalls {
            calls: History::new(),
        }
    }

    /// A read more, and its answer.
    pub fn and_read(&self, name: &str, limit: u64, answer: &ReadAnswer) -> ShelfCalls
        ensures { result ≡ and_then self.now (Read name.now limit answer.now) }
    {
        ShelfCalls {
            calls: self.calls.and(&(name, limit, answer)),
        }
    }

    /// A write more, and its answer.
    pub fn and_written(&self, name: &str, bytes: &[u8], answer: WriteAnswer) -> ShelfCalls
        ensures { result ≡ and_then self.now (Written name.now bytes.now answer) }
    {
        ShelfCalls {
            calls: self.calls.and(&(name, bytes, answer)),
        }
    }
}
