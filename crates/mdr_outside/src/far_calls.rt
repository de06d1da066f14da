// The calls of a far side so far, which contracts see and which take no bytes.

ghost use Rattle.std.specs.Prelude.{◌≡◌, []};
ghost use Rattle.mdr_outside.specs.Calls.{Loads, Sends, and_then};

use mdr_history::{History, Tells};
use std::marker::Model;

/// The type of a call; no value of it is made.
#[derive(Drop)]
pub struct Called;

impl Model for Called {
    ghost use Rattle.std.specs.Prelude.{[]};
    ghost use Rattle.mdr_outside.specs.Calls.{FarCall, Sends};

    ghost Value = { FarCall };

    ghost view = { λ _. Sends [] };
}

impl<'a> Tells<Called> for (&'a [u8], &'a [u8]) {
    ghost use Rattle.mdr_outside.specs.Calls.{Loads};

    ghost item = { λ texts. Loads texts.0.now texts.1.now };
}

impl<'a> Tells<Called> for &'a [u8] {
    ghost use Rattle.mdr_outside.specs.Calls.{Sends};

    ghost item = { λ message. Sends message.now };
}

/// The calls of a far side so far, in their order. A far side that has no use for the list itself keeps this, so
/// that its contracts can speak of them.
#[derive(Drop)]
pub struct FarCalls {
    calls: History<Called>,
}

impl Model for FarCalls {
    ghost use Rattle.std.specs.Prelude.{List};
    ghost use Rattle.mdr_outside.specs.Calls.{FarCall};

    ghost Value = { List FarCall };

    ghost view = { λ h. h.calls };
}

impl FarCalls {
    /// No call was made.
    pub fn new() -> FarCalls
        ensures { result ≡ [] }
    {
        FarCalls {
            calls: History::new(),
        }
    }

    /// A load more.
    pub fn and_load(&self, user: &[u8], plan: &[u8]) -> FarCalls
        ensures { result ≡ and_then self.now (Loads user.now plan.now) }
    {
        FarCalls {
            calls: self.calls.and(&(user, plan)),
        }
    }

    /// A message more.
    pub fn and_send(&self, message: &[u8]) -> FarCalls
        ensures { result ≡ and_then self.now (Sends message.now) }
    {
        FarCalls {
            calls: self.calls.and(&message),
        }
    }
}
