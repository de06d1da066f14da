// The calls of a sink so far, which contracts see and which take no bytes.

ghost use Rattle.std.specs.Prelude.{◌≡◌, []};
ghost use Rattle.mdr_outside.specs.Calls.{and_then};
ghost use Rattle.mdr_outside.specs.Sink.{wrote};

use crate::sink::{SinkAnswer, SinkCall};
use mdr_history::{History, Tells};
use std::marker::Model;

impl<'a> Tells<SinkCall> for (&'a [u8], SinkAnswer) {
    ghost use Rattle.mdr_outside.specs.Sink.{wrote};

    ghost item = { λ call. wrote call.0.now call.1 };
}

/// The writes of a sink so far, in their order.
#[derive(Drop)]
pub struct SinkCalls {
    calls: History<SinkCall>,
}

impl Model for SinkCalls {
    ghost use Rattle.std.specs.Prelude.{List};
    ghost use Rattle.mdr_outside.specs.declared.sink.SinkCall.{SinkCall};

    ghost Value = { List SinkCall };

    ghost view = { λ h. h.calls };
}

impl SinkCalls {
    /// No call was made.
    pub(crate) fn new() -> SinkCalls
        ensures { result ≡ [] }
    {
        SinkCalls {
            calls: History::new(),
        }
    }

    /// A write more, and its answer.
    pub(crate) fn and_wrote(&self, piece: &[u8], answer: SinkAnswer) -> SinkCalls
        ensures { result ≡ and_then self.now (wrote piece.now answer) }
    {
        SinkCalls {
            calls: self.calls.and(&(piece, answer)),
        }
    }
}
