// A sink in memory.

ghost use Rattle.std.specs.Prelude.{◌≡◌, ◌≤◌, ◌<◌, Some, IfOk};
ghost use Rattle.mdr_outside.specs.VecSink.{new_sink, sink_answer, after_write};

use crate::calls::Calls;
use crate::sink::{Sink, SinkAnswer};
use crate::sink_calls::SinkCalls;
use mdr_core::OutOfMemory;
use std::alloc::Global;
use std::marker::Model;

/// Bytes in memory. Writes are counted from 1, and those of the given numbers fail.
#[derive(Drop)]
pub struct VecSink {
    bytes: Vec<u8>,
    room: usize,
    most: usize,
    calls: Calls,
    faults: u64,
    history: SinkCalls,
}

impl Model for VecSink {
    ghost use Rattle.mdr_outside.specs.VecSink.{SinkState};

    ghost Value = { SinkState };

    ghost use Rattle.mdr_outside.specs.VecSinkView.{sink_state, HasRoom};

    ghost view = { sink_state };

    ghost invariant = { HasRoom };
}

impl VecSink {
    /// The empty sink, which holds at most `room` bytes and takes at most `take` of a piece. It takes the memory
    /// for all of them at once.
    pub fn new(
        alloc: Global,
        room: usize,
        take: usize,
        fails: Vec<u64>,
    ) -> Result<Self, OutOfMemory>
        requires { 0 < take }
        ensures { IfOk result (λ sink. sink ≡ new_sink room take fails.items) }
    {
        let bytes = Vec::with_capacity(alloc, room)?;
        Ok(VecSink {
            bytes,
            room,
            most: take,
            calls: Calls::new(fails),
            faults: 0,
            history: SinkCalls::new(),
        })
    }

    /// Lends the bytes that were written.
    pub fn bytes(&self) -> &[u8]
        ensures { result.now ≡ self.now.bytes }
    {
        self.bytes.as_slice()
    }
}

impl Sink for VecSink {
    ghost written = { λ s. Some s.bytes };

    ghost faults = { λ s. s.faults };

    ghost calls = { λ s. s.history };

    fn write(&mut self, piece: &[u8]) -> SinkAnswer
        ensures answers { result ≡ sink_answer self.old piece.now }
        ensures after { self.new ≡ after_write self.old piece.now result }
        ensures some { 0 < self.old.most }
        ensures faults_later { self.old.faults ≤ self.new.faults }
    {
        let fails = self.calls.is_next_failing();
        let taken = piece.len().min(self.most).min(self.room - self.bytes.len());
        self.calls.count();
        if fails || (taken == 0 && !piece.is_empty()) {
            self.faults = self.faults.saturating_add(1);
            self.history = self.history.and_wrote(piece, SinkAnswer::Failed);
            return SinkAnswer::Failed;
        }
        self.bytes.extend_from_slice(&piece[..taken]).unwrap();
        self.history = self.history.and_wrote(piece, SinkAnswer::Ok(taken));
        SinkAnswer::Ok(taken)
    }
}
