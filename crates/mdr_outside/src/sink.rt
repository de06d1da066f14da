// Where the output goes.

use mdr_core::Items;

/// What a sink answers to a write.
#[derive(Clone, Copy, Debug, PartialEq, Eq)]
pub enum SinkAnswer {
    /// So many bytes of the piece were taken, from its first on.
    Ok(usize),
    /// Nothing was taken.
    Failed,
}

/// A write: the piece, and the answer.
#[derive(Drop)]
pub struct SinkCall {
    pub piece: Items<u8>,
    pub answer: SinkAnswer,
}

/// A sink holds the bytes that were written. `written` tells them, or doesn't.
///
/// `faults` says how often a write failed. At the greatest `u64` it stands still. `calls` are all writes so far with
/// their answers, in their order.
pub trait Sink {
    ghost use Rattle.std.specs.Prelude.{◌≡◌, ◌≤◌, ℕ, List, Option};
    ghost use Rattle.mdr_outside.specs.Calls.{and_then};
    ghost use Rattle.mdr_outside.specs.Count.{Rose};
    ghost use Rattle.mdr_outside.specs.Sink.{Takes, wrote};
    ghost use Rattle.mdr_outside.specs.declared.sink.SinkAnswer.{SinkAnswer};
    ghost use Rattle.mdr_outside.specs.declared.sink.SinkCall.{SinkCall as OneCall};

    ghost written: { Self → Option (List ℕ) };

    ghost faults: { Self → ℕ };

    ghost calls: { Self → List OneCall };

    /// Appends the piece, or a part from its beginning.
    fn write(&mut self, piece: &[u8]) -> SinkAnswer
        ensures taken { Takes (written self.old) (written self.new) piece.now result }
        ensures called { calls self.new ≡ and_then (calls self.old) (wrote piece.now result) }
        ensures failed { result ≡ SinkAnswer.Failed → Rose (faults self.old) (faults self.new) }
        ensures faults_later { faults self.old ≤ faults self.new };
}
