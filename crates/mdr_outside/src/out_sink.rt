// A sink over a writer.

ghost use Rattle.std.specs.Prelude.{◌≡◌, ◌≤◌, [], None};
ghost use Rattle.mdr_outside.specs.Calls.{and_then};
ghost use Rattle.mdr_outside.specs.Count.{Rose};
ghost use Rattle.mdr_outside.specs.Sink.{Takes, HandsOn, count_after, wrote};

use crate::sink::{Sink, SinkAnswer};
use crate::sink_calls::SinkCalls;
use std::io::Write;

/// A writer, as standard output. The sink itself tells nothing of what was written.
#[derive(Drop)]
pub struct OutSink<W> {
    pub out: W,
    faults: u64,
    calls: SinkCalls,
}

impl<W: Write> OutSink<W> {
    /// The sink over this writer, with the count 0.
    pub fn new(out: W) -> Self
        ensures out { result.out ≡ out }
        ensures faults { ⟦<OutSink<W> as Sink>⟧.faults result ≡ 0 }
        ensures calls { ⟦<OutSink<W> as Sink>⟧.calls result ≡ [] }
    {
        OutSink {
            out,
            faults: 0,
            calls: SinkCalls::new(),
        }
    }
}

impl<W: Write> Sink for OutSink<W> {
    ghost written = { λ _. None };

    ghost faults = { λ s. s.faults };

    ghost calls = { λ s. s.calls };

    fn write(&mut self, piece: &[u8]) -> SinkAnswer
        ensures taken { Takes None None piece.now result }
        ensures called { self.new.calls ≡ and_then self.old.calls (wrote piece.now result) }
        ensures failed { result ≡ SinkAnswer.Failed → Rose self.old.faults self.new.faults }
        ensures counted { self.new.faults ≡ count_after self.old.faults result }
        ensures faults_later { self.old.faults ≤ self.new.faults }

        // A writer that knows its bytes gets those that were taken.
        ensures handed_on { HandsOn (W.contents self.old.out) (W.contents self.new.out) piece.now result }
    {
        match self.out.write(piece) {
            Ok(taken) if taken > 0 || piece.is_empty() => {
                self.calls = self.calls.and_wrote(piece, SinkAnswer::Ok(taken));
                SinkAnswer::Ok(taken)
            }
            Ok(_) | Err(_) => {
                self.faults = self.faults.saturating_add(1);
                self.calls = self.calls.and_wrote(piece, SinkAnswer::Failed);
                SinkAnswer::Failed
            }
        }
    }
}
