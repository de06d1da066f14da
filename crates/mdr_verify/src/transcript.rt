// A transcript, and why bytes are none.

ghost use Rattle.std.specs.Prelude.{◌≡◌, ◌+◌, length};

use mdr_core::Items;

/// What a split run printed.
#[derive(Drop)]
pub struct Transcript {
    /// The lines before the first message.
    pub report: Items<u8>,
    /// The messages to the user half, in order.
    pub sent: Items<Items<u8>>,
    /// Its answers. The last message may have none.
    pub got: Items<Items<u8>>,
}

impl Transcript {
    /// How many messages and answers there are.
    pub fn count(&self) -> u128
        ensures { result ≡ length self.now.sent + length self.now.got }
    {
        self.sent.len() as u128 + self.got.len() as u128
    }
}

/// Why bytes are no transcript.
#[derive(Clone, Copy)]
pub enum TranscriptError {
    /// The first line, counted from 1, with which no transcript goes on, or the text's end before its last line.
    Form(u128),
    OutOfMemory,
}
