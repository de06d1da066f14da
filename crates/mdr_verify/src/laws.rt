// What holds of transcripts and their texts.

ghost use Rattle.std.specs.Prelude.{◌≡◌, ℕ, List};
ghost use Rattle.mdr_verify.specs.declared.transcript.Transcript.{Transcript};
ghost use Rattle.mdr_verify.specs.Transcripts.{IsTranscript, IsFault};

/// A text is at most one transcript.
pub fn a_text_is_one_transcript()
    ensures { (bytes : List ℕ) (t other : Transcript) → IsTranscript bytes t → IsTranscript bytes other → t ≡ other }
{}

/// A transcript has no fault.
pub fn a_transcript_has_no_fault()
    ensures { (bytes : List ℕ) (t : Transcript) (number : ℕ) → IsTranscript bytes t → IsFault bytes number → ⊥ }
{}

/// A text has at most one fault.
pub fn a_text_has_one_fault()
    ensures { (bytes : List ℕ) (number other : ℕ) → IsFault bytes number → IsFault bytes other → number ≡ other }
{}
