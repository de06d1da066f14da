// Laws, each as a function that does nothing.

ghost use Rattle.mdr_top.specs.TranscriptLaws.{HonestRunsAreOne, VerifiedTranscriptsArePrinted};

/// Whatever honest far sides answer that never fail, there is one run of a script over the halves of a source.
pub fn honest_runs_are_one()
    ensures { HonestRunsAreOne }
{}

/// A transcript is verified exactly where it is what is printed of a run over an honest far side that never failed.
pub fn verified_transcripts_are_printed()
    ensures { VerifiedTranscriptsArePrinted }
{}
