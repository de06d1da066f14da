// How often a shelf's answers came.

ghost use Rattle.std.specs.Prelude.{◌≡◌};
ghost use Rattle.mdr_outside.specs.Count.{Rose};
ghost use Rattle.mdr_outside.specs.declared.shelf.ReadAnswer.TheVariants as reads;
ghost use Rattle.mdr_outside.specs.declared.shelf.WriteAnswer.TheVariants as writes;
ghost use Rattle.mdr_outside.specs.Shelf.{counts_after_read, counts_after_write, NoneFell};

use crate::shelf::{ReadAnswer, WriteAnswer};

/// How often reads failed, missed, and were too long, and how often writes failed.
#[derive(Drop)]
pub(crate) struct Counts {
    pub(crate) faults: u64,
    pub(crate) absent: u64,
    pub(crate) long: u64,
    pub(crate) unwritten: u64,
}

impl Counts {
    /// Counts a read's answer.
    pub(crate) fn count_read(&mut self, answer: &ReadAnswer)
        ensures counted { self.new ≡ counts_after_read self.old answer.now }
        ensures later { NoneFell self.old self.new }
        ensures failed { answer.now ≡ reads.Failed → Rose self.old.faults self.new.faults }
        ensures missing { answer.now ≡ reads.Missing → Rose self.old.absent self.new.absent }
        ensures too_large { answer.now ≡ reads.TooLarge → Rose self.old.long self.new.long }
        ensures unwritten_same { self.new.unwritten ≡ self.old.unwritten }
    {
        match answer {
            ReadAnswer::Ok(_) | ReadAnswer::OutOfMemory => {}
            ReadAnswer::Missing => self.absent = self.absent.saturating_add(1),
            ReadAnswer::TooLarge => self.long = self.long.saturating_add(1),
            ReadAnswer::Failed => self.faults = self.faults.saturating_add(1),
        }
    }

    /// Counts a write's answer.
    pub(crate) fn count_write(&mut self, answer: WriteAnswer)
        ensures counted { self.new ≡ counts_after_write self.old answer }
        ensures later { NoneFell self.old self.new }
        ensures failed { answer ≡ writes.Failed → Rose self.old.unwritten self.new.unwritten }
        ensures faults_same { self.new.faults ≡ self.old.faults }
        ensures absent_same { self.new.absent ≡ self.old.absent }
        ensures long_same { self.new.long ≡ self.old.long }
    {
        match answer {
            WriteAnswer::Ok | WriteAnswer::OutOfMemory => {}
            WriteAnswer::Failed => self.unwritten = self.unwritten.saturating_add(1),
        }
    }
}
