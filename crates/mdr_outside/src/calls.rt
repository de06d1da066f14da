// Calls that are counted, of which some are to fail.

ghost use Rattle.std.specs.Prelude.{◌≡◌};
ghost use Rattle.mdr_outside.specs.Count.{raised, is_failing};

use mdr_core::Items;

/// How many calls were made, and the numbers, from 1, of those that fail.
#[derive(Drop)]
pub(crate) struct Calls {
    pub(crate) fails: Items<u64>,
    pub(crate) made: u64,
}

impl Calls {
    /// No call was made.
    pub(crate) fn new(fails: Vec<u64>) -> Self
        ensures { result ≡ record { fails = fails.items; made = 0 } }
    {
        Calls {
            fails: Items::from_vec(fails),
            made: 0,
        }
    }

    /// Whether the next call is to fail.
    pub(crate) fn is_next_failing(&self) -> bool
        ensures { result ≡ is_failing self.now.fails (raised self.now.made) }
    {
        let number = self.made.saturating_add(1);
        self.fails.as_slice().iter().any(|k| *k == number)
    }

    /// Counts a call.
    pub(crate) fn count(&mut self)
        ensures { self.new ≡ record self.old { made = raised self.old.made } }
    {
        self.made = self.made.saturating_add(1);
    }
}
