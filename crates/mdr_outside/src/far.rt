// The other half of the driver, behind messages.

ghost use Rattle.std.specs.Prelude.{◌≡◌};
ghost use Rattle.mdr_outside.specs.declared.far.DeliverAnswer.TheVariants.{OutOfMemory as NoDelivery};
ghost use Rattle.mdr_outside.specs.declared.far.LoadAnswer.TheVariants.{OutOfMemory as NoLoad};

use mdr_core::{Items, OutOfMemory};
use std::alloc::{AllocError, Global};

/// What the far side answers to the texts that it is to load.
#[derive(Clone, Copy, Debug, PartialEq, Eq)]
pub enum LoadAnswer {
    /// It runs the driver's user half from now on.
    Ok,
    /// The texts are none that it can run. The number says which.
    Refused(u32),
    /// It didn't answer.
    Failed,
    OutOfMemory,
}

/// What the far side answers to a message.
#[derive(Drop)]
pub enum DeliverAnswer {
    /// The reply.
    Ok(Items<u8>),
    /// It didn't answer.
    Failed,
    OutOfMemory,
}

impl From<AllocError> for LoadAnswer {
    ghost from_gives = { λ _ a. a ≡ NoLoad };

    fn from(_e: AllocError) -> LoadAnswer {
        LoadAnswer::OutOfMemory
    }
}

impl From<OutOfMemory> for LoadAnswer {
    ghost from_gives = { λ _ a. a ≡ NoLoad };

    fn from(_e: OutOfMemory) -> LoadAnswer {
        LoadAnswer::OutOfMemory
    }
}

impl From<AllocError> for DeliverAnswer {
    ghost from_gives = { λ _ a. a ≡ NoDelivery };

    fn from(_e: AllocError) -> DeliverAnswer {
        DeliverAnswer::OutOfMemory
    }
}

impl From<OutOfMemory> for DeliverAnswer {
    ghost from_gives = { λ _ a. a ≡ NoDelivery };

    fn from(_e: OutOfMemory) -> DeliverAnswer {
        DeliverAnswer::OutOfMemory
    }
}

/// A load: the two texts, and the answer.
#[derive(Drop)]
pub struct Loaded {
    pub user: Items<u8>,
    pub plan: Items<u8>,
    pub answer: LoadAnswer,
}

/// A message that was sent, and the reply where there was one.
#[derive(Drop)]
pub struct Exchange {
    pub sent: Items<u8>,
    pub got: Option<Items<u8>>,
}

/// The far side. It holds the last load, `None` before the first and after one that wanted memory, and the
/// exchanges since then.
///
/// `faults` says how often an answer failed. At the greatest `u64` it stands still. `calls` are all loads and
/// messages so far, in their order, whatever was answered.
pub trait Far {
    ghost use Rattle.std.specs.Prelude.{◌≡◌, ◌≤◌, ℕ, List, [], Option};
    ghost use Rattle.mdr_outside.specs.Calls.{FarCall, Loads, Sends, and_then};
    ghost use Rattle.mdr_outside.specs.Count.{Rose};
    ghost use Rattle.mdr_outside.specs.Far.{LoadsAs, IsLoaded, Exchanges};
    ghost use Rattle.mdr_outside.specs.declared.far.LoadAnswer.{LoadAnswer};
    ghost use Rattle.mdr_outside.specs.declared.far.DeliverAnswer.{DeliverAnswer};
    ghost use Rattle.mdr_outside.specs.declared.far.Loaded.{Loaded as OneLoad};
    ghost use Rattle.mdr_outside.specs.declared.far.Exchange.{Exchange as OneExchange};

    ghost loaded: { Self → Option OneLoad };

    ghost exchanges: { Self → List OneExchange };

    ghost faults: { Self → ℕ };

    ghost calls: { Self → List FarCall };

    /// Loads the text of the user half and the text of the plan. A new list of exchanges begins.
    fn load(&mut self, alloc: Global, user: &[u8], plan: &[u8]) -> LoadAnswer
        ensures loaded { LoadsAs user.now plan.now result (loaded self.new) }
        ensures empty { exchanges self.new ≡ [] }
        ensures called { calls self.new ≡ and_then (calls self.old) (Loads user.now plan.now) }
        ensures failed { result ≡ LoadAnswer.Failed → Rose (faults self.old) (faults self.new) }
        ensures faults_later { faults self.old ≤ faults self.new };

    /// Sends a message and waits for the reply.
    fn deliver(&mut self, alloc: Global, bytes: &[u8]) -> DeliverAnswer
        requires { IsLoaded (loaded self.old) }
        ensures exchanged { Exchanges (exchanges self.old) (exchanges self.new) bytes.now result }
        ensures called { calls self.new ≡ and_then (calls self.old) (Sends bytes.now) }
        ensures loaded { loaded self.new ≡ loaded self.old }
        ensures failed { result ≡ DeliverAnswer.Failed → Rose (faults self.old) (faults self.new) }
        ensures faults_later { faults self.old ≤ faults self.new };

    /// Lends the exchanges since the last load.
    fn exchanges(&self) -> &[Exchange]
        ensures { result.now ≡ exchanges self.now };
}
