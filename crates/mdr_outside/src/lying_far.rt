// A far side that gives the answers that it was told to give.

ghost use Rattle.std.specs.Prelude.{◌≡◌, ◌≤◌, ◌⊎◌, ◌++◌, IfOk, OnOk, OnErr};
ghost use Rattle.mdr_outside.specs.Far.{LoadsAs, loaded_with};
ghost use Rattle.mdr_outside.specs.LyingFar.{new_far, reply_at, added, after_load, Gives};
ghost use Rattle.mdr_outside.specs.Calls.{Loads, Sends, and_then};

use crate::far::{DeliverAnswer, Exchange, Far, LoadAnswer, Loaded};
use crate::far_calls::FarCalls;
use mdr_core::Items;
use std::alloc::{AllocError, Global};
use std::marker::Model;

/// Each load gets one answer, and the messages get the replies in turn. When these are used up each message
/// fails.
#[derive(Drop)]
pub struct LyingFar {
    load: LoadAnswer,
    replies: Items<DeliverAnswer>,
    given: usize,
    loaded: Option<Loaded>,
    exchanges: Items<Exchange>,
    faults: u64,
    calls: FarCalls,
}

impl Model for LyingFar {
    ghost use Rattle.mdr_outside.specs.LyingFar.{FarState};

    ghost Value = { FarState };

    ghost use Rattle.mdr_outside.specs.LyingFarView.{far_state};

    ghost view = { far_state };
}

impl LyingFar {
    /// Nothing is loaded yet. It takes no memory.
    pub fn new(alloc: Global, load: LoadAnswer, replies: Vec<DeliverAnswer>) -> Self
        ensures { result ≡ new_far load replies.items }
    {
        LyingFar {
            load,
            replies: Items::from_vec(replies),
            given: 0,
            loaded: None,
            exchanges: Items::new(alloc),
            faults: 0,
            calls: FarCalls::new(),
        }
    }

    // A copy of the next reply.
    fn next_reply(&self, alloc: Global) -> Result<DeliverAnswer, AllocError>
        ensures { IfOk result (λ reply. reply ≡ reply_at self.now.replies self.now.given) }
    {
        match self.replies.as_slice().get(self.given) {
            Some(DeliverAnswer::Ok(reply)) => Ok(DeliverAnswer::Ok(Items::from_slice(
                alloc,
                reply.as_slice(),
            )?)),
            Some(DeliverAnswer::OutOfMemory) => Ok(DeliverAnswer::OutOfMemory),
            Some(DeliverAnswer::Failed) | None => Ok(DeliverAnswer::Failed),
        }
    }
}

// Keeps the message with its answer, if there was one.
fn keep(
    alloc: Global,
    exchanges: &mut Items<Exchange>,
    sent: &[u8],
    answer: &DeliverAnswer,
) -> Result<(), AllocError>
    ensures ok { OnOk result (exchanges.new ≡ exchanges.old ++ added sent.now answer.now) }
    ensures err { OnErr result (exchanges.new ≡ exchanges.old) }
{
    let got = match answer {
        DeliverAnswer::Ok(reply) => Some(Items::from_slice(alloc, reply.as_slice())?),
        DeliverAnswer::Failed => None,
        DeliverAnswer::OutOfMemory => return Ok(()),
    };
    let sent = Items::from_slice(alloc, sent)?;
    exchanges.push(Exchange { sent, got })
}

// A load with copies of the texts.
fn load_of(
    alloc: Global,
    user: &[u8],
    plan: &[u8],
    answer: LoadAnswer,
) -> Result<Loaded, AllocError>
    ensures { IfOk result (λ load. load ≡ loaded_with user.now plan.now answer) }
{
    Ok(Loaded {
        user: Items::from_slice(alloc, user)?,
        plan: Items::from_slice(alloc, plan)?,
        answer,
    })
}

impl Far for LyingFar {
    ghost loaded = { λ s. s.loaded };

    ghost exchanges = { λ s. s.exchanges };

    ghost faults = { λ s. s.faults };

    ghost calls = { λ s. s.calls };

    fn load(&mut self, alloc: Global, user: &[u8], plan: &[u8]) -> LoadAnswer
        ensures answers { (result ≡ LoadAnswer.OutOfMemory) ⊎ (result ≡ self.old.load) }
        ensures loaded { LoadsAs user.now plan.now result self.new.loaded }
        ensures after { self.new ≡ after_load self.old self.new.loaded (Loads user.now plan.now) result }
        ensures faults_later { self.old.faults ≤ self.new.faults }
    {
        self.calls = self.calls.and_load(user, plan);
        self.exchanges = Items::new(alloc);
        self.loaded = None;
        if self.load == LoadAnswer::OutOfMemory {
            return self.load;
        }
        let loaded = match load_of(alloc, user, plan, self.load) {
            Ok(loaded) => loaded,
            Err(error) => return LoadAnswer::from(error),
        };
        self.loaded = Some(loaded);
        if self.load == LoadAnswer::Failed {
            self.faults = self.faults.saturating_add(1);
        }
        self.load
    }

    fn deliver(&mut self, alloc: Global, bytes: &[u8]) -> DeliverAnswer
        ensures gives { Gives self.old self.new bytes.now result }
        ensures faults_later { self.old.faults ≤ self.new.faults }
    {
        self.calls = self.calls.and_send(bytes);
        let reply = match self.next_reply(alloc) {
            Ok(reply) => reply,
            Err(error) => return DeliverAnswer::from(error),
        };
        if let Err(error) = keep(alloc, &mut self.exchanges, bytes, &reply) {
            return DeliverAnswer::from(error);
        }
        self.given = self.given.saturating_add(1);
        if let DeliverAnswer::Failed = &reply {
            self.faults = self.faults.saturating_add(1);
        }
        reply
    }

    fn exchanges(&self) -> &[Exchange] {
        self.exchanges.as_slice()
    }
}
