// The user half over bytes.

ghost use Rattle.std.specs.Option.{option_copied};
ghost use Rattle.std.specs.Prelude.{◌≡◌, ℕ, [], ◌∷◌, ◌++◌, true, is_some, option_map, Some, Ok, IfOk, IfSome, OnErr};
ghost use Rattle.mdr_core.specs.Sound.{IsSound};
ghost use Rattle.mdr_exchanges.specs.Runs.{sent_of};
ghost use Rattle.mdr_exchanges.specs.Meanings.{Honest};
ghost use Rattle.mdr_model.specs.declared.message.Message.TheVariants.{Refuse};
ghost use Rattle.mdr_model.specs.Text.{text};
ghost use Rattle.mdr_outside.specs.Far.{exchange};
ghost use Rattle.mdr_over_bytes.specs.OverBytes.{IsHonestReply};
ghost use Rattle.mdr_model.specs.Bytes.{readings};
ghost use Rattle.mdr_track.specs.Tracked.{pairs_of};
ghost use Rattle.mdr_region.specs.Layout.{places_of};
ghost use Rattle.mdr_user_code.specs.Standing.{Follows, IsFit};
ghost use Rattle.mdr_user_memory.specs.Kept.{IsLived};
ghost use Rattle.mdr_user_memory.specs.Paired.{Paired};
ghost use Rattle.mdr_watched.specs.Driver.{driver_of};
ghost use Rattle.mdr_far.specs.Memories.{ArePairsOf, HasLived, HoldsMemory, lived_in, memory_of};
ghost use Rattle.mdr_far.specs.Halves.{new_half, after_reply, lost, driver_in, ReplyAlike, Load};

use crate::bytes::reply_to;
use crate::load_error::LoadError;
use crate::release::{given_up, put};
use crate::source::source;
use mdr_core::{Items, OutOfMemory, Plan, Program};
use mdr_half_source::HalfSource;
use mdr_outside::Exchange;
use mdr_track::Tracker;
use mdr_user_code::{State, begins};
use mdr_user_memory::UserMemory;
use std::alloc::Global;
use std::marker::Model;

/// The user half of a driver: it gets messages and replies to them. Once memory was wanting it replies no more, and
/// answers that want from then on.
#[derive(Drop)]
pub struct UserHalf {
    program: Program,
    plan: Plan,
    state: Option<State>,
    wanted: Option<OutOfMemory>,
    exchanges: Items<Exchange>,
}

impl Model for UserHalf {
    ghost use Rattle.std.specs.Coded.{codes};
    ghost use Rattle.mdr_core.specs.contracts.types.Ty as t;
    ghost use Rattle.mdr_core.specs.contracts.code.Stmt as s;
    ghost use Rattle.mdr_far.specs.Halves.{HalfState};

    ghost Value = { HalfState };

    ghost coded = { Prim.hlevel (codes, t.the_row.coded, s.the_row.coded) };

    ghost use Rattle.mdr_far.specs.HalfView.{half_state, IsKeptHalf};

    ghost view = { half_state };

    ghost invariant = { IsKeptHalf };
}

/// A message with its reply.
fn exchange(alloc: Global, sent: &[u8], reply: &[u8]) -> Result<Exchange, OutOfMemory>
    ensures { IfOk result (λ e. e ≡ exchange sent.now (Some reply.now)) }
{
    Ok(Exchange {
        sent: Items::from_slice(alloc, sent)?,
        got: Some(Items::from_slice(alloc, reply)?),
    })
}

/// A reply is kept with its message, or there is none.
fn recorded(
    alloc: Global,
    exchanges: &mut Items<Exchange>,
    sent: &[u8],
    reply: Result<Vec<u8>, OutOfMemory>,
) -> Result<Vec<u8>, OutOfMemory>
    ensures ok { IfOk result (λ r. (reply ≡ Ok r) × (exchanges.new ≡ exchanges.old ++ exchange sent.now (Some r.items) ∷ [])) }
    ensures err { OnErr result (exchanges.new ≡ exchanges.old) }
{
    let reply = reply?;
    let exchanged = exchange(alloc, sent, reply.as_slice())?;
    exchanges.push(exchanged)?;
    Ok(reply)
}

/// The want of memory that there was.
fn wanting(wanted: Option<OutOfMemory>) -> OutOfMemory
    requires { is_some wanted ≡ true }
{
    match wanted {
        Some(error) => error,
        None => unreachable!(),
    }
}

fn half_of(alloc: Global, source: HalfSource, state: State) -> UserHalf
    requires sound { IsSound source.program }
    requires fit { IsFit source.plan source.program }
    requires begins { Follows (driver_of source.program source.plan) [] state }
    ensures { result ≡ new_half source.program source.plan (Some state.memory) }
{
    let HalfSource { program, plan } = source;
    UserHalf {
        program,
        plan,
        state: Some(state),
        wanted: None,
        exchanges: Items::new(alloc),
    }
}

impl UserHalf {
    fn begin(alloc: Global, source: HalfSource) -> Result<UserHalf, OutOfMemory>
        requires sound { IsSound source.program }
        requires fit { IsFit source.plan source.program }
        ensures begun { IfOk result (λ h. h ≡ new_half source.program source.plan h.memory) }
        ensures paired { IfOk result HoldsMemory }
        ensures lived { IfOk result HasLived }
    {
        match begins(alloc, &source.program, &source.plan) {
            Ok(state) => {
                state.memory().is_paired();
                Ok(half_of(alloc, source, state))
            }
            Err(error) => given_up(error, source),
        }
    }

    /// The half of the text of a user half and of the text of its plan, with its memory. The plan's is judged first.
    pub fn load(alloc: Global, user: &[u8], plan: &[u8]) -> Result<UserHalf, LoadError>
        ensures load { Load user.now plan.now result }
        ensures paired { IfOk result HoldsMemory }
        ensures lived { IfOk result HasLived }
    {
        let source = source(alloc, user, plan)?;
        let half = UserHalf::begin(alloc, source)?;
        Ok(half)
    }

    /// The reply to a message. A message that is refused leaves the half as it was, each cell and each pair too: it replies
    /// from then on as if the message hadn't come. After each reply it holds the memory that the definition's user half has
    /// then.
    pub fn deliver(&mut self, alloc: Global, bytes: &[u8]) -> Result<Vec<u8>, OutOfMemory>
        ensures reply { IfOk result (λ reply. IsHonestReply (driver_in self.old) (sent_of self.old.exchanges) bytes.now reply.items) }
        ensures kept { IfOk result (λ reply. self.new ≡ after_reply self.old bytes.now reply.items self.new.memory) }
        ensures paired { IfOk result (λ reply. HoldsMemory self.new) }
        ensures lived { IfOk result (λ reply. HasLived self.new) }
        ensures refused { IfOk result (λ reply. (reason : ℕ) → reply.items ≡ text (Refuse reason) → ReplyAlike self.new self.old) }
        ensures untouched { IfOk result (λ reply. (reason : ℕ) → reply.items ≡ text (Refuse reason) → self.new.memory ≡ self.old.memory) }
        ensures err { OnErr result (self.new ≡ lost self.old) }
        ensures held { IfOk result (λ reply. is_some self.old.memory ≡ true) }
    {
        let Some(mut state) = self.state.take() else {
            return Err(wanting(self.wanted));
        };
        let reply = reply_to(alloc, &self.program, &self.plan, &mut state, bytes);
        match recorded(alloc, &mut self.exchanges, bytes, reply) {
            Ok(reply) => {
                state.memory().is_paired();
                put(&mut self.state, Some(state));
                Ok(reply)
            }
            Err(error) => {
                self.wanted = Some(error);
                given_up(error, state)
            }
        }
    }

    /// Lends the messages since the load, each with its reply.
    pub fn exchanges(&self) -> &[Exchange]
        ensures { result.now ≡ self.now.exchanges }
    {
        self.exchanges.as_slice()
    }

    /// Lends the user half's own memory with its pairs, while memory wasn't wanting: the paired serials are those of the live
    /// blocks of the user half's memory after the messages so far, each of them is live there with its kind and shape, no other
    /// block is, and each cell has its value, with pointers taken through the pairs.
    pub fn memory(&self) -> Option<&UserMemory>
        ensures there { option_copied result ≡ self.now.memory }
        ensures paired { IfSome (option_copied result) (λ u. Paired (memory_of self.now) u.region.contents (pairs_of u.pairs)) }
        ensures lived { IfSome (option_copied result) (IsLived (lived_in self.now)) }
    {
        match &self.state {
            Some(state) => {
                let memory = state.memory();
                memory.is_paired();
                Some(memory)
            }
            None => None,
        }
    }

    /// Lends the pairs of that memory's blocks with the kernel's serials, while memory wasn't wanting.
    pub fn pairs(&self) -> Option<&Tracker>
        ensures there { option_copied result ≡ option_map (λ u. u.pairs) self.now.memory }
        ensures paired { IfSome (option_copied result) (λ t. ArePairsOf (memory_of self.now) (pairs_of t)) }
    {
        match self.memory() {
            Some(memory) => Some(memory.pairs()),
            None => None,
        }
    }

    /// How many places of that memory are used, and how many there are, while memory wasn't wanting: after the births of the
    /// globals, and then the deaths and births of each message that wasn't refused.
    pub fn layout(&self) -> Option<(u64, u64)>
        ensures there { result ≡ option_map (λ u. places_of u.region.contents.lives) self.now.memory }
        ensures laid { IfSome result (λ places. places ≡ places_of (lived_in self.now).lives) }
    {
        match self.memory() {
            Some(memory) => Some(memory.region().layout()),
            None => None,
        }
    }

    /// Each reply is the user half's reply to the messages so far.
    pub fn replies(&self)
        ensures { Honest (driver_in self.now) [] self.now.exchanges }
    {
        let _ = &self.exchanges;
    }
}
