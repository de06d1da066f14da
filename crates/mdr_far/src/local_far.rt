// A far side in the same process.

ghost use Rattle.std.specs.Option.{option_copied};
ghost use Rattle.std.specs.Prelude.{◌≡◌, ℕ, List, [], None, IfOk, OnErr};
ghost use Rattle.mdr_honest.specs.Honest.{IsHonest};
ghost use Rattle.mdr_far.specs.Fars.{exchanges_of, Answered, IsOpened, Serves};
ghost use Rattle.mdr_far.specs.Halves.{FailToLoad};

use crate::half::UserHalf;
use crate::load_error::LoadError;
use crate::release::put;
use mdr_core::{Items, OutOfMemory};
use mdr_outside::{DeliverAnswer, Exchange, Far, FarCalls, LoadAnswer, Loaded};
use std::alloc::Global;
use std::marker::Model;

/// A far side that holds the user half itself. It never fails.
#[derive(Drop)]
pub struct LocalFar {
    loaded: Option<Loaded>,
    half: Option<UserHalf>,
    calls: FarCalls,
}

impl Model for LocalFar {
    ghost use Rattle.mdr_far.specs.Fars.{Held};

    ghost Value = { Held };

    ghost use Rattle.mdr_far.specs.FarView.{held, IsKeptFar};

    ghost view = { held };

    ghost invariant = { IsKeptFar };
}

impl LocalFar {
    /// Nothing is loaded yet. It takes no memory.
    pub fn new() -> Self
        ensures { result ≡ record { loaded = None; exchanges = []; calls = [] } }
    {
        LocalFar {
            loaded: None,
            half: None,
            calls: FarCalls::new(),
        }
    }

    /// What it holds is what an honest far side would.
    pub fn is_honest(&self)
        ensures { IsHonest self.now.loaded self.now.exchanges }
    {
        let _ = &self.loaded;
    }

    /// Lends the user half that it holds, which is that of the two texts loaded last. There is none before the first load,
    /// nor after one that wasn't answered `Ok`.
    pub fn user(&self) -> Option<&UserHalf>
        ensures there { Serves self.now.loaded (option_copied result) }
        ensures exchanges { exchanges_of (option_copied result) ≡ self.now.exchanges }
    {
        self.half.as_ref()
    }
}

/// The answer to texts that load no half.
fn answer_to(error: LoadError) -> Result<LoadAnswer, OutOfMemory>
    ensures { IfOk result (λ a. (user text : List ℕ) → FailToLoad user text error → Answered user text None a) }
{
    match error {
        LoadError::Plan => Ok(LoadAnswer::Refused(1)),
        LoadError::Source => Ok(LoadAnswer::Refused(2)),
        LoadError::OutOfMemory => Err(OutOfMemory::passed_on()),
    }
}

/// The half that two texts load, if they load one, is put in its place. It gives the answer to them.
fn load_half(
    alloc: Global,
    user: &[u8],
    plan: &[u8],
    half: &mut Option<UserHalf>,
) -> Result<LoadAnswer, OutOfMemory>
    ensures answered { IfOk result (Answered user.now plan.now half.new) }
    ensures left { OnErr result (half.new ≡ half.old) }
{
    match UserHalf::load(alloc, user, plan) {
        Ok(loaded) => {
            put(half, Some(loaded));
            Ok(LoadAnswer::Ok)
        }
        Err(error) => {
            let answer = answer_to(error)?;
            put(half, None);
            Ok(answer)
        }
    }
}

/// A load with copies of the texts, and with their half in its place, if they load one.
fn load_with_copies(
    alloc: Global,
    user: &[u8],
    plan: &[u8],
    half: &mut Option<UserHalf>,
) -> Result<Loaded, OutOfMemory>
    ensures opened { IfOk result (IsOpened user.now plan.now half.new) }
    ensures left { OnErr result (half.new ≡ half.old) }
{
    let user_copy = Items::from_slice(alloc, user)?;
    let plan_copy = Items::from_slice(alloc, plan)?;
    let answer = load_half(alloc, user, plan, half)?;
    Ok(Loaded {
        user: user_copy,
        plan: plan_copy,
        answer,
    })
}

/// The same, where no half is in its place if memory was wanting.
fn load_anew(
    alloc: Global,
    user: &[u8],
    plan: &[u8],
    half: &mut Option<UserHalf>,
) -> Result<Loaded, OutOfMemory>
    ensures opened { IfOk result (IsOpened user.now plan.now half.new) }
    ensures empty { OnErr result (half.new ≡ None) }
{
    put(half, None);
    load_with_copies(alloc, user, plan, half)
}

impl Far for LocalFar {
    ghost loaded = { λ s. s.loaded };

    ghost exchanges = { λ s. s.exchanges };

    ghost faults = { λ _. 0 };

    ghost calls = { λ s. s.calls };

    fn load(&mut self, alloc: Global, user: &[u8], plan: &[u8]) -> LoadAnswer {
        self.calls = self.calls.and_load(user, plan);
        self.loaded = None;
        match load_anew(alloc, user, plan, &mut self.half) {
            Ok(loaded) => {
                let answer = loaded.answer;
                self.loaded = Some(loaded);
                answer
            }
            Err(error) => LoadAnswer::from(error),
        }
    }

    fn deliver(&mut self, alloc: Global, bytes: &[u8]) -> DeliverAnswer {
        self.calls = self.calls.and_send(bytes);
        match &mut self.half {
            Some(half) => match half.deliver(alloc, bytes) {
                Ok(reply) => {
                    half.replies();
                    DeliverAnswer::Ok(Items::from_vec(reply))
                }
                Err(error) => {
                    half.replies();
                    DeliverAnswer::from(error)
                }
            },
            None => unreachable!(),
        }
    }

    fn exchanges(&self) -> &[Exchange] {
        match &self.half {
            Some(half) => half.exchanges(),
            None => &[],
        }
    }
}
