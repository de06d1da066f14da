// The kernel half.

ghost use Rattle.std.specs.Prelude.{◌≡◌, ◌≤◌, [], ◌++◌, true, false, IfOk, OnErr, length};
ghost use Rattle.mdr_core.specs.Sound.{IsSound};
ghost use Rattle.mdr_exchanges.specs.Calls.{IsStopped, sends};
ghost use Rattle.mdr_exchanges.specs.Ends.{AreFew, IsAsBefore};
ghost use Rattle.mdr_exchanges.specs.Meanings.{MeansOneMemory};
ghost use Rattle.mdr_exchanges.specs.Runs.{IsFarFault, IsRun, sent_of};
ghost use Rattle.mdr_near.specs.HalfState.{IsLeft, driver_held};
ghost use Rattle.mdr_outside.specs.Count.{Rose};
ghost use Rattle.mdr_outside.specs.Far.{IsLoaded};

use crate::whole::{Shown, run_whole};
use mdr_bound::Bound;
use mdr_core::{OutOfMemory, Plan, Program};
use mdr_model::MemoryBlock;
use mdr_outside::Far;
use mdr_plain::Outcome;
use mdr_watch::Watch;
use std::alloc::Global;
use std::marker::Model;

/// The kernel half of a driver, for one run. It borrows the program and the plan.
#[derive(Drop)]
pub struct KernelHalf<'a> {
    program: &'a Program,
    plan: &'a Plan,
    is_fresh: bool,
    memory: Vec<MemoryBlock>,
    messages: u64,
    layout: (u64, u64),
}

impl<'a> Model for KernelHalf<'a> {
    ghost use Rattle.mdr_near.specs.HalfState.{HalfState};

    ghost Value = { HalfState };

    ghost use Rattle.mdr_core.specs.contracts.types.Ty as ty;
    ghost use Rattle.mdr_core.specs.contracts.code.Stmt as stmt;
    ghost use Rattle.std.specs.Coded.{codes};

    ghost coded = { Prim.hlevel (codes, ty.the_row.coded, stmt.the_row.coded) };

    ghost use Rattle.mdr_near.specs.HalfView.{IsKept, half_state};

    ghost view = { half_state };

    ghost invariant = { IsKept };
}

impl<'a> KernelHalf<'a> {
    /// A half that had no run, and holds no memory yet. It takes no memory.
    pub fn new(alloc: Global, program: &'a Program, plan: &'a Plan) -> KernelHalf<'a>
        requires sound { IsSound program.now }
        requires fit { length plan.now.halves ≡ length program.now.funcs }
        ensures { result ≡ record { program = program.now; plan = plan.now; is_fresh = true; memory = []; messages = 0; layout = (0, 0) } }
    {
        KernelHalf {
            program,
            plan,
            is_fresh: true,
            memory: Vec::new(alloc),
            messages: 0,
            layout: (0, 0),
        }
    }

    /// Runs a script under a budget of ticks over a far side that was loaded and got no message since. After
    /// this the half takes no further run. Where memory was wanting it holds the memory of the place where the run last
    /// waited for an answer, or none where it never did.
    pub fn run<F: Far>(
        &mut self,
        alloc: Global,
        script: &Bound,
        ticks: u64,
        far: &mut F,
    ) -> Result<Outcome, OutOfMemory>
        requires half { self.old.is_fresh ≡ true }
        requires loaded { IsLoaded (F.loaded far.old) }
        requires fresh { F.exchanges far.old ≡ [] }
        ensures run { IfOk result (IsRun (driver_held self.old) script.now ticks (F.exchanges far.new)) }
        ensures meant { IfOk result (MeansOneMemory self.old.program self.old.plan script.now ticks (F.exchanges far.new)) }
        ensures left { IfOk result (λ _. IsLeft (driver_held self.old) script.now ticks (F.exchanges far.new) self.new) }
        ensures before { IfOk result (λ o. IsAsBefore (driver_held self.old) script.now ticks (F.exchanges far.new) self.new.memory o.end) }
        ensures few { IfOk result (λ o. AreFew (driver_held self.old) script.now ticks (F.exchanges far.new) self.new.messages o.ticks) }
        ensures called { IfOk result (λ _. F.calls far.new ≡ F.calls far.old ++ sends (sent_of (F.exchanges far.new))) }
        ensures stopped { OnErr result (IsStopped (driver_held self.old) script.now ticks (F.calls far.old) (F.calls far.new) (F.exchanges far.new) self.new.memory self.new.messages) }
        ensures fault { IfOk result (λ o. IsFarFault o.end → Rose (F.faults far.old) (F.faults far.new)) }
        ensures loaded { IfOk result (λ _. F.loaded far.new ≡ F.loaded far.old) }
        ensures program { self.new.program ≡ self.old.program }
        ensures plan { self.new.plan ≡ self.old.plan }
        ensures done { self.new.is_fresh ≡ false }
        ensures faults_later { F.faults far.old ≤ F.faults far.new }
    {
        self.is_fresh = false;
        let watch = Watch {
            program: self.program,
            plan: self.plan,
        };
        let Shown { outcome, layout } = run_whole(
            alloc,
            watch,
            script,
            ticks,
            far,
            &mut self.memory,
            &mut self.messages,
        )?;
        self.layout = layout;
        Ok(outcome)
    }

    /// How many messages the run sent and got.
    pub fn messages(&self) -> u64
        ensures { result ≡ self.now.messages }
    {
        self.messages
    }

    /// How many places of the memory are used, and how many there are. Before the run, and where memory was wanting in it,
    /// there is none.
    pub fn layout(&self) -> (u64, u64)
        ensures { result ≡ self.now.layout }
    {
        self.layout
    }

    /// Lends the memory's blocks, of which there are none before the run.
    pub fn cells(&self) -> &[MemoryBlock]
        ensures { result.now ≡ self.now.memory }
    {
        self.memory.as_slice()
    }
}
