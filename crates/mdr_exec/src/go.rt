// The machine runs.

ghost use Rattle.std.specs.Prelude.{◌≡◌, ◌≤◌, IfOk, OnOk};
ghost use Rattle.mdr_core.specs.Sound.{IsSound};
ghost use Rattle.mdr_events.specs.Ready.{IsReady};
ghost use Rattle.mdr_exec.specs.Executing.{RunsOwn, TurnsOwn};
ghost use Rattle.mdr_exec.specs.Going.{ran_as, stepped_as};
ghost use Rattle.mdr_exec.specs.Holding.{held_of};

use crate::event::Outcome;
use crate::frame::Machine;
use crate::turn::{Stepped, step};
use mdr_core::{At, Half, Limit, OutOfMemory, Program, spent};
use mdr_events::{Event, Memory};
use std::alloc::Global;

fn event_of(event: Outcome) -> Event
    ensures { result ≡ ran_as event }
{
    match event {
        Outcome::Done(value) => Event::Done(value),
        Outcome::Cross(crossing) => Event::Cross(crossing),
        Outcome::Service(asked) => Event::Service(asked),
        Outcome::Stop(stop, at) => Event::Stop(stop, at),
    }
}

/// What steps come to that are taken until the machine waits, and the ticks that are left then.
#[derive(Drop)]
pub enum Ran {
    Came(Outcome, u64),
    /// The statement at a place wants a tick, and none is left.
    Wants(At),
}

/// Steps are taken until the machine waits.
fn run_on<C: Memory>(
    machine: &mut Machine,
    alloc: Global,
    program: &Program,
    halves: &[Half],
    memory: &mut C,
    ticks: u64,
) -> Result<Ran, OutOfMemory>
    requires program { IsSound program.now }
    requires ready { IsReady (held_of program.now machine.old) }
    ensures ran { IfOk result (λ r. TurnsOwn C.accesses halves.now program.now machine.old memory.old ticks (stepped_as r) machine.new memory.new) }
    ensures side { OnOk result (machine.new.side ≡ machine.old.side) }
{
    let side = machine.side;
    let mut left = ticks;
    let mut turns: u64 = 0;
    while turns < u64::MAX {
        turns += 1;
        let stepped = step(machine, alloc, program, halves, memory, left)?;
        machine.side = side;
        match stepped {
            Stepped::Goes(rest) => left = rest,
            Stepped::Came(event, rest) => return Ok(Ran::Came(event, rest)),
            Stepped::Wants(at) => return Ok(Ran::Wants(at)),
        }
    }
    Err(spent(turns, Limit::Turns))
}

impl Machine {
    /// Runs for at most so many ticks, up to the next event, where a function was started and no question is open. Where
    /// memory is wanting, nothing is promised of the machine.
    pub fn go<C: Memory>(
        &mut self,
        alloc: Global,
        program: &Program,
        halves: &[Half],
        memory: &mut C,
        ticks: u64,
    ) -> Result<Event, OutOfMemory>
        requires program { IsSound program.now }
        requires ready { IsReady (held_of program.now self.old) }
        ensures ran { IfOk result (λ e. RunsOwn C.accesses halves.now program.now self.old memory.old ticks e self.new memory.new) }
        ensures used { OnOk result (self.new.used ≤ ticks) }
        ensures side { OnOk result (self.new.side ≡ self.old.side) }
    {
        let ran = run_on(self, alloc, program, halves, memory, ticks)?;
        match ran {
            Ran::Came(event, left) => {
                self.used = ticks - left;
                Ok(event_of(event))
            }
            Ran::Wants(at) => {
                self.used = ticks;
                Ok(Event::TicksOut(at))
            }
        }
    }

    /// The ticks of the last run.
    pub fn used(&self) -> u64
        ensures { result ≡ self.now.used }
    {
        self.used
    }
}
