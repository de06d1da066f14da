// A machine is made, started over what it holds, and goes on with answers.

ghost use Rattle.std.specs.Prelude.{◌<◌, Some, OnOk, IfOk, slice_get, ◌≡◌, ℕ, true, length};
ghost use Rattle.mdr_core.specs.declared.program.Program.{Program as AnyProgram};
ghost use Rattle.mdr_meaning.specs.Bodies.{body_of};
ghost use Rattle.mdr_meaning.specs.Sides.{Body, Side as AnySide, framed};
ghost use Rattle.mdr_meaning.specs.Tree.{Tree};
ghost use Rattle.mdr_meaning.specs.Values.{wire_of};
ghost use Rattle.mdr_events.specs.Held.{tree};
ghost use Rattle.mdr_events.specs.Ready.{IsReady, is_started};
ghost use Rattle.mdr_events.specs.Running.{answered};
ghost use Rattle.mdr_events.specs.Steps.{child};
ghost use Rattle.mdr_events.specs.Values.{wires_of};
ghost use Rattle.mdr_exec.specs.declared.frame.Frame.{Frame as AnyFrame};
ghost use Rattle.mdr_exec.specs.Entering.{StartsOver};
ghost use Rattle.mdr_exec.specs.Holding.{FitQuestion, front_in, held_of, here_of, slots_by, waits};

use crate::frame::{Flow, Frame, Front, Machine, Side, Suspended, Until};
use crate::start::slots_for;
use crate::values::first;
use mdr_core::{Items, Program, Value};
use std::alloc::{AllocError, Global};
use std::mem;

fn filled(room: Vec<Value>, results: &[Value]) -> Items<Value>
    requires { length results.now ≡ length room.items }
    ensures { result ≡ results.now }
{
    let mut pointers = room;
    pointers.as_mut_slice().copy_from_slice(results);
    Items::from_vec(pointers)
}

/// What comes next, with the answers of an open question.
fn answered(front: Front, results: &[Value]) -> Front
    requires waiting { waits front ≡ true }
    requires fit { FitQuestion front results.now }
    ensures { (program : AnyProgram) (frame : AnyFrame) → front_in program frame result ≡ answered (front_in program frame front) (here_of program frame.func frame.depth) (wires_of results.now) }
{
    match front {
        Front::WaitsValue => Front::Comes(first(results)),
        Front::WaitsParams(room) => Front::Fills(filled(room, results)),
        Front::WaitsObject(slot) => Front::Born(slot, first(results)),
        Front::WaitsDeath(flow) => Front::Unwinds(flow),
        other => other,
    }
}

/// The slots of a function that is called.
pub(crate) fn slots_of(
    alloc: Global,
    program: &Program,
    func: u32,
    args: &[Value],
) -> Result<Items<Value>, AllocError>
    ensures { IfOk result (λ slots. wires_of slots ≡ framed (slots_by (slice_get program.now.funcs func)) (wires_of args.now)) }
{
    match program.funcs.as_slice().get(func as usize) {
        Some(func) => slots_for(alloc, func, args),
        None => Ok(Items::new(alloc)),
    }
}

impl Machine {
    /// Nothing was started.
    pub fn new(alloc: Global, side: Side) -> Machine
        ensures { (program : AnyProgram) (side : AnySide) (f r : ℕ) → tree side f (held_of program result) r ≡ Tree.Idle }
    {
        Machine {
            side,
            front: Front::Unwinds(Flow::Ends),
            top: Frame {
                func: 0,
                depth: 0,
                path: Items::new(alloc),
                next: 0,
                slots: Items::new(alloc),
                born: Items::new(alloc),
            },
            below: Items::new(alloc),
            used: 0,
        }
    }

    /// Goes on with the answers of the question that is open. It takes no memory, and runs nothing.
    pub fn resume(&mut self, results: &[Value])
        requires waiting { waits self.old.front ≡ true }
        requires fit { FitQuestion self.old.front results.now }
        ensures goes_on { (program : AnyProgram) (side : AnySide) (f r : ℕ) → tree side f (held_of program self.new) r ≡ child (tree side f (held_of program self.old) r) (wires_of results.now) }
        ensures ready { (program : AnyProgram) → is_started (held_of program self.old).items ≡ true → IsReady (held_of program self.new) }
    {
        let front = mem::replace(&mut self.front, Front::Runs);
        self.front = answered(front, results);
    }

    /// Starts a function over whatever is held, with so many active before it. Where memory is wanting, nothing is
    /// promised of the machine.
    pub fn start(
        &mut self,
        alloc: Global,
        program: &Program,
        func: u32,
        args: &[Value],
        depth: u32,
    ) -> Result<(), AllocError>
        requires body { (body : Body) × (body_of program.now func ≡ Some body) }
        requires depth { depth < 4294967295 }
        ensures begins { OnOk result (StartsOver program.now self.old func (wires_of args.now) depth self.new) }
        ensures ready { OnOk result (IsReady (held_of program.now self.new)) }
    {
        let slots = slots_of(alloc, program, func, args)?;
        let top = Frame {
            func,
            depth: depth + 1,
            path: Items::new(alloc),
            next: 0,
            slots,
            born: Items::new(alloc),
        };
        let frame = mem::replace(&mut self.top, top);
        let front = mem::replace(&mut self.front, Front::Enters);
        self.below.push(Suspended {
            frame,
            until: Until::Started(front),
        })?;
        Ok(())
    }

    /// How many functions are active.
    #[tactic(auto, unfolding(crate::specs::Holding::held_of, crate::specs::Holding::here_of))]
    pub fn active(&self) -> u32
        ensures { (program : AnyProgram) → (held_of program self.now).frame.here.depth ≡ result }
    {
        self.top.depth
    }
}
