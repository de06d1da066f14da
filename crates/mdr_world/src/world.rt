// The state of a run.

ghost use Rattle.std.specs.Prelude.{◌≡◌, ◌+◌, ◌≤◌, ◌==◌, [], ℕ, false, true, IfOk, OnOk, OnErr, length};
ghost use Rattle.std.specs.List.{list_any};
ghost use Rattle.mdr_core.specs.Sound.{IsSound};
ghost use Rattle.mdr_device.specs.Machines.{Machine, read, written};
ghost use Rattle.mdr_events.specs.Integers.{FirstBecomes};
ghost use Rattle.mdr_events.specs.Outcomes.{when_made};
ghost use Rattle.mdr_events.specs.Values.{wires_of};
ghost use Rattle.mdr_meaning.specs.Bodies.{known_of};
ghost use Rattle.mdr_meaning.specs.Values.{wire_of};
ghost use Rattle.mdr_mem.specs.Contents.{births_in};
ghost use Rattle.mdr_model.specs.Agreement.{IsBelow, SerialsRise};
ghost use Rattle.mdr_model.specs.Memory.{born_at, is_live, normal, put};
ghost use Rattle.mdr_plain.specs.Atomic.{is_atomic};
ghost use Rattle.mdr_plain.specs.Gate.{due, is_open};
ghost use Rattle.mdr_plain.specs.Locks.{acquire, is_locked, release};
ghost use Rattle.mdr_plain.specs.Running.{handling, interrupted};
ghost use Rattle.mdr_plain.specs.Scripts.{block_cells, first_world, poked};
ghost use Rattle.mdr_plain.specs.Services.{asked_once_more, fails_now, with_device, with_handler};
ghost use Rattle.mdr_plain.specs.Storage.{births, born, deaths, died, died_at, new_of, pointer_to, remembers};
ghost use Rattle.mdr_plain.specs.World.{advanced, noted};
ghost use Rattle.mdr_region.specs.Layout.{places_of};
ghost use Rattle.mdr_world.specs.Driven.{NoneIsDueIn, Ticks, counted_call, driven_accesses, driver, driver_if, is_heard, open_views};

use crate::births::{shape_of, zeros};
use crate::globals::first_storage;
use crate::handles::{born_now, is_live_now, value_now, values_of};
use crate::spinning::is_any_spinning;
use crate::storage::Storage;
use crate::{access, locks};
use mdr_bound::Bound;
use mdr_core::{Block, Items, Limit, OutOfMemory, Program, StopKind, Value, View, below};
use mdr_device::Device;
use mdr_events::Integer;
use mdr_mem::Cells;
use mdr_model::{BirthKind, New, Shape64};
use mdr_plain::Happened;
use mdr_region::RegionBlocks;
use std::alloc::{AllocError, Global};
use std::marker::Model;

/// The state of a run on one memory.
#[derive(Drop)]
pub struct World<'a> {
    program: &'a Program,
    storage: Storage,
    ticks: u64,
    rest: u64,
    device: Device,
    events: Items<Happened>,
    calls: u64,
    handler: Option<u32>,
    in_handler: bool,
    in_user: bool,
    allocations: u64,
    fails: Items<u64>,
}

impl<'a> Model for World<'a> {
    ghost use Rattle.std.specs.Coded.{codes};
    ghost use Rattle.mdr_core.specs.contracts.types.Ty as t;
    ghost use Rattle.mdr_core.specs.contracts.code.Stmt as s;
    ghost use Rattle.mdr_world.specs.Driven.{Driven, open_views};

    ghost Value = { Driven };

    ghost coded = { Prim.hlevel (codes, t.the_row.coded, s.the_row.coded) };

    ghost use Rattle.mdr_world.specs.Stored.{Stands};

    ghost view = { λ s. record {
      program = s.program.now;
      world = record {
        memory = s.storage.blocks.memory;
        lives = s.storage.lives;
        views = open_views s.in_user;
        clock = record { ticks = s.ticks; rest = s.rest; device = s.device };
        kept = record { events = s.events; calls = s.calls; handler = s.handler; in_handler = s.in_handler; allocations = s.allocations; fails = s.fails };
      };
    } };

    ghost invariant = { λ s. Stands s.program.now s.storage s.ticks s.rest };
}

impl<'a> World<'a> {
    /// The state in which the run of a script begins. What a block can't be answers want of memory.
    #[tactic(auto, unfolding(mdr_plain::specs::Scripts::first_world))]
    pub fn new(
        alloc: Global,
        program: &'a Program,
        script: &Bound,
        budget: u64,
    ) -> Result<World<'a>, OutOfMemory>
        requires { IsSound program.now }
        ensures { IfOk result (λ w. w ≡ driver program.now (first_world (known_of program.now) script.now budget)) }
    {
        let storage = first_storage(alloc, program)?;
        let device = Device::new(alloc, script.words.as_slice(), script.rules.as_slice())?;
        let fails = Items::from_slice(alloc, script.fails.as_slice())?;
        Ok(World {
            program,
            storage,
            ticks: 0,
            rest: budget,
            device,
            events: Items::new(alloc),
            calls: 0,
            handler: None,
            in_handler: false,
            in_user: false,
            allocations: 0,
            fails,
        })
    }

    /// The program that runs.
    pub fn program(&self) -> &'a Program
        ensures value { result.now ≡ self.now.program }
        ensures sound { IsSound self.now.program }
    {
        self.program
    }

    // ---- events and calls

    /// Adds an event.
    pub fn note(&mut self, event: Happened) -> Result<(), OutOfMemory>
        ensures noted { OnOk result (self.new ≡ driver self.old.program (noted event self.old.world)) }
        ensures as_before { OnErr result (self.new ≡ self.old) }
    {
        self.events.push(event)?;
        Ok(())
    }

    /// Takes all events out.
    pub fn take_events(&mut self, alloc: Global) -> Items<Happened>
        ensures taken { result ≡ self.old.world.kept.events }
        ensures left { self.new ≡ driver self.old.program (record self.old.world { kept = record self.old.world.kept { events = [] } }) }
    {
        std::mem::replace(&mut self.events, Items::new(alloc))
    }

    /// A command calls a function, which is noted by this event and counted.
    pub fn begin_call(&mut self, event: Happened) -> Result<(), OutOfMemory>
        ensures begun { OnOk result (self.new ≡ driver self.old.program (noted event (counted_call self.old.world))) }
        ensures as_before { OnErr result (self.new ≡ self.old) }
    {
        below(self.calls, Limit::Calls)?;
        self.events.push(event)?;
        self.calls += 1;
        Ok(())
    }

    /// How many commands called a function.
    pub fn calls(&self) -> u64
        ensures { result ≡ self.now.world.kept.calls }
    {
        self.calls
    }

    // ---- time

    /// The ticks that were counted.
    pub fn ticks(&self) -> u64
        ensures { result ≡ self.now.world.clock.ticks }
    {
        self.ticks
    }

    /// The ticks that the budget leaves.
    pub fn rest(&self) -> u64
        ensures { result ≡ self.now.world.clock.rest }
    {
        self.rest
    }

    /// One tick, if one is left.
    pub fn tick(&mut self) -> bool
        ensures { Ticks result self.old self.new }
    {
        if self.rest == 0 {
            return false;
        }
        self.rest -= 1;
        self.ticks += 1;
        self.device.advance(1);
        true
    }

    /// So many ticks, where as many are left.
    pub fn count(&mut self, ticks: u64)
        requires { ticks ≤ self.old.world.clock.rest }
        ensures { self.new ≡ driver self.old.program (record self.old.world { clock = advanced ticks self.old.world.clock }) }
    {
        self.rest -= ticks;
        self.ticks += ticks;
        self.device.advance(ticks);
    }

    // ---- interrupts

    fn is_open(&self) -> bool
        ensures { result ≡ is_open self.now.world }
    {
        if !self.device.line() {
            return false;
        }
        if self.in_handler {
            return false;
        }
        if self.in_user {
            return false;
        }
        !locks::is_any_held(&self.storage.blocks)
    }

    /// The function that handles the interrupt that is taken now.
    #[tactic(auto, unfolding(mdr_plain::specs::Gate::due))]
    pub fn due(&self) -> Option<u32>
        ensures { result ≡ due self.now.world }
    {
        match self.handler {
            Some(f) => { if self.is_open() { Some(f) } else { None } }
            None => None,
        }
    }

    /// How many of so many ticks find no interrupt due before them, at least, where ticks pass and code changes memory alone.
    pub fn calm_ticks(&self, most: u64) -> u64
        ensures few { result ≤ most }
        ensures calm { NoneIsDueIn result self.now.world }
    {
        if is_heard(self.handler, self.in_handler) {
            return self.device.low_ticks(most);
        }
        most
    }

    /// Whether what runs now may not sleep: a handler, or code with a lock that spins. The time is that of a look at
    /// each cell.
    #[tactic(auto, unfolding(mdr_plain::specs::Atomic::is_atomic))]
    pub fn atomic(&self) -> bool
        ensures { result ≡ is_atomic self.now.world }
    {
        self.in_handler || is_any_spinning(&self.storage.blocks)
    }

    /// An interrupt is taken.
    pub fn enter_irq(&mut self, handler: u32) -> Result<(), OutOfMemory>
        ensures entered { OnOk result (self.new ≡ driver self.old.program (interrupted handler self.old.world)) }
        ensures as_before { OnErr result (self.new ≡ self.old) }
    {
        self.events.push(Happened::Irq(handler))?;
        self.in_handler = true;
        Ok(())
    }

    /// A handler ended.
    pub fn leave_irq(&mut self)
        ensures { self.new ≡ driver self.old.program (handling false self.old.world) }
    {
        self.in_handler = false;
    }

    /// The function that is registered.
    pub fn handler(&self) -> Option<u32>
        ensures { result ≡ self.now.world.kept.handler }
    {
        self.handler
    }

    /// Registers a function, or none.
    pub fn set_handler(&mut self, handler: Option<u32>)
        ensures { self.new ≡ driver self.old.program (with_handler handler self.old.world) }
    {
        self.handler = handler;
    }

    // ---- the device

    /// A register is read. No event is added.
    pub fn read_register(&mut self, register: u32) -> u32
        ensures { (machine : ℕ × Machine) → machine ≡ read register self.old.world.clock.device → (result ≡ machine.0) × (self.new ≡ driver self.old.program (with_device machine.1 self.old.world)) }
    {
        self.device.read(register)
    }

    /// A register is written. No event is added.
    pub fn write_register(&mut self, register: u32, word: u32)
        ensures { self.new ≡ driver self.old.program (with_device (written register word self.old.world.clock.device) self.old.world) }
    {
        self.device.write(register, word);
    }

    // ---- allocations

    /// An allocation is asked for.
    pub fn ask_once_more(&mut self) -> Result<(), OutOfMemory>
        ensures asked { OnOk result (self.new ≡ driver self.old.program (asked_once_more self.old.world)) }
        ensures as_before { OnErr result (self.new ≡ self.old) }
    {
        below(self.allocations, Limit::Allocations)?;
        self.allocations += 1;
        Ok(())
    }

    /// Whether the script lets the allocation fail that was asked for last.
    pub fn fails_now(&self) -> bool
        ensures { result ≡ fails_now self.now.world }
    {
        is_among(self.fails.as_slice(), self.allocations)
    }

    // ---- memory

    /// How many blocks live.
    pub fn live(&self) -> u64
        ensures { result ≡ length self.now.world.memory }
    {
        self.storage.blocks.live()
    }

    /// A value as it is now: a pointer whose block doesn't live is a dead one.
    pub fn now(&self, v: Value) -> Value
        ensures { wire_of result ≡ normal self.now.world.memory (wire_of v) }
    {
        value_now(&self.storage.blocks, v)
    }

    /// How a block was born that lives.
    pub fn born_at(&self, serial: u64) -> Option<New>
        ensures { result ≡ born_at self.now.world.memory serial }
    {
        born_now(&self.storage.blocks, serial)
    }

    /// What a block's cells hold; nothing where it doesn't live.
    pub fn cells(&self, alloc: Global, serial: u64) -> Result<Items<Value>, OutOfMemory>
        ensures { IfOk result (λ vs. wires_of vs ≡ block_cells self.now.world.memory serial) }
    {
        values_of(&self.storage.blocks, alloc, serial)
    }

    /// Whether a block lives.
    pub fn is_live(&self, block: Block) -> bool
        ensures { result ≡ is_live self.now.world.memory block.serial }
    {
        is_live_now(&self.storage.blocks, block)
    }

    /// Whether a lock of a block is held.
    pub fn is_locked(&self, serial: u64) -> bool
        ensures { result ≡ is_locked serial self.now.world.memory }
    {
        locks::is_locked(&self.storage.blocks, serial)
    }

    /// A block dies.
    #[tactic(auto, unfolding(mdr_plain::specs::Storage::died))]
    pub fn end(&mut self, serial: u64)
        ensures { self.new ≡ driver self.old.program (died serial self.old.world) }
    {
        self.storage.end(serial);
    }

    /// What a pointer names dies.
    fn end_at(&mut self, pointer: Value)
        ensures { self.new ≡ driver self.old.program (died_at (wire_of pointer) self.old.world) }
    {
        match pointer {
            Value::Ptr(p) => self.end(p.block.serial),
            _ => (),
        }
    }

    /// What these pointers name dies.
    pub(crate) fn end_all(&mut self, pointers: &[Value])
        ensures { self.new ≡ driver self.old.program (deaths (wires_of pointers.now) self.old.world) }
    {
        for p in pointers {
            self.end_at(*p);
        }
    }

    /// The lock that a pointer names is taken. Where it stops nothing changes.
    #[tactic(auto, unfolding(mdr_plain::specs::Locks::acquire))]
    pub fn acquire(&mut self, lock: Value) -> Result<(), StopKind>
        ensures made { driver_if self.old.program (remembers self.old.world (acquire (wire_of lock) self.old.world)) ≡ when_made result self.new }
        ensures kept { OnErr result (self.new ≡ self.old) }
    {
        let to = locks::taken(self.in_user);
        locks::acquire(&mut self.storage.blocks, lock, to)
    }

    /// The lock that a pointer names is freed. Where it stops nothing changes.
    #[tactic(auto, unfolding(mdr_plain::specs::Locks::release))]
    pub fn release(&mut self, lock: Value) -> Result<(), StopKind>
        ensures made { driver_if self.old.program (remembers self.old.world (release (wire_of lock) self.old.world)) ≡ when_made result self.new }
        ensures kept { OnErr result (self.new ≡ self.old) }
    {
        locks::release(&mut self.storage.blocks, lock)
    }

    /// A block more, with a zero in each cell.
    #[tactic(auto, unfolding(mdr_plain::specs::Storage::born))]
    fn add(&mut self, alloc: Global, kind: BirthKind, shape: Shape64) -> Result<Value, OutOfMemory>
        ensures pointer { IfOk result (λ p. wire_of p ≡ pointer_to (new_of kind shape self.old.world)) }
        ensures born { OnOk result (self.new ≡ driver self.old.program (born self.old.program (new_of kind shape self.old.world) self.old.world)) }
    {
        let shape = shape_of(shape)?;
        let first = zeros(alloc, self.program, shape)?;
        let block = self.storage.add(alloc, kind, shape, first.as_slice())?;
        Ok(Value::Ptr(View {
            block,
            first: 0,
            ty: shape.ty,
            count: shape.count,
            index: 0,
        }))
    }

    /// Objects are born, with a pointer to each. What a block can't be answers want of memory, and then nothing is
    /// promised of the run.
    #[tactic(auto, unfolding(mdr_plain::specs::Storage::births))]
    pub fn born(
        &mut self,
        alloc: Global,
        kind: BirthKind,
        shapes: &[Shape64],
    ) -> Result<Items<Value>, AllocError>
        ensures pointers { IfOk result (λ ps. wires_of ps ≡ (births self.old.program kind shapes.now self.old.world).pointers) }
        ensures world { OnOk result (self.new ≡ driver self.old.program (births self.old.program kind shapes.now self.old.world).memory) }
    {
        let mut pointers = Items::new(alloc);
        for shape in shapes {
            let p = self.add(alloc, kind, *shape)?;
            pointers.push(p)?;
        }
        Ok(pointers)
    }

    /// The memory.
    pub fn blocks(&self) -> &RegionBlocks
        ensures memory { result.now.memory ≡ self.now.world.memory }
        ensures counted { births_in result.now.lives ≡ births_in self.now.world.lives }
    {
        &self.storage.blocks
    }

    /// How many places of the memory are used, and how many there are.
    pub fn layout(&self) -> (u64, u64)
        ensures { result ≡ places_of self.now.world.lives }
    {
        self.storage.blocks.layout()
    }

    /// How many blocks were born.
    pub fn births(&self) -> u64
        ensures value { result ≡ births_in self.now.world.lives }
        ensures rises { SerialsRise self.now.world.memory }
        ensures below { IsBelow (births_in self.now.world.lives) self.now.world.memory }
    {
        self.storage.blocks.births()
    }

    // ---- the user half

    /// Whether a function of the user half is active.
    pub fn is_in_user(&self) -> bool
        ensures { self.now.world.views ≡ open_views result }
    {
        self.in_user
    }

    /// One is active from now on: no interrupt is due, and a lock that is taken sleeps.
    pub fn enter_user(&mut self)
        ensures { self.new ≡ driver self.old.program (record self.old.world { views = open_views true }) }
    {
        self.in_user = true;
    }

    /// None is active.
    pub fn leave_user(&mut self)
        ensures { self.new ≡ driver self.old.program (record self.old.world { views = open_views false }) }
    {
        self.in_user = false;
    }

    /// Puts an integer into a cell of the block with a serial, where the cell holds an integer of a kind that has it. Else
    /// nothing is done.
    pub fn poke(&mut self, serial: u64, index: u32, n: i128)
        ensures { self.new ≡ driver self.old.program (poked serial index n self.old.world) }
    {
        access::poke(&mut self.storage.blocks, serial, index, n);
    }

    /// Puts a value into a cell of the block with a serial. Where there is no such cell nothing is done.
    pub fn put_at(&mut self, serial: u64, index: u64, value: Value)
        ensures { self.new ≡ driver self.old.program (record self.old.world { memory = put self.old.world.memory (record { serial = serial; index = index }) (normal self.old.world.memory (wire_of value)) }) }
    {
        access::put_at(&mut self.storage.blocks, serial, index, value);
    }

    /// Puts an integer into the first cell of a block, where that is done at once.
    pub(crate) fn put_first(&mut self, serial: u64, integer: Integer) -> bool
        ensures done { result ≡ true → FirstBecomes driven_accesses self.old serial integer self.new }
        ensures kept { result ≡ false → self.new ≡ self.old }
    {
        access::set_first(&mut self.storage.blocks, serial, integer)
    }

    /// A value is stored through a pointer.
    pub(crate) fn put(&mut self, pointer: Value, value: Value) -> Result<(), StopKind>
        ensures made { driven_accesses.store self.old (wire_of pointer) (wire_of value) ≡ when_made result self.new }
        ensures kept { OnErr result (self.new ≡ self.old) }
    {
        access::store(&mut self.storage.blocks, pointer, value)
    }
}

/// Whether a raised line is heard: a function handles interrupts, and doesn't run.
fn is_heard(handler: Option<u32>, in_handler: bool) -> bool
    ensures { result ≡ is_heard handler in_handler }
{
    match handler {
        Some(_) => !in_handler,
        None => false,
    }
}

fn is_among(numbers: &[u64], number: u64) -> bool
    ensures { result ≡ list_any (λ n. n == number) numbers.now }
{
    numbers.iter().any(|n| *n == number)
}
