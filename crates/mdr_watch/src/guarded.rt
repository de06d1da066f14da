// The state of a run while a function of the user half is active.

ghost use Rattle.std.specs.Prelude.{◌≡◌, ◌≤◌, [], ◌∷◌, ℕ, suc, length, IfOk, OnOk};
ghost use Rattle.mdr_events.specs.Values.{wires_of};
ghost use Rattle.mdr_meaning.specs.Values.{wire_of};
ghost use Rattle.mdr_model.specs.Memory.{normal};
ghost use Rattle.mdr_plain.specs.Atomic.{is_atomic};
ghost use Rattle.mdr_plain.specs.World.{advanced};
ghost use Rattle.mdr_viewed.specs.Viewed.{IsOlder};
ghost use Rattle.mdr_watched.specs.Order.{AreLive};
ghost use Rattle.mdr_watched.specs.Views.{below, closed, living, opened, top};
ghost use Rattle.mdr_world.specs.Driven.{driver};
ghost use Rattle.mdr_watch.specs.Leaving.{IsClosed, with_views};
ghost use Rattle.mdr_watch.specs.Guarding.{IsGuarded, beside, guarded_accesses, sets_of};

use crate::kept_out::{are_kept_out, is_kept_out};
use crate::sets::Sets;
use mdr_cells::CellSet;
use mdr_core::{Items, OutOfMemory, StopKind, Value};
use mdr_events::{Integer, Memory};
use mdr_meaning::Shape64;
use mdr_world::World;
use std::alloc::{AllocError, Global};
use std::marker::Model;

/// The state of a run while a function of the user half is active. What user code may touch stands beside the world: of the
/// cells of the innermost set those whose blocks live.
#[derive(Drop)]
pub struct Guarded<'a> {
    pub(crate) world: World<'a>,
    pub(crate) sets: Sets,
}

impl<'a> Model for Guarded<'a> {
    ghost use Rattle.std.specs.Coded.{codes};
    ghost use Rattle.mdr_core.specs.contracts.types.Ty as t;
    ghost use Rattle.mdr_core.specs.contracts.code.Stmt as s;
    ghost use Rattle.mdr_world.specs.Driven.{Driven, driver};
    ghost use Rattle.mdr_viewed.specs.Viewed.{viewed};
    ghost use Rattle.mdr_watch.specs.Guarding.{IsGuarded, sets_of};

    ghost Value = { Driven };

    ghost coded = { Prim.hlevel (codes, t.the_row.coded, s.the_row.coded) };

    ghost view = { λ s. driver s.world.program (viewed (sets_of s.sets) s.world.world) };

    ghost invariant = { λ s. IsGuarded (sets_of s.sets) s.world.world };
}

/// The world and the sets beside it.
#[derive(Drop)]
pub struct Parts<'a> {
    pub world: World<'a>,
    pub sets: Sets,
}

/// What is left where an upcall is over: the world, or the state of the upcall around it.
#[derive(Drop)]
pub(crate) enum Closing<'a> {
    Last(World<'a>),
    Under(Guarded<'a>),
}

/// There is one set, which is empty, and an upcall is open: so a world stands beside it, whatever was left where memory was
/// wanting.
pub(crate) fn forget(alloc: Global, world: &mut World, sets: &mut Sets)
    ensures { IsGuarded (sets_of sets.new) world.new.world }
{
    let inner = CellSet::new(alloc);
    let outer = Items::new(alloc);
    *sets = Sets { inner, outer };
    world.enter_user();
}

/// Objects are born in a world beside sets, whose cells stay.
fn birth_beside(
    alloc: Global,
    world: &mut World,
    sets: &Sets,
    shapes: &[Shape64],
) -> Result<Items<Value>, AllocError>
    requires { IsGuarded (sets_of sets.now) world.old.world }
    ensures pointers { IfOk result (λ ps. wires_of ps ≡ (guarded_accesses.birth (beside world.old sets.now) shapes.now).pointers) }
    ensures memory { OnOk result (beside world.new sets.now ≡ (guarded_accesses.birth (beside world.old sets.now) shapes.now).memory) }
    ensures guarded { OnOk result (IsGuarded (sets_of sets.now) world.new.world) }
{
    let pointers = world.birth(alloc, shapes)?;
    Ok(pointers)
}

/// A set over others.
fn sets_over(set: CellSet, sets: Sets) -> Result<Sets, OutOfMemory>
    ensures { IfOk result (λ s. sets_of s ≡ set ∷ sets_of sets) }
{
    let Sets { inner, outer } = sets;
    let mut outer = outer;
    match outer.push(inner) {
        Ok(()) => Ok(Sets { inner: set, outer }),
        Err(error) => {
            drop(set);
            drop(outer);
            Err(error.into())
        }
    }
}

/// A set over others, in place.
fn push_set(sets: &mut Sets, set: CellSet) -> Result<(), OutOfMemory>
    ensures { OnOk result (sets_of sets.new ≡ set ∷ sets_of sets.old) }
{
    let inner = std::mem::replace(&mut sets.inner, set);
    sets.outer.push(inner)?;
    Ok(())
}

/// The innermost set is gone, in place.
fn pop_set(alloc: Global, sets: &mut Sets)
    requires { (n : ℕ) × (length sets.old.outer ≡ suc n) }
    ensures { sets_of sets.old ≡ sets.old.inner ∷ sets_of sets.new }
{
    let outer = std::mem::replace(&mut sets.outer, Items::new(alloc));
    let mut outer = outer.into_vec();
    match outer.pop() {
        Some(inner) => {
            *sets = Sets {
                inner,
                outer: Items::from_vec(outer),
            };
        }
        None => unreachable!(),
    }
}

impl<'a> Guarded<'a> {
    /// A world with sets beside it.
    pub fn beside(world: World<'a>, sets: Sets) -> Guarded<'a>
        requires { IsGuarded (sets_of sets) world.world }
        ensures { result ≡ beside world.entry sets }
    {
        Guarded { world, sets }
    }

    /// The world and the sets.
    pub fn parts(self) -> Parts<'a>
        ensures is { beside result.world result.sets ≡ self.entry }
        ensures guarded { IsGuarded (sets_of result.sets) result.world.world }
    {
        let Guarded { world, sets } = self;
        Parts { world, sets }
    }

    /// Lends the world, in which the sets aren't.
    pub fn world(&self) -> &World<'a>
        ensures memory { result.now.world.memory ≡ self.now.world.memory }
        ensures lives { result.now.world.lives ≡ self.now.world.lives }
        ensures clock { result.now.world.clock ≡ self.now.world.clock }
        ensures kept { result.now.world.kept ≡ self.now.world.kept }
        ensures program { result.now.program ≡ self.now.program }
    {
        &self.world
    }

    /// Lends the innermost set, in which there may be cells of dead blocks.
    pub fn set(&self) -> &CellSet
        ensures { living self.now.world.memory result.now ≡ top self.now.world.views }
    {
        &self.sets.inner
    }

    /// How many upcalls are open around the innermost.
    pub fn below(&self) -> u64
        ensures { suc result ≡ length self.now.world.views }
    {
        self.sets.outer.len() as u64
    }

    /// Whether what runs now may not sleep.
    pub fn atomic(&self) -> bool
        ensures { result ≡ is_atomic self.now.world }
    {
        self.world.atomic()
    }

    /// An upcall opens with a set, while none is open.
    pub fn new(alloc: Global, world: World<'a>, set: CellSet) -> Guarded<'a>
        requires alone { world.world.views ≡ [] }
        requires live { AreLive world.world.memory set }
        requires older { IsOlder set world.world }
        ensures { result ≡ driver world.entry.program (opened set world.entry.world) }
    {
        let mut world = world;
        world.enter_user();
        let sets = Sets {
            inner: set,
            outer: Items::new(alloc),
        };
        Guarded { world, sets }
    }

    /// One opens with a set in another. Where memory is wanting all is gone.
    pub fn over(self, set: CellSet) -> Result<Guarded<'a>, OutOfMemory>
        requires live { AreLive self.world.memory set }
        requires older { IsOlder set self.world }
        ensures { IfOk result (λ g. g ≡ driver self.entry.program (opened set self.entry.world)) }
    {
        let Guarded { world, sets } = self;
        match sets_over(set, sets) {
            Ok(sets) => Ok(Guarded { world, sets }),
            Err(error) => {
                drop(world);
                Err(error)
            }
        }
    }

    /// The innermost upcall is over.
    fn close(self) -> Closing<'a>
        ensures { IsClosed self.entry result }
    {
        let Guarded { world, sets } = self;
        let Sets { inner, outer } = sets;
        drop(inner);
        let mut outer = outer.into_vec();
        match outer.pop() {
            Some(inner) => {
                let outer = Items::from_vec(outer);
                let sets = Sets { inner, outer };
                Closing::Under(Guarded { world, sets })
            }
            None => {
                let mut world = world;
                world.leave_user();
                Closing::Last(world)
            }
        }
    }

    /// The run stopped: no upcall is open any more.
    pub fn leave(self) -> World<'a>
        ensures { result ≡ driver self.entry.program (with_views [] self.entry.world) }
    {
        let Guarded { world, sets } = self;
        drop(sets);
        let mut world = world;
        world.leave_user();
        world
    }

    /// The only upcall is over.
    pub fn alone(self) -> World<'a>
        requires { length self.world.views ≡ 1 }
        ensures is { result ≡ driver self.entry.program (closed self.entry.world) }
        ensures alone { result.world.views ≡ [] }
    {
        match self.close() {
            Closing::Last(world) => world,
            Closing::Under(_) => unreachable!(),
        }
    }

    /// The innermost upcall is over, and the one around it is the innermost.
    pub fn under(self) -> Guarded<'a>
        requires { (n : ℕ) × (length self.world.views ≡ suc (suc n)) }
        ensures { result ≡ driver self.entry.program (closed self.entry.world) }
    {
        match self.close() {
            Closing::Last(_) => unreachable!(),
            Closing::Under(around) => around,
        }
    }

    /// One opens with a set in another, in place.
    pub(crate) fn push(&mut self, alloc: Global, set: CellSet) -> Result<(), OutOfMemory>
        requires live { AreLive self.old.world.memory set }
        requires older { IsOlder set self.old.world }
        ensures { OnOk result (self.new ≡ driver self.old.program (opened set self.old.world)) }
    {
        match push_set(&mut self.sets, set) {
            Ok(()) => Ok(()),
            Err(error) => {
                forget(alloc, &mut self.world, &mut self.sets);
                Err(error)
            }
        }
    }

    /// The innermost upcall is over, in place, and the one around it is the innermost.
    pub(crate) fn pop(&mut self, alloc: Global)
        requires { (n : ℕ) × (length (below self.old.world.views) ≡ suc n) }
        ensures { self.new ≡ driver self.old.program (closed self.old.world) }
    {
        pop_set(alloc, &mut self.sets);
    }

    /// The ticks that the budget leaves.
    pub(crate) fn rest(&self) -> u64
        ensures { result ≡ self.now.world.clock.rest }
    {
        self.world.rest()
    }

    /// So many ticks, where as many are left.
    pub(crate) fn count(&mut self, ticks: u64)
        requires { ticks ≤ self.old.world.clock.rest }
        ensures { self.new ≡ driver self.old.program (record self.old.world { clock = advanced ticks self.old.world.clock }) }
    {
        self.world.count(ticks);
    }

    /// A value as it is now: a pointer whose block doesn't live is a dead one.
    pub fn now(&self, v: Value) -> Value
        ensures { wire_of result ≡ normal self.now.world.memory (wire_of v) }
    {
        self.world.now(v)
    }
}

impl<'a> Memory for Guarded<'a> {
    ghost use Rattle.mdr_watch.specs.Guarding.{guarded_accesses};

    ghost accesses = { guarded_accesses };

    fn load(&self, pointer: Value) -> Result<Value, StopKind> {
        if is_kept_out(&self.world, &self.sets.inner, pointer) {
            return Err(StopKind::Annotation);
        }
        self.world.load(pointer)
    }

    fn fresh(&self, pointer: Value) -> Result<Value, StopKind> {
        self.world.fresh(pointer)
    }

    fn store(&mut self, pointer: Value, value: Value) -> Result<(), StopKind> {
        if is_kept_out(&self.world, &self.sets.inner, pointer) {
            return Err(StopKind::Annotation);
        }
        self.world.store(pointer, value)
    }

    fn first(&self, serial: u64) -> Option<Integer> {
        if !self.sets.inner.has(serial, 0) {
            return None;
        }
        self.world.first(serial)
    }

    fn set_first(&mut self, serial: u64, integer: Integer) -> bool {
        if !self.sets.inner.has(serial, 0) {
            return false;
        }
        self.world.set_first(serial, integer)
    }

    fn read(
        &self,
        alloc: Global,
        pointer: Value,
        count: u64,
    ) -> Result<Result<Items<u8>, StopKind>, AllocError> {
        if are_kept_out(&self.world, &self.sets.inner, pointer, count) {
            return Ok(Err(StopKind::Annotation));
        }
        self.world.read(alloc, pointer, count)
    }

    fn birth(&mut self, alloc: Global, shapes: &[Shape64]) -> Result<Items<Value>, AllocError> {
        match birth_beside(alloc, &mut self.world, &self.sets, shapes) {
            Ok(pointers) => Ok(pointers),
            Err(error) => {
                forget(alloc, &mut self.world, &mut self.sets);
                Err(error)
            }
        }
    }

    fn death(&mut self, pointers: &[Value]) {
        self.world.death(pointers);
    }

    fn slot(&self, serial: u64) -> u32 {
        self.world.slot(serial)
    }
}
