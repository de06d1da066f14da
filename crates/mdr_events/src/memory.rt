// The memory that code runs on.

use crate::integer::Integer;
use mdr_core::{Items, StopKind, Value};
use mdr_meaning::Shape64;
use std::alloc::{AllocError, Global};

/// A memory, as code sees it. `accesses` is what is done to it, and what that comes to. A pointer's slot is where its
/// block was seen last: it makes an access fast, and an access with any other slot comes to the same.
pub trait Memory {
    ghost use Rattle.std.specs.Prelude.{◌≡◌, IfOk, IfSome, OnErr, OnOk, false, true};
    ghost use Rattle.mdr_meaning.specs.Values.{wire_of};
    ghost use Rattle.mdr_meaning.specs.Walk.{Accesses};
    ghost use Rattle.mdr_events.specs.Integers.{FirstIs, FirstBecomes};
    ghost use Rattle.mdr_events.specs.Outcomes.{wired, when_made};
    ghost use Rattle.mdr_events.specs.Values.{wires_of};

    ghost accesses: { Accesses Self };

    /// What the cell that a pointer names holds.
    fn load(&self, pointer: Value) -> Result<Value, StopKind>
        ensures { wired result ≡ accesses.load self.now (wire_of pointer) };

    /// What a slot's pointer is when it is read: its block may have died.
    fn fresh(&self, pointer: Value) -> Result<Value, StopKind>
        ensures { wired result ≡ accesses.fresh self.now (wire_of pointer) };

    /// Puts a value into the cell that a pointer names.
    fn store(&mut self, pointer: Value, value: Value) -> Result<(), StopKind>
        ensures made { accesses.store self.old (wire_of pointer) (wire_of value) ≡ when_made result self.new }
        ensures kept { OnErr result (self.new ≡ self.old) };

    /// The integer in the first cell of the block with this serial, where it is found at once.
    fn first(&self, serial: u64) -> Option<Integer>
        ensures { IfSome result (λ n. FirstIs accesses self.now serial n) };

    /// Puts an integer there, if that is done at once.
    fn set_first(&mut self, serial: u64, integer: Integer) -> bool
        ensures done { result ≡ true → FirstBecomes accesses self.old serial integer self.new }
        ensures kept { result ≡ false → self.new ≡ self.old };

    /// What so many bytes from a pointer on hold, as one access.
    fn read(
        &self,
        alloc: Global,
        pointer: Value,
        count: u64,
    ) -> Result<Result<Items<u8>, StopKind>, AllocError>
        ensures { IfOk result (λ bytes. bytes ≡ accesses.read self.now (wire_of pointer) count) };

    /// Objects are born, with a pointer to each. Where memory is wanting, nothing is promised of this one.
    fn birth(&mut self, alloc: Global, shapes: &[Shape64]) -> Result<Items<Value>, AllocError>
        ensures pointers { IfOk result (λ ps. wires_of ps ≡ (accesses.birth self.old shapes.now).pointers) }
        ensures memory { OnOk result (self.new ≡ (accesses.birth self.old shapes.now).memory) };

    /// Ends the objects that these pointers name.
    fn death(&mut self, pointers: &[Value])
        ensures { self.new ≡ accesses.death self.old (wires_of pointers.now) };

    /// The slot of the block with this serial, if it lives.
    fn slot(&self, serial: u64) -> u32;
}
