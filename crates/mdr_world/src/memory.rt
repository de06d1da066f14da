// The memory that a machine runs on.

use crate::access;
use crate::world::World;
use mdr_core::{Items, StopKind, Value};
use mdr_events::{Integer, Memory};
use mdr_meaning::Shape64;
use mdr_mem::Cells;
use mdr_model::BirthKind;
use std::alloc::{AllocError, Global};

impl<'a> Memory for World<'a> {
    ghost use Rattle.mdr_world.specs.Driven.{driven_accesses};

    ghost accesses = { driven_accesses };

    fn load(&self, pointer: Value) -> Result<Value, StopKind> {
        access::load(self.blocks(), pointer)
    }

    fn fresh(&self, pointer: Value) -> Result<Value, StopKind> {
        access::fresh(self.blocks(), pointer)
    }

    fn store(&mut self, pointer: Value, value: Value) -> Result<(), StopKind> {
        self.put(pointer, value)
    }

    fn first(&self, serial: u64) -> Option<Integer> {
        access::first(self.blocks(), serial)
    }

    fn set_first(&mut self, serial: u64, integer: Integer) -> bool {
        self.put_first(serial, integer)
    }

    fn read(
        &self,
        alloc: Global,
        pointer: Value,
        count: u64,
    ) -> Result<Result<Items<u8>, StopKind>, AllocError> {
        access::read(self.blocks(), alloc, pointer, count)
    }

    fn birth(&mut self, alloc: Global, shapes: &[Shape64]) -> Result<Items<Value>, AllocError> {
        self.born(alloc, BirthKind::Auto, shapes)
    }

    fn death(&mut self, pointers: &[Value]) {
        self.end_all(pointers);
    }

    fn slot(&self, serial: u64) -> u32 {
        match self.blocks().find(serial) {
            Some(b) => b.slot,
            None => 0,
        }
    }
}
