// What is tried before a tick.

use crate::code::Code;
use crate::ending::Worked;
use mdr_core::OutOfMemory;
use mdr_world::World;
use std::alloc::Global;

/// What is tried before a tick, with so many functions active: the interrupt rule, or nothing.
pub trait Before {
    ghost use Rattle.std.specs.Prelude.{◌≡◌, Bool, IfOk, OnOk};
    ghost use Rattle.mdr_core.specs.Sound.{IsSound};
    ghost use Rattle.mdr_runs.specs.Following.{tried_by};
    ghost use Rattle.mdr_whole.specs.Ending.{worked_as};
    ghost use Rattle.mdr_whole.specs.Going.{half_of, side_of};

    ghost tries: { Bool };

    fn attempt(
        alloc: Global,
        code: Code,
        world: &mut World,
        depth: u32,
    ) -> Result<Worked, OutOfMemory>
        requires sound { IsSound code.program.now }
        requires same { world.old.program ≡ code.program.now }
        ensures kept { OnOk result (world.new.program ≡ code.entry.program.now) }
        ensures tried { IfOk result (λ e. worked_as e world.new.world ≡ tried_by tries code.entry.program.now (half_of code.entry) (side_of code.entry) depth world.old.world) };
}

/// Nothing is tried: before the ticks of a handler.
pub struct Nothing;

impl Before for Nothing {
    ghost use Rattle.std.specs.Prelude.{false};

    ghost tries = { false };

    fn attempt(
        _alloc: Global,
        _code: Code,
        _world: &mut World,
        _depth: u32,
    ) -> Result<Worked, OutOfMemory> {
        Ok(Worked::Done)
    }
}
