// The globals as they are born.

ghost use Rattle.std.specs.Prelude.{◌≡◌, ◌≤◌, IfOk, length, map};
ghost use Rattle.mdr_core.specs.Sound.{IsSound};
ghost use Rattle.mdr_mem.specs.Contents.{births_in, wire_in};
ghost use Rattle.mdr_meaning.specs.Bodies.{known_of};
ghost use Rattle.mdr_meaning.specs.Values.{wire_of};
ghost use Rattle.mdr_plain.specs.Storage.{birth_of, first_memory, global_block, global_blocks};
ghost use Rattle.mdr_world.specs.Stored.{AreSoundGlobals, AreThere, IsCounted, IsThere};
ghost use Rattle.std.specs.Prelude.{◌++◌, ◌∷◌, [], OnOk};

use crate::handles::value_now;
use crate::storage::Storage;
use mdr_core::{GlobalDef, Items, OutOfMemory, Program, Shape, Value};
use mdr_model::BirthKind;
use mdr_numbers::number_of;
use mdr_region::RegionBlocks;
use std::alloc::Global;

/// A value, where it points to a block that was born before with the slot of that.
fn placed(blocks: &RegionBlocks, v: Value) -> Value
    requires { IsThere blocks.now.memory v }
    ensures { wire_in blocks.now.handles result ≡ wire_of v }
{
    value_now(blocks, v)
}

fn all_placed(
    blocks: &RegionBlocks,
    alloc: Global,
    first: &[Value],
) -> Result<Items<Value>, OutOfMemory>
    requires { AreThere blocks.now.memory first.now }
    ensures { IfOk result (λ vs. map (wire_in blocks.now.handles) vs ≡ map wire_of first.now) }
{
    let mut values = Items::new(alloc);
    for v in first {
        values.push(placed(blocks, *v))?;
    }
    Ok(values)
}

fn global_born(
    storage: &mut Storage,
    alloc: Global,
    program: &Program,
    global: &GlobalDef,
) -> Result<(), OutOfMemory>
    requires few { length program.now.types ≤ 16777216 }
    requires counted { IsCounted storage.old }
    requires there { AreThere storage.old.blocks.memory global.now.init }
    ensures counted { IsCounted storage.new }
    ensures memory { OnOk result (storage.new.blocks.memory ≡ storage.old.blocks.memory ++ global_block (known_of program.now) (births_in storage.old.lives) global.now ∷ []) }
    ensures lives { OnOk result (storage.new.lives ≡ storage.old.lives ++ birth_of (global_block (known_of program.now) (births_in storage.old.lives) global.now) ∷ []) }
{
    let first = all_placed(&storage.blocks, alloc, global.init.as_slice())?;
    let shape = Shape {
        ty: number_of(program.types.as_slice(), &global.ty),
        count: global.count,
    };
    storage.add(alloc, BirthKind::Static, shape, first.as_slice())?;
    Ok(())
}

fn all_born(alloc: Global, program: &Program, globals: &[GlobalDef]) -> Result<Storage, OutOfMemory>
    requires few { length program.now.types ≤ 16777216 }
    requires sound { AreSoundGlobals program.now globals.now }
    ensures counted { IfOk result (λ s. IsCounted s) }
    ensures memory { IfOk result (λ s. s.blocks.memory ≡ global_blocks (known_of program.now) 0 globals.now) }
    ensures lives { IfOk result (λ s. s.lives ≡ map birth_of s.blocks.memory) }
{
    let mut storage = Storage::new(alloc);
    for global in globals {
        global_born(&mut storage, alloc, program, global)?;
    }
    Ok(storage)
}

/// The memory at the beginning: the globals, of which a first value names those that were born before alone.
#[tactic(auto, unfolding(mdr_plain::specs::Storage::first_memory))]
pub fn first_storage(alloc: Global, program: &Program) -> Result<Storage, OutOfMemory>
    requires { IsSound program.now }
    ensures counted { IfOk result (λ s. IsCounted s) }
    ensures memory { IfOk result (λ s. s.blocks.memory ≡ first_memory (known_of program.now)) }
    ensures lives { IfOk result (λ s. s.lives ≡ map birth_of s.blocks.memory) }
{
    all_born(alloc, program, program.globals.as_slice())
}
