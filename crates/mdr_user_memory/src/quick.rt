// Integers in the first cells of blocks, which is how code reads and writes its variables at once.

ghost use Rattle.std.specs.Prelude.{◌≡◌, Some, true, false, option_map, IfSome};
ghost use Rattle.mdr_events.specs.Integers.{FirstBecomes, FirstIs, integer_wire};
ghost use Rattle.mdr_meaning.specs.Values.{wire_of};
ghost use Rattle.mdr_model.specs.Memory.{put};
ghost use Rattle.mdr_user_memory.specs.Copied.{copied, copy_accesses};

use crate::seen_memory::SeenMemory;
use crate::spot::Spot;
use mdr_core::Value;
use mdr_events::Integer;

/// The integer that a cell holds.
fn integer_in(held: Option<Value>) -> Option<Integer>
    ensures { IfSome result (λ n. option_map wire_of held ≡ Some (integer_wire n)) }
{
    match held {
        Some(Value::Int(kind, number)) => Some(Integer { kind, number }),
        _ => None,
    }
}

/// The integer in the first cell of a block, where that cell may be touched.
pub(crate) fn first_integer(memory: &SeenMemory, serial: u64) -> Option<Integer>
    ensures { IfSome result (λ n. FirstIs copy_accesses memory.now serial n) }
{
    if !memory.view().has(serial, 0) {
        return None;
    }
    integer_in(memory.held(Spot { serial, index: 0 }))
}

fn value_of(integer: Integer) -> Value
    ensures { wire_of result ≡ integer_wire integer }
{
    Value::Int(integer.kind, integer.number)
}

fn put_first(memory: &mut SeenMemory, serial: u64, integer: Integer)
    ensures { memory.new ≡ copied memory.old.past memory.old.agreed memory.old.view (put memory.old.memory (record { serial = serial; index = 0 }) (integer_wire integer)) }
{
    let spot = Spot { serial, index: 0 };
    memory.put(spot, value_of(integer));
}

/// Puts an integer there, where the block lives and that cell may be touched.
pub(crate) fn set_first_integer(memory: &mut SeenMemory, serial: u64, integer: Integer) -> bool
    ensures done { result ≡ true → FirstBecomes copy_accesses memory.old serial integer memory.new }
    ensures kept { result ≡ false → memory.new ≡ memory.old }
{
    if !memory.view().has(serial, 0) {
        return false;
    }
    if !memory.is_live(serial) {
        return false;
    }
    put_first(memory, serial, integer);
    true
}
