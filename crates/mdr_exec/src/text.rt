// A declared array of characters is given a text (C99 6.7.8, paragraph 14).

ghost use Rattle.std.specs.Prelude.{◌≡◌, ◌<◌, true, pos, slice_get};
ghost use Rattle.std.specs.Option.{option_map};
ghost use Rattle.mdr_core.specs.Code.{Code};
ghost use Rattle.mdr_core.specs.Conversions.{converted};
ghost use Rattle.mdr_meaning.specs.declared.wire.Wire.TheVariants as wire;
ghost use Rattle.mdr_meaning.specs.Sides.{Locals, Ends};
ghost use Rattle.mdr_core.specs.declared.types.Ty.{out-Ty};
ghost use Rattle.mdr_meaning.specs.Statements.{characters, element, kind_by};
ghost use Rattle.mdr_meaning.specs.Values.{wire_of};
ghost use Rattle.mdr_events.specs.Outcomes.{when_made};
ghost use Rattle.mdr_exec.specs.Beginning.{came_of};
ghost use Rattle.mdr_exec.specs.Declaring.{slot_as};
ghost use Rattle.mdr_exec.specs.Effects.{did, stored, texts_of};
ghost use Rattle.mdr_exec.specs.Executing.{BeginsOnEach};
ghost use Rattle.mdr_exec.specs.Holding.{is_running};

use crate::assign::stored;
use crate::frame::{Flow, Machine};
use crate::leave::go_past;
use crate::pointers::{at_index, saturated};
use crate::slots::{Declared, slot_in};
use crate::values::slot_at;
use mdr_arith::conv;
use mdr_core::{Kind, Program, StopKind, Ty, Value};
use mdr_events::Memory;

/// The kind of the characters of an array of this type.
fn kind_by(ty: &Ty) -> Kind
    ensures { result ≡ kind_by (out-Ty ty.now) }
{
    match ty {
        Ty::Int(kind) => *kind,
        Ty::Lock | Ty::Struct(_) | Ty::Ptr(_) | Ty::VoidPtr | Ty::Fun(_) | Ty::Void => Kind::U8,
    }
}

/// The kind of an array's characters.
fn characters<'a>(declared: Option<Declared<'a>>) -> Kind
    ensures { result ≡ characters (option_map slot_as declared.entry) }
{
    match declared {
        Some(declared) => kind_by(declared.ty),
        None => Kind::U8,
    }
}

/// Element i of an array.
fn element(pointer: Value, i: usize) -> Value
    ensures { wire_of result ≡ element (wire_of pointer) i }
{
    match pointer {
        Value::Ptr(view) => at_index(view, saturated(view.index as u128 + i as u128)),
        _ => pointer,
    }
}

/// A character is stored in an element.
fn put_byte<C: Memory>(
    memory: &mut C,
    kind: Kind,
    pointer: Value,
    i: usize,
    byte: u8,
) -> Result<(), StopKind>
    ensures { (l : Locals) → stored C.accesses (element (wire_of pointer) i) (wire.Int kind (converted kind (pos byte))) l memory.old ≡ did (when_made result l) memory.new }
{
    let value = Value::Int(kind, conv(kind, byte as i128));
    stored(memory, Ok(element(pointer, i)), value)
}

/// The bytes of a text are stored in the elements from the first on, up to the first stop.
fn put_text<C: Memory>(
    memory: &mut C,
    kind: Kind,
    pointer: Value,
    bytes: &[u8],
) -> Result<(), StopKind>
    ensures { (l : Locals) → texts_of C.accesses kind (wire_of pointer) 0 bytes.now l memory.old ≡ did (when_made result (record { flow = Ends; locals = l })) memory.new }
{
    for i in 0..bytes.len() {
        let done = put_byte(memory, kind, pointer, i, bytes[i]);
        match done {
            Ok(()) => {}
            Err(stop) => return Err(stop),
        }
    }
    Ok(())
}

/// A text: its bytes are stored, or the first stop comes.
pub(crate) fn begin_text<C: Memory>(
    machine: &mut Machine,
    program: &Program,
    memory: &mut C,
    i: u32,
    bytes: &[u8],
) -> Option<StopKind>
    requires runs { is_running machine.old.front ≡ true }
    requires next { machine.old.top.next < 18446744073709551615 }
    ensures { BeginsOnEach C.accesses program.now machine.old memory.old (λ n. Code.Text n i bytes.now) (came_of result) machine.new memory.new }
{
    let kind = characters(slot_in(program, machine.top.func, i));
    let done = put_text(
        memory,
        kind,
        slot_at(machine.top.slots.as_slice(), i),
        bytes,
    );
    match done {
        Ok(()) => {
            go_past(machine, Flow::Ends, machine.top.next + 1);
            None
        }
        Err(stop) => Some(stop),
    }
}
