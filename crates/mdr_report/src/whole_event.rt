// The lines of a whole driver's events.

ghost use Rattle.std.specs.Prelude.{◌≡◌, ◌++◌, OnOk, codes};
ghost use Rattle.mdr_model.specs.Report.{func_name, newline};
ghost use Rattle.mdr_plain.specs.Report.{escaped, event_line, event_lines, hex, values_shown};

use crate::bytes::{put_escaped, put_hex};
use crate::event::{put_call, put_register, put_ret, put_wrote};
use crate::names::put_func;
use crate::put::{put_bytes, put_count, put_newline, put_word};
use crate::value::put_value;
use mdr_core::{Program, Value};
use mdr_plain::Happened;
use std::alloc::{AllocError, Global};

/// The line of a text that was printed.
fn put_log(out: &mut Vec<u8>, text: &[u8]) -> Result<(), AllocError>
    ensures { OnOk result (out.new.items ≡ out.old.items ++ (codes "log " ++ (escaped text.now ++ newline))) }
{
    put_word(out, "log ")?;
    put_escaped(out, text)?;
    put_newline(out)
}

/// The line of bytes that were delivered.
fn put_deliver(out: &mut Vec<u8>, bytes: &[u8]) -> Result<(), AllocError>
    ensures { OnOk result (out.new.items ≡ out.old.items ++ (codes "deliver " ++ (hex bytes.now ++ newline))) }
{
    put_word(out, "deliver ")?;
    put_hex(out, bytes)?;
    put_newline(out)
}

/// The line of an interrupt.
fn put_irq(out: &mut Vec<u8>, program: &Program, func: u32) -> Result<(), AllocError>
    ensures { OnOk result (out.new.items ≡ out.old.items ++ (codes "irq " ++ (func_name program.now func ++ newline))) }
{
    put_word(out, "irq ")?;
    put_func(out, program, func)?;
    put_newline(out)
}

/// The values of cells, each after a blank.
#[tactic(auto, unfolding(mdr_plain::specs::Report::values_shown))]
fn put_values(
    alloc: Global,
    out: &mut Vec<u8>,
    program: &Program,
    values: &[Value],
) -> Result<(), AllocError>
    ensures { OnOk result (out.new.items ≡ out.old.items ++ values_shown program.now values.now) }
{
    for value in values {
        put_word(out, " ")?;
        put_value(alloc, out, program, *value)?;
    }
    Ok(())
}

/// The line of a global's cells.
fn put_show(
    alloc: Global,
    out: &mut Vec<u8>,
    program: &Program,
    name: &[u8],
    values: &[Value],
) -> Result<(), AllocError>
    ensures { OnOk result (out.new.items ≡ out.old.items ++ (codes "show " ++ (name.now ++ (codes ":" ++ (values_shown program.now values.now ++ newline))))) }
{
    put_word(out, "show ")?;
    put_bytes(out, name)?;
    put_word(out, ":")?;
    put_values(alloc, out, program, values)?;
    put_newline(out)
}

/// The line that a command noted.
fn put_say(out: &mut Vec<u8>, text: &[u8]) -> Result<(), AllocError>
    ensures { OnOk result (out.new.items ≡ out.old.items ++ (text.now ++ newline)) }
{
    put_bytes(out, text)?;
    put_newline(out)
}

#[tactic(auto, unfolding(mdr_plain::specs::Report::event_line))]
fn put_event(
    alloc: Global,
    out: &mut Vec<u8>,
    program: &Program,
    event: &Happened,
) -> Result<(), AllocError>
    ensures { OnOk result (out.new.items ≡ out.old.items ++ event_line program.now event.now) }
{
    match event {
        Happened::Call(name, args) => put_call(alloc, out, program, name, args),
        Happened::Idle(ticks) => put_count(alloc, out, "idle ", *ticks),
        Happened::Read(register, word) => put_register(alloc, out, "R ", *register, *word),
        Happened::Wrote(register, word) => put_wrote(alloc, out, program, *register, *word),
        Happened::Log(text) => put_log(out, text.as_slice()),
        Happened::Deliver(bytes) => put_deliver(out, bytes.as_slice()),
        Happened::Irq(func) => put_irq(out, program, *func),
        Happened::Ret(value) => put_ret(alloc, out, program, *value),
        Happened::Show(name, values) => {
            put_show(alloc, out, program, name.as_slice(), values.as_slice())
        }
        Happened::Say(text) => put_say(out, text.as_slice()),
    }
}

/// A line for each event.
#[tactic(auto, unfolding(mdr_plain::specs::Report::event_lines))]
pub fn put_whole_events(
    alloc: Global,
    out: &mut Vec<u8>,
    program: &Program,
    events: &[Happened],
) -> Result<(), AllocError>
    ensures { OnOk result (out.new.items ≡ out.old.items ++ event_lines program.now events.now) }
{
    for event in events {
        put_event(alloc, out, program, event)?;
    }
    Ok(())
}
