// The lines of events and of the end.

ghost use Rattle.std.specs.Prelude.{◌≡◌, ◌++◌, OnOk, codes};
ghost use Rattle.mdr_model.specs.Report.{event_line, end_line, place_shown};
ghost use Rattle.mdr_model.specs.declared.outcome.Happened.TheVariants as happened;
ghost use Rattle.mdr_plain.specs.Report.{register_line};

use crate::names::{put_func, refusal_word, stop_word};
use crate::put::{put_bytes, put_newline, put_number, put_word};
use crate::value::{put_arguments, put_value};
use mdr_core::{At, Items, Name, Program, Value};
use mdr_model::End;
use std::alloc::{AllocError, Global};

/// The line of a call.
#[tactic(auto, unfolding(mdr_model::specs::Report::event_line))]
pub fn put_call(
    alloc: Global,
    out: &mut Vec<u8>,
    program: &Program,
    name: &Name,
    args: &Items<Value>,
) -> Result<(), AllocError>
    ensures { OnOk result (out.new.items ≡ out.old.items ++ event_line program.now (happened.Call name.now args.now)) }
{
    put_word(out, "call ")?;
    put_bytes(out, name.as_slice())?;
    put_arguments(alloc, out, program, args.as_slice())?;
    put_newline(out)
}

/// The line of a register and the word that goes to it or comes from it.
pub fn put_register(
    alloc: Global,
    out: &mut Vec<u8>,
    word: &str,
    register: u32,
    number: u32,
) -> Result<(), AllocError>
    ensures { OnOk result (out.new.items ≡ out.old.items ++ register_line word.now register number) }
{
    put_word(out, word)?;
    put_number(alloc, out, u64::from(register))?;
    put_word(out, " ")?;
    put_number(alloc, out, u64::from(number))?;
    put_newline(out)
}

/// The line of a register that was written.
#[tactic(auto, unfolding(mdr_model::specs::Report::event_line))]
pub fn put_wrote(
    alloc: Global,
    out: &mut Vec<u8>,
    program: &Program,
    register: u32,
    number: u32,
) -> Result<(), AllocError>
    ensures { OnOk result (out.new.items ≡ out.old.items ++ event_line program.now (happened.Wrote register number)) }
{
    let _ = program;
    put_register(alloc, out, "W ", register, number)
}

/// The line of a result.
#[tactic(auto, unfolding(mdr_model::specs::Report::event_line))]
pub fn put_ret(
    alloc: Global,
    out: &mut Vec<u8>,
    program: &Program,
    value: Value,
) -> Result<(), AllocError>
    ensures { OnOk result (out.new.items ≡ out.old.items ++ event_line program.now (happened.Ret value)) }
{
    put_word(out, "ret ")?;
    put_value(alloc, out, program, value)?;
    put_newline(out)
}

fn put_place(
    alloc: Global,
    out: &mut Vec<u8>,
    program: &Program,
    at: Option<At>,
) -> Result<(), AllocError>
    ensures { OnOk result (out.new.items ≡ out.old.items ++ place_shown program.now at) }
{
    match at {
        Some(at) => {
            put_func(out, program, at.func)?;
            put_word(out, " ")?;
            put_number(alloc, out, u64::from(at.stmt))
        }
        None => put_word(out, "-"),
    }
}

/// The line of the end.
#[tactic(auto, unfolding(mdr_model::specs::Report::end_line))]
pub fn put_end(
    alloc: Global,
    out: &mut Vec<u8>,
    program: &Program,
    end: &End,
) -> Result<(), AllocError>
    ensures { OnOk result (out.new.items ≡ out.old.items ++ end_line program.now end.now) }
{
    match end {
        End::Ok => put_word(out, "end ok")?,
        End::Stop(kind, at) => {
            put_word(out, "stop ")?;
            put_word(out, stop_word(*kind))?;
            put_word(out, " at ")?;
            put_place(alloc, out, program, *at)?;
        }
        End::Refused(exchange, kind, number) => {
            put_word(out, "refused ")?;
            put_number(alloc, out, *exchange)?;
            put_word(out, " ")?;
            put_word(out, refusal_word(*kind))?;
            put_word(out, " ")?;
            put_number(alloc, out, *number)?;
        }
        End::FarFault(exchange) => {
            put_word(out, "far fault ")?;
            put_number(alloc, out, *exchange)?;
        }
    }
    put_newline(out)
}
