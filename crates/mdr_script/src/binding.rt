// Binding a script to a program.

ghost use Rattle.std.specs.Prelude.{◌≡◌, ◌≤◌, [], slice_get};
ghost use Rattle.mdr_core.specs.Sound.{HasFewNumbers};
ghost use Rattle.std.specs.List.{position};
ghost use Rattle.mdr_script.specs.Scripts.{Told};
ghost use Rattle.mdr_script.specs.Binding.{Binds, LineBinds, func_number, values_bound, called, call_by, call_bound, show_bound, command_bound, commands_behind, bound_of};

use crate::line::{ArgText, LineWhat, ScriptLine};
use crate::script::Script;
use crate::script_error::{ScriptError, ScriptKind};
use crate::unbound::Unbound;
use crate::values::{bind_args, global_number, has_unknown, small};
use mdr_bound::Bound;
use mdr_core::{Func, Items, Param, Program, Value};
use mdr_device::copied_rules;
use mdr_model::Command;
use std::alloc::Global;

fn func_number(funcs: &[Func], name: &[u8]) -> Option<usize>
    ensures { result ≡ func_number funcs.now name.now }
{
    funcs.iter().position(|f| f.name.as_slice() == name)
}

/// The arguments of a call of a function with these parameters.
#[tactic(auto, unfolding(crate::specs::Binding::values_bound))]
fn bind_values(
    alloc: Global,
    program: &Program,
    params: &[Param],
    args: &[ArgText],
) -> Result<Items<Value>, Unbound>
    requires { HasFewNumbers program.now }
    ensures { Binds result (values_bound program.now params.now args.now) }
{
    if has_unknown(program.globals.as_slice(), args) {
        Err(Unbound::Kind(ScriptKind::NoGlobal))
    } else if args.len() == params.len() {
        bind_args(program, Items::new(alloc), params, args)
    } else {
        Err(Unbound::Kind(ScriptKind::Arity))
    }
}

/// A call of a function with these parameters.
fn call_with(
    alloc: Global,
    program: &Program,
    number: usize,
    params: &[Param],
    args: &[ArgText],
) -> Result<Command, Unbound>
    requires few { HasFewNumbers program.now }
    requires inside { number ≤ 16777216 }
    ensures { Binds result (called number (values_bound program.now params.now args.now)) }
{
    let number = small(number);
    match bind_values(alloc, program, params, args) {
        Ok(values) => Ok(Command::Call(number, values)),
        Err(e) => Err(e),
    }
}

fn call_by(
    alloc: Global,
    program: &Program,
    number: usize,
    args: &[ArgText],
) -> Result<Command, Unbound>
    requires few { HasFewNumbers program.now }
    requires inside { number ≤ 16777216 }
    ensures { Binds result (call_by program.now number (slice_get program.now.funcs number) args.now) }
{
    match program.funcs.as_slice().get(number) {
        Some(func) => call_with(alloc, program, number, func.params.as_slice(), args),
        None => Err(Unbound::Kind(ScriptKind::NoFunction)),
    }
}

#[tactic(auto, unfolding(crate::specs::Binding::call_bound))]
fn bind_call(
    alloc: Global,
    program: &Program,
    name: &[u8],
    args: &[ArgText],
) -> Result<Command, Unbound>
    requires { HasFewNumbers program.now }
    ensures { Binds result (call_bound program.now name.now args.now) }
{
    match func_number(program.funcs.as_slice(), name) {
        Some(number) => call_by(alloc, program, number, args),
        None => Err(Unbound::Kind(ScriptKind::NoFunction)),
    }
}

#[tactic(auto, unfolding(crate::specs::Binding::show_bound))]
fn bind_show(program: &Program, name: &[u8]) -> Result<Command, ScriptKind>
    requires { HasFewNumbers program.now }
    ensures { result ≡ show_bound program.now name.now }
{
    match global_number(program.globals.as_slice(), name) {
        Some(number) => Ok(Command::Show(small(number))),
        None => Err(ScriptKind::NoGlobal),
    }
}

fn bind_command(alloc: Global, program: &Program, what: &LineWhat) -> Result<Command, Unbound>
    requires { HasFewNumbers program.now }
    ensures { Binds result (command_bound program.now what.now) }
{
    match what {
        LineWhat::Call(name, args) => bind_call(alloc, program, name.as_slice(), args.as_slice()),
        LineWhat::Idle(ticks) => Ok(Command::Idle(*ticks)),
        LineWhat::Show(name) => match bind_show(program, name.as_slice()) {
            Ok(command) => Ok(command),
            Err(kind) => Err(Unbound::Kind(kind)),
        },
    }
}

fn bind_line(alloc: Global, program: &Program, line: &ScriptLine) -> Result<Command, ScriptError>
    requires { HasFewNumbers program.now }
    ensures { LineBinds result line.now.line (command_bound program.now line.now.what) }
{
    match bind_command(alloc, program, &line.what) {
        Ok(command) => Ok(command),
        Err(Unbound::Kind(kind)) => Err(ScriptError::Line(line.line, kind)),
        Err(Unbound::OutOfMemory) => Err(ScriptError::OutOfMemory),
    }
}

fn bind_commands(
    alloc: Global,
    program: &Program,
    lines: &[ScriptLine],
) -> Result<Items<Command>, ScriptError>
    requires { HasFewNumbers program.now }
    ensures { Told result (commands_behind program.now [] lines.now) }
{
    let mut commands = Items::new(alloc);
    for line in lines {
        match bind_line(alloc, program, line) {
            Ok(command) => commands.push(command)?,
            Err(e) => return Err(e),
        }
    }
    Ok(commands)
}

/// The script for a program, or its first line that doesn't suit the program, and why.
#[tactic(auto, unfolding(crate::specs::Binding::bound_of))]
pub fn bind(alloc: Global, script: &Script, program: &Program) -> Result<Bound, ScriptError>
    requires { HasFewNumbers program.now }
    ensures { Told result (bound_of script.now program.now) }
{
    match bind_commands(alloc, program, script.lines.as_slice()) {
        Ok(commands) => Ok(Bound {
            words: Items::from_slice(alloc, script.words.as_slice())?,
            rules: copied_rules(alloc, script.rules.as_slice())?,
            fails: Items::from_slice(alloc, script.fails.as_slice())?,
            commands,
        }),
        Err(e) => Err(e),
    }
}
