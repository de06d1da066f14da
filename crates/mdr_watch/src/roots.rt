// What a call passes.

ghost use Rattle.std.specs.Prelude.{◌≡◌, ◌++◌, List, map, IfOk, OnOk};
ghost use Rattle.mdr_core.specs.declared.value.Value.{Value as AnyValue};
ghost use Rattle.mdr_events.specs.Values.{wires_of};
ghost use Rattle.mdr_meaning.specs.Values.{wire_of};
ghost use Rattle.mdr_reach.specs.Answers.{root_of, roots_of};
ghost use Rattle.mdr_watched.specs.Driver.{entry_roots, param_roots, result_roots};

use crate::watch::func_at;
use mdr_core::{Ann, Items, OutOfMemory, Param, Program, Value};
use mdr_reach::Root;
use std::alloc::Global;

/// The result of a function, with its annotation.
pub(crate) fn result_root(program: &Program, func: u32, value: Value) -> [Root; 1]
    ensures { (passed : List AnyValue) → roots_of result passed ≡ result_roots program.now func (wires_of passed) (wire_of value) }
{
    match func_at(program, func) {
        Some(func) => [Root {
            ann: func.ann,
            value,
        }],
        None => [Root {
            ann: Ann::Single,
            value,
        }],
    }
}

/// Arguments with the annotations of their parameters, as many as there are of both.
fn add_params(roots: &mut Items<Root>, params: &[Param], args: &[Value]) -> Result<(), OutOfMemory>
    ensures { OnOk result (map root_of roots.new ≡ map root_of roots.old ++ param_roots params.now (wires_of args.now)) }
{
    let mut i = 0;
    while i < params.len() {
        if i >= args.len() {
            return Ok(());
        }
        roots.push(Root {
            ann: params[i].ann,
            value: args[i],
        })?;
        i += 1;
    }
    Ok(())
}

/// The arguments of a function that is entered, each with the annotation of its parameter, behind a result that is none.
pub fn entry_roots(
    alloc: Global,
    program: &Program,
    func: u32,
    args: &[Value],
) -> Result<Items<Root>, OutOfMemory>
    ensures { IfOk result (λ roots. roots_of roots args.now ≡ entry_roots program.now func (wires_of args.now)) }
{
    let mut roots = Items::new(alloc);
    roots.push(Root {
        ann: Ann::Single,
        value: Value::NoValue,
    })?;
    if let Some(func) = func_at(program, func) {
        add_params(&mut roots, func.params.as_slice(), args)?;
    }
    Ok(roots)
}
