// The program of a file.

ghost use Rattle.std.specs.Prelude.{◌≡◌, [], IfOk};
ghost use Rattle.mdr_check.specs.Tables.{type_table};
ghost use Rattle.mdr_program.specs.Programs.{global_def, global_defs, made, with_types};

use crate::occurring::occurring_types;
use crate::parts::Parts;
use crate::values::first_values;
use mdr_check::{Variable, type_table};
use mdr_core::{GlobalDef, Items, OutOfMemory, Program, StructDef, Ty};
use mdr_faults::{copied, copied_type};
use std::alloc::Global;

fn global_def(
    alloc: Global,
    types: &[Ty],
    structs: &[StructDef],
    variables: &[Variable],
    v: &Variable,
) -> Result<GlobalDef, OutOfMemory>
    ensures { IfOk result (λ def. def ≡ global_def types.now structs.now variables.now v.now) }
{
    Ok(GlobalDef {
        name: copied(alloc, v.name.as_slice())?,
        ty: copied_type(alloc, &v.object.ty)?,
        count: v.object.count,
        array: v.object.array,
        ann: v.ann,
        init: first_values(alloc, types, structs, variables, v.first.as_slice())?,
    })
}

#[tactic(auto, unfolding(crate::specs::Programs::global_defs))]
fn global_defs(
    alloc: Global,
    types: &[Ty],
    structs: &[StructDef],
    variables: &[Variable],
) -> Result<Items<GlobalDef>, OutOfMemory>
    ensures { IfOk result (λ defs. defs ≡ global_defs types.now structs.now variables.now variables.now) }
{
    let mut all = Items::new(alloc);
    for v in variables {
        all.push(global_def(alloc, types, structs, variables, v)?)?;
    }
    Ok(all)
}

/// The program of these structs, globals and functions, with this type table.
pub fn with_types(alloc: Global, types: Items<Ty>, parts: Parts) -> Result<Program, OutOfMemory>
    ensures { IfOk result (λ p. p ≡ with_types types parts) }
{
    let globals = global_defs(
        alloc,
        types.as_slice(),
        parts.structs.as_slice(),
        parts.variables.as_slice(),
    );
    match globals {
        Ok(globals) => Ok(Program {
            types,
            structs: parts.structs,
            globals,
            funcs: parts.funcs,
        }),
        Err(error) => {
            drop(types);
            drop(parts);
            Err(error)
        }
    }
}

/// The program of these structs, globals and functions, in which these types occur.
fn made_of(alloc: Global, parts: Parts, occurring: Items<Ty>) -> Result<Program, OutOfMemory>
    ensures { IfOk result (λ p. p ≡ with_types (type_table parts.structs occurring) parts) }
{
    let bare = Program {
        types: Items::new(alloc),
        structs: parts.structs,
        globals: Items::new(alloc),
        funcs: parts.funcs,
    };
    match type_table(alloc, &bare, occurring.as_slice()) {
        Ok(table) => {
            let parts = Parts {
                structs: bare.structs,
                variables: parts.variables,
                funcs: bare.funcs,
            };
            with_types(alloc, table, parts)
        }
        Err(error) => {
            drop(bare);
            drop(parts.variables);
            Err(error)
        }
    }
}

/// The program of these structs, globals and functions.
#[tactic(auto, unfolding(crate::specs::Programs::made))]
pub fn made(alloc: Global, parts: Parts) -> Result<Program, OutOfMemory>
    ensures { IfOk result (λ p. p ≡ made parts) }
{
    match occurring_types(alloc, &parts) {
        Ok(types) => made_of(alloc, parts, types),
        Err(error) => {
            drop(parts);
            Err(error.into())
        }
    }
}
