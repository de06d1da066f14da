// The types that occur in a program.

ghost use Rattle.std.specs.Prelude.{◌≡◌, ◌++◌, OnOk, IfOk};
ghost use Rattle.mdr_core.specs.Folds.{code_of, codes_of};
ghost use Rattle.mdr_lower.specs.Tables.{is_counted};
ghost use Rattle.mdr_program.specs.Occurring.{field_types, struct_types, global_types, param_types, local_types, shape_types, allocated, allocated_in, body_types, func_types, funcs_types, occurring};

use crate::parts::Parts;
use mdr_check::Variable;
use mdr_core::{CallForm, Field, Func, Items, Local, Param, Step, Stmt, StructDef, Ty};
use mdr_faults::copied_type;
use std::alloc::{AllocError, Global};

fn add_field_types(alloc: Global, all: &mut Items<Ty>, fields: &[Field]) -> Result<(), AllocError>
    ensures { OnOk result (all.new ≡ all.old ++ field_types fields.now) }
{
    for x in fields {
        all.push(copied_type(alloc, &x.ty)?)?;
    }
    Ok(())
}

#[tactic(auto, unfolding(crate::specs::Occurring::struct_types))]
fn add_struct_types(
    alloc: Global,
    all: &mut Items<Ty>,
    structs: &[StructDef],
) -> Result<(), AllocError>
    ensures { OnOk result (all.new ≡ all.old ++ struct_types structs.now) }
{
    for d in structs {
        add_field_types(alloc, all, d.fields.as_slice())?;
    }
    Ok(())
}

fn add_global_types(
    alloc: Global,
    all: &mut Items<Ty>,
    variables: &[Variable],
) -> Result<(), AllocError>
    ensures { OnOk result (all.new ≡ all.old ++ global_types variables.now) }
{
    for v in variables {
        all.push(copied_type(alloc, &v.object.ty)?)?;
    }
    Ok(())
}

fn add_param_types(alloc: Global, all: &mut Items<Ty>, params: &[Param]) -> Result<(), AllocError>
    ensures { OnOk result (all.new ≡ all.old ++ param_types params.now) }
{
    for p in params {
        all.push(copied_type(alloc, &p.ty)?)?;
    }
    Ok(())
}

fn is_counted(l: &Local) -> bool
    ensures { result ≡ is_counted l.now }
{
    l.object || l.name.len() != 0
}

fn add_local_types(alloc: Global, all: &mut Items<Ty>, locals: &[Local]) -> Result<(), AllocError>
    ensures { OnOk result (all.new ≡ all.old ++ local_types locals.now) }
{
    for l in locals {
        if is_counted(l) {
            all.push(copied_type(alloc, &l.ty)?)?;
        }
    }
    Ok(())
}

fn add_shape(alloc: Global, all: &mut Items<Ty>, call: &CallForm) -> Result<(), AllocError>
    ensures { OnOk result (all.new ≡ all.old ++ shape_types call.now.shape) }
{
    if let Some(t) = &call.shape {
        all.push(copied_type(alloc, t)?)?;
    }
    Ok(())
}

/// The types that a statement allocates, and those in it.
#[cycle(allocated)]
fn add_allocated(alloc: Global, statement: &Stmt, all: &mut Items<Ty>) -> Result<(), AllocError>
    ensures { OnOk result (all.new ≡ all.old ++ allocated (code_of statement.now)) }
{
    match &statement.step {
        Step::Call(_, form) => add_shape(alloc, all, form)?,
        Step::ReturnCall(form) => add_shape(alloc, all, form)?,
        Step::If(_, one, other) => {
            add_all_allocated(alloc, one.as_slice(), all)?;
            add_all_allocated(alloc, other.as_slice(), all)?;
        }
        Step::While(_, body) => add_all_allocated(alloc, body.as_slice(), all)?,
        Step::Block(body) => add_all_allocated(alloc, body.as_slice(), all)?,
        Step::For(init, _, step, body) => {
            add_all_allocated(alloc, init.as_slice(), all)?;
            add_all_allocated(alloc, step.as_slice(), all)?;
            add_all_allocated(alloc, body.as_slice(), all)?;
        }
        Step::Declare(_)
        | Step::Text(_, _)
        | Step::Assign(_, _)
        | Step::Return(_)
        | Step::Break
        | Step::Continue
        | Step::Empty => {}
    }
    Ok(())
}

#[cycle(allocated)]
fn add_all_allocated(alloc: Global, body: &[Stmt], all: &mut Items<Ty>) -> Result<(), AllocError>
    ensures { OnOk result (all.new ≡ all.old ++ allocated_in (codes_of body.now)) }
{
    for statement in body {
        add_allocated(alloc, statement, all)?;
    }
    Ok(())
}

/// The types that a function allocates.
fn add_body_types(alloc: Global, all: &mut Items<Ty>, f: &Func) -> Result<(), AllocError>
    ensures { OnOk result (all.new ≡ all.old ++ body_types f.now.body) }
{
    if let Some(body) = &f.body {
        add_all_allocated(alloc, body.as_slice(), all)?;
    }
    Ok(())
}

fn add_func_types(alloc: Global, all: &mut Items<Ty>, f: &Func) -> Result<(), AllocError>
    ensures { OnOk result (all.new ≡ all.old ++ func_types f.now) }
{
    add_param_types(alloc, all, f.params.as_slice())?;
    add_local_types(alloc, all, f.locals.as_slice())?;
    add_body_types(alloc, all, f)
}

#[tactic(auto, unfolding(crate::specs::Occurring::funcs_types))]
fn add_funcs_types(alloc: Global, all: &mut Items<Ty>, funcs: &[Func]) -> Result<(), AllocError>
    ensures { OnOk result (all.new ≡ all.old ++ funcs_types funcs.now) }
{
    for f in funcs {
        add_func_types(alloc, all, f)?;
    }
    Ok(())
}

/// The types that occur in a file of these parts, some of them more than once.
#[tactic(auto, unfolding(crate::specs::Occurring::occurring))]
pub fn occurring_types(alloc: Global, parts: &Parts) -> Result<Items<Ty>, AllocError>
    ensures { IfOk result (λ ts. ts ≡ occurring parts.now) }
{
    let mut all = Items::new(alloc);
    add_struct_types(alloc, &mut all, parts.structs.as_slice())?;
    add_global_types(alloc, &mut all, parts.variables.as_slice())?;
    add_funcs_types(alloc, &mut all, parts.funcs.as_slice())?;
    Ok(all)
}
