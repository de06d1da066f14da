// Parameters and locals, by their slots.

ghost use Rattle.std.specs.Prelude.{◌≡◌, ◌-◌, option_copied, slice_get};
ghost use Rattle.std.specs.Option.{option_map};
ghost use Rattle.mdr_core.specs.Typing.{slot_of_local, slot_of_param, slots_of};
ghost use Rattle.mdr_meaning.specs.Bodies.{known_of};
ghost use Rattle.mdr_meaning.specs.Lives.{shape_of};
ghost use Rattle.mdr_exec.specs.Declaring.{slot_as, slot_in};

use crate::pointers::type_number;
use mdr_core::{Func, Local, Param, Program, Ty};
use mdr_meaning::Shape64;

/// A parameter or a local.
#[derive(Clone, Copy)]
pub(crate) struct Declared<'a> {
    pub(crate) ty: &'a Ty,
    pub(crate) count: u32,
    pub(crate) array: bool,
    pub(crate) object: bool,
    pub(crate) is_local: bool,
}

pub(crate) fn of_param<'a>(param: &'a Param) -> Declared<'a>
    ensures { slot_as result ≡ slot_of_param param.now }
{
    Declared {
        ty: &param.ty,
        count: 1,
        array: false,
        object: param.object,
        is_local: false,
    }
}

fn of_local<'a>(local: &'a Local) -> Declared<'a>
    ensures { slot_as result ≡ slot_of_local local.now }
{
    Declared {
        ty: &local.ty,
        count: local.count,
        array: local.array,
        object: local.object,
        is_local: true,
    }
}

fn param_at<'a>(params: &'a [Param], i: usize) -> Option<Declared<'a>>
    ensures { option_map slot_as result ≡ option_map slot_of_param (slice_get params.now i) }
{
    match params.get(i) {
        Some(param) => Some(of_param(param)),
        None => None,
    }
}

fn local_at<'a>(locals: &'a [Local], i: usize) -> Option<Declared<'a>>
    ensures { option_map slot_as result ≡ option_map slot_of_local (slice_get locals.now i) }
{
    match locals.get(i) {
        Some(local) => Some(of_local(local)),
        None => None,
    }
}

/// The parameter or local of a function that has this slot.
fn slot_numbered<'a>(func: &'a Func, i: usize) -> Option<Declared<'a>>
    ensures { option_map slot_as result ≡ slice_get (slots_of func.now) i }
{
    match param_at(func.params.as_slice(), i) {
        Some(declared) => Some(declared),
        None => local_at(func.locals.as_slice(), i.saturating_sub(func.params.len())),
    }
}

/// The parameter or local of a program's function that has this slot.
pub(crate) fn slot_in<'a>(program: &'a Program, func: u32, i: u32) -> Option<Declared<'a>>
    ensures { option_map slot_as result ≡ slot_in program.now func i }
{
    match program.funcs.as_slice().get(func as usize) {
        Some(func) => slot_numbered(func, i as usize),
        None => None,
    }
}

/// What an object is born as.
pub(crate) fn shape_of<'a>(program: &Program, declared: Declared<'a>) -> Shape64
    ensures { result ≡ shape_of (known_of program.now) (slot_as declared.entry) }
{
    Shape64 {
        ty: type_number(program, declared.ty),
        count: declared.count as u64,
    }
}
