// Arguments bound to parameters.

ghost use Rattle.std.specs.Prelude.{◌≡◌, ◌≤◌, IfSome, slice_get};
ghost use Rattle.std.specs.List.{list_any, position};
ghost use Rattle.mdr_core.specs.declared.types.Ty.{out-Ty};
ghost use Rattle.mdr_core.specs.Sound.{HasFewNumbers};
ghost use Rattle.mdr_script.specs.Binding.{Binds, global_number, type_number, is_unknown, int_bound, null_bound, takes, view_bound, address_by, address_bound, arg_bound, args_behind};

use crate::line::ArgText;
use crate::script_error::ScriptKind;
use crate::unbound::Unbound;
use mdr_core::{Block, GlobalDef, Items, Param, Program, Ty, Value, View};
use mdr_faults::is_alike;

pub fn global_number(globals: &[GlobalDef], name: &[u8]) -> Option<usize>
    ensures { result ≡ global_number globals.now name.now }
{
    globals.iter().position(|g| g.name.as_slice() == name)
}

fn type_number(types: &[Ty], ty: &Ty) -> Option<usize>
    ensures { result ≡ type_number types.now ty.now }
{
    types.iter().position(|t| is_alike(t, ty))
}

/// The number of a type, a global or a function, of which there are few.
pub fn small(n: usize) -> u32
    requires { n ≤ 16777216 }
    ensures { result ≡ n }
{
    n as u32
}

/// Whether the argument names no global that there is.
fn is_unknown(globals: &[GlobalDef], arg: &ArgText) -> bool
    ensures { result ≡ is_unknown globals.now arg.now }
{
    match arg {
        ArgText::Global(name) => global_number(globals, name.as_slice()).is_none(),
        ArgText::Int(_) | ArgText::Null => false,
    }
}

pub fn has_unknown(globals: &[GlobalDef], args: &[ArgText]) -> bool
    ensures { result ≡ list_any (is_unknown globals.now) args.now }
{
    args.iter().any(|arg| is_unknown(globals, arg))
}

fn bind_int(ty: &Ty, n: i128) -> Result<Value, ScriptKind>
    ensures { result ≡ int_bound (out-Ty ty.now) n }
{
    match ty {
        Ty::Int(kind) => {
            if kind.contains(n) {
                Ok(Value::Int(*kind, n))
            } else {
                Err(ScriptKind::Range)
            }
        }
        Ty::Lock | Ty::Struct(_) | Ty::Ptr(_) | Ty::VoidPtr | Ty::Fun(_) | Ty::Void => {
            Err(ScriptKind::ArgKind)
        }
    }
}

fn bind_null(ty: &Ty) -> Result<Value, ScriptKind>
    ensures { result ≡ null_bound (out-Ty ty.now) }
{
    match ty {
        Ty::Ptr(_) | Ty::VoidPtr | Ty::Fun(_) => Ok(Value::Null),
        Ty::Int(_) | Ty::Lock | Ty::Struct(_) | Ty::Void => Err(ScriptKind::ArgKind),
    }
}

/// Whether a parameter takes the address of an object of this type.
fn takes(ty: &Ty, target: &Ty) -> bool
    ensures { result ≡ takes (out-Ty ty.now) target.now }
{
    match ty {
        Ty::Ptr(t) => is_alike(t.get(), target),
        Ty::VoidPtr => true,
        Ty::Int(_) | Ty::Lock | Ty::Struct(_) | Ty::Fun(_) | Ty::Void => false,
    }
}

/// A view of the whole global.
fn view_of(number: usize, global: &GlobalDef, ty: Option<usize>) -> Result<Value, ScriptKind>
    requires { IfSome ty (λ t. t ≤ 16777216) }
    ensures { result ≡ view_bound number global.now ty }
{
    match ty {
        Some(t) => Ok(Value::Ptr(View {
            block: Block {
                slot: 0,
                serial: number as u64,
            },
            first: 0,
            ty: small(t),
            count: global.count,
            index: 0,
        })),
        None => Err(ScriptKind::ArgKind),
    }
}

fn address_by(program: &Program, ty: &Ty, number: usize) -> Result<Value, ScriptKind>
    requires { HasFewNumbers program.now }
    ensures { result ≡ address_by program.now ty.now number (slice_get program.now.globals number) }
{
    match program.globals.as_slice().get(number) {
        Some(global) => {
            if takes(ty, &global.ty) {
                view_of(
                    number,
                    global,
                    type_number(program.types.as_slice(), &global.ty),
                )
            } else {
                Err(ScriptKind::ArgKind)
            }
        }
        None => Err(ScriptKind::NoGlobal),
    }
}

#[tactic(auto, unfolding(crate::specs::Binding::address_bound))]
fn bind_address(program: &Program, ty: &Ty, name: &[u8]) -> Result<Value, ScriptKind>
    requires { HasFewNumbers program.now }
    ensures { result ≡ address_bound program.now ty.now name.now }
{
    match global_number(program.globals.as_slice(), name) {
        Some(number) => address_by(program, ty, number),
        None => Err(ScriptKind::NoGlobal),
    }
}

fn bind_arg(program: &Program, ty: &Ty, arg: &ArgText) -> Result<Value, ScriptKind>
    requires { HasFewNumbers program.now }
    ensures { result ≡ arg_bound program.now ty.now arg.now }
{
    match arg {
        ArgText::Int(n) => bind_int(ty, *n),
        ArgText::Null => bind_null(ty),
        ArgText::Global(name) => bind_address(program, ty, name.as_slice()),
    }
}

/// The arguments behind those that are bound.
pub fn bind_args(
    program: &Program,
    values: Items<Value>,
    params: &[Param],
    args: &[ArgText],
) -> Result<Items<Value>, Unbound>
    requires { HasFewNumbers program.now }
    ensures { Binds result (args_behind program.now values params.now args.now) }
{
    let [param, params @ ..] = params else {
        return if args.is_empty() {
            Ok(values)
        } else {
            Err(Unbound::Kind(ScriptKind::Arity))
        };
    };
    let [arg, args @ ..] = args else {
        return Err(Unbound::Kind(ScriptKind::Arity));
    };
    let value = match bind_arg(program, &param.ty, arg) {
        Ok(value) => value,
        Err(kind) => return Err(Unbound::Kind(kind)),
    };
    let mut values = values;
    values.push(value)?;
    bind_args(program, values, params, args)
}
