// Names in reports.

ghost use Rattle.std.specs.Prelude.{◌≡◌, ◌++◌, OnOk, codes};
ghost use Rattle.mdr_model.specs.Report.{func_name, global_name, stop_name, refusal_name};

use crate::put::put_bytes;
use mdr_core::{Program, RefuseKind, StopKind};
use std::alloc::AllocError;

/// The name of a function, or nothing where there is none.
pub fn put_func(out: &mut Vec<u8>, program: &Program, func: u32) -> Result<(), AllocError>
    ensures { OnOk result (out.new.items ≡ out.old.items ++ func_name program.now func) }
{
    match program.funcs.as_slice().get(func as usize) {
        Some(f) => put_bytes(out, f.name.as_slice()),
        None => Ok(()),
    }
}

/// The name of a global, or nothing where there is none.
pub fn put_global(out: &mut Vec<u8>, program: &Program, global: u64) -> Result<(), AllocError>
    ensures { OnOk result (out.new.items ≡ out.old.items ++ global_name program.now global) }
{
    match program.globals.as_slice().get(global as usize) {
        Some(g) => put_bytes(out, g.name.as_slice()),
        None => Ok(()),
    }
}

pub fn stop_word(kind: StopKind) -> &'static str
    ensures { result.now ≡ stop_name kind }
{
    match kind {
        StopKind::Null => "Null",
        StopKind::Dead => "Dead",
        StopKind::Bounds => "Bounds",
        StopKind::Overflow => "Overflow",
        StopKind::DivZero => "DivZero",
        StopKind::Shift => "Shift",
        StopKind::Compare => "Compare",
        StopKind::BadCast => "BadCast",
        StopKind::BadCall => "BadCall",
        StopKind::NoValue => "NoValue",
        StopKind::LockHeld => "LockHeld",
        StopKind::LockFree => "LockFree",
        StopKind::Depth => "Depth",
        StopKind::Bug => "Bug",
        StopKind::Annotation => "Annotation",
        StopKind::Ticks => "Ticks",
        StopKind::Atomic => "Atomic",
    }
}

pub fn refusal_word(kind: RefuseKind) -> &'static str
    ensures { result.now ≡ refusal_name kind }
{
    match kind {
        RefuseKind::Short => "Short",
        RefuseKind::Range => "Range",
        RefuseKind::Padding => "Padding",
        RefuseKind::Kind => "Kind",
        RefuseKind::Trailing => "Trailing",
        RefuseKind::NotAwaited => "NotAwaited",
        RefuseKind::TooManyTicks => "TooManyTicks",
        RefuseKind::BadPlace => "BadPlace",
        RefuseKind::BadDepth => "BadDepth",
        RefuseKind::NoStub => "NoStub",
        RefuseKind::BadService => "BadService",
        RefuseKind::BadArgs => "BadArgs",
        RefuseKind::BadResult => "BadResult",
        RefuseKind::BadStop => "BadStop",
        RefuseKind::StillEntered => "StillEntered",
        RefuseKind::RunOrder => "RunOrder",
        RefuseKind::OutsideSet => "OutsideSet",
        RefuseKind::UnknownSerial => "UnknownSerial",
        RefuseKind::BadView => "BadView",
        RefuseKind::BadValue => "BadValue",
        RefuseKind::Load => "Load",
    }
}
