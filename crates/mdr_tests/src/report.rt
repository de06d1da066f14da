// Reports against texts that were written by hand.

use mdr_core::{
    Ann, At, Func, GlobalDef, Items, Kind, LockState, Program, RefuseKind, StopKind, Ty, Value,
};
use mdr_model::{End, Object, Seen};
use mdr_plain::{Happened, Outcome};
use mdr_report::report_whole;
use std::alloc::Global;
use std::process::Abort;
use std::test::Fail;

fn name_of(alloc: Global, name: &str) -> Result<Items<u8>, Fail> {
    Ok(Items::from_slice(alloc, name.as_bytes())?)
}

fn function(alloc: Global, name: &str) -> Result<Func, Fail> {
    let name = name_of(alloc, name)?;
    Ok(Func {
        name,
        params: Items::new(alloc),
        result: Ty::Void,
        ann: Ann::Single,
        locals: Items::new(alloc),
        critical: false,
        body: None,
    })
}

fn funcs(alloc: Global) -> Result<Items<Func>, Fail> {
    let mut funcs = Items::new(alloc);
    for name in ["bump", "open"] {
        funcs.push(function(alloc, name)?)?;
    }
    Ok(funcs)
}

fn global(alloc: Global, name: &str) -> Result<GlobalDef, Fail> {
    let name = name_of(alloc, name)?;
    Ok(GlobalDef {
        name,
        ty: Ty::Int(Kind::U32),
        count: 1,
        array: false,
        ann: Ann::Single,
        init: Items::new(alloc),
    })
}

fn globals(alloc: Global) -> Result<Items<GlobalDef>, Fail> {
    let mut globals = Items::new(alloc);
    globals.push(global(alloc, "count")?)?;
    Ok(globals)
}

fn types(alloc: Global) -> Result<Items<Ty>, Fail> {
    let mut types = Items::new(alloc);
    types.push(Ty::Int(Kind::U32))?;
    types.push(Ty::Int(Kind::S8))?;
    types.push(Ty::Lock)?;
    Ok(types)
}

fn program(alloc: Global) -> Result<Program, Fail> {
    let types = types(alloc)?;
    let globals = globals(alloc)?;
    Ok(Program {
        types,
        structs: Items::new(alloc),
        globals,
        funcs: funcs(alloc)?,
    })
}

fn call(alloc: Global) -> Result<Happened, Fail> {
    let name = name_of(alloc, "open")?;
    let args = Items::from_slice(alloc, &[Value::Int(Kind::S8, -7), Value::Null])?;
    Ok(Happened::Call(name, args))
}

fn events(alloc: Global) -> Result<Items<Happened>, Fail> {
    let mut events = Items::new(alloc);
    events.push(call(alloc)?)?;
    events.push(Happened::Wrote(4, 1))?;
    for value in [Value::NoValue, Value::Fn(0), Value::Lock(LockState::Sleep)] {
        events.push(Happened::Ret(value))?;
    }
    Ok(events)
}

fn object(alloc: Global, ty: u32, count: u32, cells: &[Seen]) -> Result<Object, Fail> {
    let cells = Items::from_slice(alloc, cells)?;
    Ok(Object { ty, count, cells })
}

fn objects(alloc: Global) -> Result<Items<Object>, Fail> {
    let mut objects = Items::new(alloc);
    objects.push(object(alloc, 0, 1, &[Seen::Int(2)])?)?;
    objects.push(object(alloc, 1, 2, &[Seen::Int(-128), Seen::Null])?)?;
    let kinds = [Seen::Free, Seen::Held, Seen::At(2, 1), Seen::Fn(1)];
    objects.push(object(alloc, 2, 4, &kinds)?)?;
    Ok(objects)
}

fn outcome(alloc: Global, end: End) -> Result<Outcome, Fail> {
    let events = events(alloc)?;
    let objects = objects(alloc)?;
    Ok(Outcome {
        events,
        end,
        ticks: 5,
        live: 3,
        objects,
    })
}

fn printed(alloc: Global, program: &Program, outcome: &Outcome) -> Result<Items<u8>, Fail> {
    match report_whole(alloc, program, outcome) {
        Ok(text) => Ok(text),
        Err(_) => Err("memory was wanting".into()),
    }
}

/// The report of a run that ended so.
fn report_of(alloc: Global, program: &Program, end: End) -> Result<Items<u8>, Fail> {
    let outcome = outcome(alloc, end)?;
    let text = printed(alloc, program, &outcome);
    drop(outcome);
    text
}

/// The report of a run that ended so has this line.
fn expect_line(
    rt: &impl Abort,
    alloc: Global,
    program: &Program,
    end: End,
    line: &str,
) -> Result<(), Fail> {
    let printed = report_of(alloc, program, end)?;
    let expected = format!(in alloc;
        "call open -7 null\nW 4 1\nret none\nret &bump\nret held\n{line}\nticks 5\nlive 3\nobj 1 u32 x1: 2\nobj 2 s8 x2: -128 null\nobj 3 combolock_t x4: free held @2+1 &open\n"
    )?;
    assert_eq!(rt; printed.as_slice(), expected.as_bytes(), "at {line}");
    Ok(())
}

const PLACE: At = At { func: 1, stmt: 2 };

/// Ends of a run, and the lines that tell them.
const ENDS: &[(End, &str)] = &[
    (End::Ok, "end ok"),
    (
        End::Stop(StopKind::Bounds, Some(PLACE)),
        "stop Bounds at open 2",
    ),
    (End::Stop(StopKind::Ticks, None), "stop Ticks at -"),
    (
        End::Refused(3, RefuseKind::NotAwaited, 0),
        "refused 3 NotAwaited 0",
    ),
    (End::FarFault(2), "far fault 2"),
];

fn expect_ends(rt: &impl Abort, alloc: Global, program: &Program) -> Result<(), Fail> {
    for (end, line) in ENDS {
        expect_line(rt, alloc, program, *end, line)?;
    }
    Ok(())
}

#[test]
fn prints_events_end_and_objects(rt: HostRuntime) -> Result<(), Fail> {
    let program = program(rt.alloc())?;
    let told = expect_ends(&rt, rt.alloc(), &program);
    drop(program);
    told
}
