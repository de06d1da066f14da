// What a run shows.

use mdr_core::{At, Items, Name, RefuseKind, StopKind, Value};

/// An event of a run. In its values no slot is meant.
#[derive(Drop)]
pub enum Happened {
    /// A command called a function.
    Call(Name, Items<Value>),
    /// A register, by its number, was written.
    Wrote(u32, u32),
    /// The called function returned.
    Ret(Value),
}

/// How a run ended.
#[derive(Clone, Copy)]
pub enum End {
    /// The script was done.
    Ok,
    /// The driver stopped, at a place if any.
    Stop(StopKind, Option<At>),
    /// A reply was refused: of the exchange with this number, for this cause, at this offset or position.
    Refused(u64, RefuseKind, u64),
    /// The far side failed in the exchange with this number.
    FarFault(u64),
}

/// The value of a cell as a report shows it. Objects are named by their numbers in the report, from 1.
#[derive(Clone, Copy)]
pub enum Seen {
    Int(i128),
    Null,
    Dead,
    /// A cell of an object.
    At(u64, u64),
    Fn(u32),
    Free,
    Held,
}

/// An object as a report shows it: `count` elements of a type of the table, and their cells.
#[derive(Drop)]
pub struct Object {
    pub ty: u32,
    pub count: u32,
    pub cells: Items<Seen>,
}
