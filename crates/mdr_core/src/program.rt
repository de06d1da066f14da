// The typed program of a driver.

use crate::code::Stmt;
use crate::items::{Items, Name};
use crate::types::{Ann, Ty};
use crate::value::Value;

/// A field of a struct: `count` elements of its type, declared as an array or not.
#[derive(Drop)]
pub struct Field {
    pub name: Name,
    pub ty: Ty,
    pub count: u32,
    pub array: bool,
    pub ann: Ann,
}

/// A struct.
#[derive(Drop)]
pub struct StructDef {
    pub name: Name,
    pub fields: Items<Field>,
}

/// A global: `count` elements of its type, and the first value of each of its cells.
#[derive(Drop)]
pub struct GlobalDef {
    pub name: Name,
    pub ty: Ty,
    pub count: u32,
    pub array: bool,
    pub ann: Ann,
    pub init: Items<Value>,
}

/// A parameter. `object` says that it is a block of its own.
#[derive(Drop)]
pub struct Param {
    pub name: Name,
    pub ty: Ty,
    pub ann: Ann,
    pub object: bool,
}

/// A local. `object` says that it is a block of its own.
#[derive(Drop)]
pub struct Local {
    pub name: Name,
    pub ty: Ty,
    pub count: u32,
    pub array: bool,
    pub object: bool,
}

/// A function. One without a body is of the other half.
#[derive(Drop)]
pub struct Func {
    pub name: Name,
    pub params: Items<Param>,
    pub result: Ty,
    pub ann: Ann,
    pub locals: Items<Local>,
    pub critical: bool,
    pub body: Option<Items<Stmt>>,
}

/// A program. Types, structs, globals and functions are named by their numbers in these lists, from 0.
#[derive(Drop)]
pub struct Program {
    pub types: Items<Ty>,
    pub structs: Items<StructDef>,
    pub globals: Items<GlobalDef>,
    pub funcs: Items<Func>,
}
