// The code of a function's body as the rules of types make it.

use mdr_core::{BinOp, Boxed, Items, Kind, Name, RelOp, Ty, Value};

/// An lvalue (C99 6.3.2.1). Parameters and locals have the numbers of a function's slots: parameters first, then
/// locals. With what has a name stands its type, of an array that of its elements.
#[cycle(expression)]
#[derive(Drop)]
pub enum Lval {
    /// A parameter or local that lies in a slot of its frame.
    Slot(u32, Ty),
    /// A parameter or local that is an object of its own.
    Object(u32, Ty),
    /// A global, by its number.
    Global(u32, Ty),
    /// What a pointer names (C99 6.5.3.2).
    Deref(Boxed<Expr>),
    /// A field of a struct, by its number (C99 6.5.2.3).
    Member(Boxed<Lval>, u32, Ty),
    /// An element of an array (C99 6.5.2.1).
    Index(Boxed<Lval>, Boxed<Expr>),
}

/// An expression. Conversions are written out.
#[cycle(expression)]
#[derive(Drop)]
pub enum Expr {
    Lit(Value),
    Load(Lval),
    /// The address of an lvalue (C99 6.5.3.2).
    Addr(Lval),
    /// An array as a pointer to its first element (C99 6.3.2.1).
    Decay(Lval),
    /// The number with its sign changed, at a kind (C99 6.5.3.3).
    Neg(Kind, Boxed<Expr>),
    /// Each bit turned, at a kind (C99 6.5.3.3).
    Flip(Kind, Boxed<Expr>),
    /// 1 where the operand is zero or null, else 0 (C99 6.5.3.3).
    Not(Boxed<Expr>),
    /// An operator at a kind, to which the operands were converted (C99 6.3.1.8); a shift's count has a kind of its own.
    Bin(BinOp, Kind, Boxed<Expr>, Boxed<Expr>),
    /// A comparison of two integers of one kind, or of two pointers.
    Rel(RelOp, Boxed<Expr>, Boxed<Expr>),
    /// `&&` (C99 6.5.13).
    And(Boxed<Expr>, Boxed<Expr>),
    /// `||` (C99 6.5.14).
    Or(Boxed<Expr>, Boxed<Expr>),
    /// An integer converted to a kind (C99 6.3.1).
    Conv(Kind, Boxed<Expr>),
    /// A pointer converted to `void *` (C99 6.3.2.3).
    ToVoid(Boxed<Expr>),
    /// A `void *` converted to a pointer to this type (C99 6.3.2.3).
    FromVoid(Ty, Boxed<Expr>),
    /// A pointer moved by so many elements, backwards where the flag is true (C99 6.5.6).
    Move(bool, Boxed<Expr>, Boxed<Expr>),
    /// How many elements lie between two pointers (C99 6.5.6).
    Diff(Boxed<Expr>, Boxed<Expr>),
    /// `c ? a : b`, of the type (C99 6.5.15).
    Cond(Ty, Boxed<Expr>, Boxed<Expr>, Boxed<Expr>),
    /// What a call of a function gives, of the type (C99 6.5.2.2).
    CallDirect(Ty, u32, Items<Expr>),
    /// What a call through a pointer gives, of the type.
    CallThrough(Ty, Boxed<Expr>, Items<Expr>),
    /// What a service gives, of the type; the type that an allocation names, and the text of a `printk`.
    CallService(Ty, u32, Items<Expr>, Option<Ty>, Option<Name>),
    /// An object of the type, stepped by one, and whether upwards (C99 6.5.2.4, 6.5.3.1). Its value is the new one where
    /// the second flag is true, else the old one.
    Bump(Ty, bool, bool, Lval),
}

/// What is called.
#[derive(Drop)]
pub enum Callee {
    /// A function, by its number.
    Direct(u32),
    /// The function that a value names.
    Through(Expr),
    /// A service of the kernel, by its number.
    Service(u32),
}

/// A call. `shape` is the type that an allocation names, `format` the text of a `printk`.
#[derive(Drop)]
pub struct CallForm {
    pub callee: Callee,
    pub args: Items<Expr>,
    pub shape: Option<Ty>,
    pub format: Option<Name>,
}

/// What a statement does (C99 6.7, 6.8). Locals are named by their slots.
#[cycle(statement)]
#[derive(Drop)]
pub enum Step {
    /// A local is declared.
    Declare(u32),
    /// A local array of characters is given a text.
    Text(u32, Name),
    Assign(Lval, Expr),
    /// A call, and where its value goes.
    Call(Option<Lval>, CallForm),
    If(Expr, Items<Stmt>, Items<Stmt>),
    While(Expr, Items<Stmt>),
    /// The init, the test, the step and the body.
    For(Items<Stmt>, Option<Expr>, Items<Stmt>, Items<Stmt>),
    /// The body, and the test behind it (C99 6.8.5.2).
    Do(Items<Stmt>, Expr),
    /// A value, the clauses that it is tried with in their order, and the body of `default` (C99 6.8.4.2).
    Switch(Expr, Items<Clause>, Items<Stmt>),
    Return(Option<Expr>),
    /// The value of a call is returned.
    ReturnCall(CallForm),
    Break,
    Continue,
    Empty,
    Block(Items<Stmt>),
}

/// A statement with its number. Statements count from 1 in each function, and a block has the number 0.
#[cycle(statement)]
#[derive(Drop)]
pub struct Stmt {
    pub number: u32,
    pub step: Step,
}

/// A part of a `switch`: the constants of its labels, of the kind of the value that is tried, and what follows them
/// without the `break` at its end.
#[cycle(statement)]
#[derive(Drop)]
pub struct Clause {
    pub labels: Items<Value>,
    pub body: Items<Stmt>,
}
