// The tree of a source (C99 6.5 to 6.9): what was written, with the places that errors are told at.

use mdr_core::{Boxed, Items, Kind, Name, Place};

/// A whole source. Each declarator of a list is an item, a field or a statement of its own.
#[derive(Drop)]
pub struct Tree {
    pub items: Items<Item>,
}

/// What stands outside functions. Its place is that of the first token of its declaration.
#[derive(Drop)]
pub struct Item {
    pub place: Place,
    pub what: ItemWhat,
}

/// What an item is.
#[derive(Drop)]
pub enum ItemWhat {
    /// A `#define`: its name, whether a `-` stands before its number, and the number.
    Define(Name, bool, u64, Kind),
    /// A struct: the place of its name, its name and its fields.
    Struct(Place, Name, Items<Decl>),
    /// Enumeration constants, each with its name's place and perhaps a value.
    Enum(Items<Enumerator>),
    Global(Decl, Option<Init>),
    /// A prototype; the flag is true where `__remote` stands before it.
    Proto(Head, bool),
    /// A function and its body; the flag is true where `__critical` stands before it.
    Func(Head, bool, Items<Node>),
}

/// An enumeration constant.
#[derive(Drop)]
pub struct Enumerator {
    pub place: Place,
    pub name: Name,
    pub value: Option<Const>,
}

/// The type that a declaration begins with, without stars.
#[derive(Drop)]
pub enum Base {
    Int(Kind),
    /// A struct: the place of its name, and its name.
    Struct(Place, Name),
    Void,
    Lock,
}

/// A declarator with its base type. Its place is that of its name, or the base's where there is no name.
#[derive(Drop)]
pub struct Decl {
    pub place: Place,
    pub name: Option<Name>,
    pub base: Base,
    pub stars: u32,
    /// How many elements an array has.
    pub size: Option<Const>,
    /// The parameters of a function pointer.
    pub fun: Option<Items<Decl>>,
    pub ann: Option<AnnText>,
}

/// What stands before a function's body. Its place is that of its name.
#[derive(Drop)]
pub struct Head {
    pub place: Place,
    pub name: Name,
    pub base: Base,
    pub stars: u32,
    pub params: Items<Decl>,
    /// The annotation of the result.
    pub ann: Option<AnnText>,
}

/// An annotation as it is written.
#[derive(Drop)]
pub enum AnnText {
    Array(Const),
    Sentinel(Place, Name),
    NullTerm,
    Opaque,
}

/// A constant: a number, with whether a `-` stands before it, or a name.
#[derive(Drop)]
pub enum Const {
    Number(Place, bool, u64, Kind),
    Name(Place, Name),
}

/// An initialiser of a global (C99 6.7.8).
#[cycle(init)]
#[derive(Drop)]
pub enum Init {
    Const(Const),
    Null(Place),
    /// `&` and a name.
    Address(Place, Name),
    Text(Place, Name),
    List(Place, Items<Elem>),
}

/// An element of a list in braces, perhaps with the field that it is for.
#[cycle(init)]
#[derive(Drop)]
pub struct Elem {
    pub field: Option<FieldName>,
    pub init: Init,
}

/// A field's name after a `.`, and its place.
#[derive(Drop)]
pub struct FieldName {
    pub place: Place,
    pub name: Name,
}

/// A statement. Its place is that of its first token.
#[cycle(node)]
#[derive(Drop)]
pub struct Node {
    pub place: Place,
    pub what: NodeWhat,
}

/// What a statement is. Each body is a `Block`.
#[cycle(node)]
#[derive(Drop)]
pub enum NodeWhat {
    Empty,
    Block(Items<Node>),
    /// A declaration of one local, perhaps with its initialiser.
    Local(Decl, Option<Form>),
    /// An assignment: the operator's place and its punctuation, the left side and the right one.
    Assign(Place, Name, Form, Form),
    /// A call, or a `++` or `--` form.
    Plain(Form),
    If(Form, Boxed<Node>, Option<Boxed<Node>>),
    While(Form, Boxed<Node>),
    /// The init, which is a simple statement or the declarators of a declaration, the test, the step and the body.
    For(Items<Node>, Option<Form>, Option<Boxed<Node>>, Boxed<Node>),
    Do(Boxed<Node>, Form),
    Switch(Form, Items<Clause>),
    Return(Option<Form>),
    Break,
    Continue,
}

/// A part of a `switch`: its labels, and what follows them.
#[cycle(node)]
#[derive(Drop)]
pub struct Clause {
    pub labels: Items<Label>,
    pub body: Items<Node>,
}

/// A label and the place of its word; one without a constant is `default`.
#[derive(Drop)]
pub struct Label {
    pub place: Place,
    pub value: Option<Const>,
}

/// An expression. The place of an operator form is its operator's, that of any other form its first token's.
#[cycle(form)]
#[derive(Drop)]
pub struct Form {
    pub place: Place,
    pub what: FormWhat,
}

/// What an expression is. Operators are named by their punctuation.
#[cycle(form)]
#[derive(Drop)]
pub enum FormWhat {
    Number(u64, Kind),
    Null,
    Name(Name),
    Prefix(Name, Boxed<Form>),
    /// `x++` and `x--`.
    Post(Name, Boxed<Form>),
    /// A cast to a base type with so many stars.
    Cast(Base, u32, Boxed<Form>),
    Binary(Name, Boxed<Form>, Boxed<Form>),
    /// `c ? a : b`.
    Choice(Boxed<Form>, Boxed<Form>, Boxed<Form>),
    Subscript(Boxed<Form>, Boxed<Form>),
    /// A member; the flag is true for `->`. The place and the name are the member's.
    Member(Boxed<Form>, bool, Place, Name),
    Call(Boxed<Form>, Items<Form>),
    /// A text. It stands as a right side or an argument alone.
    Text(Name),
    /// A type as an argument.
    Base(Base, u32),
}
