// What is known in front of a statement.

use mdr_core::{Boxed, Items, Kind, Local, Place, Ty};
use mdr_faults::{Fault, Scope};
use mdr_operand::LocalName;
use mdr_syntax::{Form, Node};

/// A local's declaration: what it comes to, or what is wrong with it.
#[derive(Drop)]
pub struct DeclaredLocal {
    pub means: Result<Local, Fault>,
}

/// What is known in front of a statement of a function.
#[derive(Drop)]
pub struct Here {
    /// The parameters and the locals that are in scope, the innermost last.
    pub names: Items<LocalName>,
    /// The first slot of the block: its own names have this one or later ones.
    pub first: u32,
    /// All locals so far.
    pub locals: Items<DeclaredLocal>,
    /// The slot of the next local.
    pub slot: u32,
    /// The number of the next statement.
    pub number: u32,
}

/// What is the same in a whole body: which structs hold a lock, and what the function gives.
#[derive(Drop)]
pub struct Frame {
    pub locks: Items<bool>,
    pub result: Result<Ty, Fault>,
}

/// What is the same wherever one stands in a body: the rules of what stands in statements, the names of the file, and
/// what the whole body shares.
#[derive_where(Clone, Copy)]
pub struct Setting<'a, R> {
    pub rules: &'a R,
    pub scope: &'a Scope,
    pub frame: &'a Frame,
}

/// The names that are known at a place: those of the file, and the parameters and locals of the function.
#[derive(Clone, Copy)]
pub struct Known<'a> {
    pub scope: &'a Scope,
    pub locals: &'a [LocalName],
}

/// An expression of a statement, and the place of the statement, at which is told what doesn't suit.
#[derive(Clone, Copy)]
pub struct Placed<'a> {
    pub place: Place,
    pub form: &'a Form,
}

/// An assignment, and the place of its operator (C99 6.5.16).
#[derive(Clone, Copy)]
pub struct Assignment<'a> {
    pub at: Place,
    pub operator: &'a [u8],
    pub left: &'a Form,
    pub right: &'a Form,
}

/// What an initialiser is for: where it is declared, its slot, and whether its address is taken (C99 6.7.8).
#[derive(Clone, Copy)]
pub struct Target {
    pub place: Place,
    pub slot: u32,
    pub is_taken: bool,
}

/// What stands in the brackets of a `for` (C99 6.8.5.3).
#[derive(Clone, Copy)]
pub struct ForParts<'a> {
    pub init: &'a [Node],
    pub test: &'a Option<Form>,
    pub step: &'a Option<Boxed<Node>>,
}

/// What a `break` leaves where it stands (C99 6.8.6.3).
#[derive(Clone, Copy)]
pub enum Breaks {
    /// The loop around it, if there is one.
    Loop,
    /// The clause of a `switch` that it ends.
    Clause,
    /// It stands elsewhere in a clause, where it may not.
    Nothing,
}

/// Which jumps may stand in a place (C99 6.8.6.2, 6.8.6.3).
#[derive(Clone, Copy)]
pub struct Jumps {
    /// A loop is around it.
    pub in_loop: bool,
    pub breaks: Breaks,
}

/// How a statement stands where it does.
#[derive(Clone, Copy)]
pub struct Standing {
    /// Which jumps may stand in it.
    pub jumps: Jumps,
    /// It is a part of another statement, and not one of a list.
    pub is_part: bool,
    /// The address of what it declares is taken behind it.
    pub is_taken: bool,
}

/// What a `switch` tests: its place, and the kind of its value.
#[derive(Clone, Copy)]
pub struct Tested {
    pub place: Place,
    pub kind: Kind,
}

/// How a clause stands in its `switch`: what that tests, which jumps may stand in the clause, and whether it is the last.
#[derive(Clone, Copy)]
pub struct ClauseStanding {
    pub tested: Tested,
    pub jumps: Jumps,
    pub is_last: bool,
}
