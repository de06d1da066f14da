// Statements, made of their parts.

ghost use Rattle.std.specs.Prelude.{◌≡◌, IfOk, IfErr, true, [], ◌∷◌, option_map};
ghost use Rattle.mdr_syntax.specs.declared.tree.NodeWhat as node_is;
ghost use Rattle.mdr_grammar.specs.Statements.{node_at, opened_by, if_at, while_at, for_at, in_block as block_of_one};
ghost use Rattle.mdr_simple.specs.Behind.{ended_of, other_of};
ghost use Rattle.mdr_reader.specs.declared.failure.Failure.TheVariants.{Memory};

use crate::locals::one_of;
use crate::parts::{Branch, LoopHead};
use mdr_core::{Boxed, Items, Place};
use mdr_grammar::parts::Ended;
use mdr_reader::failure::Failure;
use mdr_reader::look::Reader;
use mdr_syntax::{Clause, Decl, Form, Node, NodeWhat};

/// A form that may be there, out of its box.
fn unboxed(form: Option<Boxed<Form>>) -> Option<Form>
    ensures { result ≡ form }
{
    match form {
        Some(form) => Some(form.into_inner()),
        None => None,
    }
}

/// A local, and what it is set to.
pub fn local_node(place: Place, decl: Decl, right: Option<Boxed<Form>>) -> Node
    ensures { result ≡ node_at place (node_is.Local decl right) }
{
    Node {
        place,
        what: NodeWhat::Local(decl, unboxed(right)),
    }
}

/// `;` alone.
pub fn empty_statement(place: Place) -> Ended
    ensures { result ≡ record { node = node_at place node_is.Empty; closed = true } }
{
    Ended {
        node: Node {
            place,
            what: NodeWhat::Empty,
        },
        closed: true,
    }
}

/// `break`.
pub fn break_node(place: Place) -> Node
    ensures { result ≡ node_at place node_is.Break }
{
    Node {
        place,
        what: NodeWhat::Break,
    }
}

/// `continue`.
pub fn continue_node(place: Place) -> Node
    ensures { result ≡ node_at place node_is.Continue }
{
    Node {
        place,
        what: NodeWhat::Continue,
    }
}

/// `return`, perhaps with a value.
pub fn return_node(place: Place, value: Option<Boxed<Form>>) -> Node
    ensures { result ≡ node_at place (node_is.Return value) }
{
    Node {
        place,
        what: NodeWhat::Return(unboxed(value)),
    }
}

/// A block.
pub fn block_node(place: Place, nodes: Items<Node>) -> Node
    ensures { result ≡ node_at place (node_is.Block nodes) }
{
    Node {
        place,
        what: NodeWhat::Block(nodes),
    }
}

/// A body that isn't a block is a block of one.
pub fn in_block(reader: Reader, place: Place, statement: Ended) -> Result<Ended, Failure>
    ensures value { IfOk result (λ s. s ≡ block_of_one place statement) }
    ensures memory { IfErr result (λ e. e ≡ Memory) }
{
    let nodes = one_of(reader, statement.node)?;
    Ok(Ended {
        node: block_node(place, nodes),
        closed: statement.closed,
    })
}

/// A statement as a part of another.
pub fn branch(reader: Reader, statement: Ended) -> Result<Branch, Failure>
    ensures value { IfOk result (λ b. ended_of b ≡ statement) }
    ensures memory { IfErr result (λ e. e ≡ Memory) }
{
    Ok(Branch {
        node: Boxed::new(reader.alloc, statement.node)?,
        closed: statement.closed,
    })
}

/// A statement that may be there as a part of another.
pub fn boxed_option(reader: Reader, node: Option<Node>) -> Result<Option<Boxed<Node>>, Failure>
    ensures value { IfOk result (λ o. o ≡ node) }
    ensures memory { IfErr result (λ e. e ≡ Memory) }
{
    match node {
        Some(node) => Ok(Some(Boxed::new(reader.alloc, node)?)),
        None => Ok(None),
    }
}

/// What a `for` begins with, if it is there, as a list.
pub fn opened(reader: Reader, init: Option<Items<Node>>) -> Items<Node>
    ensures { result ≡ opened_by init }
{
    match init {
        Some(nodes) => nodes,
        None => Items::new(reader.alloc),
    }
}

/// An `if` without `else`: an `else` behind it would have been its own.
fn if_without(place: Place, test: Boxed<Form>, first: Branch) -> Ended
    ensures { result ≡ if_at place test (ended_of first) (other_of None) }
{
    Ended {
        node: Node {
            place,
            what: NodeWhat::If(test.into_inner(), first.node, None),
        },
        closed: false,
    }
}

/// An `if` with `else`.
fn if_with(place: Place, test: Boxed<Form>, first: Branch, other: Branch) -> Ended
    ensures { result ≡ if_at place test (ended_of first) (other_of (Some other)) }
{
    Ended {
        node: Node {
            place,
            what: NodeWhat::If(test.into_inner(), first.node, Some(other.node)),
        },
        closed: other.closed,
    }
}

/// An `if` with its branches.
pub fn if_statement(place: Place, test: Boxed<Form>, first: Branch, other: Option<Branch>) -> Ended
    ensures { result ≡ if_at place test (ended_of first) (other_of other) }
{
    match other {
        Some(other) => if_with(place, test, first, other),
        None => if_without(place, test, first),
    }
}

/// A `while` with its body.
pub fn while_statement(place: Place, test: Boxed<Form>, body: Branch) -> Ended
    ensures { result ≡ while_at place test (ended_of body) }
{
    Ended {
        node: Node {
            place,
            what: NodeWhat::While(test.into_inner(), body.node),
        },
        closed: body.closed,
    }
}

/// A `for` with its body.
pub fn for_statement(place: Place, head: LoopHead, body: Branch) -> Ended
    ensures { result ≡ for_at place head.init head.test head.step (ended_of body) }
{
    Ended {
        node: Node {
            place,
            what: NodeWhat::For(head.init, unboxed(head.test), head.step, body.node),
        },
        closed: body.closed,
    }
}

/// A `do` with its condition.
pub fn do_node(place: Place, body: Branch, test: Boxed<Form>) -> Node
    ensures { result ≡ node_at place (node_is.Do body.node test) }
{
    Node {
        place,
        what: NodeWhat::Do(body.node, test.into_inner()),
    }
}

/// A `switch` with its clauses.
pub fn switch_node(place: Place, value: Boxed<Form>, clauses: Items<Clause>) -> Node
    ensures { result ≡ node_at place (node_is.Switch value clauses) }
{
    Node {
        place,
        what: NodeWhat::Switch(value.into_inner(), clauses),
    }
}
