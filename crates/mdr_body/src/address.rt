// Where a block takes the address of something that was declared before it (C99 6.2.1, 6.5.3.2).

ghost use Rattle.std.specs.Prelude.{◌≡◌, ◌&&◌, ◌||◌, not, false, map, Some};
ghost use Rattle.std.specs.Option.{option_map};
ghost use Rattle.mdr_operand.specs.Written.{written_of, written_what, written_list, line_of, lines_of, clause_of, clauses_of, perhaps};
ghost use Rattle.mdr_body.specs.Addresses.{is_address, is_name, takes_in, takes_among, perhaps_takes, is_declared_by, hides, takes_at, takes_along, clauses_take, line_what};

use mdr_core::{Boxed, Place};
use mdr_syntax::{Clause, Decl, Form, FormWhat, Node, NodeWhat};

fn is_address(operator: &[u8]) -> bool
    ensures { result ≡ is_address operator.now }
{
    operator == b"&".as_slice()
}

fn is_name_at(place: Place, what: &FormWhat, name: &[u8]) -> bool
    ensures { result ≡ is_name name.now (written_what what.now place) }
{
    match what {
        FormWhat::Name(other) => other.as_slice() == name,
        FormWhat::Number(_, _) => false,
        FormWhat::Null => false,
        FormWhat::Prefix(_, _) => false,
        FormWhat::Post(_, _) => false,
        FormWhat::Cast(_, _, _) => false,
        FormWhat::Binary(_, _, _) => false,
        FormWhat::Choice(_, _, _) => false,
        FormWhat::Subscript(_, _) => false,
        FormWhat::Member(_, _, _, _) => false,
        FormWhat::Call(_, _) => false,
        FormWhat::Text(_) => false,
        FormWhat::Base(_, _) => false,
    }
}

fn is_name(form: &Form, name: &[u8]) -> bool
    ensures { result ≡ is_name name.now (written_of form.now) }
{
    is_name_at(form.place, &form.what, name)
}

/// `&` in front of the name.
fn is_addressed(operator: &[u8], operand: &Form, name: &[u8]) -> bool
    ensures { result ≡ (is_address operator.now && is_name name.now (written_of operand.now)) }
{
    is_address(operator) && is_name(operand, name)
}

/// Whether an expression takes the name's address.
#[cycle(takes_in)]
pub fn takes_in(form: &Form, name: &[u8]) -> bool
    ensures { result ≡ takes_in name.now (written_of form.now) }
{
    takes_in_what(form.place, &form.what, name)
}

#[cycle(takes_in)]
fn takes_in_what(place: Place, what: &FormWhat, name: &[u8]) -> bool
    ensures { result ≡ takes_in name.now (written_what what.now place) }
{
    match what {
        FormWhat::Number(_, _) => false,
        FormWhat::Null => false,
        FormWhat::Name(_) => false,
        FormWhat::Prefix(operator, a) => {
            is_addressed(operator.as_slice(), a.get(), name) || takes_in(a.get(), name)
        }
        FormWhat::Post(_, a) => takes_in(a.get(), name),
        FormWhat::Cast(_, _, a) => takes_in(a.get(), name),
        FormWhat::Binary(_, a, b) => takes_in(a.get(), name) || takes_in(b.get(), name),
        FormWhat::Choice(c, a, b) => {
            takes_in(c.get(), name) || takes_in(a.get(), name) || takes_in(b.get(), name)
        }
        FormWhat::Subscript(a, i) => takes_in(a.get(), name) || takes_in(i.get(), name),
        FormWhat::Member(a, _, _, _) => takes_in(a.get(), name),
        FormWhat::Call(f, args) => takes_in(f.get(), name) || takes_among(args.as_slice(), name),
        FormWhat::Text(_) => false,
        FormWhat::Base(_, _) => false,
    }
}

#[cycle(takes_in)]
fn takes_among(forms: &[Form], name: &[u8]) -> bool
    ensures { result ≡ takes_among name.now (written_list (map written_of forms.now)) }
{
    for form in forms {
        if takes_in(form, name) {
            return true;
        }
    }
    false
}

pub fn perhaps_takes(form: &Option<Form>, name: &[u8]) -> bool
    ensures { result ≡ perhaps_takes name.now (option_map written_of form.now) }
{
    match form {
        None => false,
        Some(form) => takes_in(form, name),
    }
}

// ---- statements

pub fn is_declared_by(d: &Decl, name: &[u8]) -> bool
    ensures { result ≡ is_declared_by name.now d.now }
{
    match &d.name {
        None => false,
        Some(other) => other.as_slice() == name,
    }
}

fn hides_at(place: Place, what: &NodeWhat, name: &[u8]) -> bool
    ensures { result ≡ hides name.now (line_what what.now place) }
{
    match what {
        NodeWhat::Local(d, _) => is_declared_by(d, name),
        _ => false,
    }
}

pub fn hides(n: &Node, name: &[u8]) -> bool
    ensures { result ≡ hides name.now (line_of n.now) }
{
    hides_at(n.place, &n.what, name)
}

fn local_takes(d: &Decl, init: &Option<Form>, name: &[u8]) -> bool
    ensures { result ≡ (not (is_declared_by name.now d.now) && perhaps_takes name.now (option_map written_of init.now)) }
{
    !is_declared_by(d, name) && perhaps_takes(init, name)
}

/// Whether a statement takes the address of what was declared before it.
#[cycle(takes_at)]
pub fn takes_at(n: &Node, name: &[u8]) -> bool
    ensures { result ≡ takes_at name.now (line_of n.now) }
{
    takes_at_what(n.place, &n.what, name)
}

#[cycle(takes_at)]
fn takes_at_what(place: Place, what: &NodeWhat, name: &[u8]) -> bool
    ensures { result ≡ takes_at name.now (line_what what.now place) }
{
    match what {
        NodeWhat::Empty => false,
        NodeWhat::Block(body) => takes_along(body.as_slice(), name, false),
        NodeWhat::Local(d, init) => local_takes(d, init, name),
        NodeWhat::Assign(_, _, a, b) => takes_in(a, name) || takes_in(b, name),
        NodeWhat::Plain(form) => takes_in(form, name),
        NodeWhat::If(e, one, other) => {
            takes_in(e, name) || takes_at(one.get(), name) || perhaps_takes_at(other, name)
        }
        NodeWhat::While(e, body) => takes_in(e, name) || takes_at(body.get(), name),
        NodeWhat::For(init, test, step, body) => {
            let behind = perhaps_takes(test, name)
                || perhaps_takes_at(step, name)
                || takes_at(body.get(), name);
            takes_along(init.as_slice(), name, behind)
        }
        NodeWhat::Do(body, e) => takes_at(body.get(), name) || takes_in(e, name),
        NodeWhat::Switch(e, clauses) => takes_in(e, name) || clauses_take(clauses.as_slice(), name),
        NodeWhat::Return(e) => perhaps_takes(e, name),
        NodeWhat::Break => false,
        NodeWhat::Continue => false,
    }
}

#[cycle(takes_at)]
pub fn perhaps_takes_at(n: &Option<Boxed<Node>>, name: &[u8]) -> bool
    ensures { result ≡ takes_along name.now (perhaps (option_map line_of n.now)) false }
{
    match n {
        None => false,
        Some(n) => takes_at(n.get(), name),
    }
}

/// Whether some statements take the address of what was declared before them, or else what is behind them does, as far
/// as they don't hide the name.
#[cycle(takes_at)]
pub fn takes_along(nodes: &[Node], name: &[u8], behind: bool) -> bool
    ensures { result ≡ takes_along name.now (lines_of nodes.now) behind }
{
    for n in nodes {
        if takes_at(n, name) {
            return true;
        }
        if hides(n, name) {
            return false;
        }
    }
    behind
}

#[cycle(takes_at)]
fn clause_takes(clause: &Clause, name: &[u8]) -> bool
    ensures { result ≡ takes_along name.now (clause_of clause.now).1 false }
{
    takes_along(clause.body.as_slice(), name, false)
}

#[cycle(takes_at)]
fn clauses_take(clauses: &[Clause], name: &[u8]) -> bool
    ensures { result ≡ clauses_take name.now (clauses_of clauses.now) }
{
    for clause in clauses {
        if clause_takes(clause, name) {
            return true;
        }
    }
    false
}
