// Where a body first uses a name for what the file declares (C99 6.2.1).

ghost use Rattle.std.specs.Prelude.{◌≡◌, map, Some, None};
ghost use Rattle.std.specs.Option.{option_map};
ghost use Rattle.mdr_core.specs.Layout.{chosen};
ghost use Rattle.mdr_faults.specs.Scopes.{or_else};
ghost use Rattle.mdr_operand.specs.Written.{written_of, written_what, written_list, line_of, lines_of, clause_of, clauses_of, perhaps};
ghost use Rattle.mdr_body.specs.Addresses.{is_declared_by, line_what};
ghost use Rattle.mdr_body.specs.Uses.{use_in, use_among, perhaps_use, use_at, use_along, use_in_clauses, is_parameter, first_use};

use crate::address::{hides, is_declared_by};
use mdr_core::{Boxed, Place};
use mdr_syntax::{Clause, Decl, Form, FormWhat, Head, Node, NodeWhat};

/// The first of two places, of which the one stands in front of the other.
fn first_place(one: Option<Place>, other: Option<Place>) -> Option<Place>
    ensures { result ≡ or_else one other }
{
    match one {
        Some(place) => Some(place),
        None => other,
    }
}

fn place_if(test: bool, place: Place) -> Option<Place>
    ensures { result ≡ chosen test (Some place) None }
{
    if test { Some(place) } else { None }
}

/// Where an expression first uses the name.
#[cycle(use_in)]
fn use_in(form: &Form, name: &[u8]) -> Option<Place>
    ensures { result ≡ use_in name.now (written_of form.now) }
{
    use_in_what(form.place, &form.what, name)
}

#[cycle(use_in)]
fn use_in_what(place: Place, what: &FormWhat, name: &[u8]) -> Option<Place>
    ensures { result ≡ use_in name.now (written_what what.now place) }
{
    match what {
        FormWhat::Number(_, _) => None,
        FormWhat::Null => None,
        FormWhat::Name(other) => place_if(other.as_slice() == name, place),
        FormWhat::Prefix(_, a) => use_in(a.get(), name),
        FormWhat::Post(_, a) => use_in(a.get(), name),
        FormWhat::Cast(_, _, a) => use_in(a.get(), name),
        FormWhat::Binary(_, a, b) => first_place(use_in(a.get(), name), use_in(b.get(), name)),
        FormWhat::Choice(c, a, b) => first_place(
            use_in(c.get(), name),
            first_place(use_in(a.get(), name), use_in(b.get(), name)),
        ),
        FormWhat::Subscript(a, i) => first_place(use_in(a.get(), name), use_in(i.get(), name)),
        FormWhat::Member(a, _, _, _) => use_in(a.get(), name),
        FormWhat::Call(f, args) => {
            first_place(use_in(f.get(), name), use_among(args.as_slice(), name))
        }
        FormWhat::Text(_) => None,
        FormWhat::Base(_, _) => None,
    }
}

#[cycle(use_in)]
fn use_among(forms: &[Form], name: &[u8]) -> Option<Place>
    ensures { result ≡ use_among name.now (written_list (map written_of forms.now)) }
{
    for form in forms {
        if let Some(place) = use_in(form, name) {
            return Some(place);
        }
    }
    None
}

fn perhaps_use(form: &Option<Form>, name: &[u8]) -> Option<Place>
    ensures { result ≡ perhaps_use name.now (option_map written_of form.now) }
{
    match form {
        None => None,
        Some(form) => use_in(form, name),
    }
}

// ---- statements

fn local_use(d: &Decl, init: &Option<Form>, name: &[u8]) -> Option<Place>
    ensures { result ≡ chosen (is_declared_by name.now d.now) None (perhaps_use name.now (option_map written_of init.now)) }
{
    if is_declared_by(d, name) {
        None
    } else {
        perhaps_use(init, name)
    }
}

/// Where a statement first uses the name for what was declared before it.
#[cycle(use_at)]
fn use_at(n: &Node, name: &[u8]) -> Option<Place>
    ensures { result ≡ use_at name.now (line_of n.now) }
{
    use_at_what(n.place, &n.what, name)
}

#[cycle(use_at)]
fn use_at_what(place: Place, what: &NodeWhat, name: &[u8]) -> Option<Place>
    ensures { result ≡ use_at name.now (line_what what.now place) }
{
    match what {
        NodeWhat::Empty => None,
        NodeWhat::Block(body) => use_along(body.as_slice(), name, None),
        NodeWhat::Local(d, init) => local_use(d, init, name),
        NodeWhat::Assign(_, _, a, b) => first_place(use_in(a, name), use_in(b, name)),
        NodeWhat::Plain(form) => use_in(form, name),
        NodeWhat::If(e, one, other) => first_place(
            use_in(e, name),
            first_place(use_at(one.get(), name), perhaps_use_at(other, name)),
        ),
        NodeWhat::While(e, body) => first_place(use_in(e, name), use_at(body.get(), name)),
        NodeWhat::For(init, test, step, body) => {
            let rest = first_place(perhaps_use_at(step, name), use_at(body.get(), name));
            use_along(
                init.as_slice(),
                name,
                first_place(perhaps_use(test, name), rest),
            )
        }
        NodeWhat::Do(body, e) => first_place(use_at(body.get(), name), use_in(e, name)),
        NodeWhat::Switch(e, clauses) => {
            first_place(use_in(e, name), use_in_clauses(clauses.as_slice(), name))
        }
        NodeWhat::Return(e) => perhaps_use(e, name),
        NodeWhat::Break => None,
        NodeWhat::Continue => None,
    }
}

#[cycle(use_at)]
fn perhaps_use_at(n: &Option<Boxed<Node>>, name: &[u8]) -> Option<Place>
    ensures { result ≡ use_along name.now (perhaps (option_map line_of n.now)) None }
{
    match n {
        None => None,
        Some(n) => use_at(n.get(), name),
    }
}

/// Where some statements first use the name for what was declared before them, or else what is behind them does, as far
/// as they don't hide it.
#[cycle(use_at)]
fn use_along(nodes: &[Node], name: &[u8], behind: Option<Place>) -> Option<Place>
    ensures { result ≡ use_along name.now (lines_of nodes.now) behind }
{
    for n in nodes {
        if let Some(place) = use_at(n, name) {
            return Some(place);
        }
        if hides(n, name) {
            return None;
        }
    }
    behind
}

#[cycle(use_at)]
fn use_in_clause(clause: &Clause, name: &[u8]) -> Option<Place>
    ensures { result ≡ use_along name.now (clause_of clause.now).1 None }
{
    use_along(clause.body.as_slice(), name, None)
}

#[cycle(use_at)]
fn use_in_clauses(clauses: &[Clause], name: &[u8]) -> Option<Place>
    ensures { result ≡ use_in_clauses name.now (clauses_of clauses.now) }
{
    for clause in clauses {
        if let Some(place) = use_in_clause(clause, name) {
            return Some(place);
        }
    }
    None
}

fn is_parameter(ds: &[Decl], name: &[u8]) -> bool
    ensures { result ≡ is_parameter ds.now name.now }
{
    for d in ds {
        if is_declared_by(d, name) {
            return true;
        }
    }
    false
}

/// Where a body first uses a name for what the file declares by it.
#[tactic(auto, unfolding(crate::specs::Uses::first_use))]
pub fn first_use(h: &Head, nodes: &[Node], name: &[u8]) -> Option<Place>
    ensures { result ≡ first_use h.now nodes.now name.now }
{
    if is_parameter(h.params.as_slice(), name) {
        None
    } else {
        use_along(nodes, name, None)
    }
}
