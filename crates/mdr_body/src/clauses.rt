// The clauses of a `switch`, and the statement of them (C99 6.8.4.2).

ghost use Rattle.std.specs.Prelude.{◌≡◌, ◌∷◌, ◌++◌, [], true, false, IfOk, List};
ghost use Rattle.mdr_rich.specs.declared.code.Step.{Step};
ghost use Rattle.mdr_rich.specs.declared.code.Stmt.{Stmt};
ghost use Rattle.mdr_core.specs.Conversions.{promoted};
ghost use Rattle.mdr_faults.specs.Faults.{Checked, told, both};
ghost use Rattle.mdr_operand.specs.declared.operand.Integer.{Integer};
ghost use Rattle.mdr_operand.specs.Forms.{at_kind};
ghost use Rattle.mdr_operand.specs.Written.{line_of, lines_of, written_of};
ghost use Rattle.mdr_body.specs.declared.clauses.MadeClause.{MadeClause};
ghost use Rattle.mdr_body.specs.declared.labels.CaseLabel.{CaseLabel};
ghost use Rattle.mdr_body.specs.Addresses.{line_what};
ghost use Rattle.mdr_body.specs.Labels.{cases, has_default};
ghost use Rattle.mdr_body.specs.Clauses.{switch_value, label_kind, clause_place, leaves, last_leaves, ends, made_clause, tried_clause, with_clause, sorted, no_clauses};
ghost use Rattle.mdr_body.specs.Statements.{stmt, switch_by, switch_of, tested_value};

use crate::here::{Here, Known, Placed, Setting};
use crate::labels::{CaseLabel, cases, has_default};
use crate::release::replaced;
use crate::simple::single;
use crate::typing::Typing;
use mdr_arith::promote;
use mdr_core::{Items, Kind, OutOfMemory, Place, Value};
use mdr_faults::{Fault, both};
use mdr_operand::{Integer, Operand, at_kind, integer_at, out_of_memory};
use mdr_rich::{Clause, Step, Stmt};
use mdr_syntax::{Label, Node, NodeWhat};
use std::alloc::{AllocError, Global};

/// A clause: whether `default` is among its labels, the numbers of the others, and its statements.
#[derive(Drop)]
pub struct MadeClause {
    pub is_default: bool,
    pub labels: Items<Value>,
    pub body: Items<Stmt>,
}

/// The clauses whose labels are tried, and the statements behind `default`.
#[derive(Drop)]
pub struct SortedClauses {
    pub tried: Items<Clause>,
    pub fallback: Items<Stmt>,
}

// ---- the value that is tested

fn promoted_value(alloc: Global, n: Integer) -> Result<Integer, AllocError>
    ensures { IfOk result (λ m. m ≡ record { value = at_kind (promoted n.kind) n; kind = promoted n.kind }) }
{
    let kind = promote(n.kind);
    Ok(Integer {
        value: at_kind(alloc, kind, n)?,
        kind,
    })
}

#[tactic(auto, unfolding(crate::specs::Clauses::switch_value))]
fn switch_value(
    alloc: Global,
    place: Place,
    x: Operand,
) -> Result<Result<Integer, Fault>, AllocError>
    ensures { IfOk result (λ r. r ≡ told (switch_value place x)) }
{
    match integer_at(place, x) {
        Ok(n) => Ok(Ok(promoted_value(alloc, n)?)),
        Err(fault) => Ok(Err(fault)),
    }
}

/// The value that a `switch` tests.
#[tactic(auto, unfolding(crate::specs::Statements::tested_value))]
pub fn tested_value<R: Typing>(
    alloc: Global,
    setting: &Setting<R>,
    here: &Here,
    test: Placed,
) -> Result<Result<Integer, Fault>, OutOfMemory>
    ensures { IfOk result (λ r. r ≡ told (tested_value (R.rules setting.now.rules.now) setting.now.scope.now here.now test.entry.place (written_of test.entry.form.now))) }
{
    let known = Known {
        scope: setting.scope,
        locals: here.names.as_slice(),
    };
    match setting.rules.typed(alloc, known, test.form)? {
        Ok(x) => Ok(switch_value(alloc, test.place, x)?),
        Err(fault) => Ok(Err(fault)),
    }
}

/// The kind of the labels.
pub fn label_kind(value: &Result<Integer, Fault>) -> Kind
    ensures { (c : Checked Integer) → value.now ≡ told c → result ≡ label_kind c }
{
    match value {
        Ok(n) => n.kind,
        Err(_) => Kind::S32,
    }
}

// ---- where a clause ends

/// The place of a clause of the `switch` at this place.
pub fn clause_place(at: Place, labels: &[Label]) -> Place
    ensures { result ≡ clause_place at labels.now }
{
    match labels.first() {
        None => at,
        Some(l) => l.place,
    }
}

fn leaves_at(place: Place, what: &NodeWhat) -> bool
    ensures { result ≡ leaves (line_what what.now place) }
{
    match what {
        NodeWhat::Return(_) => true,
        NodeWhat::Break => true,
        NodeWhat::Continue => true,
        NodeWhat::Empty => false,
        NodeWhat::Block(_) => false,
        NodeWhat::Local(_, _) => false,
        NodeWhat::Assign(_, _, _, _) => false,
        NodeWhat::Plain(_) => false,
        NodeWhat::If(_, _, _) => false,
        NodeWhat::While(_, _) => false,
        NodeWhat::For(_, _, _, _) => false,
        NodeWhat::Do(_, _) => false,
        NodeWhat::Switch(_, _) => false,
    }
}

fn leaves(n: &Node) -> bool
    ensures { result ≡ leaves (line_of n.now) }
{
    leaves_at(n.place, &n.what)
}

fn last_leaves(nodes: &[Node]) -> bool
    ensures { result ≡ last_leaves false (lines_of nodes.now) }
{
    let mut left = false;
    for n in nodes {
        left = leaves(n);
    }
    left
}

/// Whether a clause of these statements doesn't go on into the one behind it.
pub fn ends(nodes: &[Node], is_last: bool) -> bool
    ensures { result ≡ ends (lines_of nodes.now) is_last }
{
    is_last || last_leaves(nodes)
}

// ---- the code of a clause

fn one_clause(alloc: Global, c: MadeClause) -> Result<Items<MadeClause>, AllocError>
    ensures { IfOk result (λ cs. cs ≡ c ∷ []) }
{
    let mut all = Items::new(alloc);
    all.push(c)?;
    Ok(all)
}

fn clause_with(
    alloc: Global,
    kind: Kind,
    labels: &[CaseLabel],
    body: Items<Stmt>,
) -> Result<Items<MadeClause>, AllocError>
    ensures { IfOk result (λ cs. cs ≡ record { is_default = has_default labels.now; labels = cases kind labels.now; body = body } ∷ []) }
{
    let is_default = has_default(labels);
    match cases(alloc, kind, labels) {
        Ok(labels) => one_clause(
            alloc,
            MadeClause {
                is_default,
                labels,
                body,
            },
        ),
        Err(error) => out_of_memory(error, body),
    }
}

/// A clause of its labels and its statements.
pub fn made_clause(
    alloc: Global,
    kind: Kind,
    labels: Result<Items<CaseLabel>, Fault>,
    body: Result<Items<Stmt>, Fault>,
) -> Result<Result<Items<MadeClause>, Fault>, AllocError>
    ensures { (c : Checked (List CaseLabel)) (d : Checked (List Stmt)) → labels ≡ told c → body ≡ told d → IfOk result (λ r. r ≡ told (both c d (made_clause kind))) }
{
    match both(labels, body) {
        Ok((labels, body)) => Ok(Ok(clause_with(alloc, kind, labels.as_slice(), body)?)),
        Err(fault) => Ok(Err(fault)),
    }
}

// ---- the statement of all clauses

fn tried_clauses(
    tried: Items<Clause>,
    labels: Items<Value>,
    body: Items<Stmt>,
) -> Result<Items<Clause>, AllocError>
    ensures { IfOk result (λ cs. cs ≡ tried ++ tried_clause (record { is_default = false; labels = labels; body = body }) ∷ []) }
{
    let mut all = tried;
    all.push(Clause { labels, body })?;
    Ok(all)
}

fn with_tried(
    s: SortedClauses,
    labels: Items<Value>,
    body: Items<Stmt>,
) -> Result<SortedClauses, AllocError>
    ensures { IfOk result (λ r. r ≡ with_clause s (record { is_default = false; labels = labels; body = body })) }
{
    match tried_clauses(s.tried, labels, body) {
        Ok(tried) => Ok(SortedClauses {
            tried,
            fallback: s.fallback,
        }),
        Err(error) => out_of_memory(error, s.fallback),
    }
}

fn with_fallback(s: SortedClauses, labels: Items<Value>, body: Items<Stmt>) -> SortedClauses
    ensures { result ≡ with_clause s (record { is_default = true; labels = labels; body = body }) }
{
    SortedClauses {
        tried: s.tried,
        fallback: replaced((s.fallback, labels), body),
    }
}

fn with_clause(s: SortedClauses, c: MadeClause) -> Result<SortedClauses, AllocError>
    ensures { IfOk result (λ r. r ≡ with_clause s c) }
{
    if c.is_default {
        Ok(with_fallback(s, c.labels, c.body))
    } else {
        with_tried(s, c.labels, c.body)
    }
}

/// The clause with `default` apart from those whose labels are tried.
#[tactic(auto, unfolding(crate::specs::Clauses::sorted))]
fn sorted(alloc: Global, clauses: Items<MadeClause>) -> Result<SortedClauses, AllocError>
    ensures { IfOk result (λ s. s ≡ sorted no_clauses clauses) }
{
    let mut all = SortedClauses {
        tried: Items::new(alloc),
        fallback: Items::new(alloc),
    };
    for c in clauses.into_vec() {
        all = with_clause(all, c)?;
    }
    Ok(all)
}

fn switch_by(
    alloc: Global,
    number: u32,
    value: Integer,
    clauses: Items<MadeClause>,
) -> Result<Items<Stmt>, AllocError>
    ensures { IfOk result (λ ss. ss ≡ stmt number (Step.Switch value.value (sorted no_clauses clauses).tried (sorted no_clauses clauses).fallback) ∷ []) }
{
    match sorted(alloc, clauses) {
        Ok(all) => single(
            alloc,
            number,
            Step::Switch(value.value, all.tried, all.fallback),
        ),
        Err(error) => out_of_memory(error, value),
    }
}

/// A `switch` of its value and its clauses.
pub fn switch_of(
    alloc: Global,
    number: u32,
    value: Result<Integer, Fault>,
    clauses: Result<Items<MadeClause>, Fault>,
) -> Result<Result<Items<Stmt>, Fault>, AllocError>
    ensures { (c : Checked Integer) (d : Checked (List MadeClause)) → value ≡ told c → clauses ≡ told d → IfOk result (λ r. r ≡ told (both c d (switch_of number))) }
{
    match both(value, clauses) {
        Ok((value, clauses)) => Ok(Ok(switch_by(alloc, number, value, clauses)?)),
        Err(fault) => Ok(Err(fault)),
    }
}
