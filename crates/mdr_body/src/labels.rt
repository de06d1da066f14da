// The labels of a `switch` (C99 6.8.1, 6.8.4.2).

ghost use Rattle.std.specs.Prelude.{◌≡◌, ◌++◌, [], IfOk, OnOk};
ghost use Rattle.mdr_faults.specs.Faults.{told};
ghost use Rattle.mdr_body.specs.Labels.{case_constant, label_by, is_same_label, is_among, label_made, with_label, labels_made, labels_behind, has_default, with_case, cases};

use crate::locals::is_no_constant;
use mdr_arith::conv;
use mdr_core::{Items, Kind, Place, Value};
use mdr_faults::{Constant, Fault, FaultKind, Scope, constant, demanded, extended, mismatch};
use mdr_operand::LocalName;
use mdr_syntax::{Const, Label};
use std::alloc::{AllocError, Global};

/// What a label says: a number, of the kind of the value that is tested, or `default`.
#[derive(Clone, Copy)]
pub enum CaseLabel {
    Number(i128),
    Default,
}

// ---- one label

fn case_constant(
    scope: &Scope,
    names: &[LocalName],
    place: Place,
    c: &Const,
) -> Result<Constant, Fault>
    ensures { result ≡ told (case_constant scope.now names.now place c.now) }
{
    if is_no_constant(names, c) {
        return mismatch(place);
    }
    constant(scope, place, c)
}

fn label_by(
    scope: &Scope,
    names: &[LocalName],
    kind: Kind,
    place: Place,
    value: &Option<Const>,
) -> Result<CaseLabel, Fault>
    ensures { result ≡ told (label_by scope.now names.now kind place value.now) }
{
    match value {
        None => Ok(CaseLabel::Default),
        Some(c) => match case_constant(scope, names, place, c) {
            Ok(c) => Ok(CaseLabel::Number(conv(kind, c.number))),
            Err(fault) => Err(fault),
        },
    }
}

fn is_same_label(a: CaseLabel, b: CaseLabel) -> bool
    ensures { result ≡ is_same_label a b }
{
    match a {
        CaseLabel::Number(m) => match b {
            CaseLabel::Number(n) => m == n,
            CaseLabel::Default => false,
        },
        CaseLabel::Default => match b {
            CaseLabel::Number(_) => false,
            CaseLabel::Default => true,
        },
    }
}

fn is_among(labels: &[CaseLabel], l: CaseLabel) -> bool
    ensures { result ≡ is_among labels.now l }
{
    for m in labels {
        if is_same_label(*m, l) {
            return true;
        }
    }
    false
}

/// A label behind those that were seen before it.
#[tactic(auto, unfolding(crate::specs::Labels::label_made))]
fn label_made(
    scope: &Scope,
    names: &[LocalName],
    kind: Kind,
    seen: &[CaseLabel],
    l: &Label,
) -> Result<CaseLabel, Fault>
    ensures { result ≡ told (label_made scope.now names.now kind seen.now l.now) }
{
    match label_by(scope, names, kind, l.place, &l.value) {
        Ok(m) => demanded(l.place, FaultKind::Redefined, !is_among(seen, m), Ok(m)),
        Err(fault) => Err(fault),
    }
}

// ---- the labels of a clause

fn note(seen: &mut Items<CaseLabel>, l: Result<CaseLabel, Fault>) -> Result<(), AllocError>
    ensures { OnOk result (seen.new ≡ with_label seen.old l) }
{
    match l {
        Ok(l) => {
            seen.push(l)?;
            Ok(())
        }
        Err(_) => Ok(()),
    }
}

/// The labels of a clause. They are among those that were seen, behind it.
#[tactic(auto, using(mdr_faults::proofs::Gathered::followed_none), unfolding(crate::specs::Labels::labels_made, crate::specs::Labels::labels_behind))]
pub fn labels_made(
    alloc: Global,
    scope: &Scope,
    names: &[LocalName],
    kind: Kind,
    seen: &mut Items<CaseLabel>,
    labels: &[Label],
) -> Result<Result<Items<CaseLabel>, Fault>, AllocError>
    ensures told { IfOk result (λ r. r ≡ told (labels_made scope.now names.now kind seen.old labels.now)) }
    ensures grown { OnOk result (seen.new ≡ labels_behind scope.now names.now kind seen.old labels.now) }
{
    let mut all = Ok(Items::new(alloc));
    for l in labels {
        let made = label_made(scope, names, kind, seen.as_slice(), l);
        note(seen, made)?;
        all = extended(all, made)?;
    }
    Ok(all)
}

// ---- what they say

/// Whether `default` is among them.
pub fn has_default(labels: &[CaseLabel]) -> bool
    ensures { result ≡ has_default labels.now }
{
    is_among(labels, CaseLabel::Default)
}

fn with_case(values: Items<Value>, kind: Kind, l: CaseLabel) -> Result<Items<Value>, AllocError>
    ensures { IfOk result (λ vs. vs ≡ values ++ with_case kind l []) }
{
    let mut values = values;
    match l {
        CaseLabel::Number(n) => {
            values.push(Value::Int(kind, n))?;
            Ok(values)
        }
        CaseLabel::Default => Ok(values),
    }
}

/// Their numbers.
pub fn cases(alloc: Global, kind: Kind, labels: &[CaseLabel]) -> Result<Items<Value>, AllocError>
    ensures { IfOk result (λ vs. vs ≡ cases kind labels.now) }
{
    let mut values = Items::new(alloc);
    for l in labels {
        values = with_case(values, kind, *l)?;
    }
    Ok(values)
}
