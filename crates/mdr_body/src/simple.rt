// Statements without parts (C99 6.7, 6.8.3, 6.8.6).

ghost use Rattle.std.specs.Prelude.{◌≡◌, ℕ, Bool, ◌∷◌, ◌++◌, [], IfOk, OnOk, Ok, length, None};
ghost use Rattle.std.specs.Option.{option_map, option_copied};
ghost use Rattle.mdr_rich.specs.declared.code.Expr.{Expr};
ghost use Rattle.mdr_rich.specs.declared.code.Step.{Step};
ghost use Rattle.mdr_core.specs.Layout.{chosen};
ghost use Rattle.mdr_faults.specs.declared.fault.FaultKind.TheVariants.{Mismatch};
ghost use Rattle.mdr_faults.specs.Faults.{Checked, Right, refuse, told, after};
ghost use Rattle.mdr_operand.specs.Written.{written_of, written_what};
ghost use Rattle.mdr_body.specs.Locals.{with_local};
ghost use Rattle.mdr_body.specs.Addresses.{line_what};
ghost use Rattle.mdr_body.specs.Simple.{IsPlain};
ghost use Rattle.mdr_body.specs.Statements.{stmt, stated, tested, condition, some, perhaps_condition, text_of};
ghost use Rattle.mdr_body.specs.Statements.{takes_text, is_single, own_place, initial_by, declared_then};
ghost use Rattle.mdr_body.specs.Statements.{local_made, jumped, bare_return, value_return, return_by, return_step};
ghost use Rattle.mdr_body.specs.Statements.{broken, simple_made, simple_behind};
ghost use Rattle.mdr_body.specs.Pieces.{given_setting, assigned_by, initial_among, initialised};

use crate::here::{Assignment, Breaks, Here, Jumps, Known, Placed, Setting, Standing, Target};
use crate::locals::{declare_local, is_own_object, local_object};
use crate::typing::Typing;
use mdr_core::{Items, Name, OutOfMemory, Place, Ty};
use mdr_faults::{Fault, Object, copied, copied_type, is_scalar, is_void, mismatch};
use mdr_headings::is_character;
use mdr_operand::{LocalName, Operand, expression_of, scalar_at};
use mdr_rich::{Expr, Lval, Step, Stmt};
use mdr_syntax::{Decl, Form, FormWhat, NodeWhat};
use std::alloc::{AllocError, Global};

/// One statement.
pub fn single(alloc: Global, number: u32, step: Step) -> Result<Items<Stmt>, AllocError>
    ensures { IfOk result (λ ss. ss ≡ stmt number step ∷ []) }
{
    let mut all = Items::new(alloc);
    all.push(Stmt { number, step })?;
    Ok(all)
}

/// One statement, where nothing is wrong in it.
pub fn stated(
    alloc: Global,
    number: u32,
    step: Result<Step, Fault>,
) -> Result<Result<Items<Stmt>, Fault>, AllocError>
    ensures { (c : Checked Step) → step ≡ told c → IfOk result (λ r. r ≡ told (stated number c)) }
{
    match step {
        Ok(step) => Ok(Ok(single(alloc, number, step)?)),
        Err(fault) => Ok(Err(fault)),
    }
}

// ---- conditions

fn tested(place: Place, x: Operand) -> Result<Expr, Fault>
    ensures { result ≡ told (tested place x) }
{
    match scalar_at(place, x) {
        Ok(v) => Ok(expression_of(v)),
        Err(fault) => Err(fault),
    }
}

/// The condition of a statement.
#[tactic(auto, unfolding(crate::specs::Statements::condition))]
pub fn condition<R: Typing>(
    alloc: Global,
    setting: &Setting<R>,
    here: &Here,
    test: Placed,
) -> Result<Result<Expr, Fault>, OutOfMemory>
    ensures { IfOk result (λ r. r ≡ told (condition (R.rules setting.now.rules.now) setting.now.scope.now here.now test.entry.place (written_of test.entry.form.now))) }
{
    let known = Known {
        scope: setting.scope,
        locals: here.names.as_slice(),
    };
    match setting.rules.typed(alloc, known, test.form)? {
        Ok(x) => Ok(tested(test.place, x)),
        Err(fault) => Ok(Err(fault)),
    }
}

fn some(e: Result<Expr, Fault>) -> Result<Option<Expr>, Fault>
    ensures { (c : Checked Expr) → e ≡ told c → result ≡ told (after c some) }
{
    match e {
        Ok(e) => Ok(Some(e)),
        Err(fault) => Err(fault),
    }
}

/// The test of the `for` at this place, which may be missing.
#[tactic(auto, unfolding(crate::specs::Statements::perhaps_condition))]
pub fn perhaps_condition<R: Typing>(
    alloc: Global,
    setting: &Setting<R>,
    here: &Here,
    place: Place,
    form: &Option<Form>,
) -> Result<Result<Option<Expr>, Fault>, OutOfMemory>
    ensures { IfOk result (λ r. r ≡ told (perhaps_condition (R.rules setting.now.rules.now) setting.now.scope.now here.now place (option_map written_of form.now))) }
{
    match form {
        None => Ok(Ok(None)),
        Some(form) => Ok(some(condition(alloc, setting, here, Placed { place, form })?)),
    }
}

// ---- declarations

fn text_at<'a>(place: Place, what: &'a FormWhat) -> Option<&'a Name>
    ensures { option_copied result ≡ text_of (written_what what.now place) }
{
    match what {
        FormWhat::Text(bytes) => Some(bytes),
        FormWhat::Name(_) => None,
        FormWhat::Number(_, _) => None,
        FormWhat::Null => None,
        FormWhat::Prefix(_, _) => None,
        FormWhat::Post(_, _) => None,
        FormWhat::Cast(_, _, _) => None,
        FormWhat::Binary(_, _, _) => None,
        FormWhat::Choice(_, _, _) => None,
        FormWhat::Subscript(_, _) => None,
        FormWhat::Member(_, _, _, _) => None,
        FormWhat::Call(_, _) => None,
        FormWhat::Base(_, _) => None,
    }
}

fn text_of<'a>(form: &'a Form) -> Option<&'a Name>
    ensures { option_copied result ≡ text_of (written_of form.now) }
{
    text_at(form.place, &form.what)
}

fn takes_text(o: &Object, bytes: usize) -> bool
    ensures { result ≡ takes_text o.now bytes }
{
    is_character(&o.ty) && o.array && bytes <= o.count as usize
}

fn is_single(o: &Object) -> bool
    ensures { result ≡ is_single o.now }
{
    is_scalar(&o.ty) && !o.array
}

fn own_place(is_object: bool, slot: u32, ty: Ty) -> Lval
    ensures { result ≡ own_place is_object slot ty }
{
    if is_object {
        Lval::Object(slot, ty)
    } else {
        Lval::Slot(slot, ty)
    }
}

fn text_step(
    alloc: Global,
    place: Place,
    slot: u32,
    bytes: &Name,
    o: &Object,
) -> Result<Result<Step, Fault>, AllocError>
    ensures { IfOk result (λ r. r ≡ told (chosen (takes_text o.now (length bytes.now)) (Right (Step.Text slot bytes.now)) (refuse place Mismatch))) }
{
    if !takes_text(o, bytes.len()) {
        return Ok(mismatch(place));
    }
    Ok(Ok(Step::Text(slot, copied(alloc, bytes.as_slice())?)))
}

fn value_step<R: Typing>(
    alloc: Global,
    rules: &R,
    known: Known,
    target: Target,
    form: &Form,
    o: &Object,
) -> Result<Result<Step, Fault>, OutOfMemory>
    ensures { IfOk result (λ r. r ≡ told (initial_by ((R.rules rules.now).stored known.entry.scope.now known.entry.locals.now) target (written_of form.now) None o.now)) }
{
    let place = target.place;
    if !is_single(o) {
        return Ok(mismatch(place));
    }
    let is_object = is_own_object(target.is_taken, o);
    let object = own_place(is_object, target.slot, copied_type(alloc, &o.ty)?);
    rules.stored(alloc, known, object, &o.ty, Placed { place, form })
}

fn initial_by<R: Typing>(
    alloc: Global,
    rules: &R,
    known: Known,
    target: Target,
    form: &Form,
    o: &Object,
) -> Result<Result<Step, Fault>, OutOfMemory>
    ensures { IfOk result (λ r. r ≡ told (initial_by ((R.rules rules.now).stored known.entry.scope.now known.entry.locals.now) target (written_of form.now) (text_of (written_of form.now)) o.now)) }
{
    match text_of(form) {
        None => value_step(alloc, rules, known, target, form, o),
        Some(bytes) => Ok(text_step(alloc, target.place, target.slot, bytes, o)?),
    }
}

/// The initialiser of a local, whose name is the last there.
fn initial_among<R: Typing>(
    alloc: Global,
    setting: &Setting<R>,
    names: &[LocalName],
    target: Target,
    d: &Decl,
    form: &Form,
) -> Result<Result<Step, Fault>, OutOfMemory>
    ensures { IfOk result (λ r. r ≡ told (initial_among (given_setting R.rules setting.now) names.now target d.now (written_of form.now))) }
{
    let scope = setting.scope;
    match local_object(alloc, scope, setting.frame.locks.as_slice(), d)? {
        Ok(o) => {
            let known = Known {
                scope,
                locals: names,
            };
            initial_by(alloc, setting.rules, known, target, form, &o)
        }
        Err(fault) => Ok(Err(fault)),
    }
}

fn with_statement(all: Items<Stmt>, number: u32, step: Step) -> Result<Items<Stmt>, AllocError>
    ensures { IfOk result (λ ss. ss ≡ all ++ stmt number step ∷ []) }
{
    let mut all = all;
    all.push(Stmt { number, step })?;
    Ok(all)
}

fn declared_then(
    declared: Items<Stmt>,
    number: u32,
    step: Result<Step, Fault>,
) -> Result<Result<Items<Stmt>, Fault>, AllocError>
    ensures { (slot : ℕ) (c : Checked Step) → declared ≡ stmt number (Step.Declare slot) ∷ [] → step ≡ told c → IfOk result (λ r. r ≡ told (after c (declared_then number slot))) }
{
    match step {
        Ok(step) => Ok(Ok(with_statement(declared, number, step)?)),
        Err(fault) => Ok(Err(fault)),
    }
}

fn initialised<R: Typing>(
    alloc: Global,
    setting: &Setting<R>,
    here: &Here,
    target: Target,
    d: &Decl,
    form: &Form,
) -> Result<Result<Items<Stmt>, Fault>, OutOfMemory>
    ensures { IfOk result (λ r. r ≡ told (initialised (given_setting R.rules setting.now) here.now target d.now (written_of form.now))) }
{
    let declared = single(alloc, here.number, Step::Declare(target.slot))?;
    let step = initial_among(alloc, setting, here.names.as_slice(), target, d, form)?;
    Ok(declared_then(declared, here.number, step)?)
}

/// A declaration of a local, and its initialiser.
#[tactic(auto, unfolding(crate::specs::Statements::local_made, crate::specs::Statements::initial_step, crate::specs::Locals::with_local))]
pub fn local_made<R: Typing>(
    alloc: Global,
    setting: &Setting<R>,
    here: &mut Here,
    is_taken: bool,
    d: &Decl,
    init: &Option<Form>,
) -> Result<Result<Items<Stmt>, Fault>, OutOfMemory>
    ensures told { IfOk result (λ r. r ≡ told (local_made (given_setting R.rules setting.now) here.old is_taken d.now (option_map written_of init.now))) }
    ensures grown { OnOk result (here.new ≡ with_local setting.now.scope.now setting.now.frame.now.locks is_taken d.now here.old) }
{
    let slot = here.slot;
    declare_local(
        alloc,
        setting.scope,
        setting.frame.locks.as_slice(),
        is_taken,
        d,
        here,
    )?;
    match init {
        None => Ok(Ok(single(alloc, here.number, Step::Declare(slot))?)),
        Some(form) => {
            let target = Target {
                place: d.place,
                slot,
                is_taken,
            };
            initialised(alloc, setting, here, target, d, form)
        }
    }
}

// ---- jumps

fn loop_left(place: Place, in_loop: bool) -> Result<Step, Fault>
    ensures { result ≡ told (jumped place in_loop Step.Break) }
{
    if in_loop {
        return Ok(Step::Break);
    }
    mismatch(place)
}

/// A `continue` at this place.
pub fn continued(place: Place, in_loop: bool) -> Result<Step, Fault>
    ensures { result ≡ told (jumped place in_loop Step.Continue) }
{
    if in_loop {
        return Ok(Step::Continue);
    }
    mismatch(place)
}

fn bare_return(place: Place, ty: &Ty) -> Result<Step, Fault>
    ensures { result ≡ told (bare_return place ty.now) }
{
    if is_void(ty) {
        return Ok(Step::Return(None));
    }
    mismatch(place)
}

fn value_return<R: Typing>(
    alloc: Global,
    rules: &R,
    known: Known,
    value: Placed,
    ty: &Ty,
) -> Result<Result<Step, Fault>, OutOfMemory>
    ensures { IfOk result (λ r. r ≡ told (value_return ((R.rules rules.now).returned known.entry.scope.now known.entry.locals.now) value.entry.place (written_of value.entry.form.now) ty.now)) }
{
    if is_void(ty) {
        return Ok(mismatch(value.place));
    }
    rules.returned(alloc, known, ty, value)
}

fn return_of<R: Typing>(
    alloc: Global,
    rules: &R,
    known: Known,
    place: Place,
    form: &Option<Form>,
    ty: &Ty,
) -> Result<Result<Step, Fault>, OutOfMemory>
    ensures { IfOk result (λ r. r ≡ told (return_by ((R.rules rules.now).returned known.entry.scope.now known.entry.locals.now) place (option_map written_of form.now) ty.now)) }
{
    match form {
        None => Ok(bare_return(place, ty)),
        Some(form) => value_return(alloc, rules, known, Placed { place, form }, ty),
    }
}

#[tactic(auto, unfolding(crate::specs::Statements::return_step))]
fn return_step<R: Typing>(
    alloc: Global,
    setting: &Setting<R>,
    here: &Here,
    place: Place,
    form: &Option<Form>,
) -> Result<Result<Step, Fault>, OutOfMemory>
    ensures { IfOk result (λ r. r ≡ told (return_step (given_setting R.rules setting.now) here.now place (option_map written_of form.now))) }
{
    let known = Known {
        scope: setting.scope,
        locals: here.names.as_slice(),
    };
    match &setting.frame.result {
        Ok(ty) => return_of(alloc, setting.rules, known, place, form, ty),
        Err(fault) => Ok(Err(*fault)),
    }
}

/// A `return` at this place.
pub fn returned<R: Typing>(
    alloc: Global,
    setting: &Setting<R>,
    here: &Here,
    place: Place,
    form: &Option<Form>,
) -> Result<Result<Items<Stmt>, Fault>, OutOfMemory>
    ensures { IfOk result (λ r. r ≡ told (stated here.now.number (return_step (given_setting R.rules setting.now) here.now place (option_map written_of form.now)))) }
{
    let step = return_step(alloc, setting, here, place, form)?;
    Ok(stated(alloc, here.number, step)?)
}

// ---- assignments and calls

/// A statement that is an assignment.
pub fn assigned<R: Typing>(
    alloc: Global,
    setting: &Setting<R>,
    here: &Here,
    assignment: Assignment,
) -> Result<Result<Items<Stmt>, Fault>, OutOfMemory>
    ensures { IfOk result (λ r. r ≡ told (stated here.now.number (assigned_by (R.rules setting.now.rules.now) setting.now.scope.now here.now.names assignment.entry))) }
{
    let known = Known {
        scope: setting.scope,
        locals: here.names.as_slice(),
    };
    let step = setting.rules.assigned(alloc, known, assignment)?;
    Ok(stated(alloc, here.number, step)?)
}

/// A statement that is a call.
pub fn called<R: Typing>(
    alloc: Global,
    setting: &Setting<R>,
    here: &Here,
    form: &Form,
) -> Result<Result<Items<Stmt>, Fault>, OutOfMemory>
    ensures { IfOk result (λ r. r ≡ told (stated here.now.number ((R.rules setting.now.rules.now).called setting.now.scope.now here.now.names (written_of form.now)))) }
{
    let known = Known {
        scope: setting.scope,
        locals: here.names.as_slice(),
    };
    let step = setting.rules.called(alloc, known, form)?;
    Ok(stated(alloc, here.number, step)?)
}

// ---- statements without parts

fn empty(alloc: Global, number: u32) -> Result<Result<Items<Stmt>, Fault>, OutOfMemory>
    ensures { IfOk result (λ r. r ≡ Ok (stmt number Step.Empty ∷ [])) }
{
    Ok(Ok(single(alloc, number, Step::Empty)?))
}

fn jump(
    alloc: Global,
    number: u32,
    step: Result<Step, Fault>,
) -> Result<Result<Items<Stmt>, Fault>, OutOfMemory>
    ensures { (c : Checked Step) → step ≡ told c → IfOk result (λ r. r ≡ told (stated number c)) }
{
    Ok(stated(alloc, number, step)?)
}

/// A `break` at this place.
#[tactic(auto, unfolding(crate::specs::Statements::broken))]
pub fn broken(
    alloc: Global,
    number: u32,
    place: Place,
    jumps: Jumps,
) -> Result<Result<Items<Stmt>, Fault>, OutOfMemory>
    ensures { IfOk result (λ r. r ≡ told (broken number place jumps)) }
{
    match jumps.breaks {
        Breaks::Loop => jump(alloc, number, loop_left(place, jumps.in_loop)),
        Breaks::Clause => Ok(Ok(Items::new(alloc))),
        Breaks::Nothing => Ok(mismatch(place)),
    }
}

/// A statement that declares nothing.
fn plain_made<R: Typing>(
    alloc: Global,
    setting: &Setting<R>,
    jumps: Jumps,
    here: &Here,
    place: Place,
    what: &NodeWhat,
) -> Result<Result<Items<Stmt>, Fault>, OutOfMemory>
    ensures { (t : Bool) → IsPlain what.now place → IfOk result (λ r. r ≡ told (simple_made (given_setting R.rules setting.now) jumps here.now t (line_what what.now place))) }
{
    match what {
        NodeWhat::Empty => empty(alloc, here.number),
        NodeWhat::Assign(at, operator, a, b) => {
            let assignment = Assignment {
                at: *at,
                operator: operator.as_slice(),
                left: a,
                right: b,
            };
            assigned(alloc, setting, here, assignment)
        }
        NodeWhat::Plain(form) => called(alloc, setting, here, form),
        NodeWhat::Return(form) => returned(alloc, setting, here, place, form),
        NodeWhat::Break => broken(alloc, here.number, place, jumps),
        NodeWhat::Continue => jump(alloc, here.number, continued(place, jumps.in_loop)),
        NodeWhat::Local(_, _) => Ok(mismatch(place)),
        NodeWhat::Block(_) => Ok(mismatch(place)),
        NodeWhat::If(_, _, _) => Ok(mismatch(place)),
        NodeWhat::While(_, _) => Ok(mismatch(place)),
        NodeWhat::For(_, _, _, _) => Ok(mismatch(place)),
        NodeWhat::Do(_, _) => Ok(mismatch(place)),
        NodeWhat::Switch(_, _) => Ok(mismatch(place)),
    }
}

/// A statement without parts; what it declares is known behind it.
pub fn simple_made<R: Typing>(
    alloc: Global,
    setting: &Setting<R>,
    standing: Standing,
    here: &mut Here,
    place: Place,
    what: &NodeWhat,
) -> Result<Result<Items<Stmt>, Fault>, OutOfMemory>
    ensures told { IfOk result (λ r. r ≡ told (simple_made (given_setting R.rules setting.now) standing.jumps here.old standing.is_taken (line_what what.now place))) }
    ensures grown { OnOk result (here.new ≡ simple_behind setting.now.scope.now setting.now.frame.now here.old standing.is_taken (line_what what.now place)) }
{
    match what {
        NodeWhat::Local(d, init) => { local_made(alloc, setting, here, standing.is_taken, d, init) }
        _ => plain_made(alloc, setting, standing.jumps, here, place, what),
    }
}
