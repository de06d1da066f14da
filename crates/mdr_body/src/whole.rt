// A function's body (C99 6.9.1).

ghost use Rattle.std.specs.Prelude.{◌≡◌, IfOk, List};
ghost use Rattle.mdr_rich.specs.declared.code.Stmt.{Stmt};
ghost use Rattle.mdr_core.specs.declared.program.Local.{Local};
ghost use Rattle.mdr_faults.specs.Faults.{Checked, told, both};
ghost use Rattle.mdr_operand.specs.Written.{lines_of};
ghost use Rattle.mdr_body.specs.Uses.{first_use};
ghost use Rattle.mdr_body.specs.Bodies.{declared_locals, frame_of, body_of, body_by, body_rule};
ghost use Rattle.mdr_body.specs.Pieces.{given_setting, body_in};

use crate::here::{DeclaredLocal, Frame, Here, Setting};
use crate::locals::{first_here, parameter_objects, struct_locks};
use crate::statement::{lines, no_jumps};
use crate::typing::Typing;
use crate::uses::first_use;
use mdr_core::{Items, Local, OutOfMemory, Place};
use mdr_faults::{Fault, Scope, both, extended};
use mdr_headings::{Bodies, Body, head_result};
use mdr_rich::Stmt;
use mdr_syntax::{Head, Node};
use std::alloc::{AllocError, Global};

/// What is the same in a whole body.
#[tactic(auto, unfolding(crate::specs::Bodies::frame_of))]
pub fn frame_of(alloc: Global, scope: &Scope, h: &Head) -> Result<Frame, AllocError>
    ensures { IfOk result (λ f. f ≡ frame_of scope.now h.now) }
{
    let result = head_result(alloc, scope, h)?;
    Ok(Frame {
        locks: struct_locks(alloc, scope.structs.as_slice())?,
        result,
    })
}

/// The locals, or what is wrong with the first wrong one.
#[tactic(auto, using(mdr_faults::proofs::Gathered::followed_none), unfolding(crate::specs::Bodies::declared_locals))]
pub fn declared_locals(
    alloc: Global,
    declared: Items<DeclaredLocal>,
) -> Result<Result<Items<Local>, Fault>, AllocError>
    ensures { IfOk result (λ r. r ≡ told (declared_locals declared)) }
{
    let mut all = Ok(Items::new(alloc));
    for d in declared.into_vec() {
        all = extended(all, d.means)?;
    }
    Ok(all)
}

pub fn body_of(
    objects: Items<bool>,
    locals: Result<Items<Local>, Fault>,
    statements: Result<Items<Stmt>, Fault>,
) -> Result<Body, Fault>
    ensures { (c : Checked (List Local)) (d : Checked (List Stmt)) → locals ≡ told c → statements ≡ told d → result ≡ told (both c d (body_of objects)) }
{
    match both(locals, statements) {
        Ok((locals, statements)) => Ok(Body {
            objects,
            locals,
            statements,
        }),
        Err(fault) => Err(fault),
    }
}

fn body_by<R: Typing>(
    alloc: Global,
    setting: &Setting<R>,
    here: Here,
    objects: Items<bool>,
    nodes: &[Node],
) -> Result<Result<Body, Fault>, OutOfMemory>
    ensures { IfOk result (λ r. r ≡ told (body_by (given_setting R.rules setting.now) here objects (lines_of nodes.now))) }
{
    let mut here = here;
    let made = lines(alloc, setting, no_jumps(), &mut here, nodes)?;
    let locals = declared_locals(alloc, here.locals)?;
    Ok(body_of(objects, locals, made))
}

/// What a function's body comes to in a frame.
fn body_in<R: Typing>(
    alloc: Global,
    rules: &R,
    scope: &Scope,
    frame: &Frame,
    h: &Head,
    nodes: &[Node],
) -> Result<Result<Body, Fault>, OutOfMemory>
    ensures { IfOk result (λ r. r ≡ told (body_in (R.rules rules.now) scope.now frame.now h.now nodes.now)) }
{
    let objects = parameter_objects(alloc, nodes, h.params.as_slice())?;
    let here = first_here(alloc, scope, nodes, h.params.as_slice())?;
    let setting = Setting {
        rules,
        scope,
        frame,
    };
    body_by(alloc, &setting, here, objects, nodes)
}

/// What a function's body comes to. The scope is that behind the function's name.
#[tactic(auto, unfolding(crate::specs::Bodies::body_rule))]
pub fn body_rule<R: Typing>(
    alloc: Global,
    rules: &R,
    scope: &Scope,
    h: &Head,
    nodes: &[Node],
) -> Result<Result<Body, Fault>, OutOfMemory>
    ensures { IfOk result (λ r. r ≡ told (body_rule (R.rules rules.now) scope.now h.now nodes.now)) }
{
    let frame = frame_of(alloc, scope, h)?;
    let body = body_in(alloc, rules, scope, &frame, h, nodes);
    drop(frame);
    body
}

/// The rule of bodies, over rules of expressions, assignments and calls.
pub struct Rule<R> {
    pub typing: R,
}

impl<R: Typing> Bodies for Rule<R> {
    ghost rule = { λ self. body_rule (R.rules self.typing) };

    ghost used = { λ self. first_use };

    fn body(
        &self,
        alloc: Global,
        scope: &Scope,
        h: &Head,
        nodes: &[Node],
    ) -> Result<Result<Body, Fault>, OutOfMemory> {
        body_rule(alloc, &self.typing, scope, h, nodes)
    }

    fn first_use(&self, h: &Head, nodes: &[Node], name: &[u8]) -> Option<Place> {
        first_use(h, nodes, name)
    }
}
