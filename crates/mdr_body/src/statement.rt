// Statements with parts, and blocks (C99 6.8.2, 6.8.4, 6.8.5).

ghost use Rattle.std.specs.Prelude.{◌≡◌, ◌||◌, ◌+◌, ◌<◌, IfOk, OnOk, List, [], drop, length, false};
ghost use Rattle.std.specs.Option.{option_map};
ghost use Rattle.mdr_rich.specs.declared.code.Expr.{Expr};
ghost use Rattle.mdr_rich.specs.declared.code.Stmt.{Stmt};
ghost use Rattle.mdr_faults.specs.Faults.{Checked, told, both};
ghost use Rattle.mdr_operand.specs.declared.operand.Integer.{Integer};
ghost use Rattle.mdr_operand.specs.Written.{written_of, line_of, lines_of, clause_of, clauses_of};
ghost use Rattle.mdr_body.specs.Locals.{is_taken, numbered};
ghost use Rattle.mdr_body.specs.Addresses.{perhaps_takes, takes_at, takes_along, line_what};
ghost use Rattle.mdr_body.specs.Labels.{labels_behind};
ghost use Rattle.mdr_body.specs.Clauses.{is_last};
ghost use Rattle.mdr_body.specs.Statements.{no_jumps, loop_jumps, clause_jumps, inner_jumps, jumps_before, condition};
ghost use Rattle.mdr_body.specs.Statements.{pair, taken_behind, head_taken, steps_made, steps_behind, ForHead, as_part};
ghost use Rattle.mdr_body.specs.Statements.{if_of, while_of, for_of, do_of, tested_value, tested_at, simple_made};
ghost use Rattle.mdr_body.specs.Statements.{simple_behind, line_behind, perhaps_behind, lines_behind, line_made};
ghost use Rattle.mdr_body.specs.Statements.{perhaps_made, lines_made, clauses_behind, clauses_made, in_part, in_list};
ghost use Rattle.mdr_body.specs.Pieces.{given_setting, tail_in, init_made, init_behind, init_and_test, head_made, head_behind, half_made};
ghost use Rattle.mdr_body.specs.Pieces.{half_behind, part_of, while_line, for_line, do_line, switch_line, loop_made};
ghost use Rattle.mdr_body.specs.Pieces.{statement_made, statement_behind, clause_made, ended_made, block_made};
ghost use Rattle.mdr_body.specs.Pieces.{block_behind};

use crate::address::{perhaps_takes, perhaps_takes_at, takes_along, takes_at};
use crate::clauses::{
    MadeClause, clause_place, ends, label_kind, made_clause, switch_of, tested_value,
};
use crate::here::{
    Breaks, ClauseStanding, ForParts, Here, Jumps, Placed, Setting, Standing, Tested,
};
use crate::labels::{CaseLabel, labels_made};
use crate::locals::{count, leave, takes};
use crate::release::left_over;
use crate::simple::{condition, perhaps_condition, simple_made, single};
use crate::typing::Typing;
use mdr_core::{Boxed, Items, Name, OutOfMemory, Place};
use mdr_faults::{Fault, FaultKind, both, demanded, followed};
use mdr_operand::Integer;
use mdr_rich::{Expr, Step, Stmt};
use mdr_syntax::{Clause, Form, Node, NodeWhat};
use std::alloc::{AllocError, Global};

// ---- whose addresses are taken

fn is_taken_at(place: Place, what: &NodeWhat, rest: &[Node]) -> bool
    ensures { result ≡ is_taken (line_what what.now place) (lines_of rest.now) }
{
    match what {
        NodeWhat::Local(d, init) => takes(&d.name, init, rest),
        _ => false,
    }
}

fn is_taken(n: &Node, rest: &[Node]) -> bool
    ensures { result ≡ is_taken (line_of n.now) (lines_of rest.now) }
{
    is_taken_at(n.place, &n.what, rest)
}

/// The same of the statement of number i among those of its list.
pub fn taken_at(n: &Node, nodes: &[Node], i: usize) -> bool
    requires { i < length nodes.now }
    ensures { result ≡ is_taken (line_of n.now) (lines_of (drop (i + 1) nodes.now)) }
{
    is_taken(n, &nodes[i + 1..])
}

fn tail_takes(parts: ForParts, body: &Node, name: &[u8]) -> bool
    ensures { result ≡ (perhaps_takes name.now (option_map written_of parts.entry.test.now) || (takes_along name.now (part_of parts.entry.step.now) false || takes_at name.now (line_of body.now))) }
{
    perhaps_takes(parts.test, name) || perhaps_takes_at(parts.step, name) || takes_at(body, name)
}

fn taken_behind(
    name: &Option<Name>,
    init: &Option<Form>,
    rest: &[Node],
    parts: ForParts,
    body: &Node,
) -> bool
    ensures { result ≡ taken_behind name.now (option_map written_of init.now) (lines_of rest.now) (tail_in parts.entry body.now) }
{
    match name {
        None => false,
        Some(name) => {
            let behind = tail_takes(parts, body, name.as_slice());
            perhaps_takes(init, name.as_slice()) || takes_along(rest, name.as_slice(), behind)
        }
    }
}

fn head_taken_at(place: Place, what: &NodeWhat, rest: &[Node], parts: ForParts, body: &Node) -> bool
    ensures { result ≡ head_taken (line_what what.now place) (lines_of rest.now) (tail_in parts.entry body.now) }
{
    match what {
        NodeWhat::Local(d, init) => taken_behind(&d.name, init, rest, parts, body),
        _ => false,
    }
}

fn head_taken(n: &Node, rest: &[Node], parts: ForParts, body: &Node) -> bool
    ensures { result ≡ head_taken (line_of n.now) (lines_of rest.now) (tail_in parts.entry body.now) }
{
    head_taken_at(n.place, &n.what, rest, parts, body)
}

/// Whether the address of what a statement in the init of a `for` declares is taken behind it, in the head or the body.
pub fn head_taken_in(n: &Node, i: usize, parts: ForParts, body: &Node) -> bool
    requires { i < length parts.init.now }
    ensures { result ≡ head_taken (line_of n.now) (lines_of (drop (i + 1) parts.entry.init.now)) (tail_in parts.entry body.now) }
{
    head_taken(n, &parts.init[i + 1..], parts, body)
}

// ---- parts and their numbers

pub fn paired<A: Drop, B: Drop>(a: Result<A, Fault>, b: Result<B, Fault>) -> Result<(A, B), Fault>
    ensures { (c : Checked A) (d : Checked B) → a ≡ told c → b ≡ told d → result ≡ told (both c d pair) }
{
    both(a, b)
}

/// A statement in the brackets of a `for`.
fn simple_node<R: Typing>(
    alloc: Global,
    setting: &Setting<R>,
    is_taken: bool,
    here: &mut Here,
    n: &Node,
) -> Result<Result<Items<Stmt>, Fault>, OutOfMemory>
    ensures told { IfOk result (λ r. r ≡ told (simple_made (given_setting R.rules setting.now) no_jumps here.old is_taken (line_of n.now))) }
    ensures grown { OnOk result (here.new ≡ simple_behind setting.now.scope.now setting.now.frame.now here.old is_taken (line_of n.now)) }
{
    let standing = Standing {
        jumps: no_jumps(),
        is_part: false,
        is_taken,
    };
    simple_made(alloc, setting, standing, here, n.place, &n.what)
}

/// What was made, behind a statement's number.
fn counted<A: Drop>(here: &mut Here, made: A) -> Result<A, OutOfMemory>
    ensures made { IfOk result (λ r. r ≡ made) }
    ensures grown { OnOk result (here.new ≡ numbered here.old) }
{
    count(here)?;
    Ok(made)
}

/// A statement without parts, with its number.
pub fn simple_counted<R: Typing>(
    alloc: Global,
    setting: &Setting<R>,
    standing: Standing,
    here: &mut Here,
    place: Place,
    what: &NodeWhat,
) -> Result<Result<Items<Stmt>, Fault>, OutOfMemory>
    ensures told { IfOk result (λ r. r ≡ told (simple_made (given_setting R.rules setting.now) standing.jumps here.old standing.is_taken (line_what what.now place))) }
    ensures grown { OnOk result (here.new ≡ numbered (simple_behind setting.now.scope.now setting.now.frame.now here.old standing.is_taken (line_what what.now place))) }
{
    let made = simple_made(alloc, setting, standing, here, place, what)?;
    count(here)?;
    Ok(made)
}

/// The condition of a statement, with the statement's number.
pub fn condition_counted<R: Typing>(
    alloc: Global,
    setting: &Setting<R>,
    here: &mut Here,
    test: Placed,
) -> Result<Result<Expr, Fault>, OutOfMemory>
    ensures told { IfOk result (λ r. r ≡ told (condition (R.rules setting.now.rules.now) setting.now.scope.now here.old test.entry.place (written_of test.entry.form.now))) }
    ensures grown { OnOk result (here.new ≡ numbered here.old) }
{
    let made = condition(alloc, setting, here, test)?;
    counted(here, made)
}

fn tested_counted<R: Typing>(
    alloc: Global,
    setting: &Setting<R>,
    here: &mut Here,
    test: Placed,
) -> Result<Result<Integer, Fault>, OutOfMemory>
    ensures told { IfOk result (λ r. r ≡ told (tested_value (R.rules setting.now.rules.now) setting.now.scope.now here.old test.entry.place (written_of test.entry.form.now))) }
    ensures grown { OnOk result (here.new ≡ numbered here.old) }
{
    let made = tested_value(alloc, setting, here, test)?;
    counted(here, made)
}

fn tested_at(place: Place, value: &Result<Integer, Fault>) -> Tested
    ensures { (c : Checked Integer) → value.now ≡ told c → result ≡ tested_at place c }
{
    Tested {
        place,
        kind: label_kind(value),
    }
}

// ---- which jumps may stand in parts

/// Outside loops and switches.
pub fn no_jumps() -> Jumps
    ensures { result ≡ no_jumps }
{
    Jumps {
        in_loop: false,
        breaks: Breaks::Loop,
    }
}

fn loop_jumps() -> Jumps
    ensures { result ≡ loop_jumps }
{
    Jumps {
        in_loop: true,
        breaks: Breaks::Loop,
    }
}

fn clause_jumps(jumps: Jumps) -> Jumps
    ensures { result ≡ clause_jumps jumps }
{
    Jumps {
        in_loop: jumps.in_loop,
        breaks: Breaks::Clause,
    }
}

fn inner_jumps(jumps: Jumps) -> Jumps
    ensures { result ≡ inner_jumps jumps }
{
    let breaks = match jumps.breaks {
        Breaks::Loop => Breaks::Loop,
        Breaks::Clause => Breaks::Nothing,
        Breaks::Nothing => Breaks::Nothing,
    };
    Jumps {
        in_loop: jumps.in_loop,
        breaks,
    }
}

fn jumps_before(jumps: Jumps, rest: &[Node]) -> Jumps
    ensures { result ≡ jumps_before jumps (lines_of rest.now) }
{
    if rest.is_empty() {
        jumps
    } else {
        inner_jumps(jumps)
    }
}

/// How a part of another statement stands.
fn in_part(jumps: Jumps) -> Standing
    ensures { result ≡ in_part jumps }
{
    Standing {
        jumps,
        is_part: true,
        is_taken: false,
    }
}

fn is_last(behind: &[Clause]) -> bool
    ensures { result ≡ is_last (clauses_of behind.now) }
{
    behind.is_empty()
}

/// Whether the clause of number i is the last of its `switch`.
fn is_last_at(clauses: &[Clause], i: usize) -> bool
    requires { i < length clauses.now }
    ensures { result ≡ is_last (clauses_of (drop (i + 1) clauses.now)) }
{
    is_last(&clauses[i + 1..])
}

/// Which may stand in the statement of number i among those of its list.
fn jumps_at(jumps: Jumps, nodes: &[Node], i: usize) -> Jumps
    requires { i < length nodes.now }
    ensures { result ≡ jumps_before jumps (lines_of (drop (i + 1) nodes.now)) }
{
    jumps_before(jumps, &nodes[i + 1..])
}

/// How the statement of number i stands among those of its list.
fn in_list(jumps: Jumps, n: &Node, nodes: &[Node], i: usize) -> Standing
    requires { i < length nodes.now }
    ensures { result ≡ in_list jumps (line_of n.now) (lines_of (drop (i + 1) nodes.now)) }
{
    Standing {
        jumps: jumps_at(jumps, nodes, i),
        is_part: false,
        is_taken: taken_at(n, nodes, i),
    }
}

// ---- the head of a `for`

#[tactic(auto, using(mdr_faults::proofs::Gathered::followed_none), unfolding(crate::specs::Statements::heads_made, crate::specs::Statements::heads_behind))]
fn heads<R: Typing>(
    alloc: Global,
    setting: &Setting<R>,
    here: &mut Here,
    parts: ForParts,
    body: &Node,
) -> Result<Result<Items<Stmt>, Fault>, OutOfMemory>
    ensures told { IfOk result (λ r. r ≡ told (init_made (given_setting R.rules setting.now) here.old parts.entry body.now)) }
    ensures grown { OnOk result (here.new ≡ init_behind (given_setting R.rules setting.now) here.old parts.entry body.now) }
{
    let init = parts.init;
    let mut all = Ok(Items::new(alloc));
    for i in 0..init.len() {
        let n = &init[i];
        let made = simple_node(alloc, setting, head_taken_in(n, i, parts, body), here, n)?;
        all = followed(all, made)?;
    }
    Ok(all)
}

/// The init and the test of the `for` at this place.
fn init_and_test<R: Typing>(
    alloc: Global,
    setting: &Setting<R>,
    here: &mut Here,
    place: Place,
    parts: ForParts,
    body: &Node,
) -> Result<Result<(Items<Stmt>, Option<Expr>), Fault>, OutOfMemory>
    ensures told { IfOk result (λ r. r ≡ told (init_and_test (given_setting R.rules setting.now) here.old place parts.entry body.now)) }
    ensures grown { OnOk result (here.new ≡ init_behind (given_setting R.rules setting.now) here.old parts.entry body.now) }
{
    let first = heads(alloc, setting, here, parts, body)?;
    let second = perhaps_condition(alloc, setting, here, place, parts.test)?;
    Ok(paired(first, second))
}

fn last_part<R: Typing>(
    alloc: Global,
    setting: &Setting<R>,
    here: &mut Here,
    step: &Option<Boxed<Node>>,
) -> Result<Result<Items<Stmt>, Fault>, OutOfMemory>
    ensures told { IfOk result (λ r. r ≡ told (steps_made (given_setting R.rules setting.now) here.old (part_of step.now))) }
    ensures grown { OnOk result (here.new ≡ steps_behind setting.now.scope.now setting.now.frame.now here.old (part_of step.now)) }
{
    match step {
        None => Ok(Ok(Items::new(alloc))),
        Some(n) => simple_node(alloc, setting, false, here, n.get()),
    }
}

fn last_counted<R: Typing>(
    alloc: Global,
    setting: &Setting<R>,
    here: &mut Here,
    step: &Option<Boxed<Node>>,
) -> Result<Result<Items<Stmt>, Fault>, OutOfMemory>
    ensures told { IfOk result (λ r. r ≡ told (steps_made (given_setting R.rules setting.now) here.old (part_of step.now))) }
    ensures grown { OnOk result (here.new ≡ numbered (steps_behind setting.now.scope.now setting.now.frame.now here.old (part_of step.now))) }
{
    let made = last_part(alloc, setting, here, step)?;
    count(here)?;
    Ok(made)
}

/// The init, the test and the step of the `for` at this place.
#[tactic(auto, unfolding(crate::specs::Statements::for_head, crate::specs::Statements::behind_head))]
pub fn for_head<R: Typing>(
    alloc: Global,
    setting: &Setting<R>,
    here: &mut Here,
    place: Place,
    parts: ForParts,
    body: &Node,
) -> Result<Result<((Items<Stmt>, Option<Expr>), Items<Stmt>), Fault>, OutOfMemory>
    ensures told { IfOk result (λ r. r ≡ told (head_made (given_setting R.rules setting.now) here.old place parts.entry body.now)) }
    ensures grown { OnOk result (here.new ≡ head_behind (given_setting R.rules setting.now) here.old parts.entry body.now) }
{
    let two = init_and_test(alloc, setting, here, place, parts, body)?;
    match last_counted(alloc, setting, here, parts.step) {
        Ok(third) => Ok(paired(two, third)),
        Err(error) => left_over(error, two),
    }
}

// ---- statements of their parts

pub fn as_part(
    alloc: Global,
    is_part: bool,
    made: Result<Items<Stmt>, Fault>,
) -> Result<Result<Items<Stmt>, Fault>, AllocError>
    ensures { (c : Checked (List Stmt)) → made ≡ told c → IfOk result (λ r. r ≡ told (as_part is_part c)) }
{
    if is_part {
        return Ok(made);
    }
    match made {
        Ok(ss) => Ok(Ok(single(alloc, 0, Step::Block(ss))?)),
        Err(fault) => Ok(Err(fault)),
    }
}

pub fn if_of(
    alloc: Global,
    number: u32,
    half: Result<(Expr, Items<Stmt>), Fault>,
    other: Result<Items<Stmt>, Fault>,
) -> Result<Result<Items<Stmt>, Fault>, AllocError>
    ensures { (c : Checked (Expr × List Stmt)) (d : Checked (List Stmt)) → half ≡ told c → other ≡ told d → IfOk result (λ r. r ≡ told (both c d (if_of number))) }
{
    match both(half, other) {
        Ok(((e, one), other)) => Ok(Ok(single(alloc, number, Step::If(e, one, other))?)),
        Err(fault) => Ok(Err(fault)),
    }
}

pub fn while_of(
    alloc: Global,
    number: u32,
    e: Result<Expr, Fault>,
    body: Result<Items<Stmt>, Fault>,
) -> Result<Result<Items<Stmt>, Fault>, AllocError>
    ensures { (c : Checked Expr) (d : Checked (List Stmt)) → e ≡ told c → body ≡ told d → IfOk result (λ r. r ≡ told (both c d (while_of number))) }
{
    match both(e, body) {
        Ok((e, body)) => Ok(Ok(single(alloc, number, Step::While(e, body))?)),
        Err(fault) => Ok(Err(fault)),
    }
}

pub fn for_of(
    alloc: Global,
    number: u32,
    head: Result<((Items<Stmt>, Option<Expr>), Items<Stmt>), Fault>,
    body: Result<Items<Stmt>, Fault>,
) -> Result<Result<Items<Stmt>, Fault>, AllocError>
    ensures { (c : Checked ForHead) (d : Checked (List Stmt)) → head ≡ told c → body ≡ told d → IfOk result (λ r. r ≡ told (both c d (for_of number))) }
{
    match both(head, body) {
        Ok((((init, test), step), body)) => {
            Ok(Ok(single(alloc, number, Step::For(init, test, step, body))?))
        }
        Err(fault) => Ok(Err(fault)),
    }
}

pub fn do_of(
    alloc: Global,
    number: u32,
    body: Result<Items<Stmt>, Fault>,
    e: Result<Expr, Fault>,
) -> Result<Result<Items<Stmt>, Fault>, AllocError>
    ensures { (c : Checked (List Stmt)) (d : Checked Expr) → body ≡ told c → e ≡ told d → IfOk result (λ r. r ≡ told (both c d (do_of number))) }
{
    match both(body, e) {
        Ok((body, e)) => Ok(Ok(single(alloc, number, Step::Do(body, e))?)),
        Err(fault) => Ok(Err(fault)),
    }
}

// ---- statements

/// A statement; what it declares and counts is known behind it.
#[cycle(line)]
fn line<R: Typing>(
    alloc: Global,
    setting: &Setting<R>,
    standing: Standing,
    here: &mut Here,
    n: &Node,
) -> Result<Result<Items<Stmt>, Fault>, OutOfMemory>
    ensures told { IfOk result (λ r. r ≡ told (line_made (given_setting R.rules setting.now) standing here.old (line_of n.now))) }
    ensures grown { OnOk result (here.new ≡ line_behind setting.now.scope.now setting.now.frame.now here.old standing.is_taken (line_of n.now)) }
{
    line_at(alloc, setting, standing, here, n.place, &n.what)
}

#[cycle(line)]
fn line_at<R: Typing>(
    alloc: Global,
    setting: &Setting<R>,
    standing: Standing,
    here: &mut Here,
    place: Place,
    what: &NodeWhat,
) -> Result<Result<Items<Stmt>, Fault>, OutOfMemory>
    ensures told { IfOk result (λ r. r ≡ told (line_made (given_setting R.rules setting.now) standing here.old (line_what what.now place))) }
    ensures grown { OnOk result (here.new ≡ line_behind setting.now.scope.now setting.now.frame.now here.old standing.is_taken (line_what what.now place)) }
{
    let jumps = standing.jumps;
    match what {
        NodeWhat::Block(body) => {
            let inner = inner_jumps(jumps);
            block(
                alloc,
                setting,
                inner,
                standing.is_part,
                here,
                body.as_slice(),
            )
        }
        NodeWhat::If(form, one, other) => {
            let n = here.number;
            let inner = inner_jumps(jumps);
            let half = if_half(
                alloc,
                setting,
                inner,
                here,
                one.get(),
                Placed { place, form },
            )?;
            match perhaps_line(alloc, setting, inner, here, other) {
                Ok(other) => Ok(if_of(alloc, n, half, other)?),
                Err(error) => left_over(error, half),
            }
        }
        NodeWhat::While(form, body) => {
            while_made(alloc, setting, here, body.get(), Placed { place, form })
        }
        NodeWhat::For(init, test, step, body) => {
            let parts = ForParts {
                init: init.as_slice(),
                test,
                step,
            };
            for_made(alloc, setting, here, place, body.get(), parts)
        }
        NodeWhat::Do(body, form) => {
            do_made(alloc, setting, here, body.get(), Placed { place, form })
        }
        NodeWhat::Switch(form, clauses) => {
            let test = Placed { place, form };
            switch_made(alloc, setting, jumps, here, clauses.as_slice(), test)
        }
        _ => simple_counted(alloc, setting, standing, here, place, what),
    }
}

/// The condition of an `if` and its first branch.
#[cycle(line)]
fn if_half<R: Typing>(
    alloc: Global,
    setting: &Setting<R>,
    jumps: Jumps,
    here: &mut Here,
    one: &Node,
    test: Placed,
) -> Result<Result<(Expr, Items<Stmt>), Fault>, OutOfMemory>
    ensures told { IfOk result (λ r. r ≡ told (half_made (given_setting R.rules setting.now) jumps here.old test.entry one.now)) }
    ensures grown { OnOk result (here.new ≡ half_behind (given_setting R.rules setting.now) here.old one.now) }
{
    let head = condition_counted(alloc, setting, here, test)?;
    match line(alloc, setting, in_part(jumps), here, one) {
        Ok(one) => Ok(paired(head, one)),
        Err(error) => left_over(error, head),
    }
}

/// A branch that may be missing.
#[cycle(line)]
fn perhaps_line<R: Typing>(
    alloc: Global,
    setting: &Setting<R>,
    jumps: Jumps,
    here: &mut Here,
    n: &Option<Boxed<Node>>,
) -> Result<Result<Items<Stmt>, Fault>, OutOfMemory>
    ensures told { IfOk result (λ r. r ≡ told (perhaps_made (given_setting R.rules setting.now) jumps here.old (part_of n.now))) }
    ensures grown { OnOk result (here.new ≡ perhaps_behind setting.now.scope.now setting.now.frame.now here.old (part_of n.now)) }
{
    match n {
        None => Ok(Ok(Items::new(alloc))),
        Some(n) => line(alloc, setting, in_part(jumps), here, n.get()),
    }
}

/// The body of a loop.
#[cycle(line)]
fn loop_body<R: Typing>(
    alloc: Global,
    setting: &Setting<R>,
    here: &mut Here,
    body: &Node,
) -> Result<Result<Items<Stmt>, Fault>, OutOfMemory>
    ensures told { IfOk result (λ r. r ≡ told (statement_made (given_setting R.rules setting.now) loop_jumps here.old (line_of body.now))) }
    ensures grown { OnOk result (here.new ≡ statement_behind (given_setting R.rules setting.now) here.old (line_of body.now)) }
{
    line(alloc, setting, in_part(loop_jumps()), here, body)
}

#[cycle(line)]
fn while_made<R: Typing>(
    alloc: Global,
    setting: &Setting<R>,
    here: &mut Here,
    body: &Node,
    test: Placed,
) -> Result<Result<Items<Stmt>, Fault>, OutOfMemory>
    ensures told { IfOk result (λ r. r ≡ told (loop_made (given_setting R.rules setting.now) here.old (while_line test.entry body.now))) }
    ensures grown { OnOk result (here.new ≡ statement_behind (given_setting R.rules setting.now) here.old (while_line test.entry body.now)) }
{
    let n = here.number;
    let head = condition_counted(alloc, setting, here, test)?;
    match loop_body(alloc, setting, here, body) {
        Ok(body) => Ok(while_of(alloc, n, head, body)?),
        Err(error) => left_over(error, head),
    }
}

#[cycle(line)]
fn for_made<R: Typing>(
    alloc: Global,
    setting: &Setting<R>,
    here: &mut Here,
    place: Place,
    body: &Node,
    parts: ForParts,
) -> Result<Result<Items<Stmt>, Fault>, OutOfMemory>
    ensures told { IfOk result (λ r. r ≡ told (loop_made (given_setting R.rules setting.now) here.old (for_line place parts.entry body.now))) }
    ensures grown { OnOk result (here.new ≡ statement_behind (given_setting R.rules setting.now) here.old (for_line place parts.entry body.now)) }
{
    let n = here.number;
    let names = here.names.len();
    let first = here.first;
    here.first = here.slot;
    let head = for_head(alloc, setting, here, place, parts, body)?;
    match loop_body(alloc, setting, here, body) {
        Ok(inside) => {
            leave(alloc, names, first, here);
            Ok(for_of(alloc, n, head, inside)?)
        }
        Err(error) => left_over(error, head),
    }
}

#[cycle(line)]
fn do_made<R: Typing>(
    alloc: Global,
    setting: &Setting<R>,
    here: &mut Here,
    body: &Node,
    test: Placed,
) -> Result<Result<Items<Stmt>, Fault>, OutOfMemory>
    ensures told { IfOk result (λ r. r ≡ told (loop_made (given_setting R.rules setting.now) here.old (do_line body.now test.entry))) }
    ensures grown { OnOk result (here.new ≡ statement_behind (given_setting R.rules setting.now) here.old (do_line body.now test.entry)) }
{
    let n = here.number;
    count(here)?;
    let inside = loop_body(alloc, setting, here, body)?;
    match condition(alloc, setting, here, test) {
        Ok(test) => Ok(do_of(alloc, n, inside, test)?),
        Err(error) => left_over(error, inside),
    }
}

#[cycle(line)]
fn switch_made<R: Typing>(
    alloc: Global,
    setting: &Setting<R>,
    jumps: Jumps,
    here: &mut Here,
    clauses: &[Clause],
    test: Placed,
) -> Result<Result<Items<Stmt>, Fault>, OutOfMemory>
    ensures told { IfOk result (λ r. r ≡ told (statement_made (given_setting R.rules setting.now) jumps here.old (switch_line test.entry clauses.now))) }
    ensures grown { OnOk result (here.new ≡ statement_behind (given_setting R.rules setting.now) here.old (switch_line test.entry clauses.now)) }
{
    let n = here.number;
    let value = tested_counted(alloc, setting, here, test)?;
    let at = tested_at(test.place, &value);
    match clauses_made(alloc, setting, clause_jumps(jumps), here, at, clauses) {
        Ok(made) => Ok(switch_of(alloc, n, value, made)?),
        Err(error) => left_over(error, value),
    }
}

/// The clauses of a `switch`, one behind the other.
#[cycle(line)]
#[tactic(auto, using(mdr_faults::proofs::Gathered::followed_none))]
fn clauses_made<R: Typing>(
    alloc: Global,
    setting: &Setting<R>,
    jumps: Jumps,
    here: &mut Here,
    at: Tested,
    clauses: &[Clause],
) -> Result<Result<Items<MadeClause>, Fault>, OutOfMemory>
    ensures told { IfOk result (λ r. r ≡ told (clauses_made (given_setting R.rules setting.now) jumps here.old at [] (clauses_of clauses.now))) }
    ensures grown { OnOk result (here.new ≡ clauses_behind setting.now.scope.now setting.now.frame.now here.old (clauses_of clauses.now)) }
{
    let mut all = Ok(Items::new(alloc));
    let mut seen = Items::new(alloc);
    for i in 0..clauses.len() {
        let standing = ClauseStanding {
            tested: at,
            jumps,
            is_last: is_last_at(clauses, i),
        };
        let made = clause(alloc, setting, standing, here, &mut seen, &clauses[i])?;
        all = followed(all, made)?;
    }
    Ok(all)
}

/// A clause, behind the labels that were seen before it.
#[cycle(line)]
fn clause<R: Typing>(
    alloc: Global,
    setting: &Setting<R>,
    standing: ClauseStanding,
    here: &mut Here,
    seen: &mut Items<CaseLabel>,
    clause: &Clause,
) -> Result<Result<Items<MadeClause>, Fault>, OutOfMemory>
    ensures told { IfOk result (λ r. r ≡ told (clause_made (given_setting R.rules setting.now) standing here.old seen.old (clause_of clause.now))) }
    ensures grown { OnOk result (here.new ≡ block_behind (given_setting R.rules setting.now) here.old (clause_of clause.now).1) }
    ensures seen { OnOk result (seen.new ≡ labels_behind setting.now.scope.now here.old.names standing.tested.kind seen.old (clause_of clause.now).0) }
{
    let tested = standing.tested;
    let labels = clause.labels.as_slice();
    let names = here.names.as_slice();
    let first = labels_made(alloc, setting.scope, names, tested.kind, seen, labels)?;
    let place = clause_place(tested.place, labels);
    match ended_block(
        alloc,
        setting,
        standing,
        here,
        place,
        clause.body.as_slice(),
    ) {
        Ok(second) => Ok(made_clause(alloc, tested.kind, first, second)?),
        Err(error) => left_over(error, first),
    }
}

/// The statements of the clause at this place.
#[cycle(line)]
fn ended_block<R: Typing>(
    alloc: Global,
    setting: &Setting<R>,
    standing: ClauseStanding,
    here: &mut Here,
    place: Place,
    body: &[Node],
) -> Result<Result<Items<Stmt>, Fault>, OutOfMemory>
    ensures told { IfOk result (λ r. r ≡ told (ended_made (given_setting R.rules setting.now) standing here.old place (lines_of body.now))) }
    ensures grown { OnOk result (here.new ≡ block_behind (given_setting R.rules setting.now) here.old (lines_of body.now)) }
{
    let made = block(alloc, setting, standing.jumps, true, here, body)?;
    let does_end = ends(body, standing.is_last);
    Ok(demanded(place, FaultKind::Mismatch, does_end, made))
}

/// A block with names of its own.
#[cycle(line)]
fn block<R: Typing>(
    alloc: Global,
    setting: &Setting<R>,
    jumps: Jumps,
    is_part: bool,
    here: &mut Here,
    nodes: &[Node],
) -> Result<Result<Items<Stmt>, Fault>, OutOfMemory>
    ensures told { IfOk result (λ r. r ≡ told (as_part is_part (block_made (given_setting R.rules setting.now) jumps here.old (lines_of nodes.now)))) }
    ensures grown { OnOk result (here.new ≡ block_behind (given_setting R.rules setting.now) here.old (lines_of nodes.now)) }
{
    let names = here.names.len();
    let first = here.first;
    here.first = here.slot;
    let made = lines(alloc, setting, jumps, here, nodes)?;
    leave(alloc, names, first, here);
    Ok(as_part(alloc, is_part, made)?)
}

/// Statements one behind the other.
#[cycle(line)]
#[tactic(auto, using(mdr_faults::proofs::Gathered::followed_none))]
pub fn lines<R: Typing>(
    alloc: Global,
    setting: &Setting<R>,
    jumps: Jumps,
    here: &mut Here,
    nodes: &[Node],
) -> Result<Result<Items<Stmt>, Fault>, OutOfMemory>
    ensures told { IfOk result (λ r. r ≡ told (lines_made (given_setting R.rules setting.now) jumps here.old (lines_of nodes.now))) }
    ensures grown { OnOk result (here.new ≡ lines_behind setting.now.scope.now setting.now.frame.now here.old (lines_of nodes.now)) }
{
    let mut all = Ok(Items::new(alloc));
    for i in 0..nodes.len() {
        let n = &nodes[i];
        let made = line(alloc, setting, in_list(jumps, n, nodes, i), here, n)?;
        all = followed(all, made)?;
    }
    Ok(all)
}
