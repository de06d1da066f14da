// The plan and the program of two texts, or which of the two is none.

ghost use Rattle.std.specs.Prelude.{◌≡◌, ℕ, List, Some, None, IfOk, MatchResult};
ghost use Rattle.mdr_core.specs.declared.plan.Plan.{Plan as AnyPlan};
ghost use Rattle.mdr_core.specs.declared.program.Program.{Program as AnyProgram};
ghost use Rattle.mdr_core.specs.Sound.{HasFewNumbers};
ghost use Rattle.mdr_faults.specs.Faults.{Checked, Right, IsFirst};
ghost use Rattle.mdr_plan.specs.Texts.{IsPlanText};
ghost use Rattle.mdr_half_source.specs.Halves.{ComeTo};
ghost use Rattle.mdr_half_source.specs.Stages.{Judged, Reading, Finds, HasHalf, IsFaulty, typed_half};

use crate::misfit::Misfit;
use crate::outcome::HalfSource;
use mdr_body::Rule;
use mdr_check_half::check_half;
use mdr_core::{OutOfMemory, Plan, Program, few};
use mdr_express::left_over;
use mdr_faults::Fault;
use mdr_parse::{ParseError, parse};
use mdr_plan::{PlanError, read_plan};
use mdr_syntax::{LexError, Token, Tree, tokens};
use mdr_typing::ProfileRules;
use std::alloc::Global;

// ---- programs

fn judged(found: Result<Program, Fault>) -> Option<Program>
    ensures { (c : Checked AnyProgram) → MatchResult found (λ p. c ≡ Right p) (λ f. IsFirst f c) → Judged c result }
{
    found.ok()
}

fn means(alloc: Global, plan: &Plan, tree: &Tree) -> Result<Option<Program>, OutOfMemory>
    ensures { IfOk result (Judged (typed_half plan.now tree.now)) }
{
    let found = check_half(
        alloc,
        &Rule {
            typing: ProfileRules,
        },
        tree,
        plan,
    )?;
    Ok(judged(found))
}

// ---- tokens

/// What was found, when what it was found in is let go.
fn apart<A, T: Drop>(found: A, _read: T) -> A
    ensures { result ≡ found }
{
    found
}

/// Nothing is found in tokens that have no tree. Want of memory finds nothing out.
fn unread(error: ParseError) -> Result<Option<Program>, OutOfMemory>
    ensures { IfOk result (λ o. (o ≡ None) × IsFaulty error) }
{
    match error {
        ParseError::NotInProfile(_, _) => Ok(None),
        ParseError::Expected(_) => Ok(None),
        ParseError::OutOfMemory => Err(OutOfMemory::passed_on()),
    }
}

fn of_tree(alloc: Global, plan: &Plan, tree: Tree) -> Result<Option<Program>, OutOfMemory>
    ensures { IfOk result (Judged (typed_half plan.now tree)) }
{
    let found = means(alloc, plan, &tree);
    apart(found, tree)
}

fn of_tokens(alloc: Global, plan: &Plan, tokens: &[Token]) -> Result<Option<Program>, OutOfMemory>
    ensures { IfOk result (Reading plan.now tokens.now) }
{
    match parse(alloc, tokens, true) {
        Ok(tree) => of_tree(alloc, plan, tree),
        Err(error) => unread(error),
    }
}

// ---- texts

/// The program of a user half's text with a plan, if it has one.
fn found_in(alloc: Global, plan: &Plan, user: &[u8]) -> Result<Option<Program>, OutOfMemory>
    ensures { IfOk result (Finds user.now plan.now) }
{
    match tokens(alloc, user) {
        Ok(tokens) => {
            let found = of_tokens(alloc, plan, tokens.as_slice())?;
            Ok(found)
        }
        Err(LexError::BadByte(_)) => Ok(None),
        Err(LexError::BadNumber(_)) => Ok(None),
        Err(LexError::OpenComment(_)) => Ok(None),
        Err(LexError::OpenText(_)) => Ok(None),
        Err(LexError::OutOfMemory) => Err(OutOfMemory::passed_on()),
    }
}

/// A program whose types, globals, structs and functions are few. One that has more finds no memory.
fn counted_program(program: Program) -> Result<Option<Program>, OutOfMemory>
    ensures { IfOk result (λ o. (o ≡ Some program) × HasFewNumbers program) }
{
    match few(&program) {
        Ok(()) => Ok(Some(program)),
        Err(error) => left_over(error, program),
    }
}

/// What was found, if its types, globals, structs and functions are few.
fn counted(found: Option<Program>) -> Result<Option<Program>, OutOfMemory>
    ensures { (user : List ℕ) (plan : AnyPlan) → Finds user plan found → IfOk result (HasHalf user plan) }
{
    match found {
        Some(program) => counted_program(program),
        None => Ok(None),
    }
}

/// The program of a user half's text with a plan, if it has one that is few.
fn of_text(alloc: Global, plan: &Plan, user: &[u8]) -> Result<Option<Program>, OutOfMemory>
    ensures { IfOk result (HasHalf user.now plan.now) }
{
    let found = found_in(alloc, plan, user)?;
    let half = counted(found)?;
    Ok(half)
}

/// Why there is no half, in place of what was read for it.
fn refused<T: Drop, A>(misfit: Misfit, _read: T) -> Result<A, Misfit>
    ensures { result ≡ Err misfit }
{
    Err(misfit)
}

fn of_plan(
    alloc: Global,
    plan: Plan,
    user: &[u8],
) -> Result<Result<HalfSource, Misfit>, OutOfMemory>
    ensures { (text : List ℕ) → IsPlanText text plan → IfOk result (ComeTo user.now text) }
{
    match of_text(alloc, &plan, user) {
        Ok(Some(program)) => Ok(Ok(HalfSource { plan, program })),
        Ok(None) => Ok(refused(Misfit::Source, plan)),
        Err(error) => left_over(error, plan),
    }
}

/// The plan of the one text, and the program that the other has with it; or which of them is none. The plan is judged first.
pub fn half_source(
    alloc: Global,
    user: &[u8],
    plan: &[u8],
) -> Result<Result<HalfSource, Misfit>, OutOfMemory>
    ensures { IfOk result (ComeTo user.now plan.now) }
{
    match read_plan(alloc, plan) {
        Ok(plan) => of_plan(alloc, plan, user),
        Err(PlanError::Line(_, _)) => Ok(Err(Misfit::Plan)),
        Err(PlanError::OutOfMemory) => Err(OutOfMemory::passed_on()),
    }
}
