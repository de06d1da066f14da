// Places in a function's body, by numbers, and the code that stands there.

ghost use Rattle.std.specs.Prelude.{◌≡◌, ◌<◌, IfSome, slice_get, option_copied, true};
ghost use Rattle.std.specs.Option.{option_map};
ghost use Rattle.mdr_core.specs.Folds.{code_of, codes_of};
ghost use Rattle.mdr_exec.specs.Places.{code_at, inner, list_of, part_of, code_before};
ghost use Rattle.mdr_exec.specs.Found.{codes_in, code_in, turn_code, body_codes, next_turn};

use mdr_core::{Expr, Items, Program, Step, Stmt, Value};

/// Which of its lists of statements a statement is in.
#[derive(Clone, Copy)]
pub enum Part {
    /// Where the test of an `if` holds, and where it doesn't.
    One,
    Other,
    /// The body of a loop, and the step of a `for`.
    Body,
    Step,
    /// A block, or a `for` with what it begins with, in front of its loop.
    Inner,
}

/// A statement that is under way: one more than its index in its block, which of its lists is under way, and the objects
/// of its block that were born before it.
#[derive(Drop)]
pub struct Position {
    pub next: usize,
    pub part: Part,
    pub born: Items<Value>,
}

/// A loop: a `while`, or a `for` behind what it begins with.
#[derive(Clone, Copy)]
pub(crate) struct Turn<'a> {
    pub(crate) number: u32,
    pub(crate) test: Option<&'a Expr>,
    pub(crate) step: &'a [Stmt],
    pub(crate) body: &'a [Stmt],
}

/// The statements of a block, and the loop behind them where it is that of a `for`.
#[derive(Clone, Copy)]
pub(crate) struct Found<'a> {
    pub(crate) statements: &'a [Stmt],
    pub(crate) turn: Option<Turn<'a>>,
}

/// What stands at a place.
#[derive(Clone, Copy)]
pub(crate) enum Standing<'a> {
    Statement(&'a Stmt),
    Turn(Turn<'a>),
}

pub(crate) fn only<'a>(statements: &'a [Stmt]) -> Found<'a>
    ensures { codes_in result ≡ codes_of statements.now }
{
    Found {
        statements,
        turn: None,
    }
}

/// A list of a loop.
fn turn_list<'a>(turn: Turn<'a>, part: Part) -> Found<'a>
    ensures { codes_in result ≡ list_of part (turn_code turn.entry) }
{
    match part {
        Part::Body => only(turn.body),
        Part::Step => only(turn.step),
        Part::One | Part::Other | Part::Inner => only(&[]),
    }
}

/// A list of a statement.
fn statement_list<'a>(statement: &'a Stmt, part: Part) -> Found<'a>
    ensures { codes_in result ≡ list_of part (code_of statement.now) }
{
    match &statement.step {
        Step::If(_, one, other) => match part {
            Part::One => only(one.as_slice()),
            Part::Other => only(other.as_slice()),
            Part::Body | Part::Step | Part::Inner => only(&[]),
        },
        Step::While(_, body) => match part {
            Part::Body => only(body.as_slice()),
            Part::One | Part::Other | Part::Step | Part::Inner => only(&[]),
        },
        Step::For(init, test, step, body) => match part {
            Part::Inner => Found {
                statements: init.as_slice(),
                turn: Some(Turn {
                    number: statement.number,
                    test: test.as_ref(),
                    step: step.as_slice(),
                    body: body.as_slice(),
                }),
            },
            Part::One | Part::Other | Part::Body | Part::Step => only(&[]),
        },
        Step::Block(body) => match part {
            Part::Inner => only(body.as_slice()),
            Part::One | Part::Other | Part::Body | Part::Step => only(&[]),
        },
        Step::Declare(_)
        | Step::Text(_, _)
        | Step::Assign(_, _)
        | Step::Call(_, _)
        | Step::Return(_)
        | Step::ReturnCall(_)
        | Step::Break
        | Step::Continue
        | Step::Empty => only(&[]),
    }
}

pub(crate) fn statement_at<'a>(statements: &'a [Stmt], i: usize) -> Option<&'a Stmt>
    ensures { option_copied result ≡ slice_get statements.now i }
{
    statements.get(i)
}

/// What stands at an index of a block.
pub(crate) fn standing_at<'a>(found: Found<'a>, i: usize) -> Option<Standing<'a>>
    ensures code { option_map code_in result ≡ code_at (codes_in found.entry) i }
    ensures inside { IfSome result (λ s. i < 18446744073709551615) }
{
    match statement_at(found.statements, i) {
        Some(statement) => Some(Standing::Statement(statement)),
        None => turn_at(found.turn, i == found.statements.len()),
    }
}

fn turn_at<'a>(turn: Option<Turn<'a>>, is_next: bool) -> Option<Standing<'a>>
    ensures code { option_map code_in result ≡ option_map turn_code (next_turn is_next turn.entry) }
    ensures next { IfSome result (λ s. is_next ≡ true) }
{
    match turn {
        Some(turn) => {
            if is_next {
                Some(Standing::Turn(turn))
            } else {
                None
            }
        }
        None => None,
    }
}

/// A list of what stands in front of a place.
fn part_before<'a>(found: Found<'a>, next: usize, part: Part) -> Found<'a>
    ensures { codes_in result ≡ part_of part (code_before (codes_in found.entry) next) }
{
    if next == 0 {
        return only(&[]);
    }
    match standing_at(found, next - 1) {
        Some(Standing::Statement(statement)) => statement_list(statement, part),
        Some(Standing::Turn(turn)) => turn_list(turn, part),
        None => only(&[]),
    }
}

/// A list of a statement, where it isn't a `for` and has it.
fn list_in<'a>(statement: &'a Stmt, part: Part) -> Option<&'a [Stmt]>
    ensures { IfSome result (λ list. codes_of list.now ≡ list_of part (code_of statement.now)) }
{
    match &statement.step {
        Step::If(_, one, other) => match part {
            Part::One => Some(one.as_slice()),
            Part::Other => Some(other.as_slice()),
            Part::Body | Part::Step | Part::Inner => None,
        },
        Step::While(_, body) => match part {
            Part::Body => Some(body.as_slice()),
            Part::Step => Some(&[]),
            Part::One | Part::Other | Part::Inner => None,
        },
        Step::Block(body) => match part {
            Part::Inner => Some(body.as_slice()),
            Part::One | Part::Other | Part::Body | Part::Step => None,
        },
        _ => None,
    }
}

/// A list of the statement in front of a place, where it isn't a `for` and has it.
fn list_before<'a>(statements: &'a [Stmt], next: usize, part: Part) -> Option<&'a [Stmt]>
    ensures { IfSome result (λ list. codes_of list.now ≡ part_of part (code_before (codes_of statements.now) next)) }
{
    if next == 0 {
        return None;
    }
    match statement_at(statements, next - 1) {
        Some(statement) => list_in(statement, part),
        None => None,
    }
}

/// The statements of the block that a path leads to, where it leads through no `for`.
#[tactic(auto, unfolding(crate::specs::Places::inner))]
pub(crate) fn inside<'a>(statements: &'a [Stmt], path: &[Position]) -> Option<&'a [Stmt]>
    ensures { IfSome result (λ list. codes_of list.now ≡ inner path.now (codes_of statements.now)) }
{
    let mut list = statements;
    for position in path {
        match list_before(list, position.next, position.part) {
            Some(other) => list = other,
            None => return None,
        }
    }
    Some(list)
}

/// The block that a path leads to.
#[tactic(auto, unfolding(crate::specs::Places::inner))]
pub(crate) fn block_at<'a>(body: Found<'a>, path: &[Position]) -> Found<'a>
    ensures { codes_in result ≡ inner path.now (codes_in body.entry) }
{
    let mut block = body;
    for position in path {
        block = part_before(block, position.next, position.part);
    }
    block
}

/// The statements of a function; of one that has no body, none.
#[tactic(auto, unfolding(crate::specs::Found::body_codes))]
pub(crate) fn statements_of<'a>(program: &'a Program, func: u32) -> &'a [Stmt]
    ensures { codes_of result.now ≡ body_codes program.now func }
{
    match program.funcs.as_slice().get(func as usize) {
        Some(func) => match &func.body {
            Some(body) => body.as_slice(),
            None => &[],
        },
        None => &[],
    }
}

/// The body of a function; of one that has none, nothing.
pub(crate) fn body_of<'a>(program: &'a Program, func: u32) -> Found<'a>
    ensures { codes_in result ≡ body_codes program.now func }
{
    only(statements_of(program, func))
}

/// What stands at an index of a list.
pub(crate) fn listed_at<'a>(statements: &'a [Stmt], i: usize) -> Option<Standing<'a>>
    ensures code { option_map code_in result ≡ code_at (codes_of statements.now) i }
    ensures inside { IfSome result (λ s. i < 18446744073709551615) }
{
    standing_at(only(statements), i)
}
