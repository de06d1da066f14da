// Which statements code has.

ghost use Rattle.std.specs.Prelude.{◌≡◌};
ghost use Rattle.mdr_core.specs.Folds.{code_of, codes_of};
ghost use Rattle.mdr_meaning.specs.Fair.{stands, stands_in};

use mdr_core::{Step, Stmt};

/// Whether a statement, or one in it, has a number. A block has none.
#[cycle(numbers)]
fn stands_in(statement: &Stmt, number: u32) -> bool
    ensures { result ≡ stands_in number (code_of statement.now) }
{
    match &statement.step {
        Step::If(_, one, other) => {
            number == statement.number
                || (stands(one.as_slice(), number) || stands(other.as_slice(), number))
        }
        Step::While(_, body) => number == statement.number || stands(body.as_slice(), number),
        Step::For(init, _, step, body) => {
            stands(init.as_slice(), number)
                || (number == statement.number
                    || (stands(step.as_slice(), number) || stands(body.as_slice(), number)))
        }
        Step::Block(body) => stands(body.as_slice(), number),
        Step::Declare(_)
        | Step::Text(_, _)
        | Step::Assign(_, _)
        | Step::Call(_, _)
        | Step::Return(_)
        | Step::ReturnCall(_)
        | Step::Break
        | Step::Continue
        | Step::Empty => number == statement.number,
    }
}

/// Whether one of some statements, or one in them, has a number.
#[cycle(numbers)]
pub(crate) fn stands(body: &[Stmt], number: u32) -> bool
    ensures { result ≡ stands number (codes_of body.now) }
{
    for statement in body {
        if stands_in(statement, number) {
            return true;
        }
    }
    false
}
