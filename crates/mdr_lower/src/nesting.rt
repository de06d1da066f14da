// How deep lowered statements nest: a `switch` by as many levels as it has clauses.

ghost use Rattle.std.specs.Prelude.{◌≡◌, ◌<◌, ◌≤◌, OnOk, OnErr, suc, map, min};
ghost use Rattle.mdr_core.specs.Limits.{most};
ghost use Rattle.mdr_core.specs.declared.memory_error.Limit.TheVariants as limit;
ghost use Rattle.mdr_lower.specs.Levels.{tried, step_levels, clause_levels, levels};

use mdr_core::{Items, Limit, OutOfMemory, most, within};
use mdr_rich::{Clause, Step, Stmt};

#[cycle(nesting)]
fn clause_levels(clause: &Clause, room: u64) -> u64
    ensures { result ≡ min (clause_levels clause.now) room }
{
    let labels = room.min(clause.labels.len() as u64);
    labels.max(part_levels(&clause.body, room))
}

/// The clauses of a `switch`, and the body of its `default`.
#[cycle(nesting)]
fn tried_levels(clauses: &[Clause], default: &Items<Stmt>, room: u64) -> u64
    ensures { result ≡ min (tried (map clause_levels clauses.now) (suc (levels default.now))) room }
{
    let mut most = 0;
    let mut left = room;
    for clause in clauses {
        if left == 0 {
            return room;
        }
        most = most.max(room - left + clause_levels(clause, left));
        left -= 1;
    }
    most.max(room - left + part_levels(default, left))
}

#[cycle(nesting)]
fn part_levels(part: &Items<Stmt>, room: u64) -> u64
    ensures { result ≡ min (suc (levels part.now)) room }
{
    if room == 0 {
        0
    } else {
        levels(part.as_slice(), room - 1) + 1
    }
}

#[cycle(nesting)]
fn step_levels(s: &Step, room: u64) -> u64
    ensures { result ≡ min (step_levels s.now) room }
{
    match s {
        Step::Declare(_) => 0,
        Step::Text(_, _) => 0,
        Step::Assign(_, _) => 0,
        Step::Call(_, _) => 0,
        Step::If(_, one, other) => part_levels(one, room).max(part_levels(other, room)),
        Step::While(_, body) => part_levels(body, room),
        Step::For(init, _, next, body) => {
            let inner = part_levels(next, room).max(part_levels(body, room));
            part_levels(init, room).max(inner)
        }
        Step::Do(body, _) => part_levels(body, room),
        Step::Switch(_, clauses, default) => tried_levels(clauses.as_slice(), default, room),
        Step::Return(_) => 0,
        Step::ReturnCall(_) => 0,
        Step::Break => 0,
        Step::Continue => 0,
        Step::Empty => 0,
        Step::Block(body) => part_levels(body, room),
    }
}

/// The levels of statements, or `room` where there are more: the walk goes no deeper than that.
#[cycle(nesting)]
fn levels(statements: &[Stmt], room: u64) -> u64
    ensures { result ≡ min (levels statements.now) room }
{
    let mut most = 0;
    for s in statements {
        most = most.max(step_levels(&s.step, room));
    }
    most
}

/// The statements have so few levels that what walks over them needs less than half of the program's stack. Memory is
/// wanting exactly where they have more.
pub fn few_levels(statements: &[Stmt]) -> Result<(), OutOfMemory>
    ensures ok { OnOk result (levels statements.now ≤ most limit.Levels) }
    ensures err { OnErr result (most limit.Levels < levels statements.now) }
{
    within(levels(statements, most(Limit::Levels) + 1), Limit::Levels)
}
