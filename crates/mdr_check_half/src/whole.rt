// The types of a user half's text.

ghost use Rattle.std.specs.Prelude.{◌≡◌, Err, IfOk, List};
ghost use Rattle.mdr_check.specs.declared.file.Piece.{Piece as OnePiece};
ghost use Rattle.mdr_faults.specs.declared.fault.FaultKind.TheVariants.{Mismatch};
ghost use Rattle.mdr_program.specs.Programs.{with_types};
ghost use Rattle.mdr_check.specs.Whole.{Finds};
ghost use Rattle.mdr_faults.specs.Faults.{Checked, after};
ghost use Rattle.mdr_check_half.specs.HalfPrograms.{begin, planned, half_right, half_typed};

use crate::fitting::suits_text;
use mdr_check::{Piece, checked_pieces};
use mdr_core::{Items, OutOfMemory, Place, Plan, Program};
use mdr_faults::{Fault, FaultKind, copied_types};
use mdr_headings::Bodies;
use mdr_program::{Parts, parts_of, with_types};
use mdr_syntax::Tree;
use std::alloc::Global;

/// What is told of a plan that doesn't suit its text.
fn unsuited() -> Result<Program, Fault>
    ensures { result ≡ Err (record { place = begin; kind = Mismatch }) }
{
    Err(Fault {
        place: Place { line: 1, column: 1 },
        kind: FaultKind::Mismatch,
    })
}

/// The program of these parts with the plan's type table.
fn with_plan(alloc: Global, plan: &Plan, parts: Parts) -> Result<Program, OutOfMemory>
    ensures { IfOk result (λ p. p ≡ with_types plan.now.types parts) }
{
    let types = copied_types(alloc, plan.types.as_slice())?;
    with_types(alloc, types, parts)
}

/// The program of these parts, if the plan suits them.
fn planned(alloc: Global, plan: &Plan, parts: Parts) -> Result<Result<Program, Fault>, OutOfMemory>
    ensures { IfOk result (Finds (planned plan.now parts)) }
{
    if suits_text(alloc, plan, &parts)? {
        Ok(Ok(with_plan(alloc, plan, parts)?))
    } else {
        Ok(unsuited())
    }
}

/// The program of a file whose items come to these pieces.
fn half_right(
    alloc: Global,
    plan: &Plan,
    pieces: Result<Items<Piece>, Fault>,
) -> Result<Result<Program, Fault>, OutOfMemory>
    ensures { (c : Checked (List OnePiece)) → Finds c pieces → IfOk result (Finds (after c (half_right plan.now))) }
{
    match pieces {
        Ok(pieces) => planned(alloc, plan, parts_of(alloc, pieces)?),
        Err(fault) => Ok(Err(fault)),
    }
}

/// The program of the text of a user half with a plan, or of all faults in it the one that comes first. Where there is no
/// other, a plan that doesn't suit the text is one, at the text's first place. Bodies are judged by a rule of their own.
pub fn check_half<B: Bodies>(
    alloc: Global,
    bodies: &B,
    tree: &Tree,
    plan: &Plan,
) -> Result<Result<Program, Fault>, OutOfMemory>
    ensures { IfOk result (Finds (half_typed (B.rule bodies.now) (B.used bodies.now) plan.now tree.now.items)) }
{
    let pieces = checked_pieces(alloc, bodies, tree.items.as_slice())?;
    half_right(alloc, plan, pieces)
}
