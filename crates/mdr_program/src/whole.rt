// The types of a source.

ghost use Rattle.std.specs.Prelude.{IfOk, List};
ghost use Rattle.mdr_check.specs.declared.file.Piece.{Piece as OnePiece};
ghost use Rattle.mdr_check.specs.Whole.{Finds};
ghost use Rattle.mdr_faults.specs.Faults.{Checked, told, after};
ghost use Rattle.mdr_program.specs.Programs.{program_of, program_right, typed};

use crate::parts::parts_of;
use crate::program::made;
use mdr_check::{Piece, checked_pieces};
use mdr_core::{Items, OutOfMemory, Program};
use mdr_faults::Fault;
use mdr_headings::Bodies;
use mdr_syntax::Tree;
use std::alloc::Global;

/// The program of a file whose items come to these pieces.
fn program_right(
    alloc: Global,
    pieces: Result<Items<Piece>, Fault>,
) -> Result<Result<Program, Fault>, OutOfMemory>
    ensures { (c : Checked (List OnePiece)) → Finds c pieces → IfOk result (Finds (after c program_right)) }
{
    match pieces {
        Ok(pieces) => Ok(Ok(made(alloc, parts_of(alloc, pieces)?)?)),
        Err(fault) => Ok(Err(fault)),
    }
}

/// The program of a source, or of all faults in it the one that comes first. Bodies are judged by a rule of their own.
pub fn check<B: Bodies>(
    alloc: Global,
    bodies: &B,
    tree: &Tree,
) -> Result<Result<Program, Fault>, OutOfMemory>
    ensures { IfOk result (Finds (typed (B.rule bodies.now) (B.used bodies.now) tree.now.items)) }
{
    let pieces = checked_pieces(alloc, bodies, tree.items.as_slice())?;
    program_right(alloc, pieces)
}
