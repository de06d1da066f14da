// A whole file, with a rule for the bodies of its functions (C99 6.9).

ghost use Rattle.std.specs.Prelude.{◌≡◌, IfOk, List};
ghost use Rattle.mdr_core.specs.declared.place.Place.{Place};
ghost use Rattle.mdr_check.specs.declared.file.Piece.{Piece};
ghost use Rattle.mdr_faults.specs.Faults.{Checked, told, both};
ghost use Rattle.mdr_check.specs.Files.{first_known};
ghost use Rattle.mdr_headings.specs.Names.{Verdict};
ghost use Rattle.mdr_check.specs.Whole.{Finds, kept, named, file_pieces};

use crate::file::{Known, Piece, first_known, pieces_behind};
use crate::names::short_items;
use crate::uses::defined_functions;
use mdr_core::{Items, OutOfMemory, Place};
use mdr_faults::{Fault, both};
use mdr_headings::Bodies;
use mdr_syntax::Item;
use std::alloc::Global;

fn kept(
    pieces: Result<Items<Piece>, Fault>,
    defined: Result<Items<Place>, Fault>,
) -> Result<Items<Piece>, Fault>
    ensures { (c : Checked (List Piece)) (d : Checked (List Place)) → pieces ≡ told c → defined ≡ told d → result ≡ told (both c d kept) }
{
    match both(pieces, defined) {
        Ok((pieces, _)) => Ok(pieces),
        Err(fault) => Err(fault),
    }
}

fn named(
    names: Result<(), Fault>,
    pieces: Result<Items<Piece>, Fault>,
) -> Result<Items<Piece>, Fault>
    ensures { (c : Verdict) (d : Checked (List Piece)) → names ≡ told c → pieces ≡ told d → result ≡ told (both c d named) }
{
    match both(names, pieces) {
        Ok((_, pieces)) => Ok(pieces),
        Err(fault) => Err(fault),
    }
}

/// What the items of a file come to, in their order, where nothing else is known before the first.
#[tactic(auto, unfolding(crate::specs::Whole::file_pieces))]
fn pieces_from<B: Bodies>(
    alloc: Global,
    bodies: &B,
    known: &mut Known,
    items: &[Item],
) -> Result<Result<Items<Piece>, Fault>, OutOfMemory>
    ensures { known.old ≡ first_known items.now → IfOk result (λ r. r ≡ told (file_pieces (B.rule bodies.now) (B.used bodies.now) items.now)) }
{
    let pieces = pieces_behind(alloc, bodies, known, items)?;
    let defined = defined_functions(alloc, bodies, items, known.functions.as_slice())?;
    Ok(named(short_items(items), kept(pieces, defined)))
}

/// What the items of a file come to, in their order.
fn told_pieces<B: Bodies>(
    alloc: Global,
    bodies: &B,
    items: &[Item],
) -> Result<Result<Items<Piece>, Fault>, OutOfMemory>
    ensures { IfOk result (λ r. r ≡ told (file_pieces (B.rule bodies.now) (B.used bodies.now) items.now)) }
{
    let mut known = first_known(alloc, items)?;
    let pieces = pieces_from(alloc, bodies, &mut known, items);
    drop(known);
    pieces
}

/// What the items of a file come to, in their order; or of all faults in it the one that comes first.
pub fn checked_pieces<B: Bodies>(
    alloc: Global,
    bodies: &B,
    items: &[Item],
) -> Result<Result<Items<Piece>, Fault>, OutOfMemory>
    ensures { IfOk result (Finds (file_pieces (B.rule bodies.now) (B.used bodies.now) items.now)) }
{
    let pieces = told_pieces(alloc, bodies, items)?;
    Ok(pieces)
}
