// The line that is printed of a source that is refused.

ghost use Rattle.std.specs.Prelude.{◌≡◌, IfOk};
ghost use Rattle.mdr_source.specs.Lines.{source_line, left_out, fault_word, refusal_line};

use crate::put::{put_bytes, put_newline, put_number, put_word};
use crate::refusal::Refusal;
use mdr_core::{Name, OutOfMemory, Place};
use mdr_faults::FaultKind;
use std::alloc::Global;

/// A place, and the kind of reason.
#[tactic(auto, unfolding(crate::specs::Lines::source_line))]
fn line_of_kind(alloc: Global, place: Place, kind: &[u8]) -> Result<Vec<u8>, OutOfMemory>
    ensures { IfOk result (λ text. text.items ≡ source_line place kind.now) }
{
    let mut out = Vec::new(alloc);
    put_word(&mut out, "source refused ")?;
    put_number(alloc, &mut out, place.line)?;
    put_word(&mut out, ":")?;
    put_number(alloc, &mut out, place.column)?;
    put_word(&mut out, " ")?;
    put_bytes(&mut out, kind)?;
    put_newline(&mut out)?;
    Ok(out)
}

/// A place, and the kind of reason where it is a word.
fn source_line(alloc: Global, place: Place, kind: &str) -> Result<Vec<u8>, OutOfMemory>
    ensures { IfOk result (λ text. text.items ≡ source_line place kind.now) }
{
    line_of_kind(alloc, place, kind.as_bytes())
}

/// The kind of reason, and a word of C99 that sources do without.
#[tactic(auto, unfolding(crate::specs::Lines::left_out))]
fn left_out(alloc: Global, word: &Name) -> Result<Vec<u8>, OutOfMemory>
    ensures { IfOk result (λ text. text.items ≡ left_out word.now) }
{
    let mut kind = Vec::new(alloc);
    put_word(&mut kind, "NotInProfile ")?;
    put_bytes(&mut kind, word.as_slice())?;
    Ok(kind)
}

fn left_out_line(alloc: Global, place: Place, word: &Name) -> Result<Vec<u8>, OutOfMemory>
    ensures { IfOk result (λ text. text.items ≡ source_line place (left_out word.now)) }
{
    let kind = left_out(alloc, word)?;
    line_of_kind(alloc, place, kind.as_slice())
}

fn fault_line(alloc: Global, place: Place, kind: FaultKind) -> Result<Vec<u8>, OutOfMemory>
    ensures { IfOk result (λ text. text.items ≡ source_line place (fault_word kind)) }
{
    match kind {
        FaultKind::UnknownName => source_line(alloc, place, "UnknownName"),
        FaultKind::Redefined => source_line(alloc, place, "Redefined"),
        FaultKind::Mismatch => source_line(alloc, place, "Mismatch"),
        FaultKind::NotAnLvalue => source_line(alloc, place, "NotAnLvalue"),
        FaultKind::BadAnnotation => source_line(alloc, place, "BadAnnotation"),
        FaultKind::IrqTarget => source_line(alloc, place, "IrqTarget"),
        FaultKind::Limit => source_line(alloc, place, "Limit"),
        FaultKind::Incomplete => source_line(alloc, place, "Incomplete"),
        FaultKind::BadArity => source_line(alloc, place, "BadArity"),
    }
}

/// The line that is printed of a source that is refused.
pub fn refusal_line(alloc: Global, refusal: &Refusal) -> Result<Vec<u8>, OutOfMemory>
    ensures { IfOk result (λ text. text.items ≡ refusal_line refusal.now) }
{
    match refusal {
        Refusal::BadByte(place) => source_line(alloc, *place, "BadByte"),
        Refusal::BadNumber(place) => source_line(alloc, *place, "BadNumber"),
        Refusal::OpenComment(place) => source_line(alloc, *place, "OpenComment"),
        Refusal::OpenText(place) => source_line(alloc, *place, "OpenText"),
        Refusal::NotInProfile(place, word) => left_out_line(alloc, *place, word),
        Refusal::Expected(place) => source_line(alloc, *place, "Expected"),
        Refusal::Fault(fault) => fault_line(alloc, fault.place, fault.kind),
    }
}
