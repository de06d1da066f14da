// The source whose texts three texts are.

ghost use Rattle.std.specs.Prelude.{ℕ, List, IfOk, Ok};
ghost use Rattle.mdr_core.specs.Sound.{IsSound};
ghost use Rattle.mdr_source.specs.Sources.{Comes};
ghost use Rattle.mdr_halves.specs.Stages.{IsCompared, IsJoinedText};
ghost use Rattle.mdr_halves.specs.Whole.{Come};

use crate::differing::first_other;
use crate::joining::{joined_text, on_line, refused};
use crate::mismatch::{Mismatch, Which};
use mdr_core::OutOfMemory;
use mdr_cut::{Texts, texts_of};
use mdr_express::left_over;
use mdr_source::{Source, source};
use std::alloc::Global;

/// The first of these texts that isn't that of a source.
fn other_than(
    alloc: Global,
    texts: &Texts,
    source: &Source,
) -> Result<Option<Mismatch>, OutOfMemory>
    requires { IsSound source.now.program }
    ensures { IfOk result (IsCompared texts.now source.now) }
{
    let due = texts_of(alloc, &source.tree, &source.program)?;
    let other = first_other(texts, &due);
    drop(due);
    Ok(other)
}

fn of_source(
    alloc: Global,
    texts: &Texts,
    source: Source,
) -> Result<Result<Source, Mismatch>, OutOfMemory>
    requires { IsSound source.program }
    ensures come { (text : List ℕ) → IsJoinedText texts.now text → Comes text (Ok source) → IfOk result (Come texts.now) }
    ensures sound { IfOk result (λ r. IfOk r (λ s. IsSound s.program)) }
{
    match other_than(alloc, texts, &source) {
        Ok(None) => Ok(Ok(source)),
        Ok(Some(mismatch)) => Ok(refused(mismatch, source)),
        Err(error) => left_over(error, source),
    }
}

fn of_joined(
    alloc: Global,
    texts: &Texts,
    joined: &[u8],
) -> Result<Result<Source, Mismatch>, OutOfMemory>
    ensures come { IsJoinedText texts.now joined.now → IfOk result (Come texts.now) }
    ensures sound { IfOk result (λ r. IfOk r (λ s. IsSound s.program)) }
{
    match source(alloc, joined)? {
        Ok(source) => of_source(alloc, texts, source),
        Err(refusal) => Ok(refused(on_line(Which::Kernel, 0), refusal)),
    }
}

/// The source whose halves and plan have these texts, as it is printed, or the first thing for which they are refused.
pub fn source_of_texts(
    alloc: Global,
    texts: &Texts,
) -> Result<Result<Source, Mismatch>, OutOfMemory>
    ensures come { IfOk result (Come texts.now) }
    ensures sound { IfOk result (λ r. IfOk r (λ s. IsSound s.program)) }
{
    match joined_text(alloc, texts)? {
        Ok(joined) => {
            let source = of_joined(alloc, texts, joined.as_slice())?;
            Ok(source)
        }
        Err(mismatch) => Ok(Err(mismatch)),
    }
}
