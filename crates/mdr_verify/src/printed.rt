// What is printed of a transcript.

ghost use Rattle.std.specs.Prelude.{◌≡◌, ◌++◌, OnOk, IfOk};
ghost use Rattle.mdr_verify.specs.Printed.{count_line, form_text, verdict_text};

use crate::put::{put_number, put_word};
use crate::verdict::{Verdict, Wrong};
use mdr_core::OutOfMemory;
use std::alloc::{AllocError, Global};

/// A line of a word and a number.
fn put_count(alloc: Global, out: &mut Vec<u8>, word: &str, n: u128) -> Result<(), AllocError>
    ensures { OnOk result (out.new.items ≡ out.old.items ++ count_line word.now n) }
{
    put_word(out, word)?;
    put_number(alloc, out, n)?;
    put_word(out, "\n")
}

/// What is printed where no transcript goes on with the line of this number.
#[tactic(auto, unfolding(crate::specs::Printed::form_text))]
pub fn form_text(alloc: Global, number: u128) -> Result<Vec<u8>, OutOfMemory>
    ensures { IfOk result (λ text. text.items ≡ form_text number) }
{
    let mut out = Vec::new(alloc);
    put_count(alloc, &mut out, "differs form ", number)?;
    Ok(out)
}

#[tactic(auto, unfolding(crate::specs::Printed::verdict_text))]
fn put_verdict(alloc: Global, out: &mut Vec<u8>, verdict: Verdict) -> Result<(), AllocError>
    ensures { OnOk result (out.new.items ≡ out.old.items ++ verdict_text verdict) }
{
    match verdict {
        Verdict::Wrong(Wrong::Sent(number)) => put_count(alloc, out, "differs kernel ", number),
        Verdict::Wrong(Wrong::Answer(number)) => put_count(alloc, out, "differs user ", number),
        Verdict::Report(number) => put_count(alloc, out, "differs report ", number),
        Verdict::Yes(number) => put_count(alloc, out, "verified ", number),
    }
}

/// What is printed of a verdict.
pub fn verdict_text(alloc: Global, verdict: Verdict) -> Result<Vec<u8>, OutOfMemory>
    ensures { IfOk result (λ text. text.items ≡ verdict_text verdict) }
{
    let mut out = Vec::new(alloc);
    put_verdict(alloc, &mut out, verdict)?;
    Ok(out)
}
