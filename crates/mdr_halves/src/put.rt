// What is printed of three texts that are refused.

ghost use Rattle.std.specs.Prelude.{◌≡◌, ◌++◌, IfOk, OnOk, decimal};
ghost use Rattle.mdr_halves.specs.Lines.{letter, mismatch_line};

use crate::mismatch::{Mismatch, Which};
use mdr_core::OutOfMemory;
use mdr_source::put_word;
use std::alloc::Global;

fn letter(text: Which) -> &'static str
    ensures { result.now ≡ letter text }
{
    match text {
        Which::Kernel => "K",
        Which::User => "U",
        Which::Plan => "P",
    }
}

fn put_number(alloc: Global, out: &mut Vec<u8>, n: u128) -> Result<(), OutOfMemory>
    ensures { OnOk result (out.new.items ≡ out.old.items ++ decimal n) }
{
    let digits = n.to_string(alloc)?;
    put_word(out, digits.as_str())
}

/// The line that tells which text is refused, and on which line.
#[tactic(auto, unfolding(crate::specs::Lines::mismatch_line))]
pub fn mismatch_line(alloc: Global, mismatch: Mismatch) -> Result<Vec<u8>, OutOfMemory>
    ensures { IfOk result (λ text. text.items ≡ mismatch_line mismatch) }
{
    let mut out = Vec::new(alloc);
    put_word(&mut out, "halves refused ")?;
    put_word(&mut out, letter(mismatch.text))?;
    put_word(&mut out, " ")?;
    put_number(alloc, &mut out, mismatch.line)?;
    put_word(&mut out, "\n")?;
    Ok(out)
}
