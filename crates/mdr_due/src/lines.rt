// The lines that are printed of a file, and of a script that is refused.

ghost use Rattle.std.specs.Prelude.{◌≡◌, IfOk};
ghost use Rattle.mdr_due.specs.Lines.{file_line, script_line};

use crate::put::{put_newline, put_number, put_word};
use mdr_core::OutOfMemory;
use std::alloc::Global;

/// What there is to say of a file.
#[tactic(auto, unfolding(crate::specs::Lines::file_line))]
pub fn file_line(alloc: Global, what: &str, name: &str) -> Result<Vec<u8>, OutOfMemory>
    ensures { IfOk result (λ text. text.items ≡ file_line what.now name.now) }
{
    let mut out = Vec::new(alloc);
    put_word(&mut out, what)?;
    put_word(&mut out, name)?;
    put_newline(&mut out)?;
    Ok(out)
}

/// A script that is refused, at a line and for a kind of reason.
#[tactic(auto, unfolding(crate::specs::Lines::script_line))]
pub fn script_line(alloc: Global, line: u32, kind: &str) -> Result<Vec<u8>, OutOfMemory>
    ensures { IfOk result (λ text. text.items ≡ script_line line kind.now) }
{
    let mut out = Vec::new(alloc);
    put_word(&mut out, "script refused ")?;
    put_number(alloc, &mut out, line)?;
    put_word(&mut out, " ")?;
    put_word(&mut out, kind)?;
    put_newline(&mut out)?;
    Ok(out)
}
