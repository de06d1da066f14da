// The line that is printed where the words are none of the program's.

ghost use Rattle.std.specs.Prelude.{◌≡◌, IfOk};
ghost use Rattle.mdr_top.specs.Lines.{usage_line};

use mdr_core::OutOfMemory;
use mdr_due::put_word;
use std::alloc::Global;

/// How the program is called.
#[tactic(auto, unfolding(crate::specs::Lines::usage_line))]
pub(crate) fn usage_line(alloc: Global) -> Result<Vec<u8>, OutOfMemory>
    ensures { IfOk result (λ text. text.items ≡ usage_line) }
{
    let mut out = Vec::new(alloc);
    put_word(
        &mut out,
        "usage: split FILE, report FILE, run whole FILE SCRIPT, run split FILE SCRIPT, run halves K U PLAN SCRIPT, gen SEED SIZE\n",
    )?;
    Ok(out)
}
