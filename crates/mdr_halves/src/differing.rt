// The first of three texts that isn't what is due.

ghost use Rattle.std.specs.Prelude.{◌≡◌};
ghost use Rattle.mdr_halves.specs.Stages.{FirstOther, OtherIn};

use crate::mismatch::{Mismatch, Which};
use mdr_cut::Texts;
use mdr_verify::first_other_line;

fn other_in(text: Which, said: &[u8], due: &[u8]) -> Option<Mismatch>
    ensures { OtherIn text said.now due.now result }
{
    match first_other_line(said, due) {
        Some(line) => Some(Mismatch { text, line }),
        None => None,
    }
}

/// The first of these texts that isn't the one that is due, and its first other line.
pub(crate) fn first_other(given: &Texts, due: &Texts) -> Option<Mismatch>
    ensures { FirstOther given.now due.now result }
{
    match other_in(
        Which::Kernel,
        given.kernel.as_slice(),
        due.kernel.as_slice(),
    ) {
        Some(mismatch) => Some(mismatch),
        None => match other_in(Which::User, given.user.as_slice(), due.user.as_slice()) {
            Some(mismatch) => Some(mismatch),
            None => other_in(Which::Plan, given.plan.as_slice(), due.plan.as_slice()),
        },
    }
}
