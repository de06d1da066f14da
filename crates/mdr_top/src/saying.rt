// What there is to say of a transcript.

ghost use Rattle.std.specs.Prelude.{◌≡◌, IfOk};
ghost use Rattle.mdr_due.specs.declared.status.Status.TheVariants as status;
ghost use Rattle.mdr_verify.specs.Printed.{form_text, verdict_text};
ghost use Rattle.mdr_top.specs.Judged.{verdict_status};

use mdr_core::OutOfMemory;
use mdr_due::{Due, Status};
use mdr_verify::{Verdict, form_text, verdict_text};
use std::alloc::Global;

fn verdict_status(verdict: Verdict) -> Status
    ensures { result ≡ verdict_status verdict }
{
    match verdict {
        Verdict::Yes(_) => Status::Done,
        Verdict::Wrong(_) => Status::NotVerified,
        Verdict::Report(_) => Status::NotVerified,
    }
}

/// A verdict.
pub(crate) fn said(alloc: Global, verdict: Verdict) -> Result<Due, OutOfMemory>
    ensures { IfOk result (λ due. (due.status ≡ verdict_status verdict) × (due.text.items ≡ verdict_text verdict)) }
{
    Ok(Due {
        status: verdict_status(verdict),
        text: verdict_text(alloc, verdict)?,
    })
}

/// The first line with which no transcript goes on.
pub(crate) fn misread(alloc: Global, number: u128) -> Result<Due, OutOfMemory>
    ensures { IfOk result (λ due. (due.status ≡ status.NotVerified) × (due.text.items ≡ form_text number)) }
{
    Ok(Due {
        status: Status::NotVerified,
        text: form_text(alloc, number)?,
    })
}
