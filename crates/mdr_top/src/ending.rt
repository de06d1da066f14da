// How the program ends after a run.

ghost use Rattle.std.specs.Prelude.{◌≡◌};
ghost use Rattle.mdr_top.specs.WholeRuns.{status_of};

use mdr_due::Status;
use mdr_model::End;

/// The status that tells how a run ended.
pub fn status_of(end: &End) -> Status
    ensures { result ≡ status_of end.now }
{
    match end {
        End::Ok => Status::Done,
        End::Stop(_, _) => Status::Stopped,
        End::Refused(_, _, _) => Status::Marshal,
        End::FarFault(_) => Status::FarFault,
    }
}
