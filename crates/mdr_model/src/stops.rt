// The stops that replies tell of, by their numbers.

ghost use Rattle.std.specs.Prelude.{◌≡◌, ◌==◌, find};
ghost use Rattle.mdr_model.specs.ReplyFaults.{stop_number, user_stop};

use mdr_core::StopKind;

/// A stop's number, from 1.
pub fn stop_number(kind: StopKind) -> u32
    ensures { result ≡ stop_number kind }
{
    match kind {
        StopKind::Null => 1,
        StopKind::Dead => 2,
        StopKind::Bounds => 3,
        StopKind::Overflow => 4,
        StopKind::DivZero => 5,
        StopKind::Shift => 6,
        StopKind::Compare => 7,
        StopKind::BadCast => 8,
        StopKind::BadCall => 9,
        StopKind::NoValue => 10,
        StopKind::LockHeld => 11,
        StopKind::LockFree => 12,
        StopKind::Depth => 13,
        StopKind::Bug => 14,
        StopKind::Annotation => 15,
        StopKind::Ticks => 16,
        StopKind::Atomic => 17,
    }
}

fn stop_in(kinds: &[StopKind], number: u32) -> Option<StopKind>
    ensures { result ≡ find (λ kind. stop_number kind == number) kinds.now }
{
    kinds
        .iter()
        .copied()
        .find(|kind| stop_number(*kind) == number)
}

/// The stop with a number, if user code may end there.
#[tactic(auto, unfolding(crate::specs::ReplyFaults::user_stop))]
pub fn user_stop(number: u32) -> Option<StopKind>
    ensures { result ≡ user_stop number }
{
    stop_in(
        &[
            StopKind::Null,
            StopKind::Dead,
            StopKind::Bounds,
            StopKind::Overflow,
            StopKind::DivZero,
            StopKind::Shift,
            StopKind::Compare,
            StopKind::BadCast,
            StopKind::BadCall,
            StopKind::NoValue,
            StopKind::Depth,
            StopKind::Annotation,
            StopKind::Ticks,
        ],
        number,
    )
}
