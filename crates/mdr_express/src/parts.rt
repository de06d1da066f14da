// Two parts of a form. The functions are generic, so that no caller lets go of an operand itself.

ghost use Rattle.std.specs.Prelude.{◌≡◌, IfOk, Err};
ghost use Rattle.mdr_faults.specs.Faults.{Checked, told};

use mdr_core::OutOfMemory;
use mdr_faults::Fault;

/// A part is let go where memory was wanting for another.
pub fn left_over<A: Drop, B: Drop>(error: OutOfMemory, _part: A) -> Result<B, OutOfMemory>
    ensures { result ≡ Err error }
{
    Err(error)
}

/// Two parts of a form, where there was memory for both.
pub fn both_made<A: Drop, B: Drop>(
    a: Result<Result<A, Fault>, OutOfMemory>,
    b: Result<Result<B, Fault>, OutOfMemory>,
) -> Result<(Result<A, Fault>, Result<B, Fault>), OutOfMemory>
    ensures { (c : Checked A) (d : Checked B) → IfOk a (λ x. x ≡ told c) → IfOk b (λ y. y ≡ told d) → IfOk result (λ s. (s.0 ≡ told c) × (s.1 ≡ told d)) }
{
    match a {
        Ok(x) => match b {
            Ok(y) => Ok((x, y)),
            Err(error) => left_over(error, x),
        },
        Err(error) => left_over(error, b),
    }
}
