// What may be there.

ghost use Rattle.std.specs.Prelude.{◌<◌, ◌≤◌, length, IfOk, IfSome};
ghost use Rattle.mdr_grammar.specs.Front.{Read};
ghost use Rattle.mdr_reader.specs.Gives.{Gives, perhaps as perhaps_read};

use crate::failure::Failure;
use mdr_syntax::Token;

/// What was read, or nothing where the first token begins nothing.
pub fn perhaps<'t, T: Drop>(
    read: Result<(T, &'t [Token]), Failure>,
    tokens: &'t [Token],
) -> Result<(Option<T>, &'t [Token]), Failure>
    ensures reads { (o : Read T) → Gives (λ x. x.0) (λ x. x.1.now) read.entry o → Gives (λ x. x.0) (λ x. x.1.now) result (perhaps_read o tokens.now) }
    ensures shorter { IfOk read.entry (λ x. length x.1.now < length tokens.now) → IfOk result (λ x. length x.1.now ≤ length tokens.now) }
    ensures taken { IfOk read.entry (λ x. length x.1.now < length tokens.now) → IfOk result (λ x. IfSome x.0 (λ v. length x.1.now < length tokens.now)) }
{
    match read {
        Ok((x, rest)) => Ok((Some(x), rest)),
        Err(e) => {
            if e.is_at(tokens.len()) {
                Ok((None, tokens))
            } else {
                Err(e)
            }
        }
    }
}
