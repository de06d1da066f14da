// Types by their numbers.

ghost use Rattle.std.specs.Prelude.{◌≡◌, ◌≤◌, length};
ghost use Rattle.mdr_meaning.specs.Numbers.{is_same_type, number_in};

use mdr_core::{Ty, same_type};

fn is_same_type(a: &Ty, b: &Ty) -> bool
    ensures { result ≡ is_same_type a.now b.now }
{
    same_type(a, b)
}

/// The first place of a type in a list; behind its end where it isn't there.
#[tactic(auto, unfolding(mdr_meaning::specs::Numbers::number_in))]
fn number_in(types: &[Ty], ty: &Ty) -> usize
    ensures number { result ≡ number_in types.now ty.now }
    ensures within { result ≤ length types.now }
{
    for i in 0..types.len() {
        if is_same_type(&types[i], ty) {
            return i;
        }
    }
    types.len()
}

/// The number of a type in a table of few; behind its end where it isn't there.
pub fn number_of(types: &[Ty], ty: &Ty) -> u32
    requires { length types.now ≤ 16777216 }
    ensures { result ≡ number_in types.now ty.now }
{
    number_in(types, ty) as u32
}
