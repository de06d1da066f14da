// Objects by their lvalues.

ghost use Rattle.std.specs.Prelude.{◌≡◌, None, Err};

use mdr_core::Ty;
use mdr_faults::Fault;
use mdr_rich::Lval;

/// An object's lvalue and its type, or an array's and that of its elements.
#[derive(Drop)]
pub struct Located {
    pub lval: Lval,
    pub ty: Ty,
}

/// No value, beside which a part is let go.
pub fn nothing<A: Drop, B: Drop>(_part: A) -> Option<B>
    ensures { result ≡ None }
{
    None
}

/// A fault, beside which a part is let go.
pub fn given_up<A: Drop, B: Drop>(fault: Fault, _part: A) -> Result<B, Fault>
    ensures { result ≡ Err fault }
{
    Err(fault)
}
