// What is wrong in a source, and where.

ghost use Rattle.std.specs.Prelude.{◌≡◌};
ghost use Rattle.mdr_faults.specs.Faults.{number, is_before, lesser};

use mdr_core::Place;

/// Which rule a form breaks. Of several faults at one place the first kind in this order is told.
#[derive(Clone, Copy, Debug)]
pub enum FaultKind {
    /// A name without a declaration in scope, or a member that the struct hasn't.
    UnknownName,
    /// A second declaration of a name in one scope and name space.
    Redefined,
    /// A wrong type.
    Mismatch,
    NotAnLvalue,
    BadAnnotation,
    /// What a `request_irq` is given is no function that takes and gives nothing.
    IrqTarget,
    /// More of something than there may be.
    Limit,
    /// A struct or a function without its definition.
    Incomplete,
    /// A wrong number of arguments.
    BadArity,
}

/// A broken rule, and the place at which it is told.
#[derive(Clone, Copy, Debug)]
pub struct Fault {
    pub place: Place,
    pub kind: FaultKind,
}

fn number(kind: FaultKind) -> u32
    ensures { result ≡ number kind }
{
    match kind {
        FaultKind::UnknownName => 1,
        FaultKind::Redefined => 2,
        FaultKind::Mismatch => 3,
        FaultKind::NotAnLvalue => 4,
        FaultKind::BadAnnotation => 5,
        FaultKind::IrqTarget => 6,
        FaultKind::Limit => 7,
        FaultKind::Incomplete => 8,
        FaultKind::BadArity => 9,
    }
}

/// Whether a fault comes before another.
fn is_before(f: Fault, g: Fault) -> bool
    ensures { result ≡ is_before f g }
{
    if f.place.line != g.place.line {
        return f.place.line < g.place.line;
    }
    if f.place.column != g.place.column {
        return f.place.column < g.place.column;
    }
    number(f.kind) < number(g.kind)
}

/// The one that comes first.
pub fn lesser(f: Fault, g: Fault) -> Fault
    ensures { result ≡ lesser f g }
{
    if is_before(g, f) { g } else { f }
}
