// What contracts see of the outside, each side as one record.

use crate::far::Far;
use crate::shelf::Shelf;
use crate::sink::Sink;

/// A shelf as contracts see it.
pub trait ShelfSeen {
    ghost use Rattle.mdr_outside.specs.Sides.{ShelfSide};

    ghost side: { Self → ShelfSide };
}

impl<S: Shelf> ShelfSeen for S {
    ghost side = { λ s. record { files = S.files s; calls = S.calls s; faults = S.faults s; absent = S.absent s; long = S.long s; unwritten = S.unwritten s } };
}

/// A sink as contracts see it.
pub trait SinkSeen {
    ghost use Rattle.mdr_outside.specs.Sides.{SinkSide};

    ghost side: { Self → SinkSide };
}

impl<O: Sink> SinkSeen for O {
    ghost side = { λ o. record { written = O.written o; calls = O.calls o; faults = O.faults o } };
}

/// A far side as contracts see it.
pub trait FarSeen {
    ghost use Rattle.mdr_outside.specs.Sides.{FarSide};

    ghost side: { Self → FarSide };
}

impl<F: Far> FarSeen for F {
    ghost side = { λ f. record { loaded = F.loaded f; exchanges = F.exchanges f; calls = F.calls f; faults = F.faults f } };
}
