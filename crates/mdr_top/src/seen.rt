// What contracts see of all that lies outside a run.

use mdr_outside::{Far, FarSeen, Shelf, ShelfSeen, Sink, SinkSeen};

/// A shelf, an output and a far side as contracts see them.
pub trait Seen {
    ghost use Rattle.mdr_top.specs.Outside.{Outside};

    ghost at: { Self → Outside };
}

impl<S: Shelf, O: Sink, F: Far> Seen for (S, O, F) {
    ghost at = { λ x. record { sides = record { shelf = ⟦<S as ShelfSeen>⟧.side x.0; far = ⟦<F as FarSeen>⟧.side x.2 }; out = ⟦<O as SinkSeen>⟧.side x.1 } };
}
