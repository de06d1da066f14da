// What contracts see of a shelf and a far side.

use mdr_outside::{Far, FarSeen, Shelf, ShelfSeen};

/// A shelf and a far side as contracts see them, before some work and after it.
pub trait SidesSeen {
    ghost use Rattle.mdr_top.specs.Sides.{Change};

    ghost change: { Self → Self → Change };
}

impl<S: Shelf, F: Far> SidesSeen for (S, F) {
    ghost use Rattle.mdr_top.specs.Sides.{changed};

    ghost change = { λ x y. changed (⟦<S as ShelfSeen>⟧.side x.0) (⟦<F as FarSeen>⟧.side x.1) (⟦<S as ShelfSeen>⟧.side y.0) (⟦<F as FarSeen>⟧.side y.1) };
}
