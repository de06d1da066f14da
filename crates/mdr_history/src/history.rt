// A list of all that happened so far, which contracts see and which takes no bytes.

ghost use Rattle.std.specs.Prelude.{◌≡◌, ◌++◌, ◌∷◌, []};

use logbook::{Gain, Offer, Plain, Rule, Seen, Start};
use std::marker::{Model, PhantomData};

/// What an item of a history is told by: the item itself, or values of which it is made.
pub trait Tells<T> {
    ghost item: { Self → T };
}

impl<T> Tells<T> for T {
    ghost item = { λ told. told };
}

/// The type of a list; no value of it is made.
pub struct Listed<T> {
    of: PhantomData<T>,
}

impl<T> Model for Listed<T> {
    ghost use Rattle.std.specs.Prelude.{List, []};
    ghost use Rattle.std.specs.Coded.{coded_list};

    ghost Value = { List T };

    ghost coded = { coded_list T.code };

    ghost view = { λ e. [] };
}

/// The list of a log that nothing is written to.
pub struct Still;

impl<T> Rule<Listed<T>, ()> for Still {
    ghost use Rattle.std.specs.Prelude.{[]};
    ghost use base.Fml.{ftrue};

    ghost holds = { λ cells log. Unit {0} };

    ghost first = { [] };

    ghost hinted = { λ n log. Unit {0} };

    ghost shows = { λ log. [] };

    ghost keeps = { λ names log. ftrue };

    ghost moves = { λ ask before after answer. Unit {0} };
}

impl<T> Gain<Listed<T>, ()> for Still {
    ghost use base.Fml.{ftrue};

    ghost after = { λ names about answer. ftrue };
}

impl<T> Plain<(), Listed<T>, ()> for Still {
    ghost use Rattle.std.specs.Prelude.{[], None};

    ghost ask = { λ x. [] };

    ghost state = { λ x. None };
}

impl<'a, T, X: Tells<T>> Plain<(&'a History<T>, &'a X), Listed<T>, ()> for Still {
    ghost use Rattle.std.specs.Prelude.{None, ◌++◌, ◌∷◌, []};

    ghost ask = { λ x. x.0.now ++ X.item x.1.now ∷ [] };

    ghost state = { λ x. None };
}

/// All items so far, in their order.
#[derive(Drop)]
pub struct History<T> {
    offer: Offer<Listed<T>, (), Still, Still>,
}

impl<T> Model for History<T> {
    ghost use Rattle.std.specs.Prelude.{List};
    ghost use Rattle.std.specs.Coded.{coded_list};

    ghost Value = { List T };

    ghost coded = { coded_list T.code };

    ghost view = { λ h. h.offer.ask };
}

impl<T> History<T> {
    /// Nothing happened yet.
    pub fn new() -> Self
        ensures { result ≡ [] }
    {
        let (seen, _, _) = Seen::open(Start::alone(), 0, 0);
        History {
            offer: seen.plain::<Still, (), Still>(&()),
        }
    }

    /// One item more.
    pub fn and<X: Tells<T>>(&self, told: &X) -> Self
        ensures { result ≡ self.now ++ X.item told.now ∷ [] }
    {
        let (seen, _, _) = Seen::open(Start::alone(), 0, 0);
        History {
            offer: seen.plain::<Still, (&History<T>, &X), Still>(&(self, told)),
        }
    }
}
