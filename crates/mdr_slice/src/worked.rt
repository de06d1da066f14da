// A network driver worked out: what the definitions of the call graph, the roots and the halves say of it.

ghost use Rattle.mdr_slice.specs.Worked.{CycleIsCut, NetworkDriverIsCut};

/// Which function of a network driver may call which, which are its roots, and which half each belongs to.
pub fn a_network_driver_is_cut()
    ensures { NetworkDriverIsCut }
{}

/// A cycle of calls that a call back closes: its functions are of different halves.
pub fn a_cycle_crosses_the_border()
    ensures { CycleIsCut }
{}
