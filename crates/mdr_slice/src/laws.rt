// The laws of halves.

ghost use Rattle.mdr_slice.specs.Laws.{KernelHalfIsLeast, RootsAreFunctions};

/// The kernel half has the roots and what its functions may call, is the least such set, and grows with the roots.
pub fn kernel_half_is_least()
    ensures { KernelHalfIsLeast }
{}

/// What `roots_of` gives are numbers of functions, as `slice` wants them.
pub fn roots_are_functions()
    ensures { RootsAreFunctions }
{}
