// Laws, each as a function that does nothing.

ghost use Rattle.mdr_callees.specs.Callees.{CodeKeepsToTheCallGraph, CrossingsHaveStubs, OneGraphWhereNothingCallsBack, TheKernelHalfCrossesNowhere};
ghost use Rattle.mdr_callees.specs.Spaced.{CrossingsAreSpaced};

/// Running code of a sound program calls only functions that the call graph says it may call, passes on only functions
/// whose addresses are taken, and registers only handlers that `request_irq` is given somewhere.
pub fn code_keeps_to_the_call_graph()
    ensures { CodeKeepsToTheCallGraph }
{}

/// The call graph of a program that calls nothing back is one, whether such calls count in it or not.
pub fn one_graph_where_nothing_calls_back()
    ensures { OneGraphWhereNothingCallsBack }
{}

/// A function of the kernel half that code of the user half calls has a down stub.
pub fn crossings_have_stubs()
    ensures { CrossingsHaveStubs }
{}

/// Code of the kernel half calls no function of the user half, calls back through the kernel aside.
pub fn the_kernel_half_crosses_nowhere()
    ensures { TheKernelHalfCrossesNowhere }
{}

/// A function with a body is started with no call of the other half before its first tick, and with one at most for each
/// tick; each is made with more functions active than before the function was, and with 255 at most.
pub fn crossings_are_spaced()
    ensures { CrossingsAreSpaced }
{}
