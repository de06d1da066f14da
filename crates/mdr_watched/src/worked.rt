// Small drivers worked out, each as a function that does nothing.

ghost use Rattle.mdr_watched.specs.Worked.{EndsTexts, FindsSentinels, HoldsInDowncall, HoldsInterrupt, KeepsAlias, LooksThrough, MeasuresArrays, PassesPointers, TouchesOwn};

/// Arrays, tables and texts are measured as their annotations say, when a function of the user half begins: one that is too
/// long or has no end stops the run there, unless the function touches none of its elements.
pub fn extents_are_measured()
    ensures arrays { MeasuresArrays }
    ensures sentinels { FindsSentinels }
    ensures texts { EndsTexts }
{}

/// A function of the user half goes on touching what it was once led to, touches its own objects and what it is given or
/// passed, and doesn't look through an opaque pointer.
pub fn sets_are_followed()
    ensures alias { KeepsAlias }
    ensures own { TouchesOwn }
    ensures passed { PassesPointers }
    ensures opaque { LooksThrough }
{}

/// An interrupt that becomes due in an upcall is taken behind it, also where the line rises in a function of the kernel half
/// that user code calls.
pub fn interrupts_are_held()
    ensures upcall { HoldsInterrupt }
    ensures downcall { HoldsInDowncall }
{}
