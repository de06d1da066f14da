// Small drivers worked out, each as a function that does nothing.

ghost use Rattle.mdr_split.specs.Worked.{BumpSends};

/// The eight messages of a driver whose user half calls the kernel half, asks for a service, and calls again.
pub fn messages_are_passed()
    ensures bump { BumpSends }
{}
