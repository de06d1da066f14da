// The laws of what becomes what.

ghost use Rattle.mdr_typing.specs.Becoming.{BecomesExactly};

/// A value of the one type may be given to an object of the other exactly where a sound program may give it so.
pub fn becoming_is_exact()
    ensures { BecomesExactly }
{}
