// A law, as a function that does nothing.

ghost use Rattle.mdr_mem.specs.Standing.{ValuesStand};

/// Values in cells are what the model's memory holds of them, and pointers keep their slots whatever is born and dies.
pub fn values_stand()
    ensures { ValuesStand }
{}
