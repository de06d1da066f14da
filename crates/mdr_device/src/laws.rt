// What devices do.

ghost use Rattle.mdr_device.specs.Worked.{DevicesWork};

/// What some devices do.
pub fn devices_work()
    ensures { DevicesWork }
{}
