// Small drivers worked out, each as a function that does nothing.

ghost use Rattle.mdr_plain.specs.WorkedInterrupts.{TakesInterrupt, TakesOneAtATime, StarvesHandler, WaitsForLock, KeepsRules, CutsIdle, TellsTexts};
ghost use Rattle.mdr_plain.specs.WorkedNic.{DrivesCard};
ghost use Rattle.mdr_plain.specs.WorkedRuns.{CountsDown, TurnsRing, CutsRing, TakesAlias, MeetsObjects, FailsSecond, AddsFour, AddsFive, FillsObject};
ghost use Rattle.mdr_plain.specs.WorkedServices.{ServicesStop, ServicesGive};

/// What is printed of runs without a device: loops, structs and pointers, a budget that ends, objects in the order in
/// which they are met, allocations of which one fails, arrays, and objects of locals.
pub fn drivers_run()
    ensures down { CountsDown }
    ensures ring { TurnsRing }
    ensures cut { CutsRing }
    ensures alias { TakesAlias }
    ensures objects { MeetsObjects }
    ensures failing { FailsSecond }
    ensures four { AddsFour }
    ensures five { AddsFive }
    ensures object { FillsObject }
{}

/// An interrupt is taken between two statements, in idle time and behind a result, never in a handler nor while a lock
/// is held, and before the budget is tested.
pub fn interrupts_are_taken()
    ensures between { TakesInterrupt }
    ensures one { TakesOneAtATime }
    ensures starved { StarvesHandler }
    ensures locked { WaitsForLock }
{}

/// Each trigger and each effect of a device's rules, and idle time whose ticks end.
pub fn devices_rule()
    ensures rules { KeepsRules }
    ensures cut { CutsIdle }
{}

/// Printed texts and delivered bytes, escaped.
pub fn texts_are_told()
    ensures { TellsTexts }
{}

/// Each stop of a service, and what services give.
pub fn services_are_served()
    ensures stops { ServicesStop }
    ensures gives { ServicesGive }
{}

/// The report of a network driver's script: locks, an interrupt that answers each packet, a table of functions, and a
/// ring of buffers.
pub fn a_network_driver_runs()
    ensures { DrivesCard }
{}
