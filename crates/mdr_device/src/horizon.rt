// How many ticks pass before a device does something.

ghost use Rattle.std.specs.Prelude.{◌≡◌};
ghost use Rattle.mdr_device.specs.Horizon.{before_event, before_rules, before_tick, before_zero, before_zeros, later};

use crate::rule::{Rule, Trigger};

/// Of so many ticks behind those that passed, those before this one: all where it is one of them.
fn before_tick(passed: u64, tick: u64, most: u64) -> u64
    ensures { result ≡ before_tick passed tick most }
{
    if passed < tick {
        most.min(tick - passed - 1)
    } else {
        most
    }
}

/// Of so many ticks those before the event, which may be no tick.
fn before_event(ticks: Option<u64>, trigger: Trigger, most: u64) -> u64
    ensures { result ≡ before_event ticks trigger most }
{
    match trigger {
        Trigger::Tick(tick) => match ticks {
            Some(passed) => before_tick(passed, tick, most),
            None => most,
        },
        Trigger::Write(_) => most,
        Trigger::Read(_) => most,
        Trigger::Zero(_) => most,
    }
}

/// Of so many ticks those before the first for which a rule waits.
pub fn before_rules(ticks: Option<u64>, rules: &[Rule], most: u64) -> u64
    ensures { result ≡ before_rules ticks rules.now most }
{
    let mut before = most;
    for rule in rules {
        before = before_event(ticks, rule.trigger, before);
    }
    before
}

/// Of so many ticks those before the last one of a count-down, if it goes on.
fn before_zero(count: u32, most: u64) -> u64
    ensures { result ≡ before_zero count most }
{
    if count == 0 {
        most
    } else {
        most.min(count as u64 - 1)
    }
}

/// Of so many ticks those before the first in which a count-down ends.
pub fn before_zeros(counts: &[u32], most: u64) -> u64
    ensures { result ≡ before_zeros counts.now most }
{
    let mut before = most;
    for count in counts {
        before = before_zero(*count, before);
    }
    before
}

/// The number of the tick that is so many later, if 64 bits hold it.
pub fn later(ticks: Option<u64>, more: u64) -> Option<u64>
    ensures { result ≡ later more ticks }
{
    ticks?.checked_add(more)
}
