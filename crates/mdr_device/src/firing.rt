// Rules that happen.

ghost use Rattle.std.specs.Prelude.{◌≡◌, ◌&&◌, length};
ghost use Rattle.std.specs.List.{list_all};
ghost use Rattle.mdr_device.specs.Rules.{is_for, holds, ruled, fired, next_tick, tick_fired, rung_once, rung, is_zero, counted, one_tick};

use crate::rule::{Rule, Trigger};
use crate::state::{State, holds, lower};

/// Whether it is the event that the trigger names.
fn is_for(trigger: Trigger, event: Trigger) -> bool
    ensures { result ≡ is_for trigger event }
{
    match (trigger, event) {
        (Trigger::Write(reg), Trigger::Write(other)) => reg == other,
        (Trigger::Read(reg), Trigger::Read(other)) => reg == other,
        (Trigger::Tick(tick), Trigger::Tick(other)) => tick == other,
        (Trigger::Zero(count), Trigger::Zero(other)) => count == other,
        _ => false,
    }
}

/// Whether the rule happens now.
fn happens(rule: &Rule, event: Trigger, registers: &[u32]) -> bool
    ensures { result ≡ (is_for rule.now.trigger event && holds rule.now.guard registers.now) }
{
    is_for(rule.trigger, event) && holds(rule.guard, registers)
}

/// Lets one rule happen, if it does.
#[tactic(auto, unfolding(crate::specs::Rules::ruled))]
fn apply(rule: &Rule, event: Trigger, state: &mut State)
    ensures { state.new ≡ ruled event rule.now state.old }
{
    if happens(rule, event, state.registers.as_slice()) {
        state.apply_all(rule.effects.as_slice());
    }
}

/// Lets the rules of an event happen in their order, each under its guard at that moment.
pub fn fire(rules: &[Rule], event: Trigger, state: &mut State)
    ensures { state.new ≡ fired event rules.now state.old }
{
    for rule in rules {
        apply(rule, event, state);
    }
}

/// The number of the next tick, if 64 bits hold it.
fn next_tick(ticks: Option<u64>) -> Option<u64>
    ensures { result ≡ next_tick ticks }
{
    ticks?.checked_add(1)
}

/// Lets the rules of a tick happen.
fn fire_tick(rules: &[Rule], tick: Option<u64>, state: &mut State)
    ensures { state.new ≡ tick_fired tick rules.now state.old }
{
    if let Some(tick) = tick {
        fire(rules, Trigger::Tick(tick), state);
    }
}

/// Lets the rules of a count-down happen where one tick was left of it.
fn ring(rules: &[Rule], count: u32, left: u32, state: &mut State)
    ensures { state.new ≡ rung_once count left rules.now state.old }
{
    if left == 1 {
        fire(rules, Trigger::Zero(count), state);
    }
}

/// Lets the rules happen of those count-downs of which one tick was left, in the order of their numbers.
fn ring_all(rules: &[Rule], left: &[u32], state: &mut State)
    requires { length left.now ≡ 16 }
    ensures { state.new ≡ rung 0 left.now rules.now state.old }
{
    let mut count = 0u32;
    for ticks in left {
        ring(rules, count, *ticks, state);
        count += 1;
    }
}

/// Whether no count-down goes on.
fn are_idle(counts: &[u32]) -> bool
    ensures { result ≡ list_all is_zero counts.now }
{
    counts.iter().all(|n| *n == 0)
}

/// Lets the count-downs go on, and the rules happen of those that become zero.
fn count_down(rules: &[Rule], state: &mut State)
    ensures { state.new ≡ counted rules.now state.old }
{
    let left = state.counts;
    lower(&mut state.counts, 1);
    ring_all(rules, &left, state);
}

/// The same, where most often no count-down goes on.
#[tactic(auto, using(crate::proofs::Idle::idle_counted))]
fn count_down_if_any(rules: &[Rule], state: &mut State)
    ensures { state.new ≡ counted rules.now state.old }
{
    if !are_idle(&state.counts) {
        count_down(rules, state);
    }
}

/// One tick of the device. It gives the tick's number.
#[tactic(auto, unfolding(crate::specs::Rules::one_tick))]
pub fn advance(rules: &[Rule], ticks: Option<u64>, state: &mut State) -> Option<u64>
    ensures { (result, state.new) ≡ one_tick rules.now ticks state.old }
{
    let tick = next_tick(ticks);
    fire_tick(rules, tick, state);
    count_down_if_any(rules, state);
    tick
}
