// Reading a rule of a device.

ghost use Rattle.std.specs.Prelude.{◌≡◌, ◌++◌, ◌∷◌, length};
ghost use Rattle.std.specs.Option.{option_map};
ghost use Rattle.mdr_script.specs.Gives.{Gives};
ghost use Rattle.mdr_script.specs.Rules.{reg_value, write_at, read_at, tick_at, zero_at, trigger_by, trigger_at, behind_do, some_guard, no_guard, guard_at, set_at};
ghost use Rattle.mdr_script.specs.Rules.{clear_at, put_at, copy_at, start_at, line_effect, effect_by, effect_at, behind_effect, effects_from, effects_at, rule_at};

use crate::number::{count_at, reg_at, ticks_at, value_at, which_at};
use crate::unread::Unread;
use crate::words::piece_at;
use mdr_core::Items;
use mdr_device::{Effect, Guard, Rule, Trigger};
use std::alloc::Global;

/// A register and a word of 32 bits.
#[tactic(auto, unfolding(crate::specs::Rules::reg_value))]
pub fn reg_value(any: bool, bytes: &[u8]) -> Option<((u32, u32), &[u8])>
    ensures { option_map (λ x. (x.0, x.1.now)) result ≡ reg_value any bytes.now }
{
    let (reg, rest) = reg_at(any, bytes)?;
    let (value, rest) = value_at(any, rest)?;
    Some(((reg, value), rest))
}

#[tactic(auto, unfolding(crate::specs::Rules::write_at))]
fn write_at(any: bool, bytes: &[u8]) -> Option<(Trigger, &[u8])>
    ensures { option_map (λ x. (x.0, x.1.now)) result ≡ write_at any bytes.now }
{
    let (n, rest) = reg_at(any, bytes)?;
    Some((Trigger::Write(n), rest))
}

#[tactic(auto, unfolding(crate::specs::Rules::read_at))]
fn read_at(any: bool, bytes: &[u8]) -> Option<(Trigger, &[u8])>
    ensures { option_map (λ x. (x.0, x.1.now)) result ≡ read_at any bytes.now }
{
    let (n, rest) = reg_at(any, bytes)?;
    Some((Trigger::Read(n), rest))
}

#[tactic(auto, unfolding(crate::specs::Rules::tick_at))]
fn tick_at(any: bool, bytes: &[u8]) -> Option<(Trigger, &[u8])>
    ensures { option_map (λ x. (x.0, x.1.now)) result ≡ tick_at any bytes.now }
{
    let (n, rest) = which_at(any, bytes)?;
    Some((Trigger::Tick(n), rest))
}

#[tactic(auto, unfolding(crate::specs::Rules::zero_at))]
fn zero_at(any: bool, bytes: &[u8]) -> Option<(Trigger, &[u8])>
    ensures { option_map (λ x. (x.0, x.1.now)) result ≡ zero_at any bytes.now }
{
    let (n, rest) = count_at(any, bytes)?;
    Some((Trigger::Zero(n), rest))
}

#[tactic(auto, unfolding(crate::specs::Rules::trigger_by))]
fn trigger_by<'a>(any: bool, word: &[u8], bytes: &'a [u8]) -> Option<(Trigger, &'a [u8])>
    ensures { option_map (λ x. (x.0, x.1.now)) result ≡ trigger_by any word.now bytes.now }
{
    if word == b"write".as_slice() {
        write_at(any, bytes)
    } else if word == b"read".as_slice() {
        read_at(any, bytes)
    } else if word == b"tick".as_slice() {
        tick_at(any, bytes)
    } else if word == b"zero".as_slice() {
        zero_at(any, bytes)
    } else {
        None
    }
}

/// What a rule waits for.
fn trigger_at(any: bool, bytes: &[u8]) -> Option<(Trigger, &[u8])>
    ensures { option_map (λ x. (x.0, x.1.now)) result ≡ trigger_at any bytes.now }
{
    let (word, rest) = piece_at(bytes);
    trigger_by(any, word, rest)
}

/// What stands behind the word `do`.
#[tactic(auto, unfolding(crate::specs::Rules::behind_do))]
fn behind_do(bytes: &[u8]) -> Option<&[u8]>
    ensures { option_map (λ r. r.now) result ≡ behind_do bytes.now }
{
    let (word, rest) = piece_at(bytes);
    if word == b"do".as_slice() {
        Some(rest)
    } else {
        None
    }
}

#[tactic(auto, unfolding(crate::specs::Rules::some_guard))]
fn some_guard(any: bool, bytes: &[u8]) -> Option<(Option<Guard>, &[u8])>
    ensures { option_map (λ x. (x.0, x.1.now)) result ≡ some_guard any bytes.now }
{
    let (reg, rest) = reg_at(any, bytes)?;
    let (mask, rest) = value_at(any, rest)?;
    let (value, rest) = value_at(any, rest)?;
    let rest = behind_do(rest)?;
    Some((Some(Guard { reg, mask, value }), rest))
}

#[tactic(auto, unfolding(crate::specs::Rules::no_guard))]
fn no_guard(bytes: &[u8]) -> Option<(Option<Guard>, &[u8])>
    ensures { option_map (λ x. (x.0, x.1.now)) result ≡ no_guard bytes.now }
{
    let rest = behind_do(bytes)?;
    Some((None, rest))
}

/// The condition, if there is one, and the word `do`.
#[tactic(auto, unfolding(crate::specs::Rules::guard_at))]
fn guard_at(any: bool, bytes: &[u8]) -> Option<(Option<Guard>, &[u8])>
    ensures { option_map (λ x. (x.0, x.1.now)) result ≡ guard_at any bytes.now }
{
    let (word, rest) = piece_at(bytes);
    if word == b"if".as_slice() {
        some_guard(any, rest)
    } else {
        no_guard(bytes)
    }
}

#[tactic(auto, unfolding(crate::specs::Rules::set_at))]
fn set_at(any: bool, bytes: &[u8]) -> Option<(Effect, &[u8])>
    ensures { option_map (λ x. (x.0, x.1.now)) result ≡ set_at any bytes.now }
{
    let ((reg, value), rest) = reg_value(any, bytes)?;
    Some((Effect::Set(reg, value), rest))
}

#[tactic(auto, unfolding(crate::specs::Rules::clear_at))]
fn clear_at(any: bool, bytes: &[u8]) -> Option<(Effect, &[u8])>
    ensures { option_map (λ x. (x.0, x.1.now)) result ≡ clear_at any bytes.now }
{
    let ((reg, value), rest) = reg_value(any, bytes)?;
    Some((Effect::Clear(reg, value), rest))
}

#[tactic(auto, unfolding(crate::specs::Rules::put_at))]
fn put_at(any: bool, bytes: &[u8]) -> Option<(Effect, &[u8])>
    ensures { option_map (λ x. (x.0, x.1.now)) result ≡ put_at any bytes.now }
{
    let ((reg, value), rest) = reg_value(any, bytes)?;
    Some((Effect::Put(reg, value), rest))
}

#[tactic(auto, unfolding(crate::specs::Rules::copy_at))]
fn copy_at(any: bool, bytes: &[u8]) -> Option<(Effect, &[u8])>
    ensures { option_map (λ x. (x.0, x.1.now)) result ≡ copy_at any bytes.now }
{
    let (first, rest) = reg_at(any, bytes)?;
    let (second, rest) = reg_at(any, rest)?;
    Some((Effect::CopyTo(first, second), rest))
}

#[tactic(auto, unfolding(crate::specs::Rules::start_at))]
fn start_at(any: bool, bytes: &[u8]) -> Option<(Effect, &[u8])>
    ensures { option_map (λ x. (x.0, x.1.now)) result ≡ start_at any bytes.now }
{
    let (first, rest) = count_at(any, bytes)?;
    let (second, rest) = ticks_at(any, rest)?;
    Some((Effect::Start(first, second), rest))
}

/// An effect that changes the line.
#[tactic(auto, unfolding(crate::specs::Rules::line_effect))]
fn line_effect<'a>(word: &[u8], bytes: &'a [u8]) -> Option<(Effect, &'a [u8])>
    ensures { option_map (λ x. (x.0, x.1.now)) result ≡ line_effect word.now bytes.now }
{
    if word == b"raise".as_slice() {
        Some((Effect::Raise, bytes))
    } else if word == b"lower".as_slice() {
        Some((Effect::Lower, bytes))
    } else {
        None
    }
}

#[tactic(auto, unfolding(crate::specs::Rules::effect_by))]
fn effect_by<'a>(any: bool, word: &[u8], bytes: &'a [u8]) -> Option<(Effect, &'a [u8])>
    ensures { option_map (λ x. (x.0, x.1.now)) result ≡ effect_by any word.now bytes.now }
{
    if word == b"set".as_slice() {
        set_at(any, bytes)
    } else if word == b"clear".as_slice() {
        clear_at(any, bytes)
    } else if word == b"put".as_slice() {
        put_at(any, bytes)
    } else if word == b"copy".as_slice() {
        copy_at(any, bytes)
    } else if word == b"start".as_slice() {
        start_at(any, bytes)
    } else {
        line_effect(word, bytes)
    }
}

fn effect_at(any: bool, bytes: &[u8]) -> Option<(Effect, &[u8])>
    ensures { option_map (λ x. (x.0, x.1.now)) result ≡ effect_at any bytes.now }
{
    let (word, rest) = piece_at(bytes);
    effect_by(any, word, rest)
}

/// What stands behind a comma that stands behind an effect, or none at the line's end.
#[tactic(auto, unfolding(crate::specs::Rules::behind_effect))]
fn behind_effect(bytes: &[u8]) -> Option<Option<&[u8]>>
    ensures { option_map (option_map (λ r. r.now)) result ≡ behind_effect bytes.now }
{
    let (word, rest) = piece_at(bytes);
    if word == b",".as_slice() {
        Some(Some(rest))
    } else if word.is_empty() {
        Some(None)
    } else {
        None
    }
}

/// Effects with commas between them, to the line's end.
#[tactic(auto, unfolding(crate::specs::Rules::effects_at))]
fn effects_at(alloc: Global, any: bool, bytes: &[u8]) -> Result<Items<Effect>, Unread>
    ensures { Gives (λ es. es) result (effects_at any bytes.now) }
{
    let mut effects = Items::new(alloc);
    let mut rest = bytes;
    let mut most = bytes.len();
    while most > 0 {
        let (effect, behind) = effect_at(any, rest).ok_or(Unread::Refused)?;
        effects.push(effect)?;
        let Some(more) = behind_effect(behind).ok_or(Unread::Refused)? else {
            return Ok(effects);
        };
        rest = more;
        most -= 1;
    }
    Err(Unread::Refused)
}

/// A rule, to the line's end.
#[tactic(auto, unfolding(crate::specs::Rules::rule_at))]
pub fn rule_at(alloc: Global, any: bool, bytes: &[u8]) -> Result<Rule, Unread>
    ensures { Gives (λ r. r) result (rule_at any bytes.now) }
{
    let (trigger, rest) = trigger_at(any, bytes).ok_or(Unread::Refused)?;
    let (guard, rest) = guard_at(any, rest).ok_or(Unread::Refused)?;
    let effects = effects_at(alloc, any, rest)?;
    Ok(Rule {
        trigger,
        guard,
        effects,
    })
}
