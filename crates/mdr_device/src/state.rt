// What rules change.

ghost use Rattle.std.specs.Prelude.{◌≡◌, slice_set, map, ◌-◌};
ghost use Rattle.mdr_device.specs.Rules.{register, holds, effected, all_effected};

use crate::rule::{Effect, Guard};
use mdr_core::Items;

/// Registers, count-downs and the line.
#[derive(Drop)]
pub struct State {
    pub registers: Items<u32>,
    pub counts: [u32; 16],
    /// Whether the line is raised.
    pub line: bool,
}

fn register(registers: &[u32], reg: u32) -> u32
    ensures { result ≡ register registers.now reg }
{
    match registers.get(reg as usize) {
        Some(word) => *word,
        None => 0,
    }
}

/// Whether the guarded bits have their value. What has no guard always happens.
pub fn holds(guard: Option<Guard>, registers: &[u32]) -> bool
    ensures { result ≡ holds guard registers.now }
{
    match guard {
        Some(guard) => register(registers, guard.reg) & guard.mask == guard.value,
        None => true,
    }
}

/// Starts a count-down. There is none past the end, and nothing is done.
fn set_count(counts: &mut [u32; 16], count: u32, ticks: u32)
    ensures { counts.new ≡ slice_set counts.old count ticks }
{
    if (count as usize) < counts.len() {
        counts[count as usize] = ticks;
    }
}

/// What is left of a count-down behind so many ticks.
fn less(count: u32, ticks: u64) -> u32
    ensures { result ≡ count - ticks }
{
    if ticks < count as u64 {
        count - ticks as u32
    } else {
        0
    }
}

/// Takes so many ticks from each count-down, down to zero.
pub fn lower(counts: &mut [u32; 16], ticks: u64)
    ensures { counts.new ≡ map (λ n. n - ticks) counts.old }
{
    let mut i = 0;
    while i < counts.len() {
        counts[i] = less(counts[i], ticks);
        i += 1;
    }
}

impl State {
    /// What a register holds. Past the last one that is 0.
    pub fn register(&self, reg: u32) -> u32
        ensures { result ≡ register self.now.registers reg }
    {
        register(self.registers.as_slice(), reg)
    }

    /// Puts a word into a register. Past the last one nothing is done.
    pub fn put(&mut self, reg: u32, word: u32)
        ensures { self.new ≡ record self.old { registers = slice_set self.old.registers reg word } }
    {
        self.registers.set(reg as usize, word);
    }

    #[tactic(auto, unfolding(crate::specs::Rules::effected))]
    fn apply(&mut self, effect: Effect)
        ensures { self.new ≡ effected effect self.old }
    {
        match effect {
            Effect::Set(reg, mask) => self.put(reg, self.register(reg) | mask),
            Effect::Clear(reg, mask) => self.put(reg, self.register(reg) & !mask),
            Effect::Put(reg, word) => self.put(reg, word),
            Effect::CopyTo(from, to) => self.put(to, self.register(from)),
            Effect::Start(count, ticks) => set_count(&mut self.counts, count, ticks),
            Effect::Raise => self.line = true,
            Effect::Lower => self.line = false,
        }
    }

    /// Lets the effects happen, one after the other.
    pub fn apply_all(&mut self, effects: &[Effect])
        ensures { self.new ≡ all_effected effects.now self.old }
    {
        for effect in effects {
            self.apply(*effect);
        }
    }
}
