// The device.

ghost use Rattle.std.specs.Prelude.{◌≡◌, ◌<◌, ◌≤◌, ℕ, IfOk, false};
ghost use Rattle.mdr_device.specs.Horizon.{horizon, skipped};
ghost use Rattle.mdr_device.specs.Machines.{zeros, first_words, made, read, written, ticked, advanced};

use crate::copies::copied_rules;
use crate::firing::{advance, fire};
use crate::horizon::{before_rules, before_zeros, later};
use crate::rule::{Rule, Trigger};
use crate::state::{State, lower};
use mdr_core::{Items, OutOfMemory};
use std::alloc::{AllocError, Global};
use std::marker::Model;

/// How many registers there are.
const REGISTERS: usize = 4096;

/// A device. Reads, writes and ticks take no memory.
#[derive(Drop)]
pub struct Device {
    state: State,
    /// How many ticks there were, where 64 bits hold it.
    ticks: Option<u64>,
    rules: Items<Rule>,
}

impl Model for Device {
    ghost use Rattle.mdr_device.specs.Machines.{Machine};

    ghost Value = { Machine };

    ghost view = { λ s. record { state = s.state; ticks = s.ticks; rules = s.rules } };
}

fn zeros(alloc: Global) -> Result<Items<u32>, AllocError>
    ensures { IfOk result (λ rs. rs ≡ zeros 4096) }
{
    Ok(Items::from_vec(vec![in alloc; 0u32; REGISTERS]?))
}

/// The registers at the beginning: zero but for these words.
#[tactic(auto, unfolding(crate::specs::Machines::first_words))]
fn first_words(alloc: Global, words: &[(u32, u32)]) -> Result<Items<u32>, AllocError>
    ensures { IfOk result (λ rs. rs ≡ first_words words.now) }
{
    let mut registers = zeros(alloc)?;
    for (reg, word) in words {
        registers.set(*reg as usize, *word);
    }
    Ok(registers)
}

impl Device {
    /// A device before the first tick, with these words in its registers, of which the last one of a register counts.
    #[tactic(auto, unfolding(crate::specs::Machines::made))]
    pub fn new(alloc: Global, words: &[(u32, u32)], rules: &[Rule]) -> Result<Device, OutOfMemory>
        ensures { IfOk result (λ d. d ≡ made words.now rules.now) }
    {
        Ok(Device {
            state: State {
                registers: first_words(alloc, words)?,
                counts: [0; 16],
                line: false,
            },
            ticks: Some(0),
            rules: copied_rules(alloc, rules)?,
        })
    }

    /// Reads a register: what it holds is taken, then the rules of reading it happen.
    #[tactic(auto, unfolding(crate::specs::Machines::read))]
    pub fn read(&mut self, reg: u32) -> u32
        ensures { (result, self.new) ≡ read reg self.old }
    {
        let word = self.state.register(reg);
        fire(self.rules.as_slice(), Trigger::Read(reg), &mut self.state);
        word
    }

    /// Writes a register: the word is stored, then the rules of writing it happen.
    #[tactic(auto, unfolding(crate::specs::Machines::written))]
    pub fn write(&mut self, reg: u32, word: u32)
        ensures { self.new ≡ written reg word self.old }
    {
        self.state.put(reg, word);
        fire(self.rules.as_slice(), Trigger::Write(reg), &mut self.state);
    }

    /// Lets one tick pass.
    #[tactic(auto, unfolding(crate::specs::Machines::ticked))]
    fn tick(&mut self)
        ensures { self.new ≡ ticked self.old }
    {
        self.ticks = advance(self.rules.as_slice(), self.ticks, &mut self.state);
    }

    /// How many of so many ticks pass before one does more than to lower count-downs.
    fn horizon(&self, most: u64) -> u64
        ensures { result ≡ horizon most self.now }
    {
        let before = before_rules(self.ticks, self.rules.as_slice(), most);
        before_zeros(&self.state.counts, before)
    }

    /// Counts so many ticks, lowers the count-downs by as many, and does nothing else.
    fn skip(&mut self, ticks: u64)
        ensures { self.new ≡ skipped ticks self.old }
    {
        self.ticks = later(self.ticks, ticks);
        lower(&mut self.state.counts, ticks);
    }

    /// Lets those of so many ticks pass at once in which nothing happens, or the one in which something does. It gives how
    /// many are left.
    fn pass(&mut self, ticks: u64) -> u64
        requires { 1 ≤ ticks }
        ensures fewer { result < ticks }
        ensures passed { advanced result self.new ≡ advanced ticks self.old }
    {
        let calm = self.horizon(ticks);
        if calm == 0 {
            self.tick();
            return ticks - 1;
        }
        self.skip(calm);
        ticks - calm
    }

    /// Lets so many ticks pass.
    pub fn advance(&mut self, ticks: u64)
        ensures { self.new ≡ advanced ticks self.old }
    {
        let mut left = ticks;
        while left > 0 {
            left = self.pass(left);
        }
    }

    /// How many of so many ticks find the interrupt line low before them, at least.
    pub fn low_ticks(&self, most: u64) -> u64
        ensures few { result ≤ most }
        ensures low { (n : ℕ) → n < result → (advanced n self.now).state.line ≡ false }
    {
        if self.state.line || most == 0 {
            return 0;
        }
        self.horizon(most - 1) + 1
    }

    /// Whether the interrupt line is raised.
    pub fn line(&self) -> bool
        ensures { result ≡ self.now.state.line }
    {
        self.state.line
    }
}
