// A script, and what each line adds to it.

ghost use Rattle.std.specs.Prelude.{◌≡◌, ◌||◌, ◌&&◌, true, nat_lt, nat_le, length, OnOk};
ghost use Rattle.mdr_script.specs.Lines.{line_at};
ghost use Rattle.mdr_script.specs.Scripts.{empty_script, with_line, is_setup, is_rule_past, is_past, has_commands, placed, judged, Placed, IsRefused};

use crate::line::{Line, ScriptLine};
use crate::lines::line_at;
use crate::script_error::{ScriptError, ScriptKind};
use crate::unread::Unread;
use mdr_core::Items;
use mdr_device::Rule;
use std::alloc::{AllocError, Global};

/// A script: the words with which registers begin, the device's rules, the numbers of the allocations that fail, and
/// the commands in order.
#[derive(Drop)]
pub struct Script {
    pub words: Items<(u32, u32)>,
    pub rules: Items<Rule>,
    pub fails: Items<u64>,
    pub lines: Items<ScriptLine>,
}

fn is_setup(line: &Line) -> bool
    ensures { result ≡ is_setup line.now }
{
    match line {
        Line::Word(_, _) | Line::Rule(_) | Line::Fail(_) => true,
        Line::Nothing | Line::Command(_) => false,
    }
}

fn has_too_much(rules: &[Rule], rule: &Rule) -> bool
    ensures { result ≡ (nat_le 256 (length rules.now) || nat_lt 8 (length rule.now.effects)) }
{
    rules.len() >= 256 || rule.effects.len() > 8
}

/// Why a line that is none of the table's is refused.
fn refusal(alloc: Global, number: u32, bytes: &[u8]) -> ScriptError
    ensures { IsRefused number (line_at true bytes.now) result }
{
    match line_at(alloc, true, bytes) {
        Ok(_) => ScriptError::Line(number, ScriptKind::Range),
        Err(Unread::Refused) => ScriptError::Line(number, ScriptKind::Form),
        Err(Unread::OutOfMemory) => ScriptError::OutOfMemory,
    }
}

impl Script {
    pub fn new(alloc: Global) -> Script
        ensures { result ≡ empty_script }
    {
        Script {
            words: Items::new(alloc),
            rules: Items::new(alloc),
            fails: Items::new(alloc),
            lines: Items::new(alloc),
        }
    }

    fn is_rule_past(&self, line: &Line) -> bool
        ensures { result ≡ is_rule_past line.now self.now }
    {
        match line {
            Line::Rule(rule) => has_too_much(self.rules.as_slice(), rule),
            Line::Nothing | Line::Word(_, _) | Line::Fail(_) | Line::Command(_) => false,
        }
    }

    #[tactic(auto, unfolding(crate::specs::Scripts::is_past))]
    fn is_past(&self, number: u32, line: &Line) -> bool
        ensures value { result ≡ is_past number line.now self.now }
    {
        number > 10_000 || self.is_rule_past(line)
    }

    fn has_commands(&self) -> bool
        ensures { result ≡ has_commands self.now }
    {
        !self.lines.is_empty()
    }

    fn is_late(&self, line: &Line) -> bool
        ensures { result ≡ (is_setup line.now && has_commands self.now) }
    {
        is_setup(line) && self.has_commands()
    }

    /// Adds what a line says.
    fn add(&mut self, number: u32, line: Line) -> Result<(), AllocError>
        ensures { OnOk result (self.new ≡ with_line number line self.old) }
    {
        match line {
            Line::Nothing => Ok(()),
            Line::Word(reg, value) => self.words.push((reg, value)),
            Line::Rule(rule) => self.rules.push(rule),
            Line::Fail(which) => self.fails.push(which),
            Line::Command(what) => self.lines.push(ScriptLine { line: number, what }),
        }
    }

    /// Adds a line of the table, where it may stand.
    #[tactic(auto, unfolding(crate::specs::Scripts::placed))]
    fn place(&mut self, number: u32, line: Line) -> Result<(), ScriptError>
        ensures { Placed number result self.new (placed number self.old line) }
    {
        if self.is_late(&line) {
            return Err(ScriptError::Line(number, ScriptKind::Order));
        }
        if self.is_past(number, &line) {
            return Err(ScriptError::Line(number, ScriptKind::Limit));
        }
        self.add(number, line)?;
        Ok(())
    }

    /// Adds a line, or tells why it is refused.
    #[tactic(auto, unfolding(crate::specs::Scripts::judged))]
    pub fn step(&mut self, alloc: Global, number: u32, bytes: &[u8]) -> Result<(), ScriptError>
        ensures { Placed number result self.new (judged number self.old bytes.now) }
    {
        match line_at(alloc, false, bytes) {
            Ok(line) => self.place(number, line),
            Err(Unread::Refused) => Err(refusal(alloc, number, bytes)),
            Err(Unread::OutOfMemory) => Err(ScriptError::OutOfMemory),
        }
    }
}
