// Reading a line of a script.

ghost use Rattle.std.specs.Prelude.{◌≡◌, ◌||◌};
ghost use Rattle.mdr_script.specs.Gives.{Gives};
ghost use Rattle.mdr_script.specs.Words.{begins_hash, is_empty};
ghost use Rattle.mdr_script.specs.Lines.{reg_line, on_line, fail_line, call_line, idle_line, show_line, setup_line, line_by, line_at};

use crate::arguments::args_at;
use crate::line::{Line, LineWhat};
use crate::number::{idle_at, which_at};
use crate::rules::{reg_value, rule_at};
use crate::unread::Unread;
use crate::words::{begins_hash, ends, name_of, word_at};
use std::alloc::Global;

#[tactic(auto, unfolding(crate::specs::Lines::reg_line))]
fn reg_line(any: bool, bytes: &[u8]) -> Option<Line>
    ensures { result ≡ reg_line any bytes.now }
{
    let ((reg, value), rest) = reg_value(any, bytes)?;
    if ends(rest) {
        Some(Line::Word(reg, value))
    } else {
        None
    }
}

#[tactic(auto, unfolding(crate::specs::Lines::on_line))]
fn on_line(alloc: Global, any: bool, bytes: &[u8]) -> Result<Line, Unread>
    ensures { Gives (λ l. l) result (on_line any bytes.now) }
{
    let rule = rule_at(alloc, any, bytes)?;
    Ok(Line::Rule(rule))
}

#[tactic(auto, unfolding(crate::specs::Lines::fail_line))]
fn fail_line(any: bool, bytes: &[u8]) -> Option<Line>
    ensures { result ≡ fail_line any bytes.now }
{
    let (which, rest) = which_at(any, bytes)?;
    if ends(rest) {
        Some(Line::Fail(which))
    } else {
        None
    }
}

#[tactic(auto, unfolding(crate::specs::Lines::call_line))]
fn call_line(alloc: Global, any: bool, bytes: &[u8]) -> Result<Line, Unread>
    ensures { Gives (λ l. l) result (call_line any bytes.now) }
{
    let (word, rest) = word_at(bytes);
    let name = name_of(alloc, word)?;
    let args = args_at(alloc, any, rest)?;
    Ok(Line::Command(LineWhat::Call(name, args)))
}

#[tactic(auto, unfolding(crate::specs::Lines::idle_line))]
fn idle_line(any: bool, bytes: &[u8]) -> Option<Line>
    ensures { result ≡ idle_line any bytes.now }
{
    let (ticks, rest) = idle_at(any, bytes)?;
    if ends(rest) {
        Some(Line::Command(LineWhat::Idle(ticks)))
    } else {
        None
    }
}

#[tactic(auto, unfolding(crate::specs::Lines::show_line))]
fn show_line(alloc: Global, bytes: &[u8]) -> Result<Line, Unread>
    ensures { Gives (λ l. l) result (show_line bytes.now) }
{
    let (word, rest) = word_at(bytes);
    let name = name_of(alloc, word)?;
    if ends(rest) {
        Ok(Line::Command(LineWhat::Show(name)))
    } else {
        Err(Unread::Refused)
    }
}

/// A line behind which commands may stand.
#[tactic(auto, unfolding(crate::specs::Lines::setup_line))]
fn setup_line(alloc: Global, any: bool, word: &[u8], bytes: &[u8]) -> Result<Line, Unread>
    ensures { Gives (λ l. l) result (setup_line any word.now bytes.now) }
{
    if word == b"reg".as_slice() {
        reg_line(any, bytes).ok_or(Unread::Refused)
    } else if word == b"on".as_slice() {
        on_line(alloc, any, bytes)
    } else if word == b"failalloc".as_slice() {
        fail_line(any, bytes).ok_or(Unread::Refused)
    } else {
        Err(Unread::Refused)
    }
}

#[tactic(auto, unfolding(crate::specs::Lines::line_by))]
fn line_by(alloc: Global, any: bool, word: &[u8], bytes: &[u8]) -> Result<Line, Unread>
    ensures { Gives (λ l. l) result (line_by any word.now bytes.now) }
{
    if word == b"call".as_slice() {
        call_line(alloc, any, bytes)
    } else if word == b"idle".as_slice() {
        idle_line(any, bytes).ok_or(Unread::Refused)
    } else if word == b"show".as_slice() {
        show_line(alloc, bytes)
    } else {
        setup_line(alloc, any, word, bytes)
    }
}

/// Whether nothing is said: a comment, or a line without words.
fn says_nothing(bytes: &[u8], word: &[u8]) -> bool
    ensures { result ≡ (begins_hash bytes.now || is_empty word.now) }
{
    begins_hash(bytes) || word.is_empty()
}

/// What a line says. Where `any` is true, each number will do in the place of any other.
#[tactic(auto, unfolding(crate::specs::Lines::line_at))]
pub fn line_at(alloc: Global, any: bool, bytes: &[u8]) -> Result<Line, Unread>
    ensures { Gives (λ l. l) result (line_at any bytes.now) }
{
    let (word, rest) = word_at(bytes);
    if says_nothing(bytes, word) {
        Ok(Line::Nothing)
    } else {
        line_by(alloc, any, word, rest)
    }
}
