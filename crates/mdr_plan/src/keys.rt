// The keys of key lines.

ghost use Rattle.std.specs.Prelude.{◌≡◌};
ghost use Rattle.std.specs.Option.{option_map};
ghost use Rattle.mdr_plan.specs.Lines.{is_after, is_there};
ghost use Rattle.mdr_plan.specs.LineReading.{small_number_of, global_of, field_of, elem_of, key_of};

use crate::front::{strip, word_at};
use crate::number::number_of;
use mdr_core::Key;

#[tactic(auto, unfolding(crate::specs::LineReading::small_number_of))]
fn small_number_of(bytes: &[u8]) -> Option<u32>
    ensures { result ≡ small_number_of bytes.now }
{
    let n = number_of(bytes)?;
    if n < 1 << 32 { Some(n as u32) } else { None }
}

#[tactic(auto, unfolding(crate::specs::LineReading::global_of))]
fn global_of(bytes: &[u8]) -> Option<Key>
    ensures { result ≡ global_of bytes.now }
{
    let rest = strip(bytes, b" global ")?;
    Some(Key::Global(small_number_of(rest)?))
}

#[tactic(auto, unfolding(crate::specs::LineReading::field_of))]
fn field_of(bytes: &[u8]) -> Option<Key>
    ensures { result ≡ field_of bytes.now }
{
    let rest = strip(bytes, b" field ")?;
    let (word, rest) = word_at(rest);
    let s = small_number_of(word)?;
    let rest = strip(rest, b" ")?;
    Some(Key::Field(s, small_number_of(rest)?))
}

#[tactic(auto, unfolding(crate::specs::LineReading::elem_of))]
fn elem_of(bytes: &[u8]) -> Option<Key>
    ensures { result ≡ elem_of bytes.now }
{
    let rest = strip(bytes, b" elem ")?;
    Some(Key::Elem(small_number_of(rest)?))
}

/// A key behind its function's number.
pub fn key_of(bytes: &[u8]) -> Option<Key>
    ensures { result ≡ key_of bytes.now }
{
    if let Some(key) = global_of(bytes) {
        return Some(key);
    }
    match field_of(bytes) {
        Some(key) => Some(key),
        None => elem_of(bytes),
    }
}

/// Whether a key may stand behind another: globals, then fields, then types, each rising.
#[tactic(auto, unfolding(crate::specs::Lines::is_after))]
pub fn is_after(last: Option<Key>, key: Key) -> bool
    ensures { result ≡ is_after last key }
{
    let Some(last) = last else { return true };
    match (last, key) {
        (Key::Global(a), Key::Global(b)) => a < b,
        (Key::Global(_), Key::Field(_, _) | Key::Elem(_)) => true,
        (Key::Field(_, _), Key::Global(_)) => false,
        (Key::Field(r, e), Key::Field(s, f)) => r < s || (r == s && e < f),
        (Key::Field(_, _), Key::Elem(_)) => true,
        (Key::Elem(_), Key::Global(_) | Key::Field(_, _)) => false,
        (Key::Elem(a), Key::Elem(b)) => a < b,
    }
}

/// Whether the key's struct or type is there, among so many.
#[tactic(auto, unfolding(crate::specs::Lines::is_there))]
pub fn is_there(structs: usize, types: usize, key: Key) -> bool
    ensures { result ≡ is_there structs types key }
{
    match key {
        Key::Global(_) => true,
        Key::Field(s, _) => (s as usize) < structs,
        Key::Elem(t) => (t as usize) < types,
    }
}
