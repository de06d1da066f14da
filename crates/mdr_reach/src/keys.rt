// Keys in lists.

ghost use Rattle.std.specs.Prelude.{◌≡◌, ◌==◌, ◌||◌, ◌<◌, ℕ, IfOk, OnOk, length};
ghost use Rattle.std.specs.List.{list_any};
ghost use Rattle.mdr_access.specs.KeyOrder.{keys as key_nodes, same_key};
ghost use Rattle.mdr_core.specs.declared.plan.Key.TheVariants as key;
ghost use Rattle.mdr_paths.specs.Paths.{is_in};
ghost use Rattle.mdr_reach.specs.Keys.{AreLoneKeys, is_set};

use mdr_core::{Key, OutOfMemory};
use std::alloc::Global;

/// Whether two keys are one.
fn same_key(a: Key, b: Key) -> bool
    ensures { result ≡ same_key a b }
{
    match (a, b) {
        (Key::Global(g), Key::Global(h)) => g == h,
        (Key::Field(s, f), Key::Field(t, h)) => s == t && f == h,
        (Key::Elem(t), Key::Elem(u)) => t == u,
        _ => false,
    }
}

/// The globals and the types of elements of which a list has the keys: the flag at the number of each is set.
#[derive(Drop)]
pub struct LoneKeys {
    pub globals: Vec<bool>,
    pub types: Vec<bool>,
}

/// Whether the flag at a place is set.
pub(crate) fn is_set(flags: &[bool], place: u64) -> bool
    ensures { result ≡ is_set flags.now place }
{
    match flags.get(place as usize) {
        Some(flag) => *flag,
        None => false,
    }
}

/// Makes the list long enough for a place.
fn reach(flags: &mut Vec<bool>, place: u32) -> Result<(), OutOfMemory>
    ensures inside { OnOk result (place < length flags.new.items) }
    ensures same { (n : ℕ) → is_set flags.new.items n ≡ is_set flags.old.items n }
{
    let place = place as usize;
    if place < flags.len() {
        return Ok(());
    }
    flags.resize(place + 1, false)?;
    Ok(())
}

/// Sets the flag at a place.
fn set_flag(flags: &mut Vec<bool>, place: u32) -> Result<(), OutOfMemory>
    ensures { (n : ℕ) → OnOk result (is_set flags.new.items n ≡ ((n == place) || is_set flags.old.items n)) }
{
    reach(flags, place)?;
    flags[place as usize] = true;
    Ok(())
}

/// Adds a key, if it is one of these.
fn add_key(keys: &mut LoneKeys, k: Key) -> Result<(), OutOfMemory>
    ensures globals { (n : ℕ) → OnOk result (is_set keys.new.globals.items n ≡ (same_key (key.Global n) k || is_set keys.old.globals.items n)) }
    ensures types { (n : ℕ) → OnOk result (is_set keys.new.types.items n ≡ (same_key (key.Elem n) k || is_set keys.old.types.items n)) }
{
    match k {
        Key::Global(g) => {
            set_flag(&mut keys.globals, g)?;
            Ok(())
        }
        Key::Elem(t) => {
            set_flag(&mut keys.types, t)?;
            Ok(())
        }
        Key::Field(_, _) => Ok(()),
    }
}

/// Those keys of a list. The time is linear in it.
pub(crate) fn lone_keys(alloc: Global, keys: &[Key]) -> Result<LoneKeys, OutOfMemory>
    ensures { IfOk result (AreLoneKeys keys.now) }
{
    let mut lone = LoneKeys {
        globals: Vec::new(alloc),
        types: Vec::new(alloc),
    };
    for k in keys {
        add_key(&mut lone, *k)?;
    }
    Ok(lone)
}

/// Whether a list has a key.
#[tactic(auto, unfolding(mdr_paths::specs::Paths::is_in))]
pub(crate) fn is_listed(keys: &[Key], key: Key) -> bool
    ensures { result ≡ is_in key_nodes keys.now key }
{
    for k in keys {
        if same_key(key, *k) {
            return true;
        }
    }
    false
}
