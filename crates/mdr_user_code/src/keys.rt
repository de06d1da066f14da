// Which cells of a block user code may touch, by their keys.

ghost use Rattle.std.specs.Prelude.{◌≡◌, Some, None, option_map};
ghost use Rattle.mdr_access.specs.KeyOrder.{keys as key_nodes, same_key};
ghost use Rattle.mdr_core.specs.declared.plan.Key.TheVariants as key_is;
ghost use Rattle.mdr_core.specs.Layout.{Alone, key_by};
ghost use Rattle.mdr_core.specs.Sound.{IsSound};
ghost use Rattle.mdr_extents.specs.Around.{global_of};
ghost use Rattle.mdr_extents.specs.Extent.{is_touched};
ghost use Rattle.mdr_extents.specs.Reaching.{counts_in};
ghost use Rattle.mdr_model.specs.Memory.{Memory, leaf_at};
ghost use Rattle.mdr_paths.specs.Paths.{is_in};
ghost use Rattle.mdr_user_code.specs.Keys.{touched_so};

use mdr_core::{Key, Program, cells_of, key_of};
use mdr_model::New;

/// Whether two keys are one.
fn same_key(a: Key, b: Key) -> bool
    ensures { result ≡ same_key a b }
{
    match (a, b) {
        (Key::Global(g), Key::Global(h)) => g == h,
        (Key::Field(s, f), Key::Field(t, h)) => s == t && f == h,
        (Key::Elem(t), Key::Elem(u)) => t == u,
        _ => false,
    }
}

/// Whether a list has a key.
#[tactic(auto, unfolding(mdr_paths::specs::Paths::is_in))]
fn is_listed(keys: &[Key], key: Key) -> bool
    ensures { result ≡ is_in key_nodes keys.now key }
{
    keys.iter().any(|k| same_key(key, *k))
}

fn is_global(global: u64, key: Key) -> bool
    ensures { result ≡ same_key (key_is.Global global) key }
{
    match key {
        Key::Global(g) => global == g as u64,
        Key::Field(_, _) => false,
        Key::Elem(_) => false,
    }
}

/// Whether a list has the key of a global.
#[tactic(auto, unfolding(mdr_paths::specs::Paths::is_in))]
fn has_global(keys: &[Key], global: u64) -> bool
    ensures { result ≡ is_in key_nodes keys.now (key_is.Global global) }
{
    keys.iter().any(|k| is_global(global, *k))
}

/// Whether the key of a cell that no struct is around is among these.
fn is_lone_touched(program: &Program, touched: &[Key], block: New) -> bool
    ensures { result ≡ is_in key_nodes touched.now (key_by Alone (global_of program.now block) block.ty) }
{
    if block.serial < program.globals.len() as u64 {
        has_global(touched, block.serial)
    } else {
        is_listed(touched, Key::Elem(block.ty))
    }
}

/// The key of a block's cell, where it has that cell, as if the block were no global.
fn element_key(program: &Program, block: New, index: u64) -> Option<Key>
    requires { IsSound program.now }
    ensures { result ≡ option_map (λ l. key_by l.home None block.ty) (leaf_at program.now block index) }
{
    if block.ty as usize >= program.types.as_slice().len() {
        return None;
    }
    let size = cells_of(program, block.ty) as u64;
    if size == 0 {
        return None;
    }
    if index / size >= block.count as u64 {
        return None;
    }
    Some(key_of(program, None, block.ty, (index % size) as u32))
}

fn touched_so(program: &Program, touched: &[Key], block: New, key: Option<Key>) -> bool
    ensures { result ≡ touched_so program.now touched.now block key }
{
    match key {
        Some(Key::Field(s, f)) => is_listed(touched, Key::Field(s, f)),
        Some(Key::Elem(_)) => is_lone_touched(program, touched, block),
        Some(Key::Global(_)) => false,
        None => false,
    }
}

/// Whether the key of a block's cell is among these.
pub(crate) fn is_touched(program: &Program, touched: &[Key], block: New, index: u64) -> bool
    requires { IsSound program.now }
    ensures { result ≡ is_touched program.now touched.now block index }
{
    touched_so(program, touched, block, element_key(program, block, index))
}

/// The same of a cell of a block that may not be there.
pub(crate) fn counts_in(program: &Program, touched: &[Key], block: Option<New>, index: u64) -> bool
    requires { IsSound program.now }
    ensures { (m : Memory) → result ≡ counts_in program.now touched.now m index block }
{
    match block {
        Some(block) => is_touched(program, touched, block, index),
        None => false,
    }
}
