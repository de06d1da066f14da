// The two halves of a tree.

ghost use Rattle.std.specs.Prelude.{◌≡◌, IfOk, OnOk, map, slice_get};
ghost use Rattle.std.specs.List.{position};
ghost use Rattle.std.specs.Str.{bytes_eq};
ghost use Rattle.mdr_core.specs.declared.plan.Half.TheVariants.{Kernel, User};
ghost use Rattle.mdr_print.specs.Marks.{Appends, spell, newline, row, ◌▸◌};
ghost use Rattle.mdr_print.specs.Items.{item_words, item_lines, tree_marks, printed};
ghost use Rattle.mdr_half.specs.Plans.{half_or_user};
ghost use Rattle.mdr_half.specs.Halves.{half_by, half_of, is_same_half, remote, body_or_remote, what_in, item_in, half_tree, kernel_text, user_text};

use crate::plan_lines::half_at;
use mdr_core::{Half, Name, OutOfMemory, Plan};
use mdr_print::{put_function, put_item, put_prototype};
use mdr_syntax::{Head, Item, ItemWhat, Tree};
use std::alloc::{AllocError, Global};

fn name_position(names: &[Name], name: &[u8]) -> Option<usize>
    ensures { result ≡ position (λ n. bytes_eq n name.now) names.now }
{
    names.iter().position(|n| n.as_slice() == name)
}

/// The half that a plan gives the function of a name.
#[tactic(auto, unfolding(crate::specs::Halves::half_of))]
fn half_of(plan: &Plan, name: &[u8]) -> Half
    ensures { result ≡ half_of plan.now name.now }
{
    match name_position(plan.names.as_slice(), name) {
        Some(f) => half_at(plan, f),
        None => Half::User,
    }
}

fn is_same_half(a: Half, b: Half) -> bool
    ensures { result ≡ is_same_half a b }
{
    match (a, b) {
        (Half::Kernel, Half::Kernel) => true,
        (Half::Kernel, Half::User) => false,
        (Half::User, Half::Kernel) => false,
        (Half::User, Half::User) => true,
    }
}

/// Whether a function is in a half.
fn is_here(half: Half, plan: &Plan, head: &Head) -> bool
    ensures { result ≡ is_same_half (half_of plan.now head.now.name) half }
{
    is_same_half(half_of(plan, head.name.as_slice()), half)
}

/// The lines of an item as a half has it: of a function of the other half its prototype, marked `__remote`.
fn put_what_in(
    alloc: Global,
    out: &mut Vec<u8>,
    half: Half,
    plan: &Plan,
    what: &ItemWhat,
) -> Result<(), AllocError>
    ensures { OnOk result (Appends out.old.items out.new.items (item_words (what_in half plan.now what.now) ▸ newline)) }
{
    match what {
        ItemWhat::Func(head, is_critical, body) => {
            if is_here(half, plan, head) {
                put_function(alloc, out, head, *is_critical, body.as_slice())
            } else {
                put_prototype(alloc, out, head, true)
            }
        }
        _ => put_item(alloc, out, what),
    }
}

fn put_items_in(
    alloc: Global,
    out: &mut Vec<u8>,
    half: Half,
    plan: &Plan,
    items: &[Item],
) -> Result<(), AllocError>
    ensures { OnOk result (Appends out.old.items out.new.items (row (map item_lines (map (item_in half plan.now) items.now)))) }
{
    for item in items {
        put_what_in(alloc, out, half, plan, &item.what)?;
    }
    Ok(())
}

/// The text of a half. It is written from the tree itself, of which nothing is copied.
#[tactic(auto, unfolding(mdr_print::specs::Items::printed, mdr_print::specs::Marks::spell))]
fn half_text(alloc: Global, half: Half, plan: &Plan, tree: &Tree) -> Result<Vec<u8>, OutOfMemory>
    ensures { IfOk result (λ bytes. bytes.items ≡ printed (half_tree half plan.now tree.now)) }
{
    let mut out = Vec::new(alloc);
    put_items_in(alloc, &mut out, half, plan, tree.items.as_slice())?;
    Ok(out)
}

/// The text of the kernel half: each function that the plan has in the user half is a prototype marked `__remote`. A
/// function that the plan doesn't name is in the user half.
pub fn kernel_text(alloc: Global, tree: &Tree, plan: &Plan) -> Result<Vec<u8>, OutOfMemory>
    ensures { IfOk result (λ bytes. bytes.items ≡ kernel_text plan.now tree.now) }
{
    half_text(alloc, Half::Kernel, plan, tree)
}

/// The text of the user half: each function that the plan has in the kernel half is a prototype marked `__remote`.
pub fn user_text(alloc: Global, tree: &Tree, plan: &Plan) -> Result<Vec<u8>, OutOfMemory>
    ensures { IfOk result (λ bytes. bytes.items ≡ user_text plan.now tree.now) }
{
    half_text(alloc, Half::User, plan, tree)
}
