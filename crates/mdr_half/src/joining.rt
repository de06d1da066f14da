// The tree whose halves two trees are.

ghost use Rattle.std.specs.Prelude.{◌≡◌, ◌++◌, IfOk, OnOk, List};
ghost use Rattle.std.specs.Str.{bytes_eq};
ghost use Rattle.mdr_print.specs.Marks.{Appends, spell, newline, ◌▸◌};
ghost use Rattle.mdr_print.specs.Items.{item_words, printed};
ghost use Rattle.mdr_half.specs.Joins.{item_text, are_alike, part_of, part_of_proto, remote_of, whole_by, whole_of, whole_item};
ghost use Rattle.mdr_half.specs.Joins.{joined_item, joined_from, joined, Refuses, JoinsItem, JoinsItems, Joins};

use crate::join_error::JoinError;
use mdr_core::{Items, OutOfMemory};
use mdr_print::{put_item, put_prototype};
use mdr_syntax::{Item, ItemWhat, Tree};
use std::alloc::{AllocError, Global};

/// What an item is to a half: a function that is here, one that is in the other half, or an item of both.
#[derive(Clone, Copy, Debug, PartialEq, Eq)]
pub enum Part {
    Here,
    There,
    Both,
}

/// Which of two items is the whole one.
#[derive(Clone, Copy, Debug, PartialEq, Eq)]
pub enum Whole {
    First,
    Second,
    Neither,
}

fn part_of(what: &ItemWhat) -> Part
    ensures { result ≡ part_of what.now }
{
    match what {
        ItemWhat::Func(_, _, _) => Part::Here,
        ItemWhat::Proto(_, is_remote) => part_of_proto(*is_remote),
        ItemWhat::Define(_, _, _, _)
        | ItemWhat::Struct(_, _, _)
        | ItemWhat::Enum(_)
        | ItemWhat::Global(_, _) => Part::Both,
    }
}

fn part_of_proto(is_remote: bool) -> Part
    ensures { result ≡ part_of_proto is_remote }
{
    if is_remote { Part::There } else { Part::Both }
}

/// The lines of an item as the half has it in which it is no function with a body.
fn put_remote(alloc: Global, out: &mut Vec<u8>, what: &ItemWhat) -> Result<(), AllocError>
    ensures { OnOk result (Appends out.old.items out.new.items (item_words (remote_of what.now) ▸ newline)) }
{
    match what {
        ItemWhat::Func(head, _, _) => put_prototype(alloc, out, head, true),
        _ => put_item(alloc, out, what),
    }
}

/// The text of these lines alone.
#[tactic(auto, unfolding(mdr_print::specs::Items::printed, mdr_print::specs::Marks::spell))]
fn remote_text(alloc: Global, what: &ItemWhat) -> Result<Vec<u8>, OutOfMemory>
    ensures { IfOk result (λ bytes. bytes.items ≡ item_text (remote_of what.now)) }
{
    let mut out = Vec::new(alloc);
    put_remote(alloc, &mut out, what)?;
    Ok(out)
}

fn same_bytes(a: &[u8], b: &[u8]) -> bool
    ensures { result ≡ bytes_eq a.now b.now }
{
    a == b
}

fn are_alike(alloc: Global, a: &ItemWhat, b: &ItemWhat) -> Result<bool, OutOfMemory>
    ensures { IfOk result (λ r. r ≡ are_alike (remote_of a.now) (remote_of b.now)) }
{
    let a = remote_text(alloc, a)?;
    let b = remote_text(alloc, b)?;
    Ok(same_bytes(a.as_slice(), b.as_slice()))
}

fn whole_by(p: Part, q: Part, is_alike: bool) -> Whole
    ensures { result ≡ whole_by p q is_alike }
{
    match (p, q, is_alike) {
        (Part::Here, Part::There, true) => Whole::First,
        (Part::There, Part::Here, true) => Whole::Second,
        (Part::Both, Part::Both, true) => Whole::First,
        _ => Whole::Neither,
    }
}

fn whole_of(alloc: Global, a: &ItemWhat, b: &ItemWhat) -> Result<Whole, OutOfMemory>
    ensures { IfOk result (λ r. r ≡ whole_of a.now b.now) }
{
    let is_alike = are_alike(alloc, a, b)?;
    Ok(whole_by(part_of(a), part_of(b), is_alike))
}

/// The item, or the line of the user half's where neither is the whole one.
fn whole_item(kernel: Item, user: Item, whole: Whole) -> Result<Item, u32>
    ensures { result ≡ whole_item kernel user whole }
{
    match whole {
        Whole::First => {
            drop(user);
            Ok(kernel)
        }
        Whole::Second => {
            drop(kernel);
            Ok(user)
        }
        Whole::Neither => {
            let line = user.place.line;
            drop(kernel);
            drop(user);
            Err(line)
        }
    }
}

fn joined_item(alloc: Global, kernel: Item, user: Item) -> Result<Item, JoinError>
    ensures { JoinsItem result (joined_item kernel user) }
{
    match whole_of(alloc, &kernel.what, &user.what) {
        Ok(whole) => match whole_item(kernel, user, whole) {
            Ok(item) => Ok(item),
            Err(line) => Err(JoinError::Differ(line)),
        },
        Err(error) => {
            drop(kernel);
            drop(user);
            Err(JoinError::from(error))
        }
    }
}

fn joined_items(
    alloc: Global,
    kernel: Items<Item>,
    user: Items<Item>,
) -> Result<Items<Item>, JoinError>
    ensures { JoinsItems result (joined_from 1 kernel user) }
{
    let mut items = Items::new(alloc);
    let mut last = 1;
    let mut theirs = user.into_vec().into_iter();
    for mine in kernel.into_vec() {
        let other = match theirs.next() {
            Some(other) => other,
            None => {
                drop(mine);
                return Err(JoinError::Differ(last));
            }
        };
        last = other.place.line;
        let item = match joined_item(alloc, mine, other) {
            Ok(item) => item,
            Err(e) => return Err(e),
        };
        items.push(item)?;
    }
    match theirs.next() {
        Some(other) => {
            let line = other.place.line;
            drop(other);
            Err(JoinError::Differ(line))
        }
        None => Ok(items),
    }
}

/// The tree whose halves two trees are: its items in order, of each function the one that has a body. The items are
/// moved out of the two trees, with their places.
#[tactic(auto, unfolding(crate::specs::Joins::joined))]
pub fn join(alloc: Global, kernel: Tree, user: Tree) -> Result<Tree, JoinError>
    ensures { Joins result (joined kernel user) }
{
    let items = joined_items(alloc, kernel.items, user.items)?;
    Ok(Tree { items })
}
