// The plan that has the keys of each function.

ghost use Rattle.std.specs.Prelude.{◌≡◌, ◌↔◌, ◌<◌, ◌≤◌, IfOk, IsTrue, OnOk, get_or, length, map, true, vec_items};
ghost use Rattle.mdr_core.specs.Sound.{IsSound};
ghost use Rattle.mdr_core.specs.declared.program.Func.{Func as AnyFunc};
ghost use Rattle.mdr_access.specs.AllKeys.{all_keys};
ghost use Rattle.mdr_access.specs.Exposed.{exposed_fields};
ghost use Rattle.mdr_access.specs.Keys.{HasEach, IsPlan};
ghost use Rattle.mdr_access.specs.Shared.{AreFirsts, AreWalks};
ghost use Rattle.mdr_access.specs.Walked.{AreFound, AreLists, AreOwned, IsFoundBy, IsFoundIf, IsFoundIn, is_user};

use crate::copies::{copied_flags, copied_halves, copied_types, names_of};
use crate::exposed::exposed_fields;
use crate::keys::all_keys;
use crate::owned::owned;
use crate::shared::{each_alone, share};
use crate::walk::{is_user, led_marks, picked, turned, user_edges};
use mdr_core::{Half, Items, Key, OutOfMemory, Plan, Program};
use mdr_paths::turned_edges;
use mdr_slice::{Halves, call_graph, called_marks};
use std::alloc::{AllocError, Global};

/// For each function the indices of the keys that it has access forms for.
fn rows_of(
    alloc: Global,
    program: &Program,
    exposed: &[Key],
    keys: &[Key],
) -> Result<Vec<Vec<u32>>, AllocError>
    requires sound { IsSound program.now }
    requires few { length program.now.types ≤ 4294967296 }
    requires fields { exposed.now ≡ exposed_fields program.now }
    requires all { length keys.now ≤ 4294967296 }
    ensures { IfOk result (λ rows. AreOwned program.now keys.now (map vec_items rows.items)) }
{
    let mut rows = Vec::new(alloc);
    for own in program.funcs.as_slice() {
        let row = owned(alloc, program, exposed, keys, own)?;
        rows.push(row)?;
    }
    Ok(rows)
}

/// What the lists of keys are made from: the calls of functions of the user half, each way, and for each function the indices
/// of the keys that it has access forms for.
#[derive(Clone, Copy)]
struct Walks<'a> {
    edges: &'a [Vec<u32>],
    turned: &'a [Vec<u32>],
    rows: &'a [Vec<u32>],
    keys: &'a [Key],
}

/// The keys of all that is marked.
fn found_keys(
    alloc: Global,
    rows: &[Vec<u32>],
    keys: &[Key],
    led: &[bool],
) -> Result<Vec<Key>, AllocError>
    requires { length led.now ≡ length rows.now }
    ensures { IfOk result (λ found. IsFoundIn (map vec_items rows.now) keys.now led.now found.items) }
{
    let skipped = turned(alloc, led)?;
    let count = keys.len();
    let marks = called_marks(alloc, count, rows, skipped.as_slice())?;
    let found = picked(alloc, keys, marks.as_slice())?;
    Ok(found)
}

/// The list of a function by a walk from it, which tells too for which of the later functions it stands.
fn walked_list(
    alloc: Global,
    walks: &Walks<'_>,
    firsts: &mut Vec<u32>,
    func: u32,
) -> Result<Items<Key>, AllocError>
    requires walks { AreWalks (map vec_items walks.now.edges.now) (map vec_items walks.now.turned.now) (map vec_items walks.now.rows.now) }
    requires firsts { AreFirsts (map vec_items walks.now.edges.now) firsts.old.items }
    requires inside { func < length walks.now.rows.now }
    ensures list { IfOk result (λ ks. IsFoundBy (map vec_items walks.now.edges.now) (map vec_items walks.now.rows.now) walks.now.keys.now func ks) }
    ensures firsts { OnOk result (AreFirsts (map vec_items walks.now.edges.now) firsts.new.items) }
{
    let led = led_marks(alloc, walks.edges, func)?;
    share(alloc, walks.turned, led.as_slice(), firsts, func)?;
    let found = found_keys(alloc, walks.rows, walks.keys, led.as_slice())?;
    Ok(Items::from_vec(found))
}

/// Whether a function shares the list of the one that stands for it.
fn is_shared(halves: &[Half], first: u32, func: u32) -> bool
    ensures { IsTrue result ↔ ((first < func) × (is_user halves.now first ≡ true)) }
{
    first < func && is_user(halves, first)
}

/// The list of a function of either half, with the lists of all before it.
fn list_of(
    alloc: Global,
    walks: &Walks<'_>,
    halves: &[Half],
    firsts: &mut Vec<u32>,
    lists: &[Items<Key>],
    func: u32,
) -> Result<Items<Key>, AllocError>
    requires walks { AreWalks (map vec_items walks.now.edges.now) (map vec_items walks.now.turned.now) (map vec_items walks.now.rows.now) }
    requires firsts { AreFirsts (map vec_items walks.now.edges.now) firsts.old.items }
    requires found { AreFound halves.now (map vec_items walks.now.edges.now) (map vec_items walks.now.rows.now) walks.now.keys.now func lists.now }
    requires inside { func < length walks.now.rows.now }
    ensures list { IfOk result (λ ks. IsFoundIf (is_user halves.now func) (map vec_items walks.now.edges.now) (map vec_items walks.now.rows.now) walks.now.keys.now func ks) }
    ensures firsts { OnOk result (AreFirsts (map vec_items walks.now.edges.now) firsts.new.items) }
{
    if !is_user(halves, func) {
        return Ok(Items::new(alloc));
    }
    let first = firsts[func as usize];
    if is_shared(halves, first, func) {
        let list = Items::from_slice(alloc, lists[first as usize].as_slice())?;
        return Ok(list);
    }
    walked_list(alloc, walks, firsts, func)
}

/// The lists of all functions. Functions that lead to each other have one, of one walk.
fn all_lists(
    alloc: Global,
    walks: &Walks<'_>,
    halves: &[Half],
) -> Result<Vec<Items<Key>>, AllocError>
    requires walks { AreWalks (map vec_items walks.now.edges.now) (map vec_items walks.now.turned.now) (map vec_items walks.now.rows.now) }
    ensures { IfOk result (λ lists. AreFound halves.now (map vec_items walks.now.edges.now) (map vec_items walks.now.rows.now) walks.now.keys.now (length walks.now.rows.now) lists.items) }
{
    let mut firsts = each_alone(alloc, walks.edges.len())?;
    let mut lists = Vec::new(alloc);
    for func in 0..walks.rows.len() {
        let list = list_of(
            alloc,
            walks,
            halves,
            &mut firsts,
            lists.as_slice(),
            func as u32,
        )?;
        lists.push(list)?;
    }
    Ok(lists)
}

/// The lists of all functions, by the calls of functions of the user half.
fn lists_of(
    alloc: Global,
    halves: &[Half],
    edges: &[Vec<u32>],
    rows: &[Vec<u32>],
    keys: &[Key],
) -> Result<Vec<Items<Key>>, AllocError>
    requires same { length edges.now ≡ length rows.now }
    requires few { length rows.now ≤ 4294967296 }
    ensures { IfOk result (λ lists. AreFound halves.now (map vec_items edges.now) (map vec_items rows.now) keys.now (length rows.now) lists.items) }
{
    let turned = turned_edges(alloc, edges)?;
    let walks = Walks {
        edges,
        turned: turned.as_slice(),
        rows,
        keys,
    };
    let lists = all_lists(alloc, &walks, halves)?;
    Ok(lists)
}

/// The keys of each function of the user half, and none of the others.
fn plan_keys(
    alloc: Global,
    program: &Program,
    halves: &[Half],
) -> Result<Vec<Items<Key>>, OutOfMemory>
    requires { IsSound program.now }
    ensures { IfOk result (λ lists. AreLists program.now halves.now lists.items) }
{
    let exposed = exposed_fields(alloc, program)?;
    let keys = all_keys(alloc, program)?;
    let rows = rows_of(alloc, program, exposed.as_slice(), keys.as_slice())?;
    let graph = call_graph(alloc, program)?;
    let edges = user_edges(alloc, halves, graph.as_slice())?;
    let lists = lists_of(
        alloc,
        halves,
        edges.as_slice(),
        rows.as_slice(),
        keys.as_slice(),
    )?;
    Ok(lists)
}

/// The plan of a program and its halves: its types, the names of its functions, the halves, and for each function of the user
/// half the keys of the cells that it may touch, itself or by functions of its half that it may call.
pub fn keys_of(alloc: Global, program: &Program, halves: &Halves) -> Result<Plan, OutOfMemory>
    requires sound { IsSound program.now }
    requires each { HasEach program.now halves.now }
    ensures { IfOk result (λ plan. IsPlan program.now halves.now plan) }
{
    let lists = plan_keys(alloc, program, halves.halves.as_slice())?;
    let types = copied_types(alloc, program.types.as_slice())?;
    let names = names_of(alloc, program.funcs.as_slice())?;
    let sides = copied_halves(alloc, halves.halves.as_slice())?;
    let roots = copied_flags(alloc, halves.roots.as_slice())?;
    let down = copied_flags(alloc, halves.down.as_slice())?;
    Ok(Plan {
        types: Items::from_vec(types),
        names: Items::from_vec(names),
        halves: Items::from_vec(sides),
        roots: Items::from_vec(roots),
        down: Items::from_vec(down),
        keys: Items::from_vec(lists),
    })
}
