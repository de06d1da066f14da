// Each function that a file declares is defined in it (C99 6.9, paragraphs 3 and 5).

ghost use Rattle.std.specs.Prelude.{◌≡◌, map, Some, None, IfOk};
ghost use Rattle.mdr_core.specs.Layout.{chosen};
ghost use Rattle.mdr_faults.specs.Faults.{told};
ghost use Rattle.mdr_check.specs.Uses.{const_use, first_of, init_use, elem_use, perhaps_use, item_use, use_among, constant_at, constant_among, undefined_at, undefined_by};
ghost use Rattle.mdr_check.specs.Uses.{undefined, defined_rule, defined_functions};

use mdr_core::{Items, Place};
use mdr_faults::{Fault, FaultKind, extended};
use mdr_headings::{Bodies, Declared, is_defined};
use mdr_syntax::{Const, Elem, Init, Item, ItemWhat};
use std::alloc::{AllocError, Global};

// ---- the first use

fn place_if(test: bool, place: Place) -> Option<Place>
    ensures { result ≡ chosen test (Some place) None }
{
    if test { Some(place) } else { None }
}

fn const_use(c: &Const, name: &[u8]) -> Option<Place>
    ensures { result ≡ const_use name.now c.now }
{
    match c {
        Const::Number(_, _, _, _) => None,
        Const::Name(at, other) => place_if(other.as_slice() == name, *at),
    }
}

/// Where an initialiser first has this name in it.
#[cycle(init_use)]
fn init_use(init: &Init, name: &[u8]) -> Option<Place>
    ensures { result ≡ init_use name.now init.now }
{
    match init {
        Init::Const(c) => const_use(c, name),
        Init::Null(_) => None,
        Init::Address(at, other) => place_if(other.as_slice() == name, *at),
        Init::Text(_, _) => None,
        Init::List(_, elems) => elems_use(elems.as_slice(), name),
    }
}

#[cycle(init_use)]
fn elem_use(e: &Elem, name: &[u8]) -> Option<Place>
    ensures { result ≡ elem_use name.now e.now }
{
    init_use(&e.init, name)
}

#[cycle(init_use)]
fn elems_use(elems: &[Elem], name: &[u8]) -> Option<Place>
    ensures { result ≡ first_of (map (elem_use name.now) elems.now) }
{
    for e in elems {
        if let Some(place) = elem_use(e, name) {
            return Some(place);
        }
    }
    None
}

fn perhaps_use(init: &Option<Init>, name: &[u8]) -> Option<Place>
    ensures { result ≡ perhaps_use name.now init.now }
{
    match init {
        None => None,
        Some(init) => init_use(init, name),
    }
}

fn item_use<B: Bodies>(bodies: &B, what: &ItemWhat, name: &[u8]) -> Option<Place>
    ensures { result ≡ item_use (B.used bodies.now) name.now what.now }
{
    match what {
        ItemWhat::Global(_, init) => perhaps_use(init, name),
        ItemWhat::Func(h, _, nodes) => bodies.first_use(h, nodes.as_slice(), name),
        ItemWhat::Define(_, _, _, _)
        | ItemWhat::Struct(_, _, _)
        | ItemWhat::Enum(_)
        | ItemWhat::Proto(_, _) => None,
    }
}

/// Where the first of these items uses this name that does.
#[tactic(auto, unfolding(crate::specs::Uses::use_among))]
fn use_among<B: Bodies>(bodies: &B, items: &[Item], name: &[u8]) -> Option<Place>
    ensures { result ≡ use_among (B.used bodies.now) name.now items.now }
{
    for item in items {
        if let Some(place) = item_use(bodies, &item.what, name) {
            return Some(place);
        }
    }
    None
}

// ---- the first `#define`

fn constant_at(place: Place, what: &ItemWhat, name: &[u8]) -> Option<Place>
    ensures { result ≡ constant_at name.now place what.now }
{
    match what {
        ItemWhat::Define(other, _, _, _) => place_if(other.as_slice() == name, place),
        ItemWhat::Struct(_, _, _)
        | ItemWhat::Enum(_)
        | ItemWhat::Global(_, _)
        | ItemWhat::Proto(_, _)
        | ItemWhat::Func(_, _, _) => None,
    }
}

#[tactic(auto, unfolding(crate::specs::Uses::constant_among))]
fn constant_among(items: &[Item], name: &[u8]) -> Option<Place>
    ensures { result ≡ constant_among name.now items.now }
{
    for item in items {
        if let Some(place) = constant_at(item.place, &item.what, name) {
            return Some(place);
        }
    }
    None
}

// ---- functions that aren't defined

fn undefined_at(place: Place, first_use: Option<Place>) -> Fault
    ensures { result ≡ undefined_at place first_use }
{
    match first_use {
        Some(at) => Fault {
            place: at,
            kind: FaultKind::Incomplete,
        },
        None => Fault {
            place,
            kind: FaultKind::Incomplete,
        },
    }
}

fn undefined_by(place: Place, first_use: Option<Place>, constant: Option<Place>) -> Fault
    ensures { result ≡ undefined_by place first_use constant }
{
    match constant {
        Some(at) => Fault {
            place: at,
            kind: FaultKind::Redefined,
        },
        None => undefined_at(place, first_use),
    }
}

/// What is told of a function that no item defines.
fn undefined<B: Bodies>(bodies: &B, items: &[Item], f: &Declared) -> Fault
    ensures { result ≡ undefined (B.used bodies.now) items.now f.now }
{
    let name = f.name.as_slice();
    undefined_by(
        f.place,
        use_among(bodies, items, name),
        constant_among(items, name),
    )
}

fn defined_rule<B: Bodies>(bodies: &B, items: &[Item], f: &Declared) -> Result<Place, Fault>
    ensures { result ≡ told (defined_rule (B.used bodies.now) items.now f.now) }
{
    if is_defined(items, f.name.as_slice()) {
        Ok(f.place)
    } else {
        Err(undefined(bodies, items, f))
    }
}

/// Of each function that isn't defined it is told, at its first use or else at its first declaration.
#[tactic(auto, using(mdr_faults::proofs::Gathered::followed_none), unfolding(crate::specs::Uses::defined_functions))]
pub fn defined_functions<B: Bodies>(
    alloc: Global,
    bodies: &B,
    items: &[Item],
    fs: &[Declared],
) -> Result<Result<Items<Place>, Fault>, AllocError>
    ensures { IfOk result (λ r. r ≡ told (defined_functions (B.used bodies.now) items.now fs.now)) }
{
    let mut all = Ok(Items::new(alloc));
    for f in fs {
        all = extended(all, defined_rule(bodies, items, f))?;
    }
    Ok(all)
}
