// A whole file: its items in their order (C99 6.9).

ghost use Rattle.std.specs.Prelude.{◌≡◌, ◌+◌, [], Ok, IfOk, OnOk, List, false, length};
ghost use Rattle.mdr_core.specs.declared.program.Field.{Field};
ghost use Rattle.mdr_headings.specs.declared.body.Body.{Body};
ghost use Rattle.mdr_headings.specs.declared.head.Heading.{Heading};
ghost use Rattle.mdr_faults.specs.declared.scope.Constant.{Constant};
ghost use Rattle.mdr_check.specs.declared.variable.Variable.{Variable};
ghost use Rattle.mdr_faults.specs.Enums.{with_name, enumerators, behind_enumerators};
ghost use Rattle.mdr_faults.specs.Faults.{Checked, told, after, both};
ghost use Rattle.mdr_headings.specs.Functions.{function_declared};
ghost use Rattle.mdr_check.specs.Globals.{global, behind_global};
ghost use Rattle.mdr_faults.specs.Scopes.{tag_named};
ghost use Rattle.mdr_headings.specs.Source.{behind_struct, before_first, is_numbered};
ghost use Rattle.mdr_check.specs.Files.{nothing, define_piece, struct_of, struct_piece, global_of, prototype_of, function_of, function_piece, item_piece, with_scope};
ghost use Rattle.mdr_check.specs.Files.{behind_head, behind_item, pieces_behind, known_behind, with_outline_if, outlines_behind, outlines_from, with_outlines, first_scope};
ghost use Rattle.mdr_check.specs.Files.{first_known};

use crate::variable::{Variable, checked_global};
use mdr_core::{Field, Items, Kind, Name, OutOfMemory, Place, StructDef};
use mdr_faults::{
    Candidate, Constant, Entity, Fault, FaultKind, Names, Scope, both, copied, declare, demanded,
    enumerators, extended, new_name, number_constant, small, tag_named,
};
use mdr_headings::{
    Bodies, Body, Declared, Heading, behind_struct, candidates, defines_of, function_declared,
    is_next, is_numbered, struct_fields, tags_of,
};
use mdr_syntax::{Decl, Enumerator, Head, Init, Item, ItemWhat, Node};
use std::alloc::{AllocError, Global};

/// What is known behind some items of a file.
#[derive(Drop)]
pub struct Known {
    pub scope: Scope,
    /// How many globals were declared.
    pub globals: u32,
    /// The functions, by their numbers.
    pub functions: Names<Declared>,
}

/// What an item comes to.
#[derive(Drop)]
pub enum Piece {
    /// Constants, of which a program keeps nothing.
    Nothing,
    Struct(StructDef),
    Global(Variable),
    Prototype(Name, Heading),
    /// A function: its name, whether it is marked `__critical`, what it takes and gives, and its body.
    Function(Name, bool, Heading, Body),
}

// ---- one item

fn define(
    alloc: Global,
    known: &mut Known,
    place: Place,
    name: &Name,
    c: Constant,
) -> Result<Result<Piece, Fault>, AllocError>
    ensures told { IfOk result (λ r. r ≡ told (define_piece known.old.scope place name.now)) }
    ensures grown { OnOk result (known.new ≡ with_scope known.old (with_name known.old.scope name.now (Ok (Entity.Constant c)))) }
{
    let piece = new_name(&known.scope, place, name, Ok(Piece::Nothing));
    match declare(alloc, &mut known.scope, name, Ok(Entity::Constant(c))) {
        Ok(()) => Ok(piece),
        Err(error) => {
            drop(piece);
            Err(error)
        }
    }
}

fn struct_of(name: Name, fields: Result<Items<Field>, Fault>) -> Result<Piece, Fault>
    ensures { (c : Checked (List Field)) → fields ≡ told c → result ≡ told (after c (struct_of name)) }
{
    match fields {
        Ok(fields) => Ok(Piece::Struct(StructDef { name, fields })),
        Err(fault) => Err(fault),
    }
}

#[tactic(auto, unfolding(crate::specs::Files::struct_piece))]
fn struct_piece(
    alloc: Global,
    scope: &Scope,
    place: Place,
    name: &Name,
    ds: &[Decl],
) -> Result<Result<Piece, Fault>, OutOfMemory>
    ensures { IfOk result (λ r. r ≡ told (struct_piece scope.now place name.now ds.now)) }
{
    let fields = struct_fields(alloc, scope, place, ds)?;
    let named = copied(alloc, name.as_slice())?;
    let few = demanded(
        place,
        FaultKind::Limit,
        scope.structs.len() != 256,
        struct_of(named, fields),
    );
    Ok(demanded(
        place,
        FaultKind::Redefined,
        is_next(scope, name.as_slice()),
        few,
    ))
}

fn structure(
    alloc: Global,
    known: &mut Known,
    place: Place,
    name: &Name,
    ds: &[Decl],
) -> Result<Result<Piece, Fault>, OutOfMemory>
    ensures told { IfOk result (λ r. r ≡ told (struct_piece known.old.scope place name.now ds.now)) }
    ensures grown { OnOk result (known.new ≡ with_scope known.old (behind_struct known.old.scope place name.now ds.now)) }
{
    let piece = struct_piece(alloc, &known.scope, place, name, ds)?;
    match behind_struct(alloc, &mut known.scope, place, name, ds) {
        Ok(()) => Ok(piece),
        Err(error) => {
            drop(piece);
            Err(error)
        }
    }
}

/// One less than the first constant of an enumeration.
fn before_first() -> Result<Constant, Fault>
    ensures { result ≡ before_first }
{
    Ok(Constant {
        kind: Kind::S32,
        number: -1,
    })
}

fn nothing(constants: Result<Items<Constant>, Fault>) -> Result<Piece, Fault>
    ensures { (c : Checked (List Constant)) → constants ≡ told c → result ≡ told (nothing c) }
{
    match constants {
        Ok(_) => Ok(Piece::Nothing),
        Err(fault) => Err(fault),
    }
}

fn enumeration(
    alloc: Global,
    known: &mut Known,
    es: &[Enumerator],
) -> Result<Result<Piece, Fault>, AllocError>
    ensures told { IfOk result (λ r. r ≡ told (nothing (enumerators known.old.scope before_first es.now))) }
    ensures grown { OnOk result (known.new ≡ with_scope known.old (behind_enumerators known.old.scope before_first es.now)) }
{
    let constants = enumerators(alloc, &mut known.scope, before_first(), es)?;
    Ok(nothing(constants))
}

fn global_of(v: Result<Variable, Fault>) -> Result<Piece, Fault>
    ensures { (c : Checked Variable) → v ≡ told c → result ≡ told (after c global_of) }
{
    match v {
        Ok(v) => Ok(Piece::Global(v)),
        Err(fault) => Err(fault),
    }
}

fn variable(
    alloc: Global,
    known: &mut Known,
    d: &Decl,
    init: &Option<Init>,
) -> Result<Result<Piece, Fault>, OutOfMemory>
    ensures told { IfOk result (λ r. r ≡ told (after (global known.old.scope known.old.globals d.now init.now) global_of)) }
    ensures grown { OnOk result (known.new ≡ record { scope = behind_global known.old.scope known.old.globals d.now; globals = known.old.globals + 1; functions = known.old.functions }) }
{
    let own = known.globals;
    let next = small(own as usize + 1)?;
    let v = checked_global(alloc, &mut known.scope, own, d, init)?;
    known.globals = next;
    Ok(global_of(v))
}

fn prototype_of(name: Name, heading: Result<Heading, Fault>) -> Result<Piece, Fault>
    ensures { (c : Checked Heading) → heading ≡ told c → result ≡ told (after c (prototype_of name)) }
{
    match heading {
        Ok(h) => Ok(Piece::Prototype(name, h)),
        Err(fault) => Err(fault),
    }
}

fn prototype(
    alloc: Global,
    before: &[Item],
    known: &mut Known,
    h: &Head,
) -> Result<Result<Piece, Fault>, OutOfMemory>
    ensures told { IfOk result (λ r. r ≡ told (after (function_declared known.old.scope known.old.functions before.now h.now false) (prototype_of h.now.name))) }
    ensures grown { OnOk result (known.new ≡ behind_head known.old h.now) }
{
    let name = copied(alloc, h.name.as_slice())?;
    let heading = function_declared(
        alloc,
        &mut known.scope,
        &mut known.functions,
        before,
        h,
        false,
    )?;
    Ok(prototype_of(name, heading))
}

fn function_of(
    name: Name,
    is_critical: bool,
    heading: Result<Heading, Fault>,
    body: Result<Body, Fault>,
) -> Result<Piece, Fault>
    ensures { (c : Checked Heading) (d : Checked Body) → heading ≡ told c → body ≡ told d → result ≡ told (both c d (function_of name is_critical)) }
{
    match both(heading, body) {
        Ok((h, b)) => Ok(Piece::Function(name, is_critical, h, b)),
        Err(fault) => Err(fault),
    }
}

/// The definition of a function: its heading, whether it is critical, and its statements (C99 6.9.1).
#[derive(Clone, Copy)]
struct Definition<'a> {
    head: &'a Head,
    is_critical: bool,
    statements: &'a [Node],
}

fn function<B: Bodies>(
    alloc: Global,
    bodies: &B,
    before: &[Item],
    known: &mut Known,
    definition: Definition,
) -> Result<Result<Piece, Fault>, OutOfMemory>
    ensures told { IfOk result (λ r. r ≡ told (function_piece (B.rule bodies.now) before.now known.old definition.entry.head.now definition.entry.is_critical definition.entry.statements.now)) }
    ensures grown { OnOk result (known.new ≡ behind_head known.old definition.entry.head.now) }
{
    let h = definition.head;
    let name = copied(alloc, h.name.as_slice())?;
    let heading = function_declared(
        alloc,
        &mut known.scope,
        &mut known.functions,
        before,
        h,
        true,
    )?;
    match bodies.body(alloc, &known.scope, h, definition.statements) {
        Ok(body) => Ok(function_of(name, definition.is_critical, heading, body)),
        Err(error) => {
            drop(heading);
            Err(error)
        }
    }
}

/// An item behind those before it, and what is known behind it.
fn item<B: Bodies>(
    alloc: Global,
    bodies: &B,
    before: &[Item],
    known: &mut Known,
    place: Place,
    what: &ItemWhat,
) -> Result<Result<Piece, Fault>, OutOfMemory>
    ensures told { IfOk result (λ r. r ≡ told (item_piece (B.rule bodies.now) before.now known.old place what.now)) }
    ensures grown { OnOk result (known.new ≡ behind_item known.old what.now) }
{
    match what {
        ItemWhat::Define(name, is_negative, n, kind) => {
            let c = number_constant(*is_negative, *n, *kind);
            Ok(define(alloc, known, place, name, c)?)
        }
        ItemWhat::Struct(at, name, ds) => structure(alloc, known, *at, name, ds.as_slice()),
        ItemWhat::Enum(es) => Ok(enumeration(alloc, known, es.as_slice())?),
        ItemWhat::Global(d, init) => variable(alloc, known, d, init),
        ItemWhat::Proto(h, _) => prototype(alloc, before, known, h),
        ItemWhat::Func(h, is_critical, nodes) => {
            let definition = Definition {
                head: h,
                is_critical: *is_critical,
                statements: nodes.as_slice(),
            };
            function(alloc, bodies, before, known, definition)
        }
    }
}

// ---- what is known before the first item

fn outlines_behind(
    alloc: Global,
    scope: &Scope,
    outlines: &mut Items<Items<Candidate>>,
    what: &ItemWhat,
) -> Result<(), AllocError>
    ensures { OnOk result (outlines.new ≡ outlines_behind scope.now outlines.old what.now) }
{
    match what {
        ItemWhat::Struct(_, name, ds) => add_outline(alloc, scope, outlines, name, ds.as_slice()),
        ItemWhat::Define(_, _, _, _)
        | ItemWhat::Enum(_)
        | ItemWhat::Global(_, _)
        | ItemWhat::Proto(_, _)
        | ItemWhat::Func(_, _, _) => Ok(()),
    }
}

fn add_outline(
    alloc: Global,
    scope: &Scope,
    outlines: &mut Items<Items<Candidate>>,
    name: &Name,
    ds: &[Decl],
) -> Result<(), AllocError>
    ensures { OnOk result (outlines.new ≡ with_outline_if (is_numbered (tag_named scope.now name.now) (length outlines.old)) scope.now outlines.old ds.now) }
{
    if !is_numbered(tag_named(scope, name.as_slice()), outlines.len()) {
        return Ok(());
    }
    outlines.push(candidates(alloc, scope, ds)?)?;
    Ok(())
}

/// The fields of a file's structs as annotations see them.
#[tactic(auto, unfolding(crate::specs::Files::outlines_from))]
fn outlines_of(
    alloc: Global,
    scope: &Scope,
    items: &[Item],
) -> Result<Items<Items<Candidate>>, AllocError>
    ensures { IfOk result (λ os. os ≡ outlines_from scope.now [] items.now) }
{
    let mut outlines = Items::new(alloc);
    for item in items {
        outlines_behind(alloc, scope, &mut outlines, &item.what)?;
    }
    Ok(outlines)
}

/// A scope in which nothing is declared yet but what holds in the whole file.
fn first_scope(alloc: Global, items: &[Item]) -> Result<Scope, OutOfMemory>
    ensures { IfOk result (λ s. s ≡ first_scope items.now) }
{
    Ok(Scope {
        tags: tags_of(alloc, items)?,
        defines: defines_of(alloc, items)?,
        names: Names::new(alloc),
        outlines: Items::new(alloc),
        structs: Items::new(alloc),
    })
}

fn with_outlines(scope: Scope, outlines: Items<Items<Candidate>>) -> Scope
    ensures { result ≡ with_outlines scope outlines }
{
    let mut scope = scope;
    scope.outlines = outlines;
    scope
}

/// What is known before a file's first item.
#[tactic(auto, unfolding(crate::specs::Files::first_known))]
pub fn first_known(alloc: Global, items: &[Item]) -> Result<Known, OutOfMemory>
    ensures { IfOk result (λ k. k ≡ first_known items.now) }
{
    let scope = first_scope(alloc, items)?;
    match outlines_of(alloc, &scope, items) {
        Ok(outlines) => Ok(Known {
            scope: with_outlines(scope, outlines),
            globals: 0,
            functions: Names::new(alloc),
        }),
        Err(error) => {
            drop(scope);
            Err(error.into())
        }
    }
}

// ---- all items

/// What a file's items come to, each behind those before it, and what is known behind them all.
#[tactic(auto, using(mdr_faults::proofs::Gathered::followed_none), unfolding(crate::specs::Files::pieces_behind))]
pub fn pieces_behind<B: Bodies>(
    alloc: Global,
    bodies: &B,
    known: &mut Known,
    items: &[Item],
) -> Result<Result<Items<Piece>, Fault>, OutOfMemory>
    ensures told { IfOk result (λ r. r ≡ told (pieces_behind (B.rule bodies.now) known.old [] items.now)) }
    ensures grown { OnOk result (known.new ≡ known_behind known.old items.now) }
{
    let mut all = Ok(Items::new(alloc));
    for i in 0..items.len() {
        let it = &items[i];
        let piece = item(alloc, bodies, &items[..i], known, it.place, &it.what)?;
        all = extended(all, piece)?;
    }
    Ok(all)
}
