// What holds in a whole file, and what is known behind each declaration (C99 6.2.1, 6.9).

ghost use Rattle.std.specs.Prelude.{◌≡◌, ◌++◌, ◌∷◌, [], IfOk, OnOk, List, find, is_some, length};
ghost use Rattle.std.specs.Str.{bytes_eq};
ghost use Rattle.std.specs.Option.{option_copied};
ghost use Rattle.mdr_core.specs.declared.types.Ty.{Ty};
ghost use Rattle.mdr_faults.specs.Declarations.{declarator, parameter_list};
ghost use Rattle.mdr_faults.specs.Faults.{Checked, told, both};
ghost use Rattle.mdr_faults.specs.Scopes.{tag_named};
ghost use Rattle.mdr_headings.specs.Structs.{struct_entry};
ghost use Rattle.mdr_headings.specs.Source.{has_tag, with_tag, tags_behind, tags_from, defined_constant, defines_behind, defines_from, is_numbered, with_struct_if, behind_struct};
ghost use Rattle.mdr_headings.specs.Source.{signature_by, signature};

use crate::head::head_result;
use crate::structs::struct_entry;
use mdr_core::{Items, Name, OutOfMemory, Place, Ty};
use mdr_faults::{
    Constant, Entity, Fault, Named, Names, Scope, Signature, StructEntry, Tag, both, copied,
    number_constant, parameter_list, small, tag_named,
};
use mdr_syntax::{Decl, Head, Item, ItemWhat};
use std::alloc::{AllocError, Global};

fn is_found(tags: &Names<Tag>, name: &[u8]) -> bool
    ensures { result ≡ is_some (find (λ t. bytes_eq t.name name.now) tags.now) }
{
    tags.find(name).is_some()
}

fn has_tag(tags: &Names<Tag>, name: &[u8]) -> bool
    ensures { result ≡ has_tag tags.now name.now }
{
    is_found(tags, name)
}

/// Numbers a struct, unless it has a number.
fn add_tag(alloc: Global, tags: &mut Names<Tag>, name: &Name) -> Result<(), OutOfMemory>
    ensures { OnOk result (tags.new ≡ with_tag tags.old name.now) }
{
    if has_tag(tags, name.as_slice()) {
        return Ok(());
    }
    let tag = Tag {
        number: small(tags.len())?,
        name: copied(alloc, name.as_slice())?,
    };
    tags.push(alloc, tag)?;
    Ok(())
}

fn tags_behind(alloc: Global, tags: &mut Names<Tag>, what: &ItemWhat) -> Result<(), OutOfMemory>
    ensures { OnOk result (tags.new ≡ tags_behind tags.old what.now) }
{
    match what {
        ItemWhat::Struct(_, name, _) => add_tag(alloc, tags, name),
        ItemWhat::Define(_, _, _, _)
        | ItemWhat::Enum(_)
        | ItemWhat::Global(_, _)
        | ItemWhat::Proto(_, _)
        | ItemWhat::Func(_, _, _) => Ok(()),
    }
}

/// The structs that a file defines, with their numbers.
#[tactic(auto, unfolding(crate::specs::Source::tags_from))]
pub fn tags_of(alloc: Global, items: &[Item]) -> Result<Names<Tag>, OutOfMemory>
    ensures { IfOk result (λ tags. tags ≡ tags_from [] items.now) }
{
    let mut tags = Names::new(alloc);
    for item in items {
        tags_behind(alloc, &mut tags, &item.what)?;
    }
    Ok(tags)
}

fn add_define(
    alloc: Global,
    names: &mut Names<Named>,
    name: &Name,
    c: Constant,
) -> Result<(), AllocError>
    ensures { OnOk result (names.new ≡ names.old ++ defined_constant name.now c ∷ []) }
{
    let named = Named {
        name: copied(alloc, name.as_slice())?,
        means: Ok(Entity::Constant(c)),
    };
    names.push(alloc, named)?;
    Ok(())
}

fn defines_behind(
    alloc: Global,
    names: &mut Names<Named>,
    what: &ItemWhat,
) -> Result<(), AllocError>
    ensures { OnOk result (names.new ≡ defines_behind names.old what.now) }
{
    match what {
        ItemWhat::Define(name, is_negative, n, kind) => add_define(
            alloc,
            names,
            name,
            number_constant(*is_negative, *n, *kind),
        ),
        ItemWhat::Struct(_, _, _)
        | ItemWhat::Enum(_)
        | ItemWhat::Global(_, _)
        | ItemWhat::Proto(_, _)
        | ItemWhat::Func(_, _, _) => Ok(()),
    }
}

/// The constants of a file's `#define`s.
#[tactic(auto, unfolding(crate::specs::Source::defines_from))]
pub fn defines_of(alloc: Global, items: &[Item]) -> Result<Names<Named>, AllocError>
    ensures { IfOk result (λ names. names ≡ defines_from [] items.now) }
{
    let mut names = Names::new(alloc);
    for item in items {
        defines_behind(alloc, &mut names, &item.what)?;
    }
    Ok(names)
}

pub fn is_numbered(tag: Option<&Tag>, n: usize) -> bool
    ensures { result ≡ is_numbered (option_copied tag.entry) n }
{
    match tag {
        None => false,
        Some(tag) => tag.number as usize == n,
    }
}

/// Whether the next struct that becomes complete has this name.
pub fn is_next(scope: &Scope, name: &[u8]) -> bool
    ensures { result ≡ is_numbered (tag_named scope.now name.now) (length scope.now.structs) }
{
    is_numbered(tag_named(scope, name), scope.structs.len())
}

/// A struct is complete behind its first definition (C99 6.7.2.1, paragraph 7).
pub fn behind_struct(
    alloc: Global,
    scope: &mut Scope,
    place: Place,
    name: &Name,
    ds: &[Decl],
) -> Result<(), OutOfMemory>
    ensures { OnOk result (scope.new ≡ behind_struct scope.old place name.now ds.now) }
{
    if is_next(scope, name.as_slice()) {
        let entry = struct_entry(alloc, scope, place, ds)?;
        scope.structs.push(entry)?;
    }
    Ok(())
}

fn signature_by(
    number: u32,
    result_type: Result<Ty, Fault>,
    params: Result<Items<Ty>, Fault>,
) -> Result<Signature, Fault>
    ensures { (c : Checked Ty) (d : Checked (List Ty)) → result_type ≡ told c → params ≡ told d → result ≡ told (both c d (signature_by number)) }
{
    match both(result_type, params) {
        Ok((ty, params)) => Ok(Signature {
            number,
            result: ty,
            params,
        }),
        Err(fault) => Err(fault),
    }
}

/// A function's type, as its uses see it.
#[tactic(auto, unfolding(crate::specs::Source::signature))]
pub fn signature(
    alloc: Global,
    scope: &Scope,
    number: u32,
    h: &Head,
) -> Result<Result<Signature, Fault>, AllocError>
    ensures { IfOk result (λ r. r ≡ told (signature scope.now number h.now)) }
{
    let result_type = head_result(alloc, scope, h)?;
    let params = parameter_list(alloc, scope, h.params.as_slice())?;
    Ok(signature_by(number, result_type, params))
}
