// Functions behind declarations (C99 6.7, 6.9.1).

ghost use Rattle.std.specs.Prelude.{◌≡◌, ◌==◌, ◌&&◌, ◌||◌, not, IfOk, OnOk, length};
ghost use Rattle.std.specs.Option.{option_copied};
ghost use Rattle.mdr_headings.specs.declared.head.Heading.{Heading};
ghost use Rattle.mdr_faults.specs.Faults.{Checked, told};
ghost use Rattle.mdr_headings.specs.Functions.{defines_by, is_defined, is_body_by, has_body, is_same_length, is_same_ann, is_same_param, are_same_params, is_same_heading, agrees};
ghost use Rattle.mdr_headings.specs.Functions.{function_named, agrees_with, may_stand, is_taken, function_means, behind_function, declared_unless, function_rule};
ghost use Rattle.mdr_headings.specs.Functions.{function_declared, functions_behind};

use crate::head::{Heading, checked_heading};
use crate::source::signature;
use mdr_core::{Ann, Items, LenOf, Name, OutOfMemory, Param, Place};
use mdr_faults::{
    Entity, Fault, FaultKind, HasName, Names, Scope, Signature, copied, copied_type, declare,
    demanded, is_alike, is_declared_name, small,
};
use mdr_syntax::{Head, Item, ItemWhat};
use std::alloc::{AllocError, Global};

/// A function, by its first declaration: its name, the name's place, and what it takes and gives.
#[derive(Drop)]
pub struct Declared {
    pub name: Name,
    pub place: Place,
    pub heading: Result<Heading, Fault>,
}

impl HasName for Declared {
    ghost name = { λ f. f.name };

    fn name(&self) -> &[u8] {
        self.name.as_slice()
    }
}

// ---- which functions a file defines

fn defines(what: &ItemWhat, name: &[u8]) -> bool
    ensures { result ≡ defines_by name.now what.now }
{
    match what {
        ItemWhat::Proto(h, is_remote) => *is_remote && h.name.as_slice() == name,
        ItemWhat::Func(h, _, _) => h.name.as_slice() == name,
        ItemWhat::Define(_, _, _, _)
        | ItemWhat::Struct(_, _, _)
        | ItemWhat::Enum(_)
        | ItemWhat::Global(_, _) => false,
    }
}

/// Whether one of these items defines this function, or stands for its body in the text of one half.
pub fn is_defined(items: &[Item], name: &[u8]) -> bool
    ensures { result ≡ is_defined items.now name.now }
{
    items.iter().any(|i| defines(&i.what, name))
}

fn is_body_of(what: &ItemWhat, name: &[u8]) -> bool
    ensures { result ≡ is_body_by name.now what.now }
{
    match what {
        ItemWhat::Func(h, _, _) => h.name.as_slice() == name,
        ItemWhat::Define(_, _, _, _)
        | ItemWhat::Struct(_, _, _)
        | ItemWhat::Enum(_)
        | ItemWhat::Global(_, _)
        | ItemWhat::Proto(_, _) => false,
    }
}

fn has_body(items: &[Item], name: &[u8]) -> bool
    ensures { result ≡ has_body items.now name.now }
{
    items.iter().any(|i| is_body_of(&i.what, name))
}

// ---- whether two declarations agree

fn is_same_length(a: LenOf, b: LenOf) -> bool
    ensures { result ≡ is_same_length a b }
{
    match (a, b) {
        (LenOf::Const(m), LenOf::Const(n)) => m == n,
        (LenOf::Sibling(i), LenOf::Sibling(j)) => i == j,
        (LenOf::Global(g), LenOf::Global(h)) => g == h,
        _ => false,
    }
}

fn is_same_ann(a: Ann, b: Ann) -> bool
    ensures { result ≡ is_same_ann a b }
{
    match (a, b) {
        (Ann::Single, Ann::Single) => true,
        (Ann::Array(m), Ann::Array(n)) => is_same_length(m, n),
        (Ann::Sentinel(f), Ann::Sentinel(g)) => f == g,
        (Ann::NullTerm, Ann::NullTerm) => true,
        (Ann::Opaque, Ann::Opaque) => true,
        _ => false,
    }
}

fn is_same_param(p: &Param, q: &Param) -> bool
    ensures { result ≡ is_same_param p.now q.now }
{
    is_alike(&p.ty, &q.ty) && is_same_ann(p.ann, q.ann)
}

#[tactic(auto, using(crate::proofs::Agreeing::other_lengths))]
fn are_same_params(ps: &[Param], qs: &[Param]) -> bool
    ensures { result ≡ are_same_params ps.now qs.now }
{
    if ps.len() != qs.len() {
        return false;
    }
    for i in 0..ps.len() {
        if !is_same_param(&ps[i], &qs[i]) {
            return false;
        }
    }
    true
}

fn is_same_heading(a: &Heading, b: &Heading) -> bool
    ensures { result ≡ is_same_heading a.now b.now }
{
    is_alike(&a.result, &b.result)
        && (is_same_ann(a.ann, b.ann) && are_same_params(a.params.as_slice(), b.params.as_slice()))
}

fn agrees(earlier: &Result<Heading, Fault>, later: &Result<Heading, Fault>) -> bool
    ensures { result ≡ agrees earlier.now later.now }
{
    match earlier {
        Ok(a) => match later {
            Ok(b) => is_same_heading(a, b),
            Err(_) => true,
        },
        Err(_) => match later {
            Ok(_) => true,
            Err(_) => true,
        },
    }
}

// ---- the functions so far

/// The function of this name.
pub fn function_named<'a>(fs: &'a Names<Declared>, name: &[u8]) -> Option<&'a Declared>
    ensures { option_copied result ≡ function_named fs.now name.now }
{
    fs.find(name)
}

fn agrees_with(entry: Option<&Declared>, later: &Result<Heading, Fault>) -> bool
    ensures { result ≡ agrees_with (option_copied entry.entry) later.now }
{
    match entry {
        None => true,
        Some(f) => agrees(&f.heading, later),
    }
}

fn may_stand(is_taken: bool, entry: Option<&Declared>, is_second_body: bool) -> bool
    ensures { result ≡ may_stand is_taken (option_copied entry.entry) is_second_body }
{
    if !is_taken {
        return true;
    }
    match entry {
        None => false,
        Some(_) => !is_second_body,
    }
}

fn function_means(signature: Result<Signature, Fault>) -> Result<Entity, Fault>
    ensures { result ≡ function_means signature }
{
    match signature {
        Ok(s) => Ok(Entity::Function(s)),
        Err(fault) => Err(fault),
    }
}

/// Brings a function's name into scope, where it is its first declaration.
#[tactic(auto, unfolding(crate::specs::Functions::behind_function))]
fn behind_function(
    alloc: Global,
    scope: &mut Scope,
    number: u32,
    h: &Head,
) -> Result<(), AllocError>
    ensures { OnOk result (scope.new ≡ behind_function scope.old number h.now) }
{
    if is_declared_name(scope, h.name.as_slice()) {
        return Ok(());
    }
    let s = signature(alloc, scope, number, h)?;
    declare(alloc, scope, &h.name, function_means(s))
}

fn copied_param(alloc: Global, p: &Param) -> Result<Param, AllocError>
    ensures { IfOk result (λ q. q ≡ p.now) }
{
    Ok(Param {
        name: copied(alloc, p.name.as_slice())?,
        ty: copied_type(alloc, &p.ty)?,
        ann: p.ann,
        object: p.object,
    })
}

fn copied_params(alloc: Global, ps: &[Param]) -> Result<Items<Param>, AllocError>
    ensures { IfOk result (λ qs. qs ≡ ps.now) }
{
    let mut all = Items::new(alloc);
    for p in ps {
        all.push(copied_param(alloc, p)?)?;
    }
    Ok(all)
}

fn copied_heading(alloc: Global, h: &Heading) -> Result<Heading, AllocError>
    ensures { IfOk result (λ c. c ≡ h.now) }
{
    Ok(Heading {
        result: copied_type(alloc, &h.result)?,
        ann: h.ann,
        params: copied_params(alloc, h.params.as_slice())?,
    })
}

fn copied_told(
    alloc: Global,
    heading: &Result<Heading, Fault>,
) -> Result<Result<Heading, Fault>, AllocError>
    ensures { IfOk result (λ c. c ≡ heading.now) }
{
    match heading {
        Ok(h) => Ok(Ok(copied_heading(alloc, h)?)),
        Err(fault) => Ok(Err(*fault)),
    }
}

/// Adds a function to those so far, unless its name was declared before.
fn declare_unless(
    alloc: Global,
    fs: &mut Names<Declared>,
    is_taken: bool,
    h: &Head,
    heading: &Result<Heading, Fault>,
) -> Result<(), AllocError>
    ensures { OnOk result (fs.new ≡ declared_unless is_taken fs.old h.now heading.now) }
{
    if is_taken {
        return Ok(());
    }
    let declared = Declared {
        name: copied(alloc, h.name.as_slice())?,
        place: h.place,
        heading: copied_told(alloc, heading)?,
    };
    fs.push(alloc, declared)?;
    Ok(())
}

#[tactic(auto, unfolding(crate::specs::Functions::function_rule))]
fn function_rule(
    place: Place,
    is_taken: bool,
    entry: Option<&Declared>,
    is_second_body: bool,
    number: usize,
    heading: Result<Heading, Fault>,
) -> Result<Heading, Fault>
    ensures { (c : Checked Heading) → heading ≡ told c → result ≡ told (function_rule place is_taken (option_copied entry.entry) is_second_body number c) }
{
    let does_agree = agrees_with(entry, &heading);
    let may_stand = may_stand(is_taken, entry, is_second_body);
    let few = demanded(place, FaultKind::Limit, is_taken || number != 1024, heading);
    let agreed = demanded(place, FaultKind::Mismatch, does_agree, few);
    demanded(place, FaultKind::Redefined, may_stand, agreed)
}

/// Brings the name of a function of this number into scope.
fn grow(alloc: Global, scope: &mut Scope, number: usize, h: &Head) -> Result<(), OutOfMemory>
    ensures { OnOk result (scope.new ≡ behind_function scope.old number h.now) }
{
    let number = small(number)?;
    behind_function(alloc, scope, number, h)?;
    Ok(())
}

fn is_second_body(before: &[Item], name: &[u8], is_body: bool) -> bool
    ensures { result ≡ (is_body && has_body before.now name.now) }
{
    is_body && has_body(before, name)
}

/// A declaration of a function among those before it; the scope and the functions behind it.
#[tactic(auto, unfolding(crate::specs::Functions::function_declared, crate::specs::Functions::functions_behind))]
pub fn function_declared(
    alloc: Global,
    scope: &mut Scope,
    fs: &mut Names<Declared>,
    before: &[Item],
    h: &Head,
    is_body: bool,
) -> Result<Result<Heading, Fault>, OutOfMemory>
    ensures told { IfOk result (λ r. r ≡ told (function_declared scope.old fs.old before.now h.now is_body)) }
    ensures grown { OnOk result (scope.new ≡ behind_function scope.old (length fs.old) h.now) }
    ensures counted { OnOk result (fs.new ≡ functions_behind scope.old fs.old h.now) }
{
    let is_taken = is_declared_name(scope, h.name.as_slice());
    let number = fs.len();
    let second = is_second_body(before, h.name.as_slice(), is_body);
    let heading = checked_heading(alloc, scope, h)?;
    grow(alloc, scope, number, h)?;
    let kept = copied_told(alloc, &heading)?;
    let entry = function_named(fs, h.name.as_slice());
    let told = function_rule(h.place, is_taken, entry, second, number, heading);
    declare_unless(alloc, fs, is_taken, h, &kept)?;
    Ok(told)
}
