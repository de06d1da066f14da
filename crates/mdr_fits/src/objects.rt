// The objects of locals that live in an upcall.

ghost use Rattle.std.specs.Prelude.{◌≡◌, ◌∷◌, [], ◌++◌, map, IfOk, OnOk};
ghost use Rattle.std.specs.List.{list_all, list_any};
ghost use Rattle.mdr_core.specs.Services.{service_numbered};
ghost use Rattle.mdr_fits.specs.Tables.{are_once, arguments_as, is_again, names};
ghost use Rattle.mdr_meaning.specs.declared.wire.Wire.TheVariants as wire;
ghost use Rattle.mdr_model.specs.Agreement.{has};
ghost use Rattle.mdr_split.specs.Services.{are_different, entered_after, entering_by, leaving, less, may_die, names_object, serials_of};
ghost use Rattle.mdr_split.specs.User.{coming_by, entered_behind};

use crate::table::Arguments;
use mdr_core::{Items, OutOfMemory};
use mdr_model::{New, Wire, WireView};
use std::alloc::Global;

/// Whether a serial is among some.
#[tactic(auto, unfolding(mdr_model::specs::Agreement::has))]
fn has(serials: &[u64], serial: u64) -> bool
    ensures { result ≡ has serials.now serial }
{
    serials.iter().any(|s| *s == serial)
}

fn is_object(entered: &[u64], view: WireView) -> bool
    ensures { result ≡ names_object entered.now (wire.Ptr view) }
{
    view.first == 0 && (view.index == 0 && has(entered, view.serial))
}

/// Whether a value points to the first cell of an object that was born in the upcall and lives.
fn names_object(entered: &[u64], value: Wire) -> bool
    ensures { result ≡ names_object entered.now value }
{
    match value {
        Wire::Ptr(view) => is_object(entered, view),
        Wire::Int(_, _) | Wire::Null | Wire::Dead | Wire::Fn(_) | Wire::Lock(_) | Wire::NoValue =>
            false,
    }
}

fn all_name_objects(entered: &[u64], values: &[Wire]) -> bool
    ensures { result ≡ list_all (names_object entered.now) values.now }
{
    values.iter().all(|value| names_object(entered, *value))
}

fn names(value: Wire, serial: u64) -> bool
    ensures { result ≡ names serial value }
{
    match value {
        Wire::Ptr(view) => view.serial == serial,
        Wire::Int(_, _) | Wire::Null | Wire::Dead | Wire::Fn(_) | Wire::Lock(_) | Wire::NoValue =>
            false,
    }
}

/// Whether some value points into the block with a serial.
fn any_names(values: &[Wire], serial: u64) -> bool
    ensures { result ≡ list_any (names serial) values.now }
{
    values.iter().any(|value| names(*value, serial))
}

/// Whether a value points into a block that one of others points into.
fn is_again(value: Wire, others: &[Wire]) -> bool
    ensures { result ≡ is_again value others.now }
{
    match value {
        Wire::Ptr(view) => any_names(others, view.serial),
        Wire::Int(_, _) | Wire::Null | Wire::Dead | Wire::Fn(_) | Wire::Lock(_) | Wire::NoValue =>
            false,
    }
}

#[tactic(auto, unfolding(crate::specs::Tables::are_once))]
fn are_once(values: &[Wire]) -> bool
    ensures { result ≡ are_once values.now }
{
    for i in 0..values.len() {
        if is_again(values[i], &values[i + 1..]) {
            return false;
        }
    }
    true
}

/// Whether pointers point into different blocks.
pub(crate) fn are_different(values: &[Wire]) -> bool
    ensures { result ≡ are_different (serials_of values.now) }
{
    are_once(values)
}

/// Whether the objects that arguments name may die: each was born in the upcall and lives, and is named once.
pub fn may_die(arguments: Arguments, entered: &[u64], args: &[Wire]) -> bool
    ensures { result ≡ may_die (arguments_as arguments) entered.now args.now }
{
    match arguments {
        Arguments::Nothing | Arguments::One(_) | Arguments::Two(_, _) => true,
        Arguments::Objects => all_name_objects(entered, args) && are_different(args),
    }
}

/// Adds the serial of the block that a value names.
fn put_serial(out: &mut Items<u64>, value: Wire) -> Result<(), OutOfMemory>
    ensures { OnOk result (out.new ≡ out.old ++ serials_of (value ∷ [])) }
{
    match value {
        Wire::Ptr(view) => out.push(view.serial)?,
        Wire::Int(_, _) | Wire::Null | Wire::Dead | Wire::Fn(_) | Wire::Lock(_) | Wire::NoValue =>
            {}
    }
    Ok(())
}

/// Adds the serials of the blocks that values name.
fn put_serials(out: &mut Items<u64>, values: &[Wire]) -> Result<(), OutOfMemory>
    ensures { OnOk result (out.new ≡ out.old ++ serials_of values.now) }
{
    for value in values {
        put_serial(out, *value)?;
    }
    Ok(())
}

/// The objects that die with the answer to a service, which is so by service 14 alone.
#[tactic(auto, unfolding(mdr_split::specs::Services::leaving))]
pub fn leaving(alloc: Global, service: u32, args: &[Wire]) -> Result<Items<u64>, OutOfMemory>
    ensures { IfOk result (λ gone. gone ≡ leaving service args.now) }
{
    let mut gone = Items::new(alloc);
    if service == 14 {
        put_serials(&mut gone, args)?;
    }
    Ok(gone)
}

fn put_left(out: &mut Items<u64>, gone: &[u64], serial: u64) -> Result<(), OutOfMemory>
    ensures { OnOk result (out.new ≡ out.old ++ less gone.now (serial ∷ [])) }
{
    if !has(gone, serial) {
        out.push(serial)?;
    }
    Ok(())
}

/// Adds the serials that aren't gone.
fn put_less(out: &mut Items<u64>, gone: &[u64], serials: &[u64]) -> Result<(), OutOfMemory>
    ensures { OnOk result (out.new ≡ out.old ++ less gone.now serials.now) }
{
    for serial in serials {
        put_left(out, gone, *serial)?;
    }
    Ok(())
}

/// Adds the objects that are born with the answer to a service, which is so by service 13 alone.
fn put_entering(out: &mut Items<u64>, service: u32, results: &[Wire]) -> Result<(), OutOfMemory>
    ensures { OnOk result (out.new ≡ out.old ++ entering_by (service_numbered service) results.now) }
{
    if service == 13 {
        put_serials(out, results)?;
    }
    Ok(())
}

/// The objects that live behind the answer to a service, of those that lived before it.
#[tactic(auto, unfolding(mdr_split::specs::Services::entered_after))]
pub fn entered_after(
    alloc: Global,
    service: u32,
    args: &[Wire],
    results: &[Wire],
    entered: &[u64],
) -> Result<Items<u64>, OutOfMemory>
    ensures { IfOk result (λ left. left ≡ entered_after service args.now results.now entered.now) }
{
    let gone = leaving(alloc, service, args)?;
    let mut left = Items::new(alloc);
    put_less(&mut left, gone.as_slice(), entered)?;
    put_entering(&mut left, service, results)?;
    Ok(left)
}

/// Adds the serials of new blocks.
fn put_news(out: &mut Items<u64>, news: &[New]) -> Result<(), OutOfMemory>
    ensures { OnOk result (out.new ≡ out.old ++ map (λ n. n.serial) news.now) }
{
    for block in news {
        out.push(block.serial)?;
    }
    Ok(())
}

/// Adds the blocks that come with the answer to a service, which is so by service 13 alone.
fn put_coming(out: &mut Items<u64>, service: u32, news: &[New]) -> Result<(), OutOfMemory>
    ensures { OnOk result (out.new ≡ out.old ++ coming_by (service_numbered service) news.now) }
{
    if service == 13 {
        put_news(out, news)?;
    }
    Ok(())
}

/// The blocks that came in an answer to service 13 and live behind the answer to a service, of those that lived before it.
#[tactic(auto, unfolding(mdr_split::specs::User::entered_behind))]
pub fn entered_behind(
    alloc: Global,
    service: u32,
    deaths: &[u64],
    news: &[New],
    entered: &[u64],
) -> Result<Items<u64>, OutOfMemory>
    ensures { IfOk result (λ left. left ≡ entered_behind service deaths.now news.now entered.now) }
{
    let mut left = Items::new(alloc);
    put_less(&mut left, deaths, entered)?;
    put_coming(&mut left, service, news)?;
    Ok(left)
}
