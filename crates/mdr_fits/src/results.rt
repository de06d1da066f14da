// What services give.

ghost use Rattle.std.specs.Prelude.{◌≡◌, slice_get};
ghost use Rattle.mdr_core.specs.Services.{service_numbered};
ghost use Rattle.mdr_fits.specs.Tables.{gives_as, new_at};
ghost use Rattle.mdr_meaning.specs.Tree.{Asked};
ghost use Rattle.mdr_meaning.specs.declared.wire.Wire.TheVariants as wire;
ghost use Rattle.mdr_model.specs.Agreement.{news_at};
ghost use Rattle.mdr_split.specs.Services.{are_given, are_given_by, are_new, is_block, is_born_so, is_new, is_number, results_fit};

use crate::objects::are_different;
use crate::table::{Gives, terms_of};
use mdr_core::Kind;
use mdr_model::{New, Shape64, Wire, WireView};

fn news_at(news: &[New], serial: u64) -> Option<New>
    ensures { result ≡ news_at news.now serial }
{
    for new in news {
        if new.serial == serial {
            return Some(*new);
        }
    }
    None
}

fn is_born_so(shape: Shape64, born: Option<New>) -> bool
    ensures { result ≡ is_born_so shape born }
{
    match born {
        Some(new) => new.ty == shape.ty && new.count as u64 == shape.count,
        None => false,
    }
}

/// Whether a view is that of a new block of a shape as a whole, at its first element.
#[tactic(auto, unfolding(mdr_split::specs::Services::is_new))]
fn is_new_view(news: &[New], shape: Shape64, view: WireView) -> bool
    ensures { result ≡ is_new news.now shape (wire.Ptr view) }
{
    view.first == 0
        && (view.index == 0
            && (view.ty == shape.ty
                && (view.count as u64 == shape.count
                    && is_born_so(shape, news_at(news, view.serial)))))
}

/// Whether a value is a pointer to a new block of a shape.
#[tactic(auto, unfolding(mdr_split::specs::Services::is_new))]
fn is_new(news: &[New], shape: Shape64, value: Wire) -> bool
    ensures { result ≡ is_new news.now shape value }
{
    match value {
        Wire::Ptr(view) => is_new_view(news, shape, view),
        Wire::Int(_, _) | Wire::Null | Wire::Dead | Wire::Fn(_) | Wire::Lock(_) | Wire::NoValue =>
            false,
    }
}

fn is_new_block(news: &[New], shapes: &[Shape64], view: WireView) -> bool
    ensures { result ≡ is_block news.now shapes.now (wire.Ptr view) }
{
    match shapes {
        [shape] => is_new_view(news, *shape, view),
        _ => false,
    }
}

/// Whether a value is null, or a pointer to a new block of the shape that was asked for.
fn is_block(news: &[New], shapes: &[Shape64], value: Wire) -> bool
    ensures { result ≡ is_block news.now shapes.now value }
{
    match value {
        Wire::Null => true,
        Wire::Ptr(view) => is_new_block(news, shapes, view),
        Wire::Int(_, _) => false,
        Wire::Dead => false,
        Wire::Fn(_) => false,
        Wire::Lock(_) => false,
        Wire::NoValue => false,
    }
}

fn is_new_at(news: &[New], shape: Shape64, values: &[Wire], i: usize) -> bool
    ensures { result ≡ new_at news.now shape (slice_get values.now i) }
{
    match values.get(i) {
        Some(value) => is_new(news, shape, *value),
        None => false,
    }
}

/// Whether values are pointers to new blocks, one of each shape.
fn are_new(news: &[New], shapes: &[Shape64], values: &[Wire]) -> bool
    ensures { result ≡ are_new news.now shapes.now values.now }
{
    for (i, shape) in shapes.iter().enumerate() {
        if !is_new_at(news, *shape, values, i) {
            return false;
        }
    }
    if shapes.len() < values.len() {
        false
    } else {
        true
    }
}

fn is_number(kind: Kind, value: Wire) -> bool
    ensures { result ≡ is_number kind value }
{
    match value {
        Wire::Int(own, n) => kind.number() == own.number() && kind.contains(n),
        Wire::Null | Wire::Ptr(_) | Wire::Dead | Wire::Fn(_) | Wire::Lock(_) | Wire::NoValue =>
            false,
    }
}

fn are_given(gives: Gives, news: &[New], shapes: &[Shape64], results: &[Wire]) -> bool
    ensures { result ≡ are_given (gives_as gives) news.now shapes.now results.now }
{
    match gives {
        Gives::Nothing => match results {
            [] => true,
            [_, ..] => false,
        },
        Gives::Number(kind) => match results {
            [value] => is_number(kind, *value),
            _ => false,
        },
        Gives::Block => match results {
            [value] => is_block(news, shapes, *value),
            _ => false,
        },
        Gives::Pointers => are_new(news, shapes, results) && are_different(results),
    }
}

/// Whether results are those of the service with a number, where these blocks are new.
fn are_given_by(service: u32, news: &[New], shapes: &[Shape64], results: &[Wire]) -> bool
    ensures { result ≡ are_given_by (service_numbered service) news.now shapes.now results.now }
{
    match terms_of(service) {
        Some(terms) => are_given(terms.gives, news, shapes, results),
        None => false,
    }
}

/// Whether results are those of a service that was asked for with these shapes, where these blocks are new.
#[tactic(auto, unfolding(mdr_split::specs::Services::results_fit))]
pub fn results_fit(service: u32, shapes: &[Shape64], news: &[New], results: &[Wire]) -> bool
    ensures { (asked : Asked) → asked.service ≡ service → asked.shapes ≡ shapes.now → result ≡ results_fit asked news.now results.now }
{
    are_given_by(service, news, shapes, results)
}
