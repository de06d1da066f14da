// Values: a tag, and what it asks for.

ghost use Rattle.std.specs.Prelude.{◌≡◌, slice_get};
ghost use Rattle.mdr_model.specs.Reading.{kinds, tagged_at};
ghost use Rattle.mdr_msg.specs.Decoding.{Gives};

use crate::error::MsgError;
use crate::item::Item;
use mdr_core::{Kind, OutOfMemory};
use mdr_model::{Wire, WireView};
use mdr_xdr::Cursor;
use std::alloc::Global;

impl Item for WireView {
    ghost use Rattle.mdr_model.specs.Text.{view_text};
    ghost use Rattle.mdr_model.specs.Reading.{view_at};
    ghost use Rattle.mdr_msg.specs.WellFormed.{IsView};

    ghost text = { view_text };

    ghost can_be_put = { λ _. Unit {0} };

    ghost has_spelling = { IsView };

    ghost reader = { view_at };

    fn put(&self, out: &mut Vec<u8>) -> Result<(), OutOfMemory> {
        self.serial.put(out)?;
        self.first.put(out)?;
        self.ty.put(out)?;
        self.count.put(out)?;
        self.index.put(out)
    }

    #[tactic(auto, unfolding(mdr_model::specs::Reading::view_at))]
    fn get(alloc: Global, bytes: &[u8], c: &mut Cursor) -> Result<WireView, MsgError> {
        let serial = u64::get(alloc, bytes, c)?;
        let first = u32::get(alloc, bytes, c)?;
        let ty = u32::get(alloc, bytes, c)?;
        let count = u32::get(alloc, bytes, c)?;
        let index = u32::get(alloc, bytes, c)?;
        Ok(WireView {
            serial,
            first,
            ty,
            count,
            index,
        })
    }
}

/// The kind of the integers with a tag.
fn kind_of(tag: u32) -> Option<Kind>
    ensures { result ≡ slice_get kinds tag }
{
    match tag {
        0 => Some(Kind::U8),
        1 => Some(Kind::U16),
        2 => Some(Kind::U32),
        3 => Some(Kind::U64),
        4 => Some(Kind::S8),
        5 => Some(Kind::S16),
        6 => Some(Kind::S32),
        7 => Some(Kind::S64),
        _ => None,
    }
}

/// Reads what follows a tag, which stands at an offset.
#[tactic(auto, unfolding(mdr_model::specs::Reading::tagged_at), using(crate::proofs::Unsigned::fails_from))]
fn get_tagged(
    alloc: Global,
    tag: u32,
    at: u64,
    bytes: &[u8],
    c: &mut Cursor,
) -> Result<Wire, MsgError>
    ensures { Gives bytes.now c.old.at c.new.at result (tagged_at tag at) }
{
    match tag {
        8 => Ok(Wire::Null),
        9 => Ok(Wire::Ptr(WireView::get(alloc, bytes, c)?)),
        10 => Ok(Wire::Dead),
        11 => Ok(Wire::Fn(u32::get(alloc, bytes, c)?)),
        12 => Ok(Wire::NoValue),
        _ => match kind_of(tag) {
            Some(kind) => Ok(Wire::Int(kind, mdr_xdr::get(kind, bytes, c)?)),
            None => Err(MsgError::Kind(at)),
        },
    }
}

impl Item for Wire {
    ghost use Rattle.mdr_model.specs.Text.{value_text};
    ghost use Rattle.mdr_model.specs.Reading.{value_at};
    ghost use Rattle.mdr_msg.specs.Encoding.{CanPutValue};
    ghost use Rattle.mdr_msg.specs.WellFormed.{IsValue};

    ghost text = { value_text };

    ghost can_be_put = { CanPutValue };

    ghost has_spelling = { IsValue };

    ghost reader = { value_at };

    #[tactic(auto, unfolding(mdr_model::specs::Text::value_text))]
    fn put(&self, out: &mut Vec<u8>) -> Result<(), OutOfMemory> {
        match *self {
            Wire::Int(kind, n) => {
                kind.number().put(out)?;
                mdr_xdr::put(kind, n, out)
            }
            Wire::Null => 8u32.put(out),
            Wire::Ptr(view) => {
                9u32.put(out)?;
                view.put(out)
            }
            Wire::Dead => 10u32.put(out),
            Wire::Fn(function) => {
                11u32.put(out)?;
                function.put(out)
            }
            Wire::Lock(_) => Ok(()),
            Wire::NoValue => 12u32.put(out),
        }
    }

    #[tactic(auto, unfolding(mdr_model::specs::Reading::value_at))]
    fn get(alloc: Global, bytes: &[u8], c: &mut Cursor) -> Result<Wire, MsgError> {
        let at = c.at;
        let tag = u32::get(alloc, bytes, c)?;
        get_tagged(alloc, tag, at, bytes, c)
    }
}
