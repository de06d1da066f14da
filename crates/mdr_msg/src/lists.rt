// Lists: their length, and their items (RFC 4506, 4.13).

ghost use Rattle.std.specs.Prelude.{◌≡◌, ◌++◌, OnOk, flat_map};
ghost use Rattle.std.specs.List.{AllByRecursion};
ghost use Rattle.mdr_model.specs.Xdr.{items_at};
ghost use Rattle.mdr_msg.specs.Decoding.{Gives};

use crate::error::MsgError;
use crate::item::Item;
use mdr_core::{Items, OutOfMemory};
use mdr_xdr::Cursor;
use std::alloc::Global;

/// Writes items one after the other.
fn put_items<T: Item>(items: &[T], out: &mut Vec<u8>) -> Result<(), OutOfMemory>
    requires { AllByRecursion T.can_be_put items.now }
    ensures written { OnOk result (out.new.items ≡ out.old.items ++ flat_map T.text items.now) }
    ensures spelled { OnOk result (AllByRecursion T.has_spelling items.now) }
{
    for item in items {
        item.put(out)?;
    }
    Ok(())
}

/// Reads so many items.
fn get_items<T: Item>(
    alloc: Global,
    count: u32,
    bytes: &[u8],
    c: &mut Cursor,
) -> Result<Items<T>, MsgError>
    ensures { Gives bytes.now c.old.at c.new.at result (items_at T.reader count) }
{
    let mut items = Items::new(alloc);
    for _ in 0..count {
        let item = T::get(alloc, bytes, c)?;
        items.push(item)?;
    }
    Ok(items)
}

impl<T: Item> Item for Items<T> {
    ghost use Rattle.mdr_model.specs.Xdr.{listed, list_at};
    ghost use Rattle.mdr_msg.specs.Encoding.{CanPutList};
    ghost use Rattle.mdr_msg.specs.WellFormed.{IsListOf};

    ghost text = { listed T.text };

    ghost can_be_put = { CanPutList T.can_be_put };

    ghost has_spelling = { IsListOf T.has_spelling };

    ghost reader = { list_at T.reader };

    #[tactic(auto, unfolding(mdr_model::specs::Xdr::listed))]
    fn put(&self, out: &mut Vec<u8>) -> Result<(), OutOfMemory> {
        (self.len() as u32).put(out)?;
        put_items(self.as_slice(), out)
    }

    #[tactic(auto, unfolding(mdr_model::specs::Xdr::list_at))]
    fn get(alloc: Global, bytes: &[u8], c: &mut Cursor) -> Result<Items<T>, MsgError> {
        let count = u32::get(alloc, bytes, c)?;
        get_items(alloc, count, bytes, c)
    }
}
