// Numbers of four and of eight bytes.

ghost use Rattle.std.specs.Prelude.{◌≡◌};
ghost use Rattle.mdr_model.specs.Xdr.{four_at, eight_at};

use crate::error::MsgError;
use crate::item::Item;
use mdr_core::{Kind, OutOfMemory};
use mdr_xdr::Cursor;
use std::alloc::Global;

impl Item for u32 {
    ghost use Rattle.mdr_model.specs.Xdr.{four};
    ghost use Rattle.mdr_msg.specs.WellFormed.{IsFour};

    ghost text = { four };

    ghost can_be_put = { λ _. Unit {0} };

    ghost has_spelling = { IsFour };

    ghost reader = { four_at };

    #[tactic(auto, unfolding(mdr_model::specs::Xdr::item, mdr_model::specs::Xdr::four, mdr_core::specs::Kinds::is_in_range))]
    fn put(&self, out: &mut Vec<u8>) -> Result<(), OutOfMemory> {
        let n = *self;
        mdr_xdr::put(Kind::U32, n as i128, out)
    }

    #[tactic(auto, unfolding(mdr_core::specs::Kinds::is_in_range))]
    fn get(_alloc: Global, bytes: &[u8], c: &mut Cursor) -> Result<u32, MsgError> {
        let n = mdr_xdr::get(Kind::U32, bytes, c)?;
        Ok(n as u32)
    }
}

impl Item for u64 {
    ghost use Rattle.mdr_model.specs.Xdr.{eight};
    ghost use Rattle.mdr_msg.specs.WellFormed.{IsEight};

    ghost text = { eight };

    ghost can_be_put = { λ _. Unit {0} };

    ghost has_spelling = { IsEight };

    ghost reader = { eight_at };

    #[tactic(auto, unfolding(mdr_model::specs::Xdr::item, mdr_model::specs::Xdr::eight, mdr_core::specs::Kinds::is_in_range))]
    fn put(&self, out: &mut Vec<u8>) -> Result<(), OutOfMemory> {
        let n = *self;
        mdr_xdr::put(Kind::U64, n as i128, out)
    }

    #[tactic(auto, unfolding(mdr_core::specs::Kinds::is_in_range))]
    fn get(_alloc: Global, bytes: &[u8], c: &mut Cursor) -> Result<u64, MsgError> {
        let n = mdr_xdr::get(Kind::U64, bytes, c)?;
        Ok(n as u64)
    }
}
