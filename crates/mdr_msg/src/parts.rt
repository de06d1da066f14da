// The parts of messages.

ghost use Rattle.std.specs.Prelude.{◌≡◌, slice_get};
ghost use Rattle.mdr_model.specs.Text.{birth_number};
ghost use Rattle.mdr_model.specs.Reading.{births_by_number};
ghost use Rattle.mdr_msg.specs.Decoding.{Gives};

use crate::error::MsgError;
use crate::item::Item;
use mdr_core::{At, Items, OutOfMemory};
use mdr_model::{BirthKind, New, Run, SetRun, Shape64, Told, Wire};
use mdr_xdr::Cursor;
use std::alloc::Global;

impl Item for At {
    ghost use Rattle.mdr_model.specs.Text.{at_text};
    ghost use Rattle.mdr_model.specs.Reading.{place_at};
    ghost use Rattle.mdr_msg.specs.WellFormed.{IsPlace};

    ghost text = { at_text };

    ghost can_be_put = { λ _. Unit {0} };

    ghost has_spelling = { IsPlace };

    ghost reader = { place_at };

    fn put(&self, out: &mut Vec<u8>) -> Result<(), OutOfMemory> {
        self.func.put(out)?;
        self.stmt.put(out)
    }

    #[tactic(auto, unfolding(mdr_model::specs::Reading::place_at))]
    fn get(alloc: Global, bytes: &[u8], c: &mut Cursor) -> Result<At, MsgError> {
        let func = u32::get(alloc, bytes, c)?;
        let stmt = u32::get(alloc, bytes, c)?;
        Ok(At { func, stmt })
    }
}

/// The kind of a birth, by its number.
fn birth_of(number: u32) -> Option<BirthKind>
    ensures { result ≡ slice_get births_by_number number }
{
    match number {
        0 => Some(BirthKind::Static),
        1 => Some(BirthKind::Heap),
        2 => Some(BirthKind::Auto),
        _ => None,
    }
}

/// The number of a kind of birth.
fn number_of(kind: BirthKind) -> u32
    ensures { result ≡ birth_number kind }
{
    match kind {
        BirthKind::Static => 0,
        BirthKind::Heap => 1,
        BirthKind::Auto => 2,
    }
}

impl Item for BirthKind {
    ghost use Rattle.std.specs.Prelude.{List, ℕ};
    ghost use Rattle.mdr_model.specs.Xdr.{four};
    ghost use Rattle.mdr_model.specs.Reading.{birth_at};

    ghost text = { λ kind. four (birth_number kind) };

    ghost can_be_put = { λ _. Unit {0} };

    ghost has_spelling = { λ _. Unit {0} };

    ghost reader = { birth_at };

    fn put(&self, out: &mut Vec<u8>) -> Result<(), OutOfMemory> {
        number_of(*self).put(out)
    }

    #[tactic(auto, unfolding(mdr_model::specs::Reading::birth_at))]
    fn get(alloc: Global, bytes: &[u8], c: &mut Cursor) -> Result<BirthKind, MsgError> {
        let at = c.at;
        let number = u32::get(alloc, bytes, c)?;
        match birth_of(number) {
            Some(kind) => Ok(kind),
            None => Err(MsgError::Range(at)),
        }
    }
}

impl Item for New {
    ghost use Rattle.mdr_model.specs.Text.{new_text};
    ghost use Rattle.mdr_model.specs.Reading.{new_at};
    ghost use Rattle.mdr_msg.specs.WellFormed.{IsNew};

    ghost text = { new_text };

    ghost can_be_put = { λ _. Unit {0} };

    ghost has_spelling = { IsNew };

    ghost reader = { new_at };

    #[tactic(auto, unfolding(mdr_model::specs::Text::new_text))]
    fn put(&self, out: &mut Vec<u8>) -> Result<(), OutOfMemory> {
        self.serial.put(out)?;
        self.kind.put(out)?;
        self.ty.put(out)?;
        self.count.put(out)
    }

    #[tactic(auto, unfolding(mdr_model::specs::Reading::new_at))]
    fn get(alloc: Global, bytes: &[u8], c: &mut Cursor) -> Result<New, MsgError> {
        let serial = u64::get(alloc, bytes, c)?;
        let kind = BirthKind::get(alloc, bytes, c)?;
        let ty = u32::get(alloc, bytes, c)?;
        let count = u32::get(alloc, bytes, c)?;
        Ok(New {
            serial,
            kind,
            ty,
            count,
        })
    }
}

impl Item for SetRun {
    ghost use Rattle.mdr_model.specs.Text.{set_run_text};
    ghost use Rattle.mdr_model.specs.Reading.{set_run_at};
    ghost use Rattle.mdr_msg.specs.WellFormed.{IsSetRun};

    ghost text = { set_run_text };

    ghost can_be_put = { λ _. Unit {0} };

    ghost has_spelling = { IsSetRun };

    ghost reader = { set_run_at };

    #[tactic(auto, unfolding(mdr_model::specs::Text::set_run_text))]
    fn put(&self, out: &mut Vec<u8>) -> Result<(), OutOfMemory> {
        self.serial.put(out)?;
        self.first.put(out)?;
        self.len.put(out)
    }

    #[tactic(auto, unfolding(mdr_model::specs::Reading::set_run_at))]
    fn get(alloc: Global, bytes: &[u8], c: &mut Cursor) -> Result<SetRun, MsgError> {
        let serial = u64::get(alloc, bytes, c)?;
        let first = u32::get(alloc, bytes, c)?;
        let len = u32::get(alloc, bytes, c)?;
        Ok(SetRun { serial, first, len })
    }
}

impl Item for Shape64 {
    ghost use Rattle.mdr_model.specs.Text.{shape_text};
    ghost use Rattle.mdr_model.specs.Reading.{shape_at};
    ghost use Rattle.mdr_msg.specs.WellFormed.{IsShape};

    ghost text = { shape_text };

    ghost can_be_put = { λ _. Unit {0} };

    ghost has_spelling = { IsShape };

    ghost reader = { shape_at };

    #[tactic(auto, unfolding(mdr_model::specs::Text::shape_text))]
    fn put(&self, out: &mut Vec<u8>) -> Result<(), OutOfMemory> {
        self.ty.put(out)?;
        self.count.put(out)
    }

    #[tactic(auto, unfolding(mdr_model::specs::Reading::shape_at))]
    fn get(alloc: Global, bytes: &[u8], c: &mut Cursor) -> Result<Shape64, MsgError> {
        let ty = u32::get(alloc, bytes, c)?;
        let count = u64::get(alloc, bytes, c)?;
        Ok(Shape64 { ty, count })
    }
}

impl Item for Run {
    ghost use Rattle.mdr_model.specs.Text.{run_text};
    ghost use Rattle.mdr_model.specs.Reading.{run_at};
    ghost use Rattle.mdr_msg.specs.Encoding.{CanPutRun};
    ghost use Rattle.mdr_msg.specs.WellFormed.{IsRun};

    ghost text = { run_text };

    ghost can_be_put = { CanPutRun };

    ghost has_spelling = { IsRun };

    ghost reader = { run_at };

    #[tactic(auto, unfolding(mdr_model::specs::Text::run_text))]
    fn put(&self, out: &mut Vec<u8>) -> Result<(), OutOfMemory> {
        self.serial.put(out)?;
        self.first.put(out)?;
        self.values.put(out)
    }

    #[tactic(auto, unfolding(mdr_model::specs::Reading::run_at))]
    fn get(alloc: Global, bytes: &[u8], c: &mut Cursor) -> Result<Run, MsgError> {
        let serial = u64::get(alloc, bytes, c)?;
        let first = u32::get(alloc, bytes, c)?;
        let values = Items::<Wire>::get(alloc, bytes, c)?;
        Ok(Run {
            serial,
            first,
            values,
        })
    }
}

impl Item for Told {
    ghost use Rattle.mdr_model.specs.Text.{told_text};
    ghost use Rattle.mdr_model.specs.Reading.{told_at};
    ghost use Rattle.mdr_msg.specs.Encoding.{CanPutTold};
    ghost use Rattle.mdr_msg.specs.WellFormed.{IsTold};

    ghost text = { told_text };

    ghost can_be_put = { CanPutTold };

    ghost has_spelling = { IsTold };

    ghost reader = { told_at };

    #[tactic(auto, unfolding(mdr_model::specs::Text::told_text))]
    fn put(&self, out: &mut Vec<u8>) -> Result<(), OutOfMemory> {
        self.deaths.put(out)?;
        self.news.put(out)?;
        self.view.put(out)?;
        self.runs.put(out)
    }

    #[tactic(auto, unfolding(mdr_model::specs::Reading::told_at))]
    fn get(alloc: Global, bytes: &[u8], c: &mut Cursor) -> Result<Told, MsgError> {
        let deaths = Items::<u64>::get(alloc, bytes, c)?;
        let news = Items::<New>::get(alloc, bytes, c)?;
        let view = Items::<SetRun>::get(alloc, bytes, c)?;
        let runs = Items::<Run>::get(alloc, bytes, c)?;
        Ok(Told {
            deaths,
            news,
            view,
            runs,
        })
    }
}
