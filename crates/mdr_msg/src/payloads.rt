// The payloads of messages: their fields in their order.

ghost use Rattle.std.specs.Prelude.{◌≡◌, ◌++◌, OnOk};
ghost use Rattle.mdr_model.specs.Text.{asked_text};
ghost use Rattle.mdr_model.specs.Xdr.{opaque_at};
ghost use Rattle.mdr_msg.specs.Decoding.{Gives};
ghost use Rattle.mdr_msg.specs.Encoding.{CanPutAsk};
ghost use Rattle.mdr_msg.specs.WellFormed.{IsAskedWith};

use crate::error::MsgError;
use crate::item::Item;
use mdr_core::{At, Items, OutOfMemory};
use mdr_model::{Answer, Ask, Back, Call, Down, New, Return, Run, Shape64, Stop, Told, Wire};
use mdr_xdr::Cursor;
use std::alloc::Global;

/// Reads opaque bytes.
fn get_bytes(alloc: Global, bytes: &[u8], c: &mut Cursor) -> Result<Items<u8>, MsgError>
    ensures { Gives bytes.now c.old.at c.new.at result opaque_at }
{
    match mdr_xdr::get_opaque(bytes, c) {
        Ok(opaque) => Ok(Items::from_slice(alloc, opaque)?),
        Err(e) => Err(MsgError::from(e)),
    }
}

impl Item for Call {
    ghost use Rattle.mdr_model.specs.Text.{call_text};
    ghost use Rattle.mdr_model.specs.Reading.{call_at};
    ghost use Rattle.mdr_msg.specs.Encoding.{CanPutCall};
    ghost use Rattle.mdr_msg.specs.WellFormed.{IsCall};

    ghost text = { call_text };

    ghost can_be_put = { CanPutCall };

    ghost has_spelling = { IsCall };

    ghost reader = { call_at };

    #[tactic(auto, unfolding(mdr_model::specs::Text::call_text))]
    fn put(&self, out: &mut Vec<u8>) -> Result<(), OutOfMemory> {
        self.func.put(out)?;
        self.depth.put(out)?;
        self.rest.put(out)?;
        self.args.put(out)?;
        self.told.put(out)
    }

    #[tactic(auto, unfolding(mdr_model::specs::Reading::call_at))]
    fn get(alloc: Global, bytes: &[u8], c: &mut Cursor) -> Result<Call, MsgError> {
        let func = u32::get(alloc, bytes, c)?;
        let depth = u32::get(alloc, bytes, c)?;
        let rest = u64::get(alloc, bytes, c)?;
        let args = Items::<Wire>::get(alloc, bytes, c)?;
        let told = Told::get(alloc, bytes, c)?;
        Ok(Call {
            func,
            depth,
            rest,
            args,
            told,
        })
    }
}

impl Item for Return {
    ghost use Rattle.mdr_model.specs.Text.{return_text};
    ghost use Rattle.mdr_model.specs.Reading.{return_at};
    ghost use Rattle.mdr_msg.specs.Encoding.{CanPutReturn};
    ghost use Rattle.mdr_msg.specs.WellFormed.{IsReturn};

    ghost text = { return_text };

    ghost can_be_put = { CanPutReturn };

    ghost has_spelling = { IsReturn };

    ghost reader = { return_at };

    #[tactic(auto, unfolding(mdr_model::specs::Text::return_text))]
    fn put(&self, out: &mut Vec<u8>) -> Result<(), OutOfMemory> {
        self.ticks.put(out)?;
        self.result.put(out)?;
        self.runs.put(out)
    }

    #[tactic(auto, unfolding(mdr_model::specs::Reading::return_at))]
    fn get(alloc: Global, bytes: &[u8], c: &mut Cursor) -> Result<Return, MsgError> {
        let ticks = u64::get(alloc, bytes, c)?;
        let value = Wire::get(alloc, bytes, c)?;
        let runs = Items::<Run>::get(alloc, bytes, c)?;
        Ok(Return {
            ticks,
            result: value,
            runs,
        })
    }
}

impl Item for Down {
    ghost use Rattle.mdr_model.specs.Text.{down_text};
    ghost use Rattle.mdr_model.specs.Reading.{down_at};
    ghost use Rattle.mdr_msg.specs.Encoding.{CanPutDown};
    ghost use Rattle.mdr_msg.specs.WellFormed.{IsDown};

    ghost text = { down_text };

    ghost can_be_put = { CanPutDown };

    ghost has_spelling = { IsDown };

    ghost reader = { down_at };

    #[tactic(auto, unfolding(mdr_model::specs::Text::down_text))]
    fn put(&self, out: &mut Vec<u8>) -> Result<(), OutOfMemory> {
        self.ticks.put(out)?;
        self.at.put(out)?;
        self.depth.put(out)?;
        self.func.put(out)?;
        self.args.put(out)?;
        self.runs.put(out)
    }

    #[tactic(auto, unfolding(mdr_model::specs::Reading::down_at))]
    fn get(alloc: Global, bytes: &[u8], c: &mut Cursor) -> Result<Down, MsgError> {
        let ticks = u64::get(alloc, bytes, c)?;
        let at = At::get(alloc, bytes, c)?;
        let depth = u32::get(alloc, bytes, c)?;
        let func = u32::get(alloc, bytes, c)?;
        let args = Items::<Wire>::get(alloc, bytes, c)?;
        let runs = Items::<Run>::get(alloc, bytes, c)?;
        Ok(Down {
            ticks,
            at,
            depth,
            func,
            args,
            runs,
        })
    }
}

impl Item for Back {
    ghost use Rattle.mdr_model.specs.Text.{back_text};
    ghost use Rattle.mdr_model.specs.Reading.{back_at};
    ghost use Rattle.mdr_msg.specs.Encoding.{CanPutBack};
    ghost use Rattle.mdr_msg.specs.WellFormed.{IsBack};

    ghost text = { back_text };

    ghost can_be_put = { CanPutBack };

    ghost has_spelling = { IsBack };

    ghost reader = { back_at };

    #[tactic(auto, unfolding(mdr_model::specs::Text::back_text))]
    fn put(&self, out: &mut Vec<u8>) -> Result<(), OutOfMemory> {
        self.rest.put(out)?;
        self.result.put(out)?;
        self.told.put(out)
    }

    #[tactic(auto, unfolding(mdr_model::specs::Reading::back_at))]
    fn get(alloc: Global, bytes: &[u8], c: &mut Cursor) -> Result<Back, MsgError> {
        let rest = u64::get(alloc, bytes, c)?;
        let value = Wire::get(alloc, bytes, c)?;
        let told = Told::get(alloc, bytes, c)?;
        Ok(Back {
            rest,
            result: value,
            told,
        })
    }
}

/// Writes what a service is asked with.
fn put_asked(ask: &Ask, out: &mut Vec<u8>) -> Result<(), OutOfMemory>
    requires { CanPutAsk ask.now }
    ensures spelled { OnOk result (IsAskedWith ask.now) }
    ensures written { OnOk result (out.new.items ≡ out.old.items ++ asked_text ask.now) }
{
    ask.args.put(out)?;
    ask.shapes.put(out)?;
    mdr_xdr::put_opaque(ask.bytes.as_slice(), out)?;
    ask.runs.put(out)
}

impl Item for Ask {
    ghost use Rattle.mdr_model.specs.Text.{ask_text};
    ghost use Rattle.mdr_model.specs.Reading.{ask_at};
    ghost use Rattle.mdr_msg.specs.Encoding.{CanPutAsk};
    ghost use Rattle.mdr_msg.specs.WellFormed.{IsAsk};

    ghost text = { ask_text };

    ghost can_be_put = { CanPutAsk };

    ghost has_spelling = { IsAsk };

    ghost reader = { ask_at };

    #[tactic(auto, unfolding(mdr_model::specs::Text::ask_text))]
    fn put(&self, out: &mut Vec<u8>) -> Result<(), OutOfMemory> {
        self.ticks.put(out)?;
        self.at.put(out)?;
        self.service.put(out)?;
        put_asked(self, out)
    }

    #[tactic(auto, unfolding(mdr_model::specs::Reading::ask_at))]
    fn get(alloc: Global, bytes: &[u8], c: &mut Cursor) -> Result<Ask, MsgError> {
        let ticks = u64::get(alloc, bytes, c)?;
        let at = At::get(alloc, bytes, c)?;
        let service = u32::get(alloc, bytes, c)?;
        let args = Items::<Wire>::get(alloc, bytes, c)?;
        let shapes = Items::<Shape64>::get(alloc, bytes, c)?;
        let opaque = get_bytes(alloc, bytes, c)?;
        let runs = Items::<Run>::get(alloc, bytes, c)?;
        Ok(Ask {
            ticks,
            at,
            service,
            args,
            shapes,
            bytes: opaque,
            runs,
        })
    }
}

impl Item for Answer {
    ghost use Rattle.mdr_model.specs.Text.{answer_text};
    ghost use Rattle.mdr_model.specs.Reading.{answer_at};
    ghost use Rattle.mdr_msg.specs.Encoding.{CanPutAnswer};
    ghost use Rattle.mdr_msg.specs.WellFormed.{IsAnswer};

    ghost text = { answer_text };

    ghost can_be_put = { CanPutAnswer };

    ghost has_spelling = { IsAnswer };

    ghost reader = { answer_at };

    #[tactic(auto, unfolding(mdr_model::specs::Text::answer_text))]
    fn put(&self, out: &mut Vec<u8>) -> Result<(), OutOfMemory> {
        self.results.put(out)?;
        self.deaths.put(out)?;
        self.news.put(out)
    }

    #[tactic(auto, unfolding(mdr_model::specs::Reading::answer_at))]
    fn get(alloc: Global, bytes: &[u8], c: &mut Cursor) -> Result<Answer, MsgError> {
        let results = Items::<Wire>::get(alloc, bytes, c)?;
        let deaths = Items::<u64>::get(alloc, bytes, c)?;
        let news = Items::<New>::get(alloc, bytes, c)?;
        Ok(Answer {
            results,
            deaths,
            news,
        })
    }
}

impl Item for Stop {
    ghost use Rattle.mdr_model.specs.Text.{stop_text};
    ghost use Rattle.mdr_model.specs.Reading.{stop_at};
    ghost use Rattle.mdr_msg.specs.Encoding.{CanPutStop};
    ghost use Rattle.mdr_msg.specs.WellFormed.{IsStop};

    ghost text = { stop_text };

    ghost can_be_put = { CanPutStop };

    ghost has_spelling = { IsStop };

    ghost reader = { stop_at };

    #[tactic(auto, unfolding(mdr_model::specs::Text::stop_text))]
    fn put(&self, out: &mut Vec<u8>) -> Result<(), OutOfMemory> {
        self.ticks.put(out)?;
        self.stop.put(out)?;
        self.at.put(out)?;
        self.runs.put(out)
    }

    #[tactic(auto, unfolding(mdr_model::specs::Reading::stop_at))]
    fn get(alloc: Global, bytes: &[u8], c: &mut Cursor) -> Result<Stop, MsgError> {
        let ticks = u64::get(alloc, bytes, c)?;
        let stop = u32::get(alloc, bytes, c)?;
        let at = At::get(alloc, bytes, c)?;
        let runs = Items::<Run>::get(alloc, bytes, c)?;
        Ok(Stop {
            ticks,
            stop,
            at,
            runs,
        })
    }
}
