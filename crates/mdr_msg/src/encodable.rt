// Which messages are written.

ghost use Rattle.std.specs.Prelude.{◌↔◌, IsTrue};
ghost use Rattle.std.specs.List.{AllByRecursion};
ghost use Rattle.mdr_msg.specs.Encoding.{CanEncode, CanPutAnswer, CanPutAsk, CanPutReply, CanPutRun, CanPutRuns, CanPutTold, CanPutValue, CanPutValues, IsShort};

use mdr_core::Items;
use mdr_model::{Answer, Ask, Message, Reply, Run, Told, Wire};

fn is_short<T>(items: &Items<T>) -> bool
    ensures { IsTrue result ↔ IsShort items.now }
{
    items.len() < 1 << 31
}

fn can_put_value(value: &Wire) -> bool
    ensures { IsTrue result ↔ CanPutValue value.now }
{
    match *value {
        Wire::Int(kind, n) => kind.contains(n),
        Wire::Lock(_) => false,
        Wire::Null | Wire::Ptr(_) | Wire::Dead | Wire::Fn(_) | Wire::NoValue => true,
    }
}

fn can_put_each_value(values: &[Wire]) -> bool
    ensures { IsTrue result ↔ AllByRecursion CanPutValue values.now }
{
    values.iter().all(|value| can_put_value(value))
}

fn can_put_values(values: &Items<Wire>) -> bool
    ensures { IsTrue result ↔ CanPutValues values.now }
{
    is_short(values) && can_put_each_value(values.as_slice())
}

fn can_put_each_run(runs: &[Run]) -> bool
    ensures { IsTrue result ↔ AllByRecursion CanPutRun runs.now }
{
    runs.iter().all(|run| can_put_values(&run.values))
}

fn can_put_runs(runs: &Items<Run>) -> bool
    ensures { IsTrue result ↔ CanPutRuns runs.now }
{
    is_short(runs) && can_put_each_run(runs.as_slice())
}

fn can_put_told(told: &Told) -> bool
    ensures { IsTrue result ↔ CanPutTold told.now }
{
    is_short(&told.deaths)
        && is_short(&told.news)
        && is_short(&told.view)
        && can_put_runs(&told.runs)
}

fn can_put_ask(ask: &Ask) -> bool
    ensures { IsTrue result ↔ CanPutAsk ask.now }
{
    can_put_values(&ask.args)
        && is_short(&ask.shapes)
        && is_short(&ask.bytes)
        && can_put_runs(&ask.runs)
}

fn can_put_answer(answer: &Answer) -> bool
    ensures { IsTrue result ↔ CanPutAnswer answer.now }
{
    can_put_values(&answer.results) && is_short(&answer.deaths) && is_short(&answer.news)
}

fn can_put_reply(reply: &Reply) -> bool
    ensures { IsTrue result ↔ CanPutReply reply.now }
{
    match reply {
        Reply::Return(returned) => can_put_value(&returned.result) && can_put_runs(&returned.runs),
        Reply::Down(down) => can_put_values(&down.args) && can_put_runs(&down.runs),
        Reply::Ask(ask) => can_put_ask(ask),
        Reply::Stop(stop) => can_put_runs(&stop.runs),
    }
}

/// Whether a message has a spelling that `encode` writes: each of its lists has fewer than 2^31 items, each integer
/// is in its kind's range, and no value is a lock.
pub fn can_encode(m: &Message) -> bool
    ensures { IsTrue result ↔ CanEncode m.now }
{
    match m {
        Message::Call(call) => can_put_values(&call.args) && can_put_told(&call.told),
        Message::Back(back) => can_put_value(&back.result) && can_put_told(&back.told),
        Message::Answer(answer) => can_put_answer(answer),
        Message::Reply(reply) => can_put_reply(reply),
        Message::Refuse(_) => true,
    }
}
