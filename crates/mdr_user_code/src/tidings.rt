// What a message tells of memory.

ghost use Rattle.std.specs.Prelude.{◌≡◌, []};
ghost use Rattle.mdr_user_code.specs.Tidings.{deaths_in, news_in, runs_in};

use mdr_model::{Message, Told};
use mdr_user_memory::Tidings;

fn tidings_of(told: &Told) -> Tidings<'_>
    ensures deaths { result.deaths.now ≡ told.now.deaths }
    ensures news { result.news.now ≡ told.now.news }
    ensures runs { result.runs.now ≡ told.now.runs }
{
    Tidings {
        deaths: told.deaths.as_slice(),
        news: told.news.as_slice(),
        runs: told.runs.as_slice(),
    }
}

fn nothing<'a>() -> Tidings<'a>
    ensures deaths { result.deaths.now ≡ [] }
    ensures news { result.news.now ≡ [] }
    ensures runs { result.runs.now ≡ [] }
{
    Tidings {
        deaths: &[],
        news: &[],
        runs: &[],
    }
}

/// The births, deaths and values of a message.
pub(crate) fn tidings(message: &Message) -> Tidings<'_>
    ensures deaths { result.deaths.now ≡ deaths_in message.now }
    ensures news { result.news.now ≡ news_in message.now }
    ensures runs { result.runs.now ≡ runs_in message.now }
{
    match message {
        Message::Call(call) => tidings_of(&call.told),
        Message::Back(back) => tidings_of(&back.told),
        Message::Answer(answer) => Tidings {
            deaths: answer.deaths.as_slice(),
            news: answer.news.as_slice(),
            runs: &[],
        },
        Message::Reply(_) => nothing(),
        Message::Refuse(_) => nothing(),
    }
}
