// What is wrong first in a transcript.

ghost use Rattle.std.specs.Prelude.{◌≡◌, ◌↔◌, ◌+◌, ◌*◌, ◌<◌, ◌^◌, length, slice_get, IsTrue, Some};
ghost use Rattle.std.specs.Option.{option_copied};
ghost use Rattle.mdr_verify.specs.Verdicts.{FirstDifference, FirstWrong, wrong_of, FirstOtherLine, IsVerdict};

use crate::split::split_line;
use crate::transcript::Transcript;
use mdr_core::Items;

/// The first wrong message or answer. Both are counted together, from 1.
#[derive(Clone, Copy)]
pub enum Wrong {
    /// It isn't the message that the kernel half sends there.
    Sent(u128),
    /// It isn't the answer of the user half.
    Answer(u128),
}

/// What is to be said of a transcript.
#[derive(Clone, Copy)]
pub enum Verdict {
    Wrong(Wrong),
    /// The messages are right, and this is the first line of the report that isn't due.
    Report(u128),
    /// All is right, and there are so many messages.
    Yes(u128),
}

fn is_same(said: &Items<u8>, due: &Items<u8>) -> bool
    ensures { IsTrue result ↔ (said.now ≡ due.now) }
{
    said.as_slice() == due.as_slice()
}

fn is_there(said: &Items<u8>, due: Option<&Items<u8>>) -> bool
    ensures { IsTrue result ↔ (Some said.now ≡ option_copied due.entry) }
{
    match due {
        Some(other) => is_same(said, other),
        None => false,
    }
}

/// Whether the lists have the same at a place, or both end before it.
fn is_same_at(said: &[Items<u8>], due: &[Items<u8>], place: usize) -> bool
    ensures { IsTrue result ↔ (slice_get said.now place ≡ slice_get due.now place) }
{
    match said.get(place) {
        Some(message) => is_there(message, due.get(place)),
        None => due.get(place).is_none(),
    }
}

/// The first place at which the messages aren't those that are due, if there is one. One of the lists may end there.
pub fn first_difference(said: &[Items<u8>], due: &[Items<u8>]) -> Option<usize>
    ensures { FirstDifference said.now due.now result }
{
    let mut place = 0;
    while place < said.len() {
        if !is_same_at(said, due, place) {
            return Some(place);
        }
        place += 1;
    }
    if is_same_at(said, due, place) {
        None
    } else {
        Some(place)
    }
}

fn sent_number(place: usize) -> u128
    ensures { result ≡ 2 * place + 1 }
{
    2 * (place as u128) + 1
}

fn answer_number(place: usize) -> u128
    ensures { result ≡ 2 * place + 2 }
{
    2 * (place as u128) + 2
}

fn first_of(message: usize, answer: usize) -> Option<Wrong>
    ensures { result ≡ wrong_of (Some message) (Some answer) }
{
    if answer < message {
        Some(Wrong::Answer(answer_number(answer)))
    } else {
        Some(Wrong::Sent(sent_number(message)))
    }
}

/// The message at one place or the answer at another, whichever comes first.
fn wrong_of(message: Option<usize>, answer: Option<usize>) -> Option<Wrong>
    ensures { result ≡ wrong_of message answer }
{
    match message {
        Some(message) => match answer {
            Some(answer) => first_of(message, answer),
            None => Some(Wrong::Sent(sent_number(message))),
        },
        None => match answer {
            Some(answer) => Some(Wrong::Answer(answer_number(answer))),
            None => None,
        },
    }
}

/// The first wrong message or answer of a transcript, where these messages are due, and these answers to the right ones.
pub fn first_wrong(
    transcript: &Transcript,
    sent: &[Items<u8>],
    answers: &[Items<u8>],
) -> Option<Wrong>
    ensures { FirstWrong transcript.now sent.now answers.now result }
{
    let message = first_difference(transcript.sent.as_slice(), sent);
    let answer = first_difference(transcript.got.as_slice(), answers);
    wrong_of(message, answer)
}

/// The number of the first line that isn't that of the text which is due, if there is one. One of the texts may end
/// before it.
pub fn first_other_line(said: &[u8], due: &[u8]) -> Option<u128>
    ensures { FirstOtherLine said.now due.now result }
{
    let _fits = said.len();
    other_line(said, due)
}

fn other_line(said: &[u8], due: &[u8]) -> Option<u128>
    requires { length said.now < 2 ^ 64 }
    ensures { FirstOtherLine said.now due.now result }
{
    let mut number = 1u128;
    let mut said_rest = said;
    let mut due_rest = due;
    while let Some((line, after)) = split_line(said_rest) {
        let Some((other, due_after)) = split_line(due_rest) else {
            return Some(number);
        };
        if line != other {
            return Some(number);
        }
        number += 1;
        said_rest = after;
        due_rest = due_after;
    }
    if said_rest == due_rest {
        None
    } else {
        Some(number)
    }
}

/// What is to be said of a transcript where these messages and this report are due, and these answers to the right
/// messages.
pub fn judge(
    transcript: &Transcript,
    sent: &[Items<u8>],
    answers: &[Items<u8>],
    report: &[u8],
) -> Verdict
    ensures { IsVerdict transcript.now sent.now answers.now report.now result }
{
    match first_wrong(transcript, sent, answers) {
        Some(wrong) => Verdict::Wrong(wrong),
        None => match first_other_line(transcript.report.as_slice(), report) {
            Some(number) => Verdict::Report(number),
            None => Verdict::Yes(transcript.count()),
        },
    }
}
