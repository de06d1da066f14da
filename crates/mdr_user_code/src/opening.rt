// What a message opens.

ghost use Rattle.std.specs.Prelude.{◌≡◌, ◌&&◌, [], true, IfOk};
ghost use Rattle.std.specs.List.{list_all};
ghost use Rattle.mdr_core.specs.Sound.{IsSound};
ghost use Rattle.mdr_model.specs.User.{has_shape};
ghost use Rattle.mdr_split.specs.Services.{leaving, results_fit};
ghost use Rattle.mdr_split.specs.User.{objects_fit};
ghost use Rattle.mdr_user_code.specs.Opening.{answer_copy, answer_opening, answer_turn, answered, back_opening, back_sight, call_opening};
ghost use Rattle.mdr_user_code.specs.Opening.{call_sight, calls_deeper, downcall, grown_sight, is_answered, opening_of, opening_for, takes_call};
ghost use Rattle.mdr_user_code.specs.Standing.{driver_in};

use crate::grown::visible_after;
use crate::objects::objects_fit;
use crate::scene::Scene;
use crate::sight::{Sight, back_sight, call_sight, renewed, touched};
use crate::state::{Awaits, Downcall, Question, State};
use mdr_copy::RisingBlocks;
use mdr_core::{Items, OutOfMemory};
use mdr_fits::{entered_behind, leaving, results_fit};
use mdr_model::{Answer, Back, Call, Message, New};
use std::alloc::Global;

/// User code that goes on: its ticks, the blocks that came in an answer to service 13 and live, and what it sees.
#[derive(Drop)]
pub struct Turn {
    pub rest: u64,
    pub entered: Items<u64>,
    pub sight: Sight,
}

/// A message is refused, for a reason, or user code goes on.
#[derive(Drop)]
pub enum Opening {
    Refuses(u32),
    Goes(Turn),
}

/// What doesn't fit is refused.
fn opening_of(rest: u64, entered: Items<u64>, sight: Option<Sight>) -> Opening
    ensures { result ≡ opening_of rest entered sight }
{
    match sight {
        Some(sight) => Opening::Goes(Turn {
            rest,
            entered,
            sight,
        }),
        None => Opening::Refuses(3),
    }
}

/// The downcall that is open.
pub(crate) fn downcall(state: &State) -> Option<Downcall>
    ensures { result ≡ downcall state.now.awaits }
{
    match &state.awaits {
        Awaits::Nothing => None,
        Awaits::Back(down) => Some(*down),
        Awaits::Answer(_, _) => None,
    }
}

fn takes_call(state: &State) -> bool
    ensures { result ≡ takes_call state.now.awaits }
{
    match &state.awaits {
        Awaits::Nothing => true,
        Awaits::Back(_) => true,
        Awaits::Answer(_, _) => false,
    }
}

/// Whether a callback has more functions active than the downcall that it comes in.
fn calls_deeper(state: &State, depth: u32) -> bool
    ensures { result ≡ calls_deeper (downcall state.now.awaits) depth }
{
    match downcall(state) {
        Some(down) => down.depth < depth,
        None => true,
    }
}

/// An upcall, which is awaited where nothing is open, or a downcall, in which the kernel half calls back.
fn open_call(
    alloc: Global,
    scene: Scene,
    state: &State,
    call: &Call,
) -> Result<Opening, OutOfMemory>
    requires { IsSound scene.program.now }
    ensures { IfOk result (λ o. o ≡ call_opening (driver_in scene.entry) state.now call.now) }
{
    if !takes_call(state) {
        return Ok(Opening::Refuses(2));
    }
    if !calls_deeper(state, call.depth) {
        return Ok(Opening::Refuses(3));
    }
    let entered = Items::from_slice(alloc, state.entered.as_slice())?;
    let copy = state.memory.agreed();
    let lives = state.entered.as_slice();
    let sight = call_sight(alloc, scene, copy, lives, call)?;
    Ok(opening_of(call.rest, entered, sight))
}

fn given_back(
    alloc: Global,
    scene: Scene,
    state: &State,
    func: u32,
    back: &Back,
) -> Result<Opening, OutOfMemory>
    requires { IsSound scene.program.now }
    ensures { IfOk result (λ o. o ≡ opening_of back.now.rest state.now.entered (back_sight (driver_in scene.entry) state.now.memory.agreed state.now.func state.now.entered func back.now)) }
{
    let entered = Items::from_slice(alloc, state.entered.as_slice())?;
    let copy = state.memory.agreed();
    let lives = state.entered.as_slice();
    let sight = back_sight(alloc, scene, copy, state.func, lives, func, back)?;
    Ok(opening_of(back.rest, entered, sight))
}

/// The return of a downcall, which is awaited where one is open.
fn open_back(
    alloc: Global,
    scene: Scene,
    state: &State,
    back: &Back,
) -> Result<Opening, OutOfMemory>
    requires { IsSound scene.program.now }
    ensures { IfOk result (λ o. o ≡ back_opening (driver_in scene.entry) state.now back.now) }
{
    match downcall(state) {
        Some(down) => {
            let opening = given_back(alloc, scene, state, down.func, back)?;
            Ok(opening)
        }
        None => Ok(Opening::Refuses(2)),
    }
}

/// Whether results are those of the service that was asked for, and those objects die that are left.
fn is_answered(
    alloc: Global,
    question: &Question,
    entered: &[u64],
    answer: &Answer,
) -> Result<bool, OutOfMemory>
    ensures { IfOk result (λ b. b ≡ is_answered question.now entered.now answer.now) }
{
    let gone = leaving(alloc, question.service, question.args.as_slice())?;
    let shapes = question.shapes.as_slice();
    let news = answer.news.as_slice();
    let fits = results_fit(question.service, shapes, news, answer.results.as_slice());
    Ok(objects_fit(gone.as_slice(), answer.deaths.as_slice(), entered) && fits)
}

/// The copy once the deaths and births of an answer are in it, where it fits.
#[tactic(auto, unfolding(crate::specs::Opening::answer_copy))]
fn answer_copy(
    alloc: Global,
    scene: Scene,
    state: &State,
    question: &Question,
    answer: &Answer,
) -> Result<Option<RisingBlocks>, OutOfMemory>
    ensures { IfOk result (λ c. c ≡ answer_copy (driver_in scene.entry) state.now question.now answer.now) }
{
    let lives = state.entered.as_slice();
    if !is_answered(alloc, question, lives, answer)? {
        return Ok(None);
    }
    let agreed = state.memory.agreed();
    let copy = renewed(alloc, scene.program, agreed, &answer.deaths, &answer.news)?;
    Ok(copy)
}

/// What user code sees behind an answer.
#[tactic(auto, unfolding(crate::specs::Opening::grown_sight))]
fn grown_sight(
    alloc: Global,
    scene: Scene,
    state: &State,
    copy: RisingBlocks,
    news: &[New],
) -> Result<Sight, OutOfMemory>
    requires sound { IsSound scene.program.now }
    requires shaped { list_all (has_shape scene.program.now) news.now ≡ true }
    ensures { IfOk result (λ s. s ≡ grown_sight (driver_in scene.entry) state.now news.now copy) }
{
    let keys = touched(scene.plan, state.func);
    let seen = state.view.as_slice();
    let view = visible_after(alloc, scene.program, keys, &copy, news, seen)?;
    Ok(Sight { view, copy })
}

fn answer_turn(
    alloc: Global,
    scene: Scene,
    state: &State,
    question: &Question,
    left: u64,
    answer: &Answer,
    copy: RisingBlocks,
) -> Result<Turn, OutOfMemory>
    requires sound { IsSound scene.program.now }
    requires shaped { list_all (has_shape scene.program.now) answer.now.news ≡ true }
    ensures { IfOk result (λ t. t ≡ answer_turn (driver_in scene.entry) state.now question.now left answer.now copy) }
{
    let lives = state.entered.as_slice();
    let deaths = answer.deaths.as_slice();
    let news = answer.news.as_slice();
    let sight = grown_sight(alloc, scene, state, copy, news)?;
    let entered = entered_behind(alloc, question.service, deaths, news, lives)?;
    Ok(Turn {
        rest: left,
        entered,
        sight,
    })
}

fn answered(
    alloc: Global,
    scene: Scene,
    state: &State,
    question: &Question,
    left: u64,
    answer: &Answer,
) -> Result<Opening, OutOfMemory>
    requires { IsSound scene.program.now }
    ensures { IfOk result (λ o. o ≡ answered (driver_in scene.entry) state.now question.now left answer.now) }
{
    match answer_copy(alloc, scene, state, question, answer)? {
        Some(copy) => {
            let turn = answer_turn(alloc, scene, state, question, left, answer, copy)?;
            Ok(Opening::Goes(turn))
        }
        None => Ok(Opening::Refuses(3)),
    }
}

/// The results of a service, which are awaited where one was asked for.
fn open_answer(
    alloc: Global,
    scene: Scene,
    state: &State,
    answer: &Answer,
) -> Result<Opening, OutOfMemory>
    requires { IsSound scene.program.now }
    ensures { IfOk result (λ o. o ≡ answer_opening (driver_in scene.entry) state.now answer.now) }
{
    match &state.awaits {
        Awaits::Answer(question, left) => answered(alloc, scene, state, question, *left, answer),
        Awaits::Nothing => Ok(Opening::Refuses(2)),
        Awaits::Back(_) => Ok(Opening::Refuses(2)),
    }
}

/// What a message opens: it is refused where its kind isn't awaited, or its content doesn't fit.
#[tactic(auto, unfolding(crate::specs::Opening::opening_for))]
pub(crate) fn opens(
    alloc: Global,
    scene: Scene,
    state: &State,
    message: &Message,
) -> Result<Opening, OutOfMemory>
    requires { IsSound scene.program.now }
    ensures { IfOk result (λ o. o ≡ opening_for (driver_in scene.entry) state.now message.now) }
{
    match message {
        Message::Call(call) => open_call(alloc, scene, state, call),
        Message::Back(back) => open_back(alloc, scene, state, back),
        Message::Answer(answer) => open_answer(alloc, scene, state, answer),
        Message::Reply(_) => Ok(Opening::Refuses(2)),
        Message::Refuse(_) => Ok(Opening::Refuses(2)),
    }
}
