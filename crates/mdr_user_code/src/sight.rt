// What a message shows, where it fits.

ghost use Rattle.std.specs.Prelude.{◌≡◌, ◌&&◌, [], is_none, length, nat_le, slice_get, IfOk};
ghost use Rattle.mdr_core.specs.Sound.{IsSound};
ghost use Rattle.mdr_fits.specs.Judged.{places_of};
ghost use Rattle.mdr_model.specs.Copies.{put_runs};
ghost use Rattle.mdr_split.specs.Fits.{fits, fits_result};
ghost use Rattle.mdr_split.specs.Legal.{args_fault, params_of, result_of};
ghost use Rattle.mdr_split.specs.User.{objects_fit, runs_fit, user_places};
ghost use Rattle.mdr_watched.specs.Driver.{is_user, touched_by};
ghost use Rattle.mdr_user_code.specs.Opening.{args_fit, back_sight, call_sight, called, may_enter, places_in, renewed, result_fits, returned, shown};
ghost use Rattle.mdr_user_code.specs.Standing.{driver_in};

use crate::objects::objects_fit;
use crate::scene::Scene;
use crate::shown::view_fits;
use mdr_copy::{
    CellList, RisingBlocks, cells_of_runs, copy_of, deaths_fit, news_fit, put_runs, with_news,
    without,
};
use mdr_core::{Half, Items, Key, OutOfMemory, Plan, Program, Ty};
use mdr_fits::{Passes, Places, args_fault, fits_result, runs_fault};
use mdr_model::{Back, Call, New, Run, Told, Wire};
use std::alloc::Global;

/// The cells that user code may touch from now on, and the agreed copy.
#[derive(Drop)]
pub struct Sight {
    pub view: CellList,
    pub copy: RisingBlocks,
}

/// Whether a function is of the user half.
pub(crate) fn is_user(plan: &Plan, func: u32) -> bool
    ensures { result ≡ is_user plan.now func }
{
    match plan.halves.as_slice().get(func as usize) {
        Some(Half::User) => true,
        Some(Half::Kernel) => false,
        None => false,
    }
}

/// The keys of what a function of the user half may touch, with all that it calls in its half.
pub(crate) fn touched<'a>(plan: &'a Plan, func: u32) -> &'a [Key]
    ensures { result.now ≡ touched_by plan.now func }
{
    match plan.keys.as_slice().get(func as usize) {
        Some(keys) => keys.as_slice(),
        None => &[],
    }
}

fn may_enter(plan: &Plan, func: u32, depth: u32) -> bool
    ensures { result ≡ may_enter plan.now func depth }
{
    is_user(plan, func) && depth <= 255
}

/// What values are judged by.
fn places<'a>(program: &'a Program, copy: &'a RisingBlocks) -> Places<'a>
    ensures is { places_of result ≡ places_in program.now copy.now }
    ensures program { result.program.now ≡ program.now }
{
    Places {
        program,
        passes: Passes::All,
        paired: copy,
        memory: copy,
    }
}

/// Whether arguments fit the parameters of a function.
fn args_fit(program: &Program, copy: &RisingBlocks, func: u32, args: &[Wire]) -> bool
    requires { IsSound program.now }
    ensures { result ≡ args_fit program.now copy.now func args.now }
{
    match program.funcs.as_slice().get(func as usize) {
        Some(func) => args_fault(places(program, copy), func.params.as_slice(), args).is_none(),
        None => args_fault(places(program, copy), &[], args).is_none(),
    }
}

/// Whether a value fits the result of a function.
fn result_fits(program: &Program, copy: &RisingBlocks, func: u32, value: Wire) -> bool
    requires { IsSound program.now }
    ensures { result ≡ result_fits program.now copy.now func value }
{
    match program.funcs.as_slice().get(func as usize) {
        Some(func) => fits_result(places(program, copy), &func.result, value),
        None => fits_result(places(program, copy), &Ty::Void, value),
    }
}

/// Whether the values of a message fit the visible cells.
#[tactic(auto, unfolding(mdr_split::specs::User::runs_fit))]
fn runs_fit(scene: Scene, copy: &RisingBlocks, cells: &CellList, runs: &[Run]) -> bool
    requires { IsSound scene.program.now }
    ensures { result ≡ runs_fit (driver_in scene.entry) copy.now cells.now runs.now }
{
    runs_fault(places(scene.program, copy), cells, runs).is_none()
}

/// The copy once the deaths and births of a message are in it, where they fit.
#[tactic(auto, unfolding(mdr_model::specs::User::lives_fit))]
pub(crate) fn renewed(
    alloc: Global,
    program: &Program,
    copy: &RisingBlocks,
    deaths: &Items<u64>,
    news: &Items<New>,
) -> Result<Option<RisingBlocks>, OutOfMemory>
    ensures { IfOk result (λ left. left ≡ renewed program.now copy.now deaths.now news.now) }
{
    if !deaths_fit(program, copy, deaths.as_slice()) {
        return Ok(None);
    }
    let own = copy_of(alloc, copy)?;
    let left = without(alloc, deaths.as_slice(), own)?;
    if !news_fit(program, &left, news.as_slice()) {
        return Ok(None);
    }
    let more = with_news(alloc, program, news.as_slice(), left)?;
    Ok(Some(more))
}

/// The copy with the values that are told.
fn told_copy(copy: RisingBlocks, runs: &[Run]) -> RisingBlocks
    ensures { result ≡ put_runs runs.now copy }
{
    let mut copy = copy;
    put_runs(&mut copy, runs);
    copy
}

/// The visible cells, and the copy with the values that are told, where they fit.
fn shown(
    alloc: Global,
    scene: Scene,
    stub: u32,
    copy: RisingBlocks,
    told: &Told,
) -> Result<Option<Sight>, OutOfMemory>
    requires { IsSound scene.program.now }
    ensures { IfOk result (λ s. s ≡ shown (driver_in scene.entry) stub copy told.now) }
{
    let view = told.view.as_slice();
    let runs = told.runs.as_slice();
    let keys = touched(scene.plan, stub);
    if !view_fits(scene.program, keys, &copy, view) {
        return Ok(None);
    }
    let told_cells = cells_of_runs(alloc, view)?;
    let cells = CellList::of(told_cells);
    if !runs_fit(scene, &copy, &cells, runs) {
        return Ok(None);
    }
    Ok(Some(Sight {
        view: cells,
        copy: told_copy(copy, runs),
    }))
}

/// What a call shows, where its arguments fit the copy that it renewed.
fn called(
    alloc: Global,
    scene: Scene,
    copy: RisingBlocks,
    call: &Call,
) -> Result<Option<Sight>, OutOfMemory>
    requires { IsSound scene.program.now }
    ensures { IfOk result (λ s. s ≡ called (driver_in scene.entry) copy call.now) }
{
    if !args_fit(scene.program, &copy, call.func, call.args.as_slice()) {
        return Ok(None);
    }
    let sight = shown(alloc, scene, call.func, copy, &call.told)?;
    Ok(sight)
}

/// What a call shows, where it fits, while these entered blocks live.
#[tactic(auto, unfolding(crate::specs::Opening::call_sight))]
pub(crate) fn call_sight(
    alloc: Global,
    scene: Scene,
    copy: &RisingBlocks,
    entered: &[u64],
    call: &Call,
) -> Result<Option<Sight>, OutOfMemory>
    requires { IsSound scene.program.now }
    ensures { IfOk result (λ s. s ≡ call_sight (driver_in scene.entry) copy.now entered.now call.now) }
{
    if !may_enter(scene.plan, call.func, call.depth) {
        return Ok(None);
    }
    let told = &call.told;
    if !objects_fit(&[], told.deaths.as_slice(), entered) {
        return Ok(None);
    }
    match renewed(alloc, scene.program, copy, &told.deaths, &told.news)? {
        Some(left) => {
            let sight = called(alloc, scene, left, call)?;
            Ok(sight)
        }
        None => Ok(None),
    }
}

/// What a downcall's return shows, where its result fits the copy that it renewed.
fn returned(
    alloc: Global,
    scene: Scene,
    copy: RisingBlocks,
    stub: u32,
    func: u32,
    back: &Back,
) -> Result<Option<Sight>, OutOfMemory>
    requires { IsSound scene.program.now }
    ensures { IfOk result (λ s. s ≡ returned (driver_in scene.entry) copy stub func back.now) }
{
    if !result_fits(scene.program, &copy, func, back.result) {
        return Ok(None);
    }
    let sight = shown(alloc, scene, stub, copy, &back.told)?;
    Ok(sight)
}

/// What the return of a downcall of a function shows, where it fits, in an upcall of `stub`, while these entered blocks live.
#[tactic(auto, unfolding(crate::specs::Opening::back_sight))]
pub(crate) fn back_sight(
    alloc: Global,
    scene: Scene,
    copy: &RisingBlocks,
    stub: u32,
    entered: &[u64],
    func: u32,
    back: &Back,
) -> Result<Option<Sight>, OutOfMemory>
    requires { IsSound scene.program.now }
    ensures { IfOk result (λ s. s ≡ back_sight (driver_in scene.entry) copy.now stub entered.now func back.now) }
{
    let told = &back.told;
    if !objects_fit(&[], told.deaths.as_slice(), entered) {
        return Ok(None);
    }
    match renewed(alloc, scene.program, copy, &told.deaths, &told.news)? {
        Some(left) => {
            let sight = returned(alloc, scene, left, stub, func, back)?;
            Ok(sight)
        }
        None => Ok(None),
    }
}
