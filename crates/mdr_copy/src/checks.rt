// Which births and deaths of a message fit.

ghost use Rattle.std.specs.Prelude.{◌≡◌, None, map};
ghost use Rattle.std.specs.List.{list_all};
ghost use Rattle.mdr_model.specs.User.{rise_after, may_die, deaths_fit, has_type, has_shape, may_come, news_fit};
ghost use Rattle.mdr_copy.specs.Serials.{is_after};

use crate::cell_types::has_cell;
use crate::store::{RisingBlocks, is_live};
use mdr_core::Program;
use mdr_model::New;

fn is_after(before: Option<u64>, serial: u64) -> bool
    ensures { result ≡ is_after before serial }
{
    match before {
        Some(before) => before < serial,
        None => true,
    }
}

fn serials_rise(serials: &[u64]) -> bool
    ensures { result ≡ rise_after None serials.now }
{
    let mut before = None;
    for serial in serials {
        if !is_after(before, *serial) {
            return false;
        }
        before = Some(*serial);
    }
    true
}

fn births_rise(news: &[New]) -> bool
    ensures { result ≡ rise_after None (map (λ n. n.serial) news.now) }
{
    let mut before = None;
    for new in news {
        if !is_after(before, new.serial) {
            return false;
        }
        before = Some(new.serial);
    }
    true
}

fn may_die(program: &Program, copy: &RisingBlocks, serial: u64) -> bool
    ensures { result ≡ may_die program.now copy.now serial }
{
    is_live(copy, serial) && !(serial < program.globals.len() as u64)
}

fn all_may_die(program: &Program, copy: &RisingBlocks, deaths: &[u64]) -> bool
    ensures { result ≡ list_all (may_die program.now copy.now) deaths.now }
{
    deaths.iter().all(|serial| may_die(program, copy, *serial))
}

/// Whether the deaths of a message fit: the serials rise, and each is one of a known block that is no global.
pub fn deaths_fit(program: &Program, copy: &RisingBlocks, deaths: &[u64]) -> bool
    ensures { result ≡ deaths_fit program.now copy.now deaths.now }
{
    serials_rise(deaths) && all_may_die(program, copy, deaths)
}

fn has_type(program: &Program, ty: u32) -> bool
    ensures { result ≡ has_type program.now ty }
{
    program.types.as_slice().get(ty as usize).is_some()
}

/// Whether a block has a type of the table, and 1 to 65,536 cells.
fn has_shape(program: &Program, new: New) -> bool
    ensures { result ≡ has_shape program.now new }
{
    has_type(program, new.ty) && has_cell(program, new, 0) && !has_cell(program, new, 65_536)
}

fn may_come(program: &Program, copy: &RisingBlocks, new: New) -> bool
    ensures { result ≡ may_come program.now copy.now new }
{
    !is_live(copy, new.serial) && has_shape(program, new)
}

fn all_may_come(program: &Program, copy: &RisingBlocks, news: &[New]) -> bool
    ensures { result ≡ list_all (may_come program.now copy.now) news.now }
{
    news.iter().all(|new| may_come(program, copy, *new))
}

/// Whether the new blocks of a message fit: their serials rise, and each is new, of a type of the table, and has
/// 1 to 65,536 cells.
pub fn news_fit(program: &Program, copy: &RisingBlocks, news: &[New]) -> bool
    ensures { result ≡ news_fit program.now copy.now news.now }
{
    births_rise(news) && all_may_come(program, copy, news)
}
