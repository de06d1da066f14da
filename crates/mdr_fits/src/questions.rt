// What services are asked with besides arguments.

ghost use Rattle.std.specs.Prelude.{◌≡◌, ◌*◌, nat_le};
ghost use Rattle.std.specs.List.{list_all};
ghost use Rattle.mdr_core.specs.Sound.{IsSound};
ghost use Rattle.mdr_fits.specs.Tables.{shapes_as};
ghost use Rattle.mdr_meaning.specs.Pointers.{size};
ghost use Rattle.mdr_split.specs.Services.{has_number, may_be_born, shapes_fit};

use crate::table::Shapes;
use crate::unlocked::is_unlocked;
use mdr_core::{Program, cells_of};
use mdr_model::Shape64;

fn has_number(program: &Program, ty: u32) -> bool
    ensures { result ≡ has_number program.now ty }
{
    program.types.as_slice().get(ty as usize).is_some()
}

/// How many cells an element of the type of this number has.
#[tactic(auto, unfolding(mdr_meaning::specs::Pointers::size))]
fn size(program: &Program, ty: u32) -> u32
    requires { IsSound program.now }
    ensures { result ≡ size program.now ty }
{
    if (ty as usize) < program.types.as_slice().len() {
        cells_of(program, ty)
    } else {
        0
    }
}

/// Whether so many elements are no more cells than a block has.
fn is_small(count: u64, size: u32) -> bool
    ensures { result ≡ nat_le (count * size) 65536 }
{
    count as u128 * size as u128 <= 65536
}

/// Whether an object of a local may be born so: of a type without locks, with 1 to 65,536 cells.
fn may_be_born(program: &Program, shape: Shape64) -> bool
    requires { IsSound program.now }
    ensures { result ≡ may_be_born program.now shape }
{
    has_number(program, shape.ty)
        && (is_unlocked(program, shape.ty)
            && (!(shape.count == 0) && is_small(shape.count, size(program, shape.ty))))
}

fn may_all_be_born(program: &Program, shapes: &[Shape64]) -> bool
    requires { IsSound program.now }
    ensures { result ≡ list_all (may_be_born program.now) shapes.now }
{
    shapes.iter().all(|shape| may_be_born(program, *shape))
}

/// Whether a service that takes such shapes may be asked with these.
#[tactic(auto, unfolding(mdr_split::specs::Services::shapes_fit))]
pub fn shapes_fit(program: &Program, takes: Shapes, shapes: &[Shape64]) -> bool
    requires { IsSound program.now }
    ensures { result ≡ shapes_fit program.now (shapes_as takes) shapes.now }
{
    match takes {
        Shapes::NoShape => match shapes {
            [] => true,
            [_, ..] => false,
        },
        Shapes::OneElement => match shapes {
            [shape] => shape.count == 1 && has_number(program, shape.ty),
            _ => false,
        },
        Shapes::Elements => match shapes {
            [shape] => has_number(program, shape.ty),
            _ => false,
        },
        Shapes::Births => may_all_be_born(program, shapes),
    }
}
