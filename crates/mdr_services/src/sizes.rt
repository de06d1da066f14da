// Sizes in cells.

ghost use Rattle.std.specs.Prelude.{◌≡◌, ◌*◌, ◌==◌, nat_lt};
ghost use Rattle.mdr_core.specs.Sound.{IsSound};
ghost use Rattle.mdr_meaning.specs.Pointers.{position, size};
ghost use Rattle.mdr_meaning.specs.Values.{wire_view};
ghost use Rattle.mdr_plain.specs.Services.{is_no_block};

use mdr_core::{Program, View, cells_of};
use mdr_meaning::Shape64;

/// How many cells an element of the type of this number has.
#[tactic(auto, unfolding(mdr_meaning::specs::Pointers::size))]
fn size(program: &Program, ty: u32) -> u32
    requires { IsSound program.now }
    ensures { result ≡ size program.now ty }
{
    if (ty as usize) < program.types.as_slice().len() {
        cells_of(program, ty)
    } else {
        0
    }
}

/// The cell that a pointer points to.
fn position(program: &Program, view: View) -> u64
    requires { IsSound program.now }
    ensures { result ≡ position program.now (wire_view view) }
{
    view.first as u64 + view.index as u64 * size(program, view.ty) as u64
}

/// Whether a pointer is at the first cell of its block.
pub(crate) fn is_at_first(program: &Program, view: View) -> bool
    requires { IsSound program.now }
    ensures { result ≡ (position program.now (wire_view view) == 0) }
{
    position(program, view) == 0
}

/// Whether so many elements have more cells than a block.
fn is_too_large(count: u64, size: u32) -> bool
    ensures { result ≡ nat_lt 65536 (count * size) }
{
    65536 < count as u128 * size as u128
}

/// Whether an allocation asks for nothing, or for more cells than a block has.
pub(crate) fn is_no_block(program: &Program, shape: Shape64) -> bool
    requires { IsSound program.now }
    ensures { result ≡ is_no_block program.now shape }
{
    shape.count == 0 || is_too_large(shape.count, size(program, shape.ty))
}
