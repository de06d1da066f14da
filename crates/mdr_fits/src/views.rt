// Which pointers are views of their blocks.

ghost use Rattle.std.specs.Prelude.{◌≡◌};
ghost use Rattle.mdr_core.specs.Sound.{IsSound};
ghost use Rattle.mdr_meaning.specs.Fit.{view_of};
ghost use Rattle.mdr_split.specs.Fits.{is_view, is_view_of, is_view_of_maybe};

use mdr_copy::{RisingBlocks, born_at};
use mdr_core::{Block, Program, Shape, View, view_ok};
use mdr_model::{New, Wire, WireView};

fn view_of(view: WireView) -> View
    ensures { result ≡ view_of view }
{
    View {
        block: Block {
            slot: 0,
            serial: view.serial,
        },
        first: view.first,
        ty: view.ty,
        count: view.count,
        index: view.index,
    }
}

fn shape_of(block: New) -> Shape
    ensures { result ≡ record { ty = block.ty; count = block.count } }
{
    Shape {
        ty: block.ty,
        count: block.count,
    }
}

/// Whether a view is one of a block as it was born. A block whose type isn't in the table has none.
pub(crate) fn is_view_of(program: &Program, block: New, view: WireView) -> bool
    requires { IsSound program.now }
    ensures { result ≡ is_view_of program.now block view }
{
    if (block.ty as usize) < program.types.as_slice().len() {
        view_ok(program, shape_of(block), view_of(view))
    } else {
        false
    }
}

pub(crate) fn is_view_by(program: &Program, block: Option<New>, view: WireView) -> bool
    requires { IsSound program.now }
    ensures { result ≡ is_view_of_maybe program.now block view }
{
    match block {
        Some(block) => is_view_of(program, block, view),
        None => false,
    }
}

/// Whether a value, where it is a pointer, is a view of its block as that was born. The time is that of `view_ok`.
pub fn is_view(program: &Program, memory: &RisingBlocks, value: Wire) -> bool
    requires { IsSound program.now }
    ensures { result ≡ is_view program.now memory.now value }
{
    match value {
        Wire::Ptr(view) => is_view_by(program, born_at(memory, view.serial), view),
        Wire::Int(_, _) | Wire::Null | Wire::Dead | Wire::Fn(_) | Wire::Lock(_) | Wire::NoValue =>
            true,
    }
}
