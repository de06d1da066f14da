// The first in their order of the cells that fail.

ghost use Rattle.std.specs.Prelude.{◌≡◌, ◌++◌, ◌∷◌, ◌⊎◌, [], IfOk, List, MatchOption, None, OnOk, Some, true};
ghost use Rattle.mdr_cells.specs.Names.{cell_of, named};
ghost use Rattle.mdr_extents.specs.CellOrder.{cells};
ghost use Rattle.mdr_model.specs.declared.memory.Cell.{Cell};
ghost use Rattle.mdr_model.specs.Memory.{born_at};
ghost use Rattle.mdr_paths.specs.Paths.{Graph, fails};
ghost use Rattle.mdr_reach.specs.Marks.{IsHeld, IsLeastOf, IsUpTo, entered_in, graph_in, led_in};
ghost use Rattle.mdr_reach.specs.Spots.{AreLayouts};

use crate::follow::follow;
use crate::held::Held;
use crate::marked::Marked;
use crate::scene::Scene;
use mdr_cells::CellName;
use mdr_core::OutOfMemory;

/// The first of two cells in their order.
fn first_of(a: CellName, b: CellName) -> CellName
    ensures one { (result ≡ a) ⊎ (result ≡ b) }
    ensures a { IsUpTo (cell_of result) (cell_of a) }
    ensures b { IsUpTo (cell_of result) (cell_of b) }
{
    if b < a { b } else { a }
}

/// The first that fails, where one more does.
fn with_failing(failing: Option<CellName>, name: CellName) -> CellName
    ensures { (g : Graph cells) (cs : List Cell) → IsLeastOf g cs failing → fails g (cell_of name) ≡ true → IsLeastOf g (cs ++ cell_of name ∷ []) (Some result) }
{
    match failing {
        Some(first) => first_of(first, name),
        None => name,
    }
}

/// Marks the cells that a cell leads to, by its block. The first cell that fails, where this was the first before.
pub(crate) fn follow_on(
    scene: Scene<'_>,
    marked: &mut Marked,
    name: CellName,
    block: Option<Held<'_>>,
    failing: Option<CellName>,
) -> Result<Option<CellName>, OutOfMemory>
    requires layouts { AreLayouts scene.program.now scene.touched.now scene.layouts.now }
    requires held { MatchOption block (born_at scene.blocks.now.memory name.serial ≡ None) (λ x. IsHeld scene.program.now scene.touched.now scene.blocks.now x) }
    requires serial { MatchOption block (Unit {0}) (λ x. x.born.serial ≡ name.serial) }
    ensures least { (cs : List Cell) → IsLeastOf (graph_in scene.entry) cs failing → IfOk result (IsLeastOf (graph_in scene.entry) (cs ++ cell_of name ∷ [])) }
    ensures marked { OnOk result (named marked.new ≡ entered_in scene.entry (named marked.old) (led_in scene.entry (cell_of name))) }
{
    let whole = follow(scene, marked, name, block)?;
    if whole {
        Ok(failing)
    } else {
        Ok(Some(with_failing(failing, name)))
    }
}
