// The first element of a view that is empty.

ghost use Rattle.std.specs.Prelude.{◌≡◌, ◌+◌, ◌*◌, ◌-◌, ◌<◌, ◌^◌, MatchOption, map, option_map, slice_get};
ghost use Rattle.mdr_extents.specs.Extent.{first_of, is_empty};
ghost use Rattle.mdr_meaning.specs.Values.{wire_of};

use crate::lists::item;
use mdr_core::Value;

/// Whether a cell is there, and holds 0 or null.
fn is_empty(value: Option<Value>) -> bool
    ensures { result ≡ is_empty (option_map wire_of value) }
{
    match value {
        Some(Value::Int(_, n)) => n == 0,
        Some(Value::Null) => true,
        Some(_) => false,
        None => false,
    }
}

fn is_empty_at(cells: &[Value], index: u64) -> bool
    ensures { result ≡ is_empty (slice_get (map wire_of cells.now) index) }
{
    is_empty(item(cells, index))
}

/// Whether the cell of an element, so many cells behind its first one, is empty.
fn is_element_empty(cells: &[Value], first: u32, size: u32, start: u32, i: u32) -> bool
    ensures { result ≡ is_empty (slice_get (map wire_of cells.now) (first + i * size + start)) }
{
    is_empty_at(cells, first as u64 + i as u64 * size as u64 + start as u64)
}

/// The first element from an index on, before an end, of which that cell is empty.
#[tactic(auto, unfolding(mdr_extents::specs::Extent::first_of))]
pub(crate) fn first_empty(
    cells: &[Value],
    first: u32,
    size: u32,
    start: u32,
    from: u32,
    end: u32,
) -> Option<u32>
    ensures found { result ≡ first_of (λ i. is_empty (slice_get (map wire_of cells.now) (first + i * size + start))) from (end - from) }
    ensures before { MatchOption result (Unit {0}) (λ i. i < end) }
{
    let mut i = from;
    while i < end {
        if is_element_empty(cells, first, size, start, i) {
            return Some(i);
        }
        i += 1;
    }
    None
}
