// Lists whose items are found by their names.

ghost use Rattle.std.specs.Prelude.{◌≡◌, [], ◌∷◌, ◌++◌, List, ℕ, cond, find, length, slice_get, Some, None, OnOk, OnErr};
ghost use Rattle.std.specs.Option.{option_copied, option_or};
ghost use Rattle.std.specs.Str.{bytes_eq};
ghost use Rattle.mdr_faults.specs.Naming.{item_at, place_in};

use indexmap::IndexMap;
use std::alloc::{AllocError, Global};
use std::marker::Model;

/// What has a name.
pub trait HasName: Drop {
    ghost use Rattle.std.specs.Prelude.{◌≡◌, ℕ, List};

    /// Its name.
    ghost name: { Self → List ℕ };

    /// Lends the name.
    fn name(&self) -> &[u8]
        ensures { result.now ≡ name self.now };
}

/// A list whose items are found by their names without a walk over it. Contracts see the list; a name may stand in it
/// more than once, and leads to the first item that has it.
#[derive(Drop)]
pub struct Names<T: HasName> {
    items: Vec<T>,
    places: IndexMap<Vec<u8>, usize>,
}

impl<T: HasName> Model for Names<T> {
    ghost use Rattle.std.specs.Prelude.{List};
    ghost use Rattle.std.specs.Coded.{coded_list};
    ghost use Rattle.mdr_faults.specs.Naming.{Leads};

    ghost Value = { List T };

    ghost coded = { coded_list T.code };

    ghost view = { λ s. s.items.items };

    ghost invariant = { λ s. Leads T.HasName.name s.items.items s.places };
}

fn item<T>(items: &[T], place: usize) -> Option<&T>
    ensures { option_copied result ≡ slice_get items.now place }
{
    items.get(place)
}

fn item_at<'a, T>(items: &'a [T], place: Option<&usize>) -> Option<&'a T>
    ensures { option_copied result ≡ item_at items.now (option_copied place.entry) }
{
    match place {
        None => None,
        Some(place) => item(items, *place),
    }
}

/// Gives a place to a name that has none.
fn add(
    alloc: Global,
    places: &mut IndexMap<Vec<u8>, usize>,
    name: &[u8],
    place: usize,
) -> Result<(), AllocError>
    requires { place_in places.old name.now ≡ None }
    ensures ok { OnOk result ((n : List ℕ) → place_in places.new n ≡ option_or (place_in places.old n) (cond (bytes_eq name.now n) (Some place) None)) }
    ensures err { OnErr result (places.new.entries ≡ places.old.entries) }
{
    let key = Vec::from_slice(alloc, name)?;
    places.insert(key, place)?;
    Ok(())
}

/// Gives a place to a name, unless it has one.
fn note(
    alloc: Global,
    places: &mut IndexMap<Vec<u8>, usize>,
    name: &[u8],
    place: usize,
) -> Result<(), AllocError>
    ensures ok { OnOk result ((n : List ℕ) → place_in places.new n ≡ option_or (place_in places.old n) (cond (bytes_eq name.now n) (Some place) None)) }
    ensures err { OnErr result (places.new.entries ≡ places.old.entries) }
{
    if places.contains_key(name) {
        return Ok(());
    }
    add(alloc, places, name, place)
}

impl<T: HasName> Names<T> {
    /// The empty list. It takes no memory.
    pub fn new(alloc: Global) -> Self
        ensures { result ≡ [] }
    {
        Names {
            items: Vec::new(alloc),
            places: IndexMap::new(alloc),
        }
    }

    /// Lends the items.
    pub fn as_slice(&self) -> &[T]
        ensures { result.now ≡ self.now }
    {
        self.items.as_slice()
    }

    /// How many items there are.
    pub fn len(&self) -> usize
        ensures { result ≡ length self.now }
    {
        self.items.len()
    }

    /// The first item that has a name.
    pub fn find(&self, name: &[u8]) -> Option<&T>
        ensures { option_copied result ≡ find (λ x. bytes_eq (T.HasName.name x) name.now) self.now }
    {
        item_at(self.items.as_slice(), self.places.get(name))
    }

    /// Adds an item at the end. Where memory is wanting the list is as before.
    pub fn push(&mut self, alloc: Global, item: T) -> Result<(), AllocError>
        ensures ok { OnOk result (self.new ≡ self.old ++ item ∷ []) }
        ensures err { OnErr result (self.new ≡ self.old) }
    {
        let place = self.len();
        self.items.reserve(1)?;
        note(alloc, &mut self.places, item.name(), place)?;
        self.items.push(item)?;
        Ok(())
    }
}
