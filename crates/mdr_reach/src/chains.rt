// Chains of cells' names, by which a name is found among others.

ghost use Rattle.std.specs.Prelude.{◌≡◌, ◌+◌, ◌++◌, ◌∷◌, ◌<◌, [], IfOk, List, OnErr, OnOk, Some, length, slice_get};
ghost use Rattle.mdr_cells.specs.declared.name.CellName.{CellName as Name};
ghost use Rattle.mdr_cells.specs.Names.{cell_of, named};
ghost use Rattle.mdr_extents.specs.CellOrder.{cells};
ghost use Rattle.mdr_model.specs.Sets.{is_same_cell};
ghost use Rattle.mdr_paths.specs.Paths.{is_in};
ghost use Rattle.mdr_reach.specs.Chains.{AreChained, HaveLinks, IsLast, bucket_of, with_mark};

use mdr_cells::CellName;
use mdr_core::OutOfMemory;
use std::alloc::Global;

// The golden ratio's part of all numbers: products with it lie apart from one another.
const SPREAD: u64 = 11_400_714_819_323_198_485;

/// Names by their numbers in a list, counted from 1: the last one of each bucket, and the last one before each in its
/// bucket. 0 stands for none.
#[derive(Drop)]
pub struct Chains {
    pub lasts: Vec<usize>,
    pub befores: Vec<usize>,
}

/// The bucket of a name, of so many.
#[tactic(auto, unfolding(crate::specs::Chains::bucket_of))]
fn bucket_of(name: CellName, buckets: usize) -> usize
    requires { 0 < buckets }
    ensures number { result ≡ bucket_of name buckets }
    ensures inside { result < buckets }
{
    let spread = name
        .serial
        .wrapping_mul(SPREAD)
        .wrapping_add(name.index)
        .wrapping_mul(SPREAD);
    (spread / 4_294_967_296) as usize % buckets
}

/// Links the name that is next in a list.
fn link(chains: &mut Chains, name: CellName) -> Result<(), OutOfMemory>
    requires { 0 < length chains.old.lasts.items }
    ensures linked { (names : List Name) → slice_get names (length chains.old.befores.items) ≡ Some name → HaveLinks names chains.old → HaveLinks names chains.new }
    ensures links { OnOk result (length chains.new.befores.items ≡ length chains.old.befores.items + 1) }
    ensures same_lasts { OnErr result (chains.new.lasts.items ≡ chains.old.lasts.items) }
    ensures same_links { OnErr result (chains.new.befores.items ≡ chains.old.befores.items) }
    ensures buckets { length chains.new.lasts.items ≡ length chains.old.lasts.items }
{
    let bucket = bucket_of(name, chains.lasts.len());
    chains.befores.push(chains.lasts[bucket])?;
    chains.lasts[bucket] = chains.befores.len();
    Ok(())
}

/// So many buckets without names.
fn empty_chains(alloc: Global, buckets: usize) -> Result<Chains, OutOfMemory>
    ensures chained { (names : List Name) → IfOk result (HaveLinks names) }
    ensures links { IfOk result (λ c. length c.befores.items ≡ 0) }
    ensures buckets { IfOk result (λ c. length c.lasts.items ≡ buckets) }
{
    let mut lasts = Vec::new(alloc);
    lasts.resize(buckets, 0)?;
    let befores = Vec::new(alloc);
    Ok(Chains { lasts, befores })
}

/// The chains of these names in so many buckets.
fn chains_of(alloc: Global, names: &[CellName], buckets: usize) -> Result<Chains, OutOfMemory>
    requires { 0 < buckets }
    ensures chained { IfOk result (AreChained names.now) }
    ensures buckets { IfOk result (λ c. length c.lasts.items ≡ buckets) }
{
    let mut chains = empty_chains(alloc, buckets)?;
    for name in names {
        link(&mut chains, *name)?;
    }
    Ok(chains)
}

/// Makes more buckets than there are names, so that chains stay short. Many calls take linear time in all.
fn widen(alloc: Global, names: &[CellName], chains: &mut Chains) -> Result<(), OutOfMemory>
    requires { AreChained names.now chains.old }
    ensures chained { AreChained names.now chains.new }
    ensures buckets { OnOk result (0 < length chains.new.lasts.items) }
{
    if names.len() < chains.lasts.len() {
        return Ok(());
    }
    let buckets = names.len().saturating_mul(4).saturating_add(8);
    *chains = chains_of(alloc, names, buckets)?;
    Ok(())
}

/// The name with this index.
fn name_at(names: &[CellName], at: usize) -> CellName
    requires { at < length names.now }
    ensures { slice_get names.now at ≡ Some result }
{
    names[at]
}

fn is_same(a: CellName, b: CellName) -> bool
    ensures { result ≡ is_same_cell (cell_of a) (cell_of b) }
{
    a.serial == b.serial && a.index == b.index
}

/// Whether a name is among these, of which the last one in its bucket has this number.
fn is_linked(names: &[CellName], chains: &Chains, last: usize, name: CellName) -> bool
    requires chained { AreChained names.now chains.now }
    requires last { IsLast names.now (length chains.now.lasts.items) (bucket_of name (length chains.now.lasts.items)) (length names.now) last }
    ensures { result ≡ is_in cells (named names.now) (cell_of name) }
{
    let mut number = last;
    while number > 0 {
        let at = number - 1;
        let other = name_at(names, at);
        if is_same(other, name) {
            return true;
        }
        number = chains.befores[at];
    }
    false
}

/// Whether a name is among these.
fn is_among(names: &[CellName], chains: &Chains, name: CellName) -> bool
    requires chained { AreChained names.now chains.now }
    requires buckets { 0 < length chains.now.lasts.items }
    ensures { result ≡ is_in cells (named names.now) (cell_of name) }
{
    let bucket = bucket_of(name, chains.lasts.len());
    is_linked(names, chains, chains.lasts[bucket], name)
}

/// Adds a name that isn't among these.
fn add(names: &mut Vec<CellName>, chains: &mut Chains, name: CellName) -> Result<(), OutOfMemory>
    requires chained { AreChained names.old.items chains.old }
    requires buckets { 0 < length chains.old.lasts.items }
    ensures chained { AreChained names.new.items chains.new }
    ensures added { OnOk result (names.new.items ≡ names.old.items ++ name ∷ []) }
{
    names.reserve(1)?;
    link(chains, name)?;
    names.push_reserved(name);
    Ok(())
}

/// Adds a name at the end, unless it is among these.
pub(crate) fn add_if_new(
    names: &mut Vec<CellName>,
    chains: &mut Chains,
    name: CellName,
) -> Result<(), OutOfMemory>
    requires { AreChained names.old.items chains.old }
    ensures chained { AreChained names.new.items chains.new }
    ensures added { OnOk result (named names.new.items ≡ with_mark (named names.old.items) (cell_of name)) }
{
    widen(*names.allocator(), names.as_slice(), chains)?;
    if is_among(names.as_slice(), chains, name) {
        return Ok(());
    }
    add(names, chains, name)?;
    Ok(())
}

/// The chains of no names. They take no memory.
pub(crate) fn no_chains(alloc: Global) -> Chains
    ensures { AreChained [] result }
{
    Chains {
        lasts: Vec::new(alloc),
        befores: Vec::new(alloc),
    }
}
