// The law of lowering, as a function that does nothing.

ghost use Rattle.mdr_rich_sources.specs.LoweringLaw.{LoweringKeepsTrees};

/// Lowering keeps what a source's functions mean: the tree of each is that of its lowered body, for every fuel.
pub fn lowering_keeps_trees()
    ensures { LoweringKeepsTrees }
{}
