// Laws of sources, each the contract of a function that does nothing.

ghost use Rattle.std.specs.Prelude.{◌≡◌, ◌↔◌, ◌⊎◌, ℕ, List, Result, Ok};
ghost use Rattle.mdr_source.specs.declared.outcome.Source.{Source};
ghost use Rattle.mdr_source.specs.declared.refusal.Refusal.{Refusal};
ghost use Rattle.mdr_source.specs.Sources.{Comes, IsSource, IsTooLarge};

/// Bytes come to at most one thing: to one tree and its program, or to one refusal.
pub fn bytes_come_to_one_thing()
    ensures { (bytes : List ℕ) (r s : Result Source Refusal) → Comes bytes r → Comes bytes s → r ≡ s }
{}

/// Bytes come to something, unless the types, globals, structs or functions of their program are too many.
pub fn bytes_come_to_something()
    ensures { (bytes : List ℕ) → ((r : Result Source Refusal) × Comes bytes r) ⊎ IsTooLarge bytes }
{}

/// Bytes come to a tree and a program exactly where these are theirs.
pub fn bytes_come_to_their_source()
    ensures { (bytes : List ℕ) (source : Source) → Comes bytes (Ok source) ↔ IsSource bytes source }
{}
