// What holds of the items of sources.

ghost use Rattle.std.specs.Prelude.{◌≡◌, ℕ, Bool, true, List, Ok};
ghost use Rattle.mdr_syntax.specs.declared.token.Token.{Token};
ghost use Rattle.mdr_syntax.specs.declared.tree.Tree.{Tree as SourceTree};
ghost use Rattle.mdr_syntax.specs.Tokens.{tokens_of};
ghost use Rattle.mdr_grammar.specs.Grammar.{Reads};
ghost use Rattle.mdr_roundtrip.specs.Lexed.{are_lexed};
ghost use Rattle.mdr_sound.specs.ProperSources.{AreProperItems};

/// The items that are read of the lexer's tokens have numbers of their kinds, names where they need them, and
/// statements as the parts of statements.
pub fn sources_are_proper()
    ensures { (halves : Bool) (tokens : List Token) (tree : SourceTree) → are_lexed tokens ≡ true → Reads halves tokens tree → AreProperItems tree.items }
{}

/// So do those that are read of a source's bytes.
pub fn read_sources_are_proper()
    ensures { (bytes : List ℕ) (halves : Bool) (tokens : List Token) (tree : SourceTree) → tokens_of bytes ≡ Ok tokens → Reads halves tokens tree → AreProperItems tree.items }
{}
