// Laws of printed texts, each the contract of a function that does nothing.

ghost use Rattle.mdr_syntax.specs.declared.tree.Tree.{Tree as SourceTree};
ghost use Rattle.mdr_syntax.specs.Tokens.{tokens_of};
ghost use Rattle.mdr_print.specs.Items.{tree_marks, printed};
ghost use Rattle.mdr_print.specs.Spelled.{AreApart, GivesLexemes, spelled};

/// Where no token of a printed text runs into what stands behind it, reading the text gives the tokens that the
/// tree is spelled by, and the end.
#[tactic(auto, unfolding(crate::specs::Items::printed, crate::specs::Spelled::spelled))]
pub fn printed_tokens_are_read()
    ensures { (tree : SourceTree) → AreApart (tree_marks tree) → GivesLexemes (tokens_of (printed tree)) (spelled tree) }
{}
