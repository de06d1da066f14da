// Laws of the grammar, each the contract of a function that does nothing.

ghost use Rattle.std.specs.Prelude.{◌≡◌, ℕ, Bool, List};
ghost use Rattle.mdr_syntax.specs.declared.token.Token.{Token};
ghost use Rattle.mdr_syntax.specs.declared.tree.Tree.{Tree};
ghost use Rattle.mdr_grammar.specs.Statements.{source};
ghost use Rattle.mdr_grammar.specs.Grammar.{Reads};
ghost use Rattle.mdr_grammar.specs.Running.{run, Tells, FirstFault};

/// Tokens are the source of at most one tree.
pub fn sources_have_one_tree()
    ensures { (halves : Bool) (tokens : List Token) (a b : Tree) → Reads halves tokens a → Reads halves tokens b → a ≡ b }
{}

/// Reading token by token gives the tree of the tokens where there is one. Else it stops at the first token
/// that no source has behind those before it, which some source has; or at the end, where each source with
/// these tokens goes on.
pub fn reading_is_exact()
    ensures { (halves : Bool) (tokens : List Token) → Tells halves tokens (run halves source tokens) }
{}

/// Tokens with a first fault are the source of no tree.
pub fn faults_have_no_tree()
    ensures { (halves : Bool) (tokens : List Token) (n : ℕ) (tree : Tree) → FirstFault halves tokens n → ¬ Reads halves tokens tree }
{}
