// Laws of sources that are read and printed, each the contract of a function that does nothing.

ghost use Rattle.std.specs.Prelude.{◌≡◌, ◌≤◌, ◌+◌, ℕ, Bool, true, List, map, Ok};
ghost use Rattle.mdr_syntax.specs.declared.token.Token.{Token};
ghost use Rattle.mdr_syntax.specs.declared.tree.Form.{Form as Expression};
ghost use Rattle.mdr_syntax.specs.declared.tree.Init.{Init as Initialiser};
ghost use Rattle.mdr_syntax.specs.declared.tree.Tree.{Tree as SourceTree};
ghost use Rattle.mdr_syntax.specs.Tokens.{tokens_of};
ghost use Rattle.mdr_print.specs.Declarations.{init};
ghost use Rattle.mdr_print.specs.Forms.{form};
ghost use Rattle.mdr_print.specs.Items.{printed};
ghost use Rattle.mdr_print.specs.Marks.{Mark};
ghost use Rattle.mdr_print.specs.Spelled.{GivesLexemes, lexemes, spelled, what_of};
ghost use Rattle.mdr_roundtrip.specs.Whole.{is_printable};
ghost use Rattle.mdr_grammar.specs.Expressions.{height};
ghost use Rattle.mdr_grammar.specs.Forms.Nonterminal.{part};
ghost use Rattle.mdr_grammar.specs.Forms.Part.{expression, initialiser};
ghost use Rattle.mdr_grammar.specs.Grammar.{Gets, Reads};
ghost use Rattle.mdr_roundtrip.specs.Again.{IsPrintedAsSource, IsSourceOf};
ghost use Rattle.mdr_roundtrip.specs.Initialised.{is_shaped_init, unplaced_init};
ghost use Rattle.mdr_roundtrip.specs.Lexed.{are_lexed};
ghost use Rattle.mdr_roundtrip.specs.Shaped.{shape_of};
ghost use Rattle.mdr_roundtrip.specs.Itemised.{is_shaped_tree, unplaced_tree};
ghost use Rattle.mdr_roundtrip.specs.Unplaced.{all_at, unplaced_form};

/// The words, numbers, texts, punctuation and `#define` lines that the lexer gives are such as it reads again.
pub fn tokens_are_lexed()
    ensures { (bytes : List ℕ) (tokens : List Token) → tokens_of bytes ≡ Ok tokens → are_lexed tokens ≡ true }
{}

/// The tree of such tokens has words, operators, numbers and texts alone that can be read again.
pub fn sources_are_printable()
    ensures { (halves : Bool) (tokens : List Token) (tree : SourceTree) → are_lexed tokens ≡ true → Reads halves tokens tree → is_printable tree ≡ true }
{}

/// Reading what is printed of a source's tree gives the tokens that the tree is spelled by, and the end.
pub fn printed_sources_are_read()
    ensures { (bytes : List ℕ) (tokens : List Token) (halves : Bool) (tree : SourceTree) → tokens_of bytes ≡ Ok tokens → Reads halves tokens tree → GivesLexemes (tokens_of (printed tree)) (spelled tree) }
{}

/// The tokens of a printed expression, all set to one place, are read as the expression with its places set to
/// that one, whatever stands behind: the parentheses that are printed meet no bound, since each level opens one at
/// most.
pub fn printed_expressions_are_expressions()
    ensures { (halves : Bool) (f : Expression) (l d : ℕ) (rest : List Mark) → (shape_of f).expression ≡ true → l + height f ≤ 256 → d + height f ≤ 512 → Gets halves (part (expression l d)) (all_at (lexemes (form f rest))) (all_at (lexemes rest)) (unplaced_form f) }
{}

/// An expression that was read of the lexer's tokens is read again, its places set to one, from what is printed of
/// it, whatever stands behind and inside at most 256 open parentheses.
pub fn expressions_are_read_again()
    ensures shaped { (halves : Bool) (l d : ℕ) (tokens rest : List Token) (f : Expression) → l ≤ 256 → are_lexed tokens ≡ true → Gets halves (part (expression l d)) tokens rest f → ((shape_of f).expression ≡ true) × (l + height f ≤ 256) }
    ensures again { (halves : Bool) (l d e : ℕ) (tokens rest : List Token) (f : Expression) (behind : List Mark) → l ≤ 256 → e ≤ 256 → are_lexed tokens ≡ true → Gets halves (part (expression l d)) tokens rest f → Gets halves (part (expression l e)) (all_at (lexemes (form f behind))) (all_at (lexemes behind)) (unplaced_form f) }
{}

/// The tokens of a printed initialiser, all set to one place, are read as the initialiser with its places set to
/// that one, inside so many braces as it may stand in, whatever stands behind.
pub fn printed_initialisers_are_initialisers()
    ensures { (halves : Bool) (i : Initialiser) (braces : ℕ) (rest : List Mark) → is_shaped_init i braces ≡ true → Gets halves (part (initialiser braces)) (all_at (lexemes (init i rest))) (all_at (lexemes rest)) (unplaced_init i) }
{}

/// An initialiser that was read of the lexer's tokens is read again, its places set to one, from what is printed of
/// it, whatever stands behind.
pub fn initialisers_are_read_again()
    ensures shaped { (halves : Bool) (braces : ℕ) (tokens rest : List Token) (i : Initialiser) → are_lexed tokens ≡ true → Gets halves (part (initialiser braces)) tokens rest i → is_shaped_init i braces ≡ true }
    ensures again { (halves : Bool) (braces : ℕ) (tokens rest : List Token) (i : Initialiser) (behind : List Mark) → are_lexed tokens ≡ true → Gets halves (part (initialiser braces)) tokens rest i → Gets halves (part (initialiser braces)) (all_at (lexemes (init i behind))) (all_at (lexemes behind)) (unplaced_init i) }
{}

/// The tokens by which a tree is printed, all set to one place, are the source of the tree with its places set to
/// that one, for each tree that has the shape of those that are read.
pub fn printed_trees_are_trees()
    ensures { (halves : Bool) (tree : SourceTree) → is_shaped_tree halves tree ≡ true → Reads halves (all_at (spelled tree)) (unplaced_tree tree) }
{}

/// The tree of the lexer's tokens is read again, its places set to one, from the tokens that it is printed by.
pub fn sources_are_read_again()
    ensures shaped { (halves : Bool) (tokens : List Token) (tree : SourceTree) → are_lexed tokens ≡ true → Reads halves tokens tree → is_shaped_tree halves tree ≡ true }
    ensures again { (halves : Bool) (tokens : List Token) (tree : SourceTree) → are_lexed tokens ≡ true → Reads halves tokens tree → Reads halves (all_at (spelled tree)) (unplaced_tree tree) }
{}

/// Reading looks at no place: tokens with the same lexemes are sources of the same tree, places aside.
pub fn sources_are_alike()
    ensures { (halves : Bool) (tokens others : List Token) (tree : SourceTree) → map what_of tokens ≡ map what_of others → Reads halves tokens tree → IsSourceOf halves others tree }
{}

/// The text that is printed of a source's tree is a source, of the same tree, places aside.
pub fn printed_sources_are_sources()
    ensures { (bytes : List ℕ) (tokens : List Token) (halves : Bool) (tree : SourceTree) → tokens_of bytes ≡ Ok tokens → Reads halves tokens tree → IsPrintedAsSource halves tree }
{}

/// The text that is printed of a tree is a source of it, places aside, where the tree can be printed and has the shape
/// of those that are read.
pub fn printed_shapes_are_sources()
    ensures { (halves : Bool) (tree : SourceTree) → is_printable tree ≡ true → is_shaped_tree halves tree ≡ true → IsPrintedAsSource halves tree }
{}

/// What is printed of a tree doesn't show its places: trees that are equal, places aside, have one text.
pub fn printing_looks_at_no_place()
    ensures { (tree other : SourceTree) → unplaced_tree tree ≡ unplaced_tree other → printed tree ≡ printed other }
{}
