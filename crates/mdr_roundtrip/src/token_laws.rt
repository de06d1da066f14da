// Laws of the tokens of printed texts, each the contract of a function that does nothing.

ghost use Rattle.std.specs.Prelude.{◌≡◌, true, []};
ghost use Rattle.mdr_syntax.specs.declared.tree.Form.{Form as Expression};
ghost use Rattle.mdr_syntax.specs.declared.tree.Tree.{Tree as SourceTree};
ghost use Rattle.mdr_syntax.specs.Tokens.{tokens_of};
ghost use Rattle.mdr_print.specs.Forms.{form};
ghost use Rattle.mdr_print.specs.Items.{tree_marks, printed};
ghost use Rattle.mdr_print.specs.Marks.{spell};
ghost use Rattle.mdr_print.specs.Spelled.{AreApart, GivesLexemes, lexemes, spelled};
ghost use Rattle.mdr_roundtrip.specs.Printable.{is_printable_form};
ghost use Rattle.mdr_roundtrip.specs.Standing.{Apart};
ghost use Rattle.mdr_roundtrip.specs.Whole.{is_printable};

/// No token of a printed expression runs into what stands behind it, whatever that is, where its first byte is
/// none of a number's and no `=`.
pub fn printable_expressions_are_apart()
    ensures { (f : Expression) → is_printable_form f ≡ true → Apart (form f) }
{}

/// Reading the text of an expression gives the tokens that it is spelled by, and the end.
pub fn printable_expressions_are_read()
    ensures { (f : Expression) → is_printable_form f ≡ true → GivesLexemes (tokens_of (spell (form f []))) (lexemes (form f [])) }
{}

/// No token of a printed source runs into what stands behind it.
pub fn printable_trees_are_apart()
    ensures { (tree : SourceTree) → is_printable tree ≡ true → AreApart (tree_marks tree) }
{}

/// Reading a printed source gives the tokens that its tree is spelled by, and the end.
pub fn printable_trees_are_read()
    ensures { (tree : SourceTree) → is_printable tree ≡ true → GivesLexemes (tokens_of (printed tree)) (spelled tree) }
{}
