// Laws of the lexer's definitions, each the contract of a function that does nothing.

ghost use Rattle.std.specs.Prelude.{◌≡◌, ◌≤◌, ℕ, List, Ok, true, length, nat_eq};
ghost use Rattle.std.specs.List.{AllByRecursion, starts_with};
ghost use Rattle.mdr_syntax.specs.declared.token.Token.{Token};
ghost use Rattle.mdr_syntax.specs.Words.{punctuation, punctuation_len};
ghost use Rattle.mdr_syntax.specs.Places.{first_place};
ghost use Rattle.mdr_syntax.specs.Tokens.{tokens_of};
ghost use Rattle.mdr_syntax.specs.Parts.{IsSplit};

/// A text that has tokens is these and what separates them, joined in their order, and each token has the
/// place behind all that stands before it.
pub fn tokens_are_the_text()
    ensures { (bytes : List ℕ) (ts : List Token) → tokens_of bytes ≡ Ok ts → IsSplit true first_place bytes ts }
{}

/// No punctuation at the front of a text is longer than the one that is found there.
pub fn punctuation_is_the_longest()
    ensures { (bytes : List ℕ) → AllByRecursion (λ t. starts_with nat_eq bytes t ≡ true → length t ≤ punctuation_len bytes) punctuation }
{}
