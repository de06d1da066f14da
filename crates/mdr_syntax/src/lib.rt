//! The words of a source, and the types of its tree.
#![tactic(auto)]

mod bytes;
mod comment;
mod directive;
mod error;
mod laws;
mod lexer;
mod number;
mod piece;
mod quoted;
mod token;
mod tree;
mod words;

pub use bytes::{is_blank, line_len, skip_blanks};
pub use error::LexError;
pub use laws::{punctuation_is_the_longest, tokens_are_the_text};
pub use lexer::tokens;
pub use token::{Lexeme, Token};
pub use tree::{
    AnnText, Base, Clause, Const, Decl, Elem, Enumerator, FieldName, Form, FormWhat, Head, Init,
    Item, ItemWhat, Label, Node, NodeWhat, Tree,
};
pub use words::is_reserved;
