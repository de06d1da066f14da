// The tree of a source's tokens, or their first fault.

ghost use Rattle.mdr_parse.specs.Parsing.{Parses};

use crate::error::ParseError;
use crate::faults::first_error;
use crate::toplevel::source;
use mdr_reader::failure::Failure;
use mdr_reader::look::Reader;
use mdr_syntax::{Token, Tree};
use std::alloc::Global;

/// The tree of a source's tokens, those of `mdr_syntax::tokens`; `halves` admits `__remote`. The error is at the
/// first token that no source has behind those before it, or at the end where each source goes on.
pub fn parse(alloc: Global, tokens: &[Token], halves: bool) -> Result<Tree, ParseError>
    ensures { Parses halves tokens.now result }
{
    match source(Reader { alloc, halves }, tokens) {
        Ok(tree) => Ok(tree),
        Err(Failure::Memory) => Err(ParseError::OutOfMemory),
        Err(Failure::Fault(left)) => Err(first_error(alloc, tokens, left)?),
    }
}
