// The tree of a half's text.

ghost use Rattle.std.specs.Prelude.{◌≡◌, IfOk, Some};
ghost use Rattle.mdr_halves.specs.Reads.{lexing_line, parsing_line};
ghost use Rattle.mdr_halves.specs.Stages.{AreRead, IsRead};

use mdr_core::OutOfMemory;
use mdr_parse::{ParseError, parse};
use mdr_syntax::{LexError, Token, Tree, tokens};
use std::alloc::Global;

/// The line of what begins no token. Want of memory refuses nothing.
fn lexing_line(error: LexError) -> Result<u32, OutOfMemory>
    ensures { IfOk result (λ line. lexing_line error ≡ Some line) }
{
    match error {
        LexError::BadByte(place) => Ok(place.line),
        LexError::BadNumber(place) => Ok(place.line),
        LexError::OpenComment(place) => Ok(place.line),
        LexError::OpenText(place) => Ok(place.line),
        LexError::OutOfMemory => Err(OutOfMemory::passed_on()),
    }
}

/// The line of a token that no text of a half has there.
fn parsing_line(error: ParseError) -> Result<u32, OutOfMemory>
    ensures { IfOk result (λ line. parsing_line error ≡ Some line) }
{
    match error {
        ParseError::NotInProfile(place, _) => Ok(place.line),
        ParseError::Expected(place) => Ok(place.line),
        ParseError::OutOfMemory => Err(OutOfMemory::passed_on()),
    }
}

fn of_tokens(alloc: Global, tokens: &[Token]) -> Result<Result<Tree, u32>, OutOfMemory>
    ensures { IfOk result (AreRead tokens.now) }
{
    match parse(alloc, tokens, true) {
        Ok(tree) => Ok(Ok(tree)),
        Err(error) => Ok(Err(parsing_line(error)?)),
    }
}

/// The tree of a half's text, or the line on which it stops to be one.
pub(crate) fn tree_of(alloc: Global, text: &[u8]) -> Result<Result<Tree, u32>, OutOfMemory>
    ensures { IfOk result (IsRead text.now) }
{
    match tokens(alloc, text) {
        Ok(tokens) => {
            let read = of_tokens(alloc, tokens.as_slice())?;
            Ok(read)
        }
        Err(error) => Ok(Err(lexing_line(error)?)),
    }
}
