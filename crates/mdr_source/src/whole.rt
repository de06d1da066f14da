// The tree and the program of a source, or the one thing for which it is refused.

ghost use Rattle.std.specs.Prelude.{◌≡◌, false, List, IfOk, MatchResult, Some, Err};
ghost use Rattle.mdr_core.specs.declared.program.Program.{Program as AnyProgram};
ghost use Rattle.mdr_syntax.specs.declared.token.Token.{Token as OneToken};
ghost use Rattle.mdr_grammar.specs.Grammar.{Reads};
ghost use Rattle.mdr_faults.specs.Faults.{Checked, Right, IsFirst};
ghost use Rattle.mdr_source.specs.declared.refusal.Refusal.TheVariants as refusal;
ghost use Rattle.mdr_source.specs.Sources.{refused_as, Judged, Means, Reading, Comes};

use crate::outcome::Source;
use crate::refusal::Refusal;
use mdr_body::Rule;
use mdr_core::{OutOfMemory, Program, few};
use mdr_express::left_over;
use mdr_faults::Fault;
use mdr_parse::{ParseError, parse};
use mdr_program::check;
use mdr_syntax::{LexError, Token, Tree, tokens};
use mdr_typing::ProfileRules;
use std::alloc::Global;

// ---- programs

/// Why a source is refused, in place of what was read of it.
fn refused<T: Drop, A: Drop>(refusal: Refusal, _read: T) -> Result<A, Refusal>
    ensures { result ≡ Err refusal }
{
    Err(refusal)
}

/// A program whose types, globals, structs and functions are few. One that has more finds no memory.
fn kept(program: Program) -> Result<Result<Program, Refusal>, OutOfMemory>
    ensures { IfOk result (Judged (Right program)) }
{
    match few(&program) {
        Ok(()) => Ok(Ok(program)),
        Err(error) => left_over(error, program),
    }
}

fn judged(found: Result<Program, Fault>) -> Result<Result<Program, Refusal>, OutOfMemory>
    ensures { (c : Checked AnyProgram) → MatchResult found (λ p. c ≡ Right p) (λ f. IsFirst f c) → IfOk result (Judged c) }
{
    match found {
        Ok(program) => kept(program),
        Err(fault) => Ok(Err(Refusal::Fault(fault))),
    }
}

fn typed(alloc: Global, tree: &Tree) -> Result<Result<Program, Refusal>, OutOfMemory>
    ensures { IfOk result (Means tree.now) }
{
    let found = check(
        alloc,
        &Rule {
            typing: ProfileRules,
        },
        tree,
    )?;
    judged(found)
}

// ---- sources

/// The refusal of tokens that are no source. Want of memory refuses nothing.
fn refused_as(error: ParseError) -> Result<Refusal, OutOfMemory>
    ensures { IfOk result (λ r. refused_as error ≡ Some r) }
{
    match error {
        ParseError::NotInProfile(place, word) => Ok(Refusal::NotInProfile(place, word)),
        ParseError::Expected(place) => Ok(Refusal::Expected(place)),
        ParseError::OutOfMemory => Err(OutOfMemory::passed_on()),
    }
}

fn of_tree(alloc: Global, tree: Tree) -> Result<Result<Source, Refusal>, OutOfMemory>
    ensures { (ts : List OneToken) → Reads false ts tree → IfOk result (Reading ts) }
{
    match typed(alloc, &tree) {
        Ok(Ok(program)) => Ok(Ok(Source { tree, program })),
        Ok(Err(refusal)) => Ok(refused(refusal, tree)),
        Err(error) => left_over(error, tree),
    }
}

fn of_tokens(alloc: Global, tokens: &[Token]) -> Result<Result<Source, Refusal>, OutOfMemory>
    ensures { IfOk result (Reading tokens.now) }
{
    match parse(alloc, tokens, false) {
        Ok(tree) => of_tree(alloc, tree),
        Err(error) => Ok(Err(refused_as(error)?)),
    }
}

/// The tree and the program of a source, or the one thing for which it is refused: of its tokens, of its grammar, or the
/// first fault of its types.
pub fn source(alloc: Global, bytes: &[u8]) -> Result<Result<Source, Refusal>, OutOfMemory>
    ensures { IfOk result (Comes bytes.now) }
{
    match tokens(alloc, bytes) {
        Ok(tokens) => {
            let read = of_tokens(alloc, tokens.as_slice())?;
            Ok(read)
        }
        Err(LexError::BadByte(place)) => Ok(Err(Refusal::BadByte(place))),
        Err(LexError::BadNumber(place)) => Ok(Err(Refusal::BadNumber(place))),
        Err(LexError::OpenComment(place)) => Ok(Err(Refusal::OpenComment(place))),
        Err(LexError::OpenText(place)) => Ok(Err(Refusal::OpenText(place))),
        Err(LexError::OutOfMemory) => Err(OutOfMemory::passed_on()),
    }
}
