// Blocks, and what stands in them (C99 6.8.2).

ghost use Rattle.std.specs.Prelude.{◌<◌, ◌≤◌, length, IfOk, IfSome, true};
ghost use Rattle.mdr_grammar.specs.Forms.Part.{block_item as a_block_item};
ghost use Rattle.mdr_grammar.specs.Forms.Nonterminal.{part, option};
ghost use Rattle.mdr_grammar.specs.Front.{first, front};
ghost use Rattle.mdr_grammar.specs.Statements.{items_in, nested_in, statement_in};
ghost use Rattle.mdr_simple.specs.Behind.{after_nested};
ghost use Rattle.mdr_reader.specs.Gives.{Gives};

use crate::statements::statement;
use mdr_core::{Items, Place};
use mdr_grammar::parts::Ended;
use mdr_grammar::sort::Sort;
use mdr_reader::failure::Failure;
use mdr_reader::lists::followed;
use mdr_reader::look::{Reader, is_level_free};
use mdr_reader::openings::perhaps;
use mdr_simple::leaving::{declaration, ended_by};
use mdr_simple::locals::one_of;
use mdr_simple::nodes::block_node;
use mdr_syntax::{Node, Token};

/// What stands behind the `{` of a block.
#[cycle(statement)]
pub fn block(
    reader: Reader,
    tokens: &[Token],
    place: Place,
    level: u32,
) -> Result<(Ended, &[Token]), Failure>
    requires low { level ≤ 256 }
    ensures reads { Gives (λ x. x.0) (λ x. x.1.now) result (after_nested reader.halves level place tokens.now) }
    ensures shorter { IfOk result (λ x. length x.1.now < length tokens.now) }
{
    let (nodes, rest) = nested(reader, tokens, level)?;
    Ok(ended_by(reader, Sort::CloseBrace, rest, block_node(place, nodes))?)
}

/// What stands in a block of a level, where anything may stand there.
#[cycle(statement)]
fn nested(reader: Reader, tokens: &[Token], level: u32) -> Result<(Items<Node>, &[Token]), Failure>
    requires low { level ≤ 256 }
    ensures reads { Gives (λ x. x.0) (λ x. x.1.now) result (front reader.halves (nested_in level) tokens.now) }
    ensures shorter { IfOk result (λ x. length x.1.now ≤ length tokens.now) }
{
    if is_level_free(level + 1) {
        block_items(reader, tokens, level + 1)
    } else {
        Ok((Items::new(reader.alloc), tokens))
    }
}

/// What stands in a block at a level, up to the first token that begins neither a declaration nor a statement.
#[cycle(statement)]
pub fn block_items(
    reader: Reader,
    tokens: &[Token],
    level: u32,
) -> Result<(Items<Node>, &[Token]), Failure>
    requires low { level ≤ 256 }
    ensures reads { Gives (λ x. x.0) (λ x. x.1.now) result (front reader.halves (items_in level) tokens.now) }
    ensures shorter { IfOk result (λ x. length x.1.now ≤ length tokens.now) }
{
    let mut all = Items::new(reader.alloc);
    let mut rest = tokens;
    'more: loop {
        let (found, behind) = item_option(reader, rest, level)?;
        let Some(x) = found else {
            return Ok((all, behind));
        };
        all = followed(all, x)?;
        rest = behind;
    }
}

/// A declaration or a statement, if there is one.
#[cycle(statement)]
fn item_option(
    reader: Reader,
    tokens: &[Token],
    level: u32,
) -> Result<(Option<Items<Node>>, &[Token]), Failure>
    requires low { level ≤ 256 }
    ensures reads { Gives (λ x. x.0) (λ x. x.1.now) result (first reader.halves (option true (a_block_item level)) tokens.now) }
    ensures shorter { IfOk result (λ x. length x.1.now ≤ length tokens.now) }
    ensures taken { IfOk result (λ x. IfSome x.0 (λ v. length x.1.now < length tokens.now)) }
{
    perhaps(block_item(reader, tokens, level), tokens)
}

/// A declaration or a statement.
#[cycle(statement)]
fn block_item(
    reader: Reader,
    tokens: &[Token],
    level: u32,
) -> Result<(Items<Node>, &[Token]), Failure>
    requires low { level ≤ 256 }
    ensures reads { Gives (λ x. x.0) (λ x. x.1.now) result (first reader.halves (part (a_block_item level)) tokens.now) }
    ensures shorter { IfOk result (λ x. length x.1.now < length tokens.now) }
{
    match declaration(reader, tokens, level) {
        Ok(x) => Ok(x),
        Err(e) => {
            if e.is_at(tokens.len()) {
                one_statement(reader, tokens, level)
            } else {
                Err(e)
            }
        }
    }
}

/// A statement as a list.
#[cycle(statement)]
fn one_statement(
    reader: Reader,
    tokens: &[Token],
    level: u32,
) -> Result<(Items<Node>, &[Token]), Failure>
    requires low { level ≤ 256 }
    ensures reads { Gives (λ x. x.0) (λ x. x.1.now) result (front reader.halves (statement_in level) tokens.now) }
    ensures shorter { IfOk result (λ x. length x.1.now < length tokens.now) }
{
    let (x, rest) = statement(reader, tokens, level)?;
    Ok((one_of(reader, x.node)?, rest))
}
