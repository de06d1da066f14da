// Comments (C99 6.4.9).

ghost use Rattle.std.specs.Prelude.{◌≡◌, ◌≤◌, ◌<◌, length, IsTrue, IfSome, IfOk};
ghost use Rattle.mdr_syntax.specs.Gives.{Gives};
ghost use Rattle.mdr_syntax.specs.Pieces.{begins_with, close_at, slash_piece};

use crate::bytes::line_len;
use crate::error::LexError;
use crate::piece::{Piece, punctuation_piece};
use mdr_core::Place;
use std::alloc::Global;

/// Whether these two bytes stand at the front.
fn begins_with(a: u8, b: u8, bytes: &[u8]) -> bool
    ensures value { result ≡ begins_with a b bytes.now }
    ensures long { IsTrue result → 2 ≤ length bytes.now }
{
    match bytes {
        [x, y, ..] => *x == a && *y == b,
        _ => false,
    }
}

/// How many bytes there are up to the first `*/` and with it.
fn close_at(bytes: &[u8]) -> Option<usize>
    ensures value { result ≡ close_at bytes.now }
    ensures within { IfSome result (λ n. n ≤ length bytes.now) }
{
    for i in 0..bytes.len() {
        if begins_with(b'*', b'/', &bytes[i..]) {
            return Some(i + 2);
        }
    }
    None
}

/// A comment, or the punctuation that begins with a `/`.
#[tactic(auto, unfolding(crate::specs::Pieces::slash_piece))]
pub fn slash_piece(alloc: Global, place: Place, bytes: &[u8]) -> Result<Piece, LexError>
    requires { 0 < length bytes.now }
    ensures value { Gives result (slash_piece place bytes.now) }
    ensures within { IfOk result (λ p. p.more < length bytes.now) }
{
    if begins_with(b'/', b'/', bytes) {
        return Ok(Piece::gap(line_len(&bytes[1..])));
    }
    if begins_with(b'/', b'*', bytes) {
        return match close_at(&bytes[2..]) {
            Some(len) => Ok(Piece::gap(1 + len)),
            None => Err(LexError::OpenComment(place)),
        };
    }
    punctuation_piece(alloc, place, bytes)
}
