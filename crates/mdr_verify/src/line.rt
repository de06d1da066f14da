// What a line shows.

ghost use Rattle.std.specs.Prelude.{◌≡◌, IfOk};
ghost use Rattle.std.specs.Option.{option_map};
ghost use Rattle.mdr_verify.specs.Digits.{message_of};
ghost use Rattle.mdr_verify.specs.Lines.{behind_mark, sent_by, got_by, got_or_other, line_at};

use crate::digits::message_of;
use mdr_core::Items;
use std::alloc::{AllocError, Global};

/// What a line shows.
#[derive(Drop)]
pub enum Line {
    /// A message to the user half.
    Sent(Items<u8>),
    /// An answer.
    Got(Items<u8>),
    /// No message.
    Other,
}

/// What stands behind a mark and a blank.
fn behind_mark(mark: u8, bytes: &[u8]) -> Option<&[u8]>
    ensures { option_map (λ r. r.now) result ≡ behind_mark mark bytes.now }
{
    match bytes {
        [first, second, digits @ ..] => {
            if *first == mark && *second == b' ' {
                Some(digits)
            } else {
                None
            }
        }
        [_] => None,
        [] => None,
    }
}

fn sent_line(alloc: Global, digits: &[u8]) -> Result<Line, AllocError>
    ensures { IfOk result (λ line. line ≡ sent_by (message_of digits.now)) }
{
    match message_of(alloc, digits)? {
        Some(message) => Ok(Line::Sent(message)),
        None => Ok(Line::Other),
    }
}

fn got_line(alloc: Global, digits: &[u8]) -> Result<Line, AllocError>
    ensures { IfOk result (λ line. line ≡ got_by (message_of digits.now)) }
{
    match message_of(alloc, digits)? {
        Some(message) => Ok(Line::Got(message)),
        None => Ok(Line::Other),
    }
}

/// What a line shows that shows no message to the user half.
fn got_or_other(alloc: Global, bytes: &[u8]) -> Result<Line, AllocError>
    ensures { IfOk result (λ line. line ≡ got_or_other (behind_mark 60 bytes.now)) }
{
    match behind_mark(b'<', bytes) {
        Some(digits) => got_line(alloc, digits),
        None => Ok(Line::Other),
    }
}

/// What a line shows, without its newline.
pub fn line_of(alloc: Global, bytes: &[u8]) -> Result<Line, AllocError>
    ensures { IfOk result (λ line. line ≡ line_at bytes.now) }
{
    match behind_mark(b'>', bytes) {
        Some(digits) => sent_line(alloc, digits),
        None => got_or_other(alloc, bytes),
    }
}
