// Reading a plan's text.

ghost use Rattle.std.specs.Prelude.{◌≡◌, ◌≤◌, ◌<◌, ◌+◌, ◌∷◌, length, take, drop, MatchOption, true, false};
ghost use Rattle.std.specs.List.{prefix_len};
ghost use Rattle.mdr_plan.specs.Texts.{in_line, IsOneLine, Plans, Progress, is_done};
ghost use Rattle.mdr_plan.specs.declared.plan_error.PlanError.TheVariants.{Line as at_line};

use crate::line::Stage;
use crate::plan_error::{PlanError, PlanKind};
use crate::reader::Reader;
use crate::standing::refusal;
use crate::unread::Unread;
use mdr_core::{Limit, Plan, within};
use std::alloc::Global;

fn line_len(bytes: &[u8]) -> usize
    ensures count { result ≡ prefix_len in_line bytes.now }
    ensures within { result ≤ length bytes.now }
{
    bytes.iter().take_while(|b| **b != b'\n').count()
}

/// The first line without its newline, and what stands behind that. The text's end isn't a line's.
fn split_line(bytes: &[u8]) -> Option<(&[u8], &[u8])>
    ensures { MatchOption result (IsOneLine bytes.now) (λ x. (x.0.now ≡ take (prefix_len in_line bytes.now) bytes.now) × (x.1.now ≡ drop (1 + prefix_len in_line bytes.now) bytes.now) × (prefix_len in_line bytes.now < length bytes.now)) }
{
    let (line, rest) = bytes.split_at(line_len(bytes));
    match rest {
        [_, after @ ..] => Some((line, after)),
        [] => None,
    }
}

fn is_done(stage: Stage) -> bool
    ensures { result ≡ is_done stage }
{
    match stage {
        Stage::Done => true,
        Stage::Start | Stage::Types | Stage::Functions | Stage::Downs | Stage::Ups => false,
    }
}

/// The plan, where its last line was read.
fn finish(reader: Reader) -> Option<Plan>
    ensures { MatchOption result (is_done reader.stage ≡ false) (λ plan. (is_done reader.stage ≡ true) × (plan ≡ reader.plan)) }
{
    if is_done(reader.stage) {
        Some(reader.plan)
    } else {
        None
    }
}

fn read_lines(alloc: Global, bytes: &[u8]) -> Result<Plan, PlanError>
    requires { length bytes.now < 4294967295 }
    ensures { Plans bytes.now result }
{
    let mut reader = Reader::new(alloc);
    let mut number = 1u32;
    let mut rest = bytes;
    while !rest.is_empty() {
        let Some((line, after)) = split_line(rest) else {
            return Err(PlanError::Line(number, PlanKind::Form));
        };
        match reader.step(alloc, line) {
            Ok(()) => {}
            Err(Unread::Refused) => return Err(refusal(alloc, &reader, number, line)),
            Err(Unread::OutOfMemory) => return Err(PlanError::OutOfMemory),
        }
        number += 1;
        rest = after;
    }
    match finish(reader) {
        Some(plan) => Ok(plan),
        None => Err(PlanError::Line(number, PlanKind::Form)),
    }
}

/// The plan of a text, or the number of the first line that may not stand there, and why. A text of 2^32 - 1 bytes or
/// more is too large: `OutOfMemory`.
pub fn read_plan(alloc: Global, bytes: &[u8]) -> Result<Plan, PlanError>
    ensures { Plans bytes.now result }
{
    within(bytes.len() as u64, Limit::Bytes)?;
    read_lines(alloc, bytes)
}
