// What is printed of a run.

ghost use Rattle.std.specs.Prelude.{◌≡◌, ◌++◌, OnOk, IfOk};
ghost use Rattle.mdr_gen.specs.Answer.{count_line, seed_line, count_lines, answer_text};

use crate::put::{put_number, put_word};
use mdr_core::OutOfMemory;
use std::alloc::{AllocError, Global};

/// What is counted of a run: its ticks, the messages of both halves, and the blocks that live at its end.
#[derive(Clone, Copy)]
pub struct Counts {
    pub ticks: u64,
    pub messages: u128,
    pub live: u64,
}

/// A line of a word and a number.
fn put_count(alloc: Global, out: &mut Vec<u8>, word: &str, n: u128) -> Result<(), AllocError>
    ensures { OnOk result (out.new.items ≡ out.old.items ++ count_line word.now n) }
{
    put_word(out, word)?;
    put_number(alloc, out, n)?;
    put_word(out, "\n")
}

#[tactic(auto, unfolding(crate::specs::Answer::seed_line))]
fn put_seed(alloc: Global, out: &mut Vec<u8>, seed: u64, size: u64) -> Result<(), AllocError>
    ensures { OnOk result (out.new.items ≡ out.old.items ++ seed_line seed size) }
{
    put_word(out, "gen ")?;
    put_number(alloc, out, u128::from(seed))?;
    put_count(alloc, out, " ", u128::from(size))
}

#[tactic(auto, unfolding(crate::specs::Answer::count_lines))]
fn put_counts(alloc: Global, out: &mut Vec<u8>, counts: Counts) -> Result<(), AllocError>
    ensures { OnOk result (out.new.items ≡ out.old.items ++ count_lines counts) }
{
    put_count(alloc, out, "ticks ", u128::from(counts.ticks))?;
    put_count(alloc, out, "messages ", counts.messages)?;
    put_count(alloc, out, "live ", u128::from(counts.live))
}

/// The seed and the number of lines, and a line for each count.
pub fn answer_text(
    alloc: Global,
    seed: u64,
    size: u64,
    counts: Counts,
) -> Result<Vec<u8>, OutOfMemory>
    ensures { IfOk result (λ text. text.items ≡ answer_text seed size counts) }
{
    let mut out = Vec::new(alloc);
    put_seed(alloc, &mut out, seed, size)?;
    put_counts(alloc, &mut out, counts)?;
    Ok(out)
}
