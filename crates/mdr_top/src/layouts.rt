// The line that shows the layout of a run's memory.

ghost use Rattle.std.specs.Prelude.{◌≡◌, ◌++◌, OnOk, IfOk, codes, decimal};
ghost use Rattle.mdr_model.specs.Report.{newline};
ghost use Rattle.mdr_top.specs.Layouts.{layout_line, with_layout};
ghost use Rattle.mdr_top.specs.Messages.{with_messages};

use crate::messages::with_messages;
use crate::split_manner::SplitManner;
use mdr_core::OutOfMemory;
use mdr_due::{Due, put_newline, put_word};
use mdr_outside::Exchange;
use std::alloc::Global;

fn put_places(alloc: Global, out: &mut Vec<u8>, places: u64) -> Result<(), OutOfMemory>
    ensures { OnOk result (out.new.items ≡ out.old.items ++ decimal places) }
{
    let digits = places.to_string(alloc)?;
    put_word(out, digits.as_str())
}

/// How many places there are, to the end of the line.
fn put_top(alloc: Global, out: &mut Vec<u8>, top: u64) -> Result<(), OutOfMemory>
    ensures { OnOk result (out.new.items ≡ out.old.items ++ (codes " " ++ (decimal top ++ newline))) }
{
    put_word(out, " ")?;
    put_places(alloc, out, top)?;
    put_newline(out)
}

/// The line of a layout: how many places are used, and how many there are.
fn put_layout(alloc: Global, out: &mut Vec<u8>, layout: (u64, u64)) -> Result<(), OutOfMemory>
    ensures { OnOk result (out.new.items ≡ out.old.items ++ layout_line layout) }
{
    put_word(out, "region ")?;
    put_places(alloc, out, layout.0)?;
    put_top(alloc, out, layout.1)
}

/// What is due, with the line of the layout behind its text.
fn with_line(alloc: Global, due: Due, layout: (u64, u64)) -> Result<Due, OutOfMemory>
    ensures { IfOk result (λ all. (all.status ≡ due.status) × (all.text.items ≡ due.text.items ++ layout_line layout)) }
{
    let mut all = due;
    put_layout(alloc, &mut all.text, layout)?;
    Ok(all)
}

/// The same where it is asked for.
fn with_layout(
    alloc: Global,
    due: Due,
    region: bool,
    layout: (u64, u64),
) -> Result<Due, OutOfMemory>
    ensures { IfOk result (λ all. (all.status ≡ due.status) × (all.text.items ≡ with_layout region layout due.text.items)) }
{
    if region {
        with_line(alloc, due, layout)
    } else {
        Ok(due)
    }
}

/// What is due, and behind its text what is asked for: the lines that show the messages, and the line of the layout.
pub(crate) fn shown(
    alloc: Global,
    due: Due,
    manner: SplitManner,
    exchanges: &[Exchange],
    layout: (u64, u64),
) -> Result<Due, OutOfMemory>
    ensures { IfOk result (λ all. (all.status ≡ due.status) × (all.text.items ≡ with_layout manner.region layout (with_messages manner.wire exchanges.now due.text.items))) }
{
    let told = with_messages(alloc, due, manner.wire, exchanges)?;
    let all = with_layout(alloc, told, manner.region, layout)?;
    Ok(all)
}
