// The tree whose halves two texts are.

ghost use Rattle.std.specs.Prelude.{◌≡◌, Err, IfOk};
ghost use Rattle.mdr_print.specs.Items.{printed};
ghost use Rattle.mdr_halves.specs.Reads.{IsHalf};
ghost use Rattle.mdr_halves.specs.Stages.{Joining, TreesJoin};
ghost use Rattle.mdr_halves.specs.Whole.{at};

use crate::mismatch::{Mismatch, Which};
use crate::reading::tree_of;
use mdr_core::{Items, OutOfMemory};
use mdr_cut::Texts;
use mdr_express::left_over;
use mdr_half::{JoinError, join};
use mdr_print::print;
use mdr_syntax::Tree;
use std::alloc::Global;

/// A text that is refused on a line of a source.
pub(crate) fn on_line(text: Which, line: u32) -> Mismatch
    ensures { result ≡ at text line }
{
    Mismatch {
        text,
        line: line as u128,
    }
}

/// Why the texts are refused, in place of what was read of them.
pub(crate) fn refused<T: Drop, A: Drop>(mismatch: Mismatch, _read: T) -> Result<A, Mismatch>
    ensures { result ≡ Err mismatch }
{
    Err(mismatch)
}

/// What was made of a value, when the value is let go.
fn apart<A, T: Drop>(made: A, _of: T) -> A
    ensures { result ≡ made }
{
    made
}

/// The text of a tree.
fn text_of(alloc: Global, tree: Tree) -> Result<Items<u8>, OutOfMemory>
    ensures { IfOk result (λ text. text ≡ printed tree) }
{
    let printed = print(alloc, &tree);
    let text = apart(printed, tree)?;
    Ok(Items::from_vec(text))
}

fn of_trees(
    alloc: Global,
    kernel: Tree,
    user: Tree,
) -> Result<Result<Items<u8>, Mismatch>, OutOfMemory>
    ensures { IfOk result (TreesJoin kernel user) }
{
    match join(alloc, kernel, user) {
        Ok(tree) => Ok(Ok(text_of(alloc, tree)?)),
        Err(JoinError::Differ(line)) => Ok(Err(on_line(Which::User, line))),
        Err(JoinError::OutOfMemory) => Err(OutOfMemory::passed_on()),
    }
}

fn with_kernel(
    alloc: Global,
    kernel: Tree,
    texts: &Texts,
) -> Result<Result<Items<u8>, Mismatch>, OutOfMemory>
    ensures { IsHalf texts.now.kernel kernel → IfOk result (Joining texts.now) }
{
    match tree_of(alloc, texts.user.as_slice()) {
        Ok(Ok(user)) => of_trees(alloc, kernel, user),
        Ok(Err(line)) => Ok(refused(on_line(Which::User, line), kernel)),
        Err(error) => left_over(error, kernel),
    }
}

/// The text of the tree whose halves two texts are, or why there is none.
pub(crate) fn joined_text(
    alloc: Global,
    texts: &Texts,
) -> Result<Result<Items<u8>, Mismatch>, OutOfMemory>
    ensures { IfOk result (Joining texts.now) }
{
    match tree_of(alloc, texts.kernel.as_slice())? {
        Ok(kernel) => with_kernel(alloc, kernel, texts),
        Err(line) => Ok(Err(on_line(Which::Kernel, line))),
    }
}
