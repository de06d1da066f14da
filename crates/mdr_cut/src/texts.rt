// The three texts of a source.

ghost use Rattle.std.specs.Prelude.{IfOk};
ghost use Rattle.mdr_core.specs.Sound.{IsSound};
ghost use Rattle.mdr_cut.specs.Cuts.{AreTexts};

use crate::plan::plan_of;
use mdr_core::{Items, OutOfMemory, Program};
use mdr_half::{kernel_text, plan_text, user_text};
use mdr_syntax::Tree;
use std::alloc::Global;

/// The texts of a source's two halves and of its plan.
#[derive(Drop)]
pub struct Texts {
    pub kernel: Items<u8>,
    pub user: Items<u8>,
    pub plan: Items<u8>,
}

/// The texts of a source, by its tree and its program. Which function is in which half, and which keys it has, the
/// program tells; what the functions say, the tree.
pub fn texts_of(alloc: Global, tree: &Tree, program: &Program) -> Result<Texts, OutOfMemory>
    requires { IsSound program.now }
    ensures { IfOk result (AreTexts tree.now program.now) }
{
    let plan = plan_of(alloc, program)?;
    let kernel = kernel_text(alloc, tree, &plan)?;
    let user = user_text(alloc, tree, &plan)?;
    let lines = plan_text(alloc, program, &plan)?;
    Ok(Texts {
        kernel: Items::from_vec(kernel),
        user: Items::from_vec(user),
        plan: Items::from_vec(lines),
    })
}
