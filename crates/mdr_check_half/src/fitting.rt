// Whether a plan suits a text.

ghost use Rattle.std.specs.Prelude.{◌≡◌, ◌==◌, IfOk, length};
ghost use Rattle.mdr_program.specs.Occurring.{occurring};
ghost use Rattle.mdr_check_half.specs.Suiting.{are_named, is_whole, is_bare, each_function, structs_in, suits_keys, suits_types, suits_text};

use crate::functions::{are_bare, are_named, are_whole};
use crate::keys::{all_name_something, none_names_a_lock};
use crate::tables::{has_types, structs_in};
use mdr_core::{OutOfMemory, Plan, Ty};
use mdr_program::{Parts, occurring_types};
use std::alloc::Global;

fn has_structs(plan: &Plan, parts: &Parts) -> bool
    ensures { result ≡ (structs_in plan.now.types == length parts.now.structs) }
{
    structs_in(plan.types.as_slice()) == parts.structs.len()
}

fn suits_keys(plan: &Plan, parts: &Parts) -> bool
    ensures { result ≡ (suits_keys plan.now parts.now) }
{
    let types = plan.types.as_slice();
    let keys = plan.keys.as_slice();
    all_name_something(types, parts, keys) && none_names_a_lock(types, parts, keys)
}

fn suits_types(plan: &Plan, parts: &Parts, all: &[Ty]) -> bool
    ensures { result ≡ suits_types plan.now parts.now all.now }
{
    has_structs(plan, parts) && has_types(plan.types.as_slice(), all) && suits_keys(plan, parts)
}

/// Whether a plan suits a text in which these types occur.
#[tactic(auto, unfolding(crate::specs::Suiting::suits_text))]
fn suits(plan: &Plan, parts: &Parts, all: &[Ty]) -> bool
    ensures { all.now ≡ occurring parts.now → result ≡ suits_text plan.now parts.now }
{
    let funcs = parts.funcs.as_slice();
    are_named(plan.names.as_slice(), funcs)
        && are_whole(plan.halves.as_slice(), funcs)
        && are_bare(plan.halves.as_slice(), funcs)
        && suits_types(plan, parts, all)
}

/// Whether a plan suits a text of these parts.
pub fn suits_text(alloc: Global, plan: &Plan, parts: &Parts) -> Result<bool, OutOfMemory>
    ensures { IfOk result (λ b. b ≡ suits_text plan.now parts.now) }
{
    let all = occurring_types(alloc, parts)?;
    Ok(suits(plan, parts, all.as_slice()))
}
