// Copies of rules.

ghost use Rattle.std.specs.Prelude.{◌≡◌, IfOk};

use crate::rule::Rule;
use mdr_core::Items;
use std::alloc::{AllocError, Global};

fn copied(alloc: Global, rule: &Rule) -> Result<Rule, AllocError>
    ensures { IfOk result (λ r. r ≡ rule.now) }
{
    Ok(Rule {
        trigger: rule.trigger,
        guard: rule.guard,
        effects: Items::from_slice(alloc, rule.effects.as_slice())?,
    })
}

/// A list of the same rules, with room of its own.
pub fn copied_rules(alloc: Global, rules: &[Rule]) -> Result<Items<Rule>, AllocError>
    ensures { IfOk result (λ rs. rs ≡ rules.now) }
{
    let mut copies = Items::new(alloc);
    for rule in rules {
        copies.push(copied(alloc, rule)?)?;
    }
    Ok(copies)
}
