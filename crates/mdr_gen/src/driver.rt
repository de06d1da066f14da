// The text of the driver.

ghost use Rattle.std.specs.Prelude.{◌≡◌, ◌++◌, OnOk, IfOk};
ghost use Rattle.mdr_gen.specs.Generator.{list_text, count_text, note_text, add_text, walk_text, drop_text, driver_text};

use crate::put::put_word;
use std::alloc::{AllocError, Global};

/// The nodes, and the first of them.
#[tactic(auto, unfolding(crate::specs::Generator::list_text))]
fn put_list(out: &mut Vec<u8>) -> Result<(), AllocError>
    ensures { OnOk result (out.new.items ≡ out.old.items ++ list_text) }
{
    put_word(
        out,
        "struct node { u32 v; struct node *next; };\nstruct node *head;\n",
    )
}

/// The number of nodes, and the last sum.
#[tactic(auto, unfolding(crate::specs::Generator::count_text))]
fn put_count(out: &mut Vec<u8>) -> Result<(), AllocError>
    ensures { OnOk result (out.new.items ≡ out.old.items ++ count_text) }
{
    put_word(out, "u32 count;\nu32 sum;\n")
}

/// The function that user code tells a sum.
#[tactic(auto, unfolding(crate::specs::Generator::note_text))]
fn put_note(out: &mut Vec<u8>) -> Result<(), AllocError>
    ensures { OnOk result (out.new.items ≡ out.old.items ++ note_text) }
{
    put_word(out, "__critical void note(u32 x) { sum = sum + x; }\n")
}

/// The function that makes a node.
#[tactic(auto, unfolding(crate::specs::Generator::add_text))]
fn put_add(out: &mut Vec<u8>) -> Result<(), AllocError>
    ensures { OnOk result (out.new.items ≡ out.old.items ++ add_text) }
{
    put_word(
        out,
        "void add(u32 v) { struct node *p; p = kzalloc(struct node); if (!p) { return; } p->v = v; p->next = head; head = p; count += 1; }\n",
    )
}

/// The function that sums up all nodes.
#[tactic(auto, unfolding(crate::specs::Generator::walk_text))]
fn put_walk(out: &mut Vec<u8>) -> Result<(), AllocError>
    ensures { OnOk result (out.new.items ≡ out.old.items ++ walk_text) }
{
    put_word(
        out,
        "void walk(void) { struct node *p; u32 s; s = 0; p = head; while (p) { s += p->v; p = p->next; } note(s); }\n",
    )
}

/// The function that lets go of a node.
#[tactic(auto, unfolding(crate::specs::Generator::drop_text))]
fn put_drop(out: &mut Vec<u8>) -> Result<(), AllocError>
    ensures { OnOk result (out.new.items ≡ out.old.items ++ drop_text) }
{
    put_word(
        out,
        "void drop(void) { struct node *p; p = head; if (!p) { return; } head = p->next; kfree(p); count -= 1; }\n",
    )
}

fn put_functions(out: &mut Vec<u8>) -> Result<(), AllocError>
    ensures { OnOk result (out.new.items ≡ out.old.items ++ (add_text ++ (walk_text ++ drop_text))) }
{
    put_add(out)?;
    put_walk(out)?;
    put_drop(out)
}

#[tactic(auto, unfolding(crate::specs::Generator::driver_text))]
fn put_driver(out: &mut Vec<u8>) -> Result<(), AllocError>
    ensures { OnOk result (out.new.items ≡ out.old.items ++ driver_text) }
{
    put_list(out)?;
    put_count(out)?;
    put_note(out)?;
    put_functions(out)
}

/// The driver, one item on a line.
pub fn driver_text(alloc: Global) -> Result<Vec<u8>, AllocError>
    ensures { IfOk result (λ text. text.items ≡ driver_text) }
{
    let mut out = Vec::new(alloc);
    put_driver(&mut out)?;
    Ok(out)
}
