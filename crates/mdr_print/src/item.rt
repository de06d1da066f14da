// Items and whole texts.

ghost use Rattle.std.specs.Prelude.{◌≡◌, OnOk, IfOk, map, codes};
ghost use Rattle.mdr_syntax.specs.declared.tree.ItemWhat.TheVariants.{Proto, Func};
ghost use Rattle.mdr_print.specs.Marks.{Appends, spell, word, blank, newline, row, ◌▸◌};
ghost use Rattle.mdr_print.specs.Statements.{semicolon, braced, opened, closed, block_words, written};
ghost use Rattle.mdr_print.specs.Items.{marked, field, struct_head, fields_words, item_words, item_lines, tree_marks, printed};

use crate::declaration::{put_declaration, put_head};
use crate::initialiser::{put_braced_enumerators, put_initialised};
use crate::put::{put_blank, put_define, put_newline, put_tabs, put_word};
use crate::statement::{put_block, put_closed, put_opened, put_semicolon};
use mdr_core::OutOfMemory;
use mdr_syntax::{Decl, Head, Item, ItemWhat, Node, Tree};
use std::alloc::{AllocError, Global};

/// A word and a blank, where they are to stand.
fn put_marked(out: &mut Vec<u8>, text: &[u8], is_there: bool) -> Result<(), AllocError>
    ensures { OnOk result (Appends out.old.items out.new.items (marked text.now is_there)) }
{
    if is_there {
        put_word(out, text)?;
        put_blank(out)
    } else {
        Ok(())
    }
}

fn put_end(out: &mut Vec<u8>) -> Result<(), AllocError>
    ensures { OnOk result (Appends out.old.items out.new.items (semicolon ▸ newline)) }
{
    put_semicolon(out)?;
    put_newline(out)
}

/// The line of a struct's field.
fn put_field(alloc: Global, out: &mut Vec<u8>, d: &Decl) -> Result<(), AllocError>
    ensures { OnOk result (Appends out.old.items out.new.items (field d.now)) }
{
    put_tabs(out, 1)?;
    put_declaration(alloc, out, d)?;
    put_end(out)
}

fn put_fields(alloc: Global, out: &mut Vec<u8>, fields: &[Decl]) -> Result<(), AllocError>
    ensures { OnOk result (Appends out.old.items out.new.items (row (map field fields.now))) }
{
    for d in fields {
        put_field(alloc, out, d)?;
    }
    Ok(())
}

fn put_braced_fields(alloc: Global, out: &mut Vec<u8>, fields: &[Decl]) -> Result<(), AllocError>
    ensures { OnOk result (Appends out.old.items out.new.items (fields_words fields.now)) }
{
    put_opened(out)?;
    put_fields(alloc, out, fields)?;
    put_closed(out, 0)
}

fn put_struct_name(out: &mut Vec<u8>, name: &[u8]) -> Result<(), AllocError>
    ensures { OnOk result (Appends out.old.items out.new.items (word (codes "struct") ▸ blank ▸ word name.now)) }
{
    put_word(out, b"struct")?;
    put_blank(out)?;
    put_word(out, name)
}

fn put_struct_head(out: &mut Vec<u8>, name: &[u8]) -> Result<(), AllocError>
    ensures { OnOk result (Appends out.old.items out.new.items (struct_head name.now)) }
{
    put_struct_name(out, name)?;
    put_blank(out)
}

fn put_enum_word(out: &mut Vec<u8>) -> Result<(), AllocError>
    ensures { OnOk result (Appends out.old.items out.new.items (word (codes "enum") ▸ blank)) }
{
    put_word(out, b"enum")?;
    put_blank(out)
}

fn put_function_body(alloc: Global, out: &mut Vec<u8>, body: &[Node]) -> Result<(), AllocError>
    ensures { OnOk result (Appends out.old.items out.new.items (blank ▸ block_words (map written body.now) 0)) }
{
    put_blank(out)?;
    put_block(alloc, out, 0, body)
}

fn put_prototype_words(
    alloc: Global,
    out: &mut Vec<u8>,
    head: &Head,
    is_remote: bool,
) -> Result<(), AllocError>
    ensures { OnOk result (Appends out.old.items out.new.items (item_words (Proto head.now is_remote))) }
{
    put_marked(out, b"__remote", is_remote)?;
    put_head(alloc, out, head)?;
    put_semicolon(out)
}

fn put_function_words(
    alloc: Global,
    out: &mut Vec<u8>,
    head: &Head,
    is_critical: bool,
    body: &[Node],
) -> Result<(), AllocError>
    ensures { OnOk result (Appends out.old.items out.new.items (item_words (Func head.now is_critical body.now))) }
{
    put_marked(out, b"__critical", is_critical)?;
    put_head(alloc, out, head)?;
    put_function_body(alloc, out, body)
}

fn put_item_words(alloc: Global, out: &mut Vec<u8>, what: &ItemWhat) -> Result<(), AllocError>
    ensures { OnOk result (Appends out.old.items out.new.items (item_words what.now)) }
{
    match what {
        ItemWhat::Define(name, is_negative, n, kind) => {
            put_define(alloc, out, name.as_slice(), *is_negative, *n, *kind)
        }
        ItemWhat::Struct(_, name, fields) => {
            put_struct_head(out, name.as_slice())?;
            put_braced_fields(alloc, out, fields.as_slice())?;
            put_semicolon(out)
        }
        ItemWhat::Enum(enumerators) => {
            put_enum_word(out)?;
            put_braced_enumerators(alloc, out, enumerators.as_slice())?;
            put_semicolon(out)
        }
        ItemWhat::Global(d, value) => {
            put_declaration(alloc, out, d)?;
            put_initialised(alloc, out, value)?;
            put_semicolon(out)
        }
        ItemWhat::Proto(head, is_remote) => put_prototype_words(alloc, out, head, *is_remote),
        ItemWhat::Func(head, is_critical, body) => {
            put_function_words(alloc, out, head, *is_critical, body.as_slice())
        }
    }
}

/// The lines of an item. Its place doesn't matter.
pub fn put_item(alloc: Global, out: &mut Vec<u8>, what: &ItemWhat) -> Result<(), AllocError>
    ensures { OnOk result (Appends out.old.items out.new.items (item_words what.now ▸ newline)) }
{
    put_item_words(alloc, out, what)?;
    put_newline(out)
}

/// The line of a prototype, marked `__remote` where `is_remote`.
pub fn put_prototype(
    alloc: Global,
    out: &mut Vec<u8>,
    head: &Head,
    is_remote: bool,
) -> Result<(), AllocError>
    ensures { OnOk result (Appends out.old.items out.new.items (item_words (Proto head.now is_remote) ▸ newline)) }
{
    put_prototype_words(alloc, out, head, is_remote)?;
    put_newline(out)
}

/// The lines of a function with its body, marked `__critical` where `is_critical`.
pub fn put_function(
    alloc: Global,
    out: &mut Vec<u8>,
    head: &Head,
    is_critical: bool,
    body: &[Node],
) -> Result<(), AllocError>
    ensures { OnOk result (Appends out.old.items out.new.items (item_words (Func head.now is_critical body.now) ▸ newline)) }
{
    put_function_words(alloc, out, head, is_critical, body)?;
    put_newline(out)
}

fn put_items(alloc: Global, out: &mut Vec<u8>, items: &[Item]) -> Result<(), AllocError>
    ensures { OnOk result (Appends out.old.items out.new.items (row (map item_lines items.now))) }
{
    for item in items {
        put_item(alloc, out, &item.what)?;
    }
    Ok(())
}

/// The text of a tree: one item or statement a line, a tab for each block around it, operands in parentheses where
/// they are operator forms, integer types by their own names, numbers decimal. Places don't matter.
#[tactic(auto, unfolding(crate::specs::Items::printed, crate::specs::Marks::spell))]
pub fn print(alloc: Global, tree: &Tree) -> Result<Vec<u8>, OutOfMemory>
    ensures { IfOk result (λ bytes. bytes.items ≡ printed tree.now) }
{
    let mut out = Vec::new(alloc);
    put_items(alloc, &mut out, tree.items.as_slice())?;
    Ok(out)
}
