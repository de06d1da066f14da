// Statements.

ghost use Rattle.std.specs.Prelude.{◌≡◌, ◌+◌, OnOk, IfOk, suc, true, map, codes};
ghost use Rattle.std.specs.Option.{option_map};
ghost use Rattle.mdr_print.specs.Marks.{Appends, spell, word, sign, blank, newline, row, spaced, ◌▸◌};
ghost use Rattle.mdr_print.specs.Forms.{form, left_side};
ghost use Rattle.mdr_print.specs.Statements.{semicolon, line_of, lines, braced, opened, closed, clause_head, assigned, optional, next_part};
ghost use Rattle.mdr_print.specs.Statements.{step_of, head_list, for_test, for_parts, first_of, further_of, words_of, body_of, head_part, block_words};
ghost use Rattle.mdr_print.specs.Statements.{clauses_words, clause_lines, otherwise, returned, label_words, label, at, written, written_what, written_clause};

use crate::declaration::{put_constant, put_declaration, put_declarator};
use crate::form::{put_form, put_in_parentheses, put_left_side};
use crate::initialiser::put_equals;
use crate::put::{
    put_blank, put_comma_unless, put_newline, put_sign, put_spaced, put_tabs, put_word,
};
use mdr_core::{Boxed, Limit, below};
use mdr_syntax::{Clause, Const, Decl, Form, Label, Node, NodeWhat};
use std::alloc::{AllocError, Global};

/// One block deeper. No tree that memory holds is as deep as numbers go.
fn deeper(depth: u64) -> Result<u64, AllocError>
    ensures { IfOk result (λ d. d ≡ suc depth) }
{
    below(depth, Limit::Deep)?;
    Ok(depth + 1)
}

pub fn put_semicolon(out: &mut Vec<u8>) -> Result<(), AllocError>
    ensures { OnOk result (Appends out.old.items out.new.items semicolon) }
{
    put_sign(out, b";")
}

/// `{`, which ends its line.
pub fn put_opened(out: &mut Vec<u8>) -> Result<(), AllocError>
    ensures { OnOk result (Appends out.old.items out.new.items opened) }
{
    put_sign(out, b"{")?;
    put_newline(out)
}

/// `}` at the front of a line.
pub fn put_closed(out: &mut Vec<u8>, depth: u64) -> Result<(), AllocError>
    ensures { OnOk result (Appends out.old.items out.new.items (closed depth)) }
{
    put_tabs(out, depth)?;
    put_sign(out, b"}")
}

// ---- parts without statements

/// A word and an expression in parentheses behind it.
fn put_clause_head(
    alloc: Global,
    out: &mut Vec<u8>,
    text: &[u8],
    f: &Form,
) -> Result<(), AllocError>
    ensures { OnOk result (Appends out.old.items out.new.items (clause_head text.now (form f.now))) }
{
    put_word(out, text)?;
    put_blank(out)?;
    put_in_parentheses(alloc, out, f)
}

fn put_assigned(alloc: Global, out: &mut Vec<u8>, value: &Option<Form>) -> Result<(), AllocError>
    ensures { OnOk result (Appends out.old.items out.new.items (assigned value.now)) }
{
    match value {
        None => Ok(()),
        Some(f) => {
            put_equals(out)?;
            put_form(alloc, out, f)
        }
    }
}

fn put_returned(alloc: Global, out: &mut Vec<u8>, value: &Option<Form>) -> Result<(), AllocError>
    ensures { OnOk result (Appends out.old.items out.new.items (returned value.now)) }
{
    match value {
        None => Ok(()),
        Some(f) => {
            put_blank(out)?;
            put_form(alloc, out, f)
        }
    }
}

fn put_optional(alloc: Global, out: &mut Vec<u8>, f: &Option<Form>) -> Result<(), AllocError>
    ensures { OnOk result (Appends out.old.items out.new.items (optional f.now)) }
{
    match f {
        None => Ok(()),
        Some(f) => put_form(alloc, out, f),
    }
}

fn put_assignment(
    alloc: Global,
    out: &mut Vec<u8>,
    operator: &[u8],
    a: &Form,
    b: &Form,
) -> Result<(), AllocError>
    ensures { OnOk result (Appends out.old.items out.new.items (left_side a.now ▸ spaced operator.now ▸ form b.now)) }
{
    put_left_side(alloc, out, a)?;
    put_spaced(out, operator)?;
    put_form(alloc, out, b)
}

fn put_label_words(
    alloc: Global,
    out: &mut Vec<u8>,
    value: &Option<Const>,
) -> Result<(), AllocError>
    ensures { OnOk result (Appends out.old.items out.new.items (label_words value.now)) }
{
    match value {
        None => put_word(out, b"default"),
        Some(c) => {
            put_word(out, b"case")?;
            put_blank(out)?;
            put_constant(alloc, out, c)
        }
    }
}

fn put_label_end(out: &mut Vec<u8>) -> Result<(), AllocError>
    ensures { OnOk result (Appends out.old.items out.new.items (sign (codes ":") ▸ newline)) }
{
    put_sign(out, b":")?;
    put_newline(out)
}

/// The line of a label.
fn put_label(alloc: Global, out: &mut Vec<u8>, depth: u64, l: &Label) -> Result<(), AllocError>
    ensures { OnOk result (Appends out.old.items out.new.items (label depth l.now)) }
{
    put_tabs(out, depth)?;
    put_label_words(alloc, out, &l.value)?;
    put_label_end(out)
}

fn put_labels(
    alloc: Global,
    out: &mut Vec<u8>,
    depth: u64,
    labels: &[Label],
) -> Result<(), AllocError>
    ensures { OnOk result (Appends out.old.items out.new.items (row (map (label depth) labels.now))) }
{
    for l in labels {
        put_label(alloc, out, depth, l)?;
    }
    Ok(())
}

// ---- the head of a `for`

/// A statement in the head of a `for`, without its semicolon.
fn put_first(alloc: Global, out: &mut Vec<u8>, s: &NodeWhat) -> Result<(), AllocError>
    ensures { OnOk result (Appends out.old.items out.new.items (first_of (written_what s.now))) }
{
    match s {
        NodeWhat::Local(d, value) => {
            put_declaration(alloc, out, d)?;
            put_assigned(alloc, out, value)
        }
        NodeWhat::Assign(_, operator, a, b) => {
            put_assignment(alloc, out, operator.as_slice(), a, b)
        }
        NodeWhat::Plain(f) => put_form(alloc, out, f),
        NodeWhat::Empty
        | NodeWhat::Block(_)
        | NodeWhat::If(_, _, _)
        | NodeWhat::While(_, _)
        | NodeWhat::For(_, _, _, _)
        | NodeWhat::Do(_, _)
        | NodeWhat::Switch(_, _)
        | NodeWhat::Return(_)
        | NodeWhat::Break
        | NodeWhat::Continue => Ok(()),
    }
}

/// A declarator behind the first in the head of a `for`.
fn put_further(alloc: Global, out: &mut Vec<u8>, s: &NodeWhat) -> Result<(), AllocError>
    ensures { OnOk result (Appends out.old.items out.new.items (further_of (written_what s.now))) }
{
    match s {
        NodeWhat::Local(d, value) => {
            put_declarator(alloc, out, d)?;
            put_assigned(alloc, out, value)
        }
        NodeWhat::Assign(_, _, _, _)
        | NodeWhat::Plain(_)
        | NodeWhat::Empty
        | NodeWhat::Block(_)
        | NodeWhat::If(_, _, _)
        | NodeWhat::While(_, _)
        | NodeWhat::For(_, _, _, _)
        | NodeWhat::Do(_, _)
        | NodeWhat::Switch(_, _)
        | NodeWhat::Return(_)
        | NodeWhat::Break
        | NodeWhat::Continue => Ok(()),
    }
}

fn put_head_part(
    alloc: Global,
    out: &mut Vec<u8>,
    is_first: bool,
    s: &Node,
) -> Result<(), AllocError>
    ensures { OnOk result (Appends out.old.items out.new.items (head_part is_first (written s.now))) }
{
    if is_first {
        put_first(alloc, out, &s.what)
    } else {
        put_further(alloc, out, &s.what)
    }
}

fn put_head_list(alloc: Global, out: &mut Vec<u8>, init: &[Node]) -> Result<(), AllocError>
    ensures { OnOk result (Appends out.old.items out.new.items (head_list true (map written init.now))) }
{
    let mut is_first = true;
    for s in init {
        put_comma_unless(out, is_first)?;
        put_head_part(alloc, out, is_first, s)?;
        is_first = false;
    }
    Ok(())
}

fn put_next_part(out: &mut Vec<u8>) -> Result<(), AllocError>
    ensures { OnOk result (Appends out.old.items out.new.items next_part) }
{
    put_semicolon(out)?;
    put_blank(out)
}

fn put_for_test(alloc: Global, out: &mut Vec<u8>, test: &Option<Form>) -> Result<(), AllocError>
    ensures { OnOk result (Appends out.old.items out.new.items (for_test test.now)) }
{
    put_next_part(out)?;
    put_optional(alloc, out, test)?;
    put_next_part(out)
}

fn put_step(alloc: Global, out: &mut Vec<u8>, step: &Option<Boxed<Node>>) -> Result<(), AllocError>
    ensures { OnOk result (Appends out.old.items out.new.items (step_of (option_map written step.now))) }
{
    match step {
        None => Ok(()),
        Some(s) => put_first(alloc, out, &s.get().what),
    }
}

fn put_for_parts(
    alloc: Global,
    out: &mut Vec<u8>,
    init: &[Node],
    test: &Option<Form>,
    step: &Option<Boxed<Node>>,
) -> Result<(), AllocError>
    ensures { OnOk result (Appends out.old.items out.new.items (for_parts (map written init.now) test.now (option_map written step.now))) }
{
    put_head_list(alloc, out, init)?;
    put_for_test(alloc, out, test)?;
    put_step(alloc, out, step)
}

fn put_for_word(out: &mut Vec<u8>) -> Result<(), AllocError>
    ensures { OnOk result (Appends out.old.items out.new.items (word (codes "for") ▸ blank ▸ sign (codes "("))) }
{
    put_word(out, b"for")?;
    put_blank(out)?;
    put_sign(out, b"(")
}

fn put_for_head(
    alloc: Global,
    out: &mut Vec<u8>,
    init: &[Node],
    test: &Option<Form>,
    step: &Option<Boxed<Node>>,
) -> Result<(), AllocError>
    ensures { OnOk result (Appends out.old.items out.new.items (clause_head (codes "for") (for_parts (map written init.now) test.now (option_map written step.now)))) }
{
    put_for_word(out)?;
    put_for_parts(alloc, out, init, test, step)?;
    put_sign(out, b")")
}

fn put_do_end(alloc: Global, out: &mut Vec<u8>, test: &Form) -> Result<(), AllocError>
    ensures { OnOk result (Appends out.old.items out.new.items (blank ▸ clause_head (codes "while") (form test.now) ▸ semicolon)) }
{
    put_blank(out)?;
    put_clause_head(alloc, out, b"while", test)?;
    put_semicolon(out)
}

// ---- statements

/// The lines of statements.
#[cycle(state)]
fn put_lines(alloc: Global, out: &mut Vec<u8>, depth: u64, body: &[Node]) -> Result<(), AllocError>
    ensures { OnOk result (Appends out.old.items out.new.items (lines depth (map written body.now))) }
{
    for s in body {
        put_line(alloc, out, depth, &s.what)?;
    }
    Ok(())
}

#[cycle(state)]
fn put_line(alloc: Global, out: &mut Vec<u8>, depth: u64, s: &NodeWhat) -> Result<(), AllocError>
    ensures { OnOk result (Appends out.old.items out.new.items (line_of depth (written_what s.now))) }
{
    put_tabs(out, depth)?;
    put_words(alloc, out, depth, s)?;
    put_newline(out)
}

/// A block.
#[cycle(state)]
pub fn put_block(
    alloc: Global,
    out: &mut Vec<u8>,
    depth: u64,
    body: &[Node],
) -> Result<(), AllocError>
    ensures { OnOk result (Appends out.old.items out.new.items (block_words (map written body.now) depth)) }
{
    put_opened(out)?;
    put_inside(alloc, out, depth, body)?;
    put_closed(out, depth)
}

/// The lines of a body.
#[cycle(state)]
fn put_body(alloc: Global, out: &mut Vec<u8>, depth: u64, s: &NodeWhat) -> Result<(), AllocError>
    ensures { OnOk result (Appends out.old.items out.new.items (body_of depth (written_what s.now))) }
{
    match s {
        NodeWhat::Block(body) => put_lines(alloc, out, depth, body.as_slice()),
        _ => put_line(alloc, out, depth, s),
    }
}

#[cycle(state)]
fn put_braced(alloc: Global, out: &mut Vec<u8>, depth: u64, s: &Node) -> Result<(), AllocError>
    ensures { OnOk result (Appends out.old.items out.new.items (braced depth (written s.now).body)) }
{
    let inside = deeper(depth)?;
    put_opened(out)?;
    put_body(alloc, out, inside, &s.what)?;
    put_closed(out, depth)
}

/// A body in braces, behind a blank.
#[cycle(state)]
fn put_body_behind(alloc: Global, out: &mut Vec<u8>, depth: u64, s: &Node) -> Result<(), AllocError>
    ensures { OnOk result (Appends out.old.items out.new.items (blank ▸ braced depth (written s.now).body)) }
{
    put_blank(out)?;
    put_braced(alloc, out, depth, s)
}

#[cycle(state)]
fn put_otherwise(
    alloc: Global,
    out: &mut Vec<u8>,
    depth: u64,
    s: &Option<Boxed<Node>>,
) -> Result<(), AllocError>
    ensures { OnOk result (Appends out.old.items out.new.items (otherwise depth (option_map written s.now))) }
{
    match s {
        None => Ok(()),
        Some(s) => {
            put_blank(out)?;
            put_word(out, b"else")?;
            put_body_behind(alloc, out, depth, s.get())
        }
    }
}

#[cycle(state)]
fn put_clause(alloc: Global, out: &mut Vec<u8>, depth: u64, c: &Clause) -> Result<(), AllocError>
    ensures { OnOk result (Appends out.old.items out.new.items (written_clause c.now depth)) }
{
    put_labelled(alloc, out, depth, c.body.as_slice(), c.labels.as_slice())
}

/// Labels, and one block deeper what follows them.
#[cycle(state)]
fn put_labelled(
    alloc: Global,
    out: &mut Vec<u8>,
    depth: u64,
    body: &[Node],
    labels: &[Label],
) -> Result<(), AllocError>
    ensures { OnOk result (Appends out.old.items out.new.items (clause_lines labels.now (map written body.now) depth)) }
{
    put_labels(alloc, out, depth, labels)?;
    put_inside(alloc, out, depth, body)
}

/// The lines of statements, one block deeper.
#[cycle(state)]
fn put_inside(alloc: Global, out: &mut Vec<u8>, depth: u64, body: &[Node]) -> Result<(), AllocError>
    ensures { OnOk result (Appends out.old.items out.new.items (lines (suc depth) (map written body.now))) }
{
    let inside = deeper(depth)?;
    put_lines(alloc, out, inside, body)
}

#[cycle(state)]
fn put_clauses(
    alloc: Global,
    out: &mut Vec<u8>,
    depth: u64,
    clauses: &[Clause],
) -> Result<(), AllocError>
    ensures { OnOk result (Appends out.old.items out.new.items (row (map (at depth) (map written_clause clauses.now)))) }
{
    for c in clauses {
        put_clause(alloc, out, depth, c)?;
    }
    Ok(())
}

#[cycle(state)]
fn put_clauses_behind(
    alloc: Global,
    out: &mut Vec<u8>,
    depth: u64,
    clauses: &[Clause],
) -> Result<(), AllocError>
    ensures { OnOk result (Appends out.old.items out.new.items (blank ▸ clauses_words (map written_clause clauses.now) depth)) }
{
    let inside = deeper(depth)?;
    put_clauses_opened(out)?;
    put_clauses(alloc, out, inside, clauses)?;
    put_closed(out, depth)
}

fn put_clauses_opened(out: &mut Vec<u8>) -> Result<(), AllocError>
    ensures { OnOk result (Appends out.old.items out.new.items (blank ▸ opened)) }
{
    put_blank(out)?;
    put_opened(out)
}

/// A statement without the tabs before it and the end of its line.
#[cycle(state)]
fn put_words(alloc: Global, out: &mut Vec<u8>, depth: u64, s: &NodeWhat) -> Result<(), AllocError>
    ensures { OnOk result (Appends out.old.items out.new.items (words_of depth (written_what s.now))) }
{
    match s {
        NodeWhat::Empty => put_semicolon(out),
        NodeWhat::Block(body) => put_block(alloc, out, depth, body.as_slice()),
        NodeWhat::Local(_, _) | NodeWhat::Assign(_, _, _, _) | NodeWhat::Plain(_) => {
            put_first(alloc, out, s)?;
            put_semicolon(out)
        }
        NodeWhat::If(test, a, b) => {
            put_clause_head(alloc, out, b"if", test)?;
            put_body_behind(alloc, out, depth, a.get())?;
            put_otherwise(alloc, out, depth, b)
        }
        NodeWhat::While(test, a) => {
            put_clause_head(alloc, out, b"while", test)?;
            put_body_behind(alloc, out, depth, a.get())
        }
        NodeWhat::For(init, test, step, a) => {
            put_for_head(alloc, out, init.as_slice(), test, step)?;
            put_body_behind(alloc, out, depth, a.get())
        }
        NodeWhat::Do(a, test) => {
            put_word(out, b"do")?;
            put_body_behind(alloc, out, depth, a.get())?;
            put_do_end(alloc, out, test)
        }
        NodeWhat::Switch(value, clauses) => {
            put_clause_head(alloc, out, b"switch", value)?;
            put_clauses_behind(alloc, out, depth, clauses.as_slice())
        }
        NodeWhat::Return(value) => {
            put_word(out, b"return")?;
            put_returned(alloc, out, value)?;
            put_semicolon(out)
        }
        NodeWhat::Break => {
            put_word(out, b"break")?;
            put_semicolon(out)
        }
        NodeWhat::Continue => {
            put_word(out, b"continue")?;
            put_semicolon(out)
        }
    }
}
