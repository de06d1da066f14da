// A function's code as a text: its slots and objects with their types, and its statements with their numbers. A `*`
// is what a pointer names, a point a field, and every conversion is written out.

use mdr_core::{CallForm, Callee, Expr, Func, Items, Kind, Lval, Step, Stmt, Ty};
use std::alloc::Global;
use std::fmt::Debug;

/// A text that is written piece by piece.
#[derive(Drop)]
pub struct Text {
    alloc: Global,
    text: String,
    is_cut: bool,
}

impl Text {
    pub fn new(alloc: Global) -> Self {
        Text {
            alloc,
            text: String::new(alloc),
            is_cut: false,
        }
    }

    /// The text, where no memory was wanting.
    pub fn whole(&self) -> Option<&str> {
        if self.is_cut {
            None
        } else {
            Some(self.text.as_str())
        }
    }
}

fn put(out: &mut Text, text: &str) {
    if out.text.push_str(text).is_err() {
        out.is_cut = true;
    }
}

fn put_shown<T: Debug>(out: &mut Text, x: &T) {
    match format!(in out.alloc; "{x:?}") {
        Ok(text) => put(out, text.as_str()),
        Err(_) => out.is_cut = true,
    }
}

fn put_number(out: &mut Text, word: &str, n: u32) {
    put(out, word);
    put_shown(out, &n);
}

/// A form's name and its kind, in front of what it is done to.
fn put_kind(out: &mut Text, word: &str, kind: Kind) {
    put(out, word);
    put_shown(out, &kind);
    put(out, "(")
}

fn put_type(out: &mut Text, ty: &Ty) {
    match ty {
        Ty::Int(kind) => put_shown(out, kind),
        Ty::Lock => put(out, "lock"),
        Ty::Struct(n) => put_number(out, "struct ", *n),
        Ty::Ptr(target) => {
            put(out, "*");
            put_type(out, target.get())
        }
        Ty::VoidPtr => put(out, "*void"),
        Ty::Fun(_) => put(out, "function"),
        Ty::Void => put(out, "void"),
    }
}

// ---- expressions

#[cycle(expression)]
fn put_place(out: &mut Text, place: &Lval) {
    match place {
        Lval::Slot(n) => put_number(out, "slot ", *n),
        Lval::Object(n) => put_number(out, "object ", *n),
        Lval::Global(n) => put_number(out, "global ", *n),
        Lval::Deref(e) => {
            put(out, "*");
            put_expr(out, e.get())
        }
        Lval::Member(inner, n) => {
            put_place(out, inner.get());
            put_number(out, ".", *n)
        }
        Lval::Index(inner, e) => {
            put_place(out, inner.get());
            put(out, "[");
            put_expr(out, e.get());
            put(out, "]")
        }
    }
}

#[cycle(expression)]
fn put_expr(out: &mut Text, e: &Expr) {
    match e {
        Expr::Lit(value) => return put_shown(out, value),
        Expr::Load(place) => {
            put(out, "load(");
            put_place(out, place);
        }
        Expr::Addr(place) => {
            put(out, "address(");
            put_place(out, place);
        }
        Expr::Decay(place) => {
            put(out, "decay(");
            put_place(out, place);
        }
        Expr::Neg(kind, a) => {
            put_kind(out, "neg ", *kind);
            put_expr(out, a.get());
        }
        Expr::Flip(kind, a) => {
            put_kind(out, "flip ", *kind);
            put_expr(out, a.get());
        }
        Expr::Not(a) => {
            put(out, "not(");
            put_expr(out, a.get());
        }
        Expr::Bin(op, kind, a, b) => {
            put_shown(out, op);
            put_kind(out, " ", *kind);
            put_expr(out, a.get());
            put(out, ", ");
            put_expr(out, b.get());
        }
        Expr::Rel(op, a, b) => {
            put_shown(out, op);
            put(out, "(");
            put_expr(out, a.get());
            put(out, ", ");
            put_expr(out, b.get());
        }
        Expr::And(a, b) => {
            put(out, "and(");
            put_expr(out, a.get());
            put(out, ", ");
            put_expr(out, b.get());
        }
        Expr::Or(a, b) => {
            put(out, "or(");
            put_expr(out, a.get());
            put(out, ", ");
            put_expr(out, b.get());
        }
        Expr::Conv(kind, a) => {
            put_kind(out, "conv ", *kind);
            put_expr(out, a.get());
        }
        Expr::ToVoid(a) => {
            put(out, "to_void(");
            put_expr(out, a.get());
        }
        Expr::FromVoid(ty, a) => {
            put(out, "from_void ");
            put_type(out, ty);
            put(out, "(");
            put_expr(out, a.get());
        }
        Expr::Move(is_back, a, b) => {
            put(out, if *is_back { "back(" } else { "move(" });
            put_expr(out, a.get());
            put(out, ", ");
            put_expr(out, b.get());
        }
        Expr::Diff(a, b) => {
            put(out, "diff(");
            put_expr(out, a.get());
            put(out, ", ");
            put_expr(out, b.get());
        }
    }
    put(out, ")")
}

fn put_option(out: &mut Text, e: &Option<Expr>) {
    match e {
        Some(e) => put_expr(out, e),
        None => put(out, "nothing"),
    }
}

// ---- calls

fn put_callee(out: &mut Text, callee: &Callee) {
    match callee {
        Callee::Direct(n) => put_number(out, "function ", *n),
        Callee::Through(e) => {
            put(out, "through ");
            put_expr(out, e)
        }
        Callee::Service(n) => put_number(out, "service ", *n),
    }
}

/// The type that an allocation names.
fn put_shape(out: &mut Text, shape: &Option<Ty>) {
    match shape {
        Some(ty) => {
            put(out, " of ");
            put_type(out, ty)
        }
        None => {}
    }
}

/// How long a `printk`'s text is.
fn put_format(out: &mut Text, format: &Option<Items<u8>>) {
    match format {
        Some(text) => {
            put(out, " with a text of ");
            put_shown(out, &text.len())
        }
        None => {}
    }
}

fn put_call(out: &mut Text, form: &CallForm) {
    put_callee(out, &form.callee);
    put_shape(out, &form.shape);
    put_format(out, &form.format);
    for e in form.args.as_slice() {
        put(out, ", ");
        put_expr(out, e);
    }
}

fn put_target(out: &mut Text, to: &Option<Lval>) {
    match to {
        Some(place) => {
            put_place(out, place);
            put(out, " = ")
        }
        None => {}
    }
}

// ---- statements

fn put_assigned(out: &mut Text, place: &Lval, e: &Expr) {
    put_place(out, place);
    put(out, " = ");
    put_expr(out, e)
}

fn put_test(out: &mut Text, word: &str, e: &Expr) {
    put(out, word);
    put_expr(out, e);
    put(out, " {")
}

fn put_head(out: &mut Text, test: &Option<Expr>) {
    put(out, "\n} while ");
    put_option(out, test);
    put(out, " step {")
}

#[cycle(statement)]
fn put_statement(out: &mut Text, s: &Stmt) {
    put_number(out, "\n", s.number);
    put(out, " ");
    match &s.step {
        Step::Declare(n) => put_number(out, "declare ", *n),
        Step::Text(n, _) => put_number(out, "text ", *n),
        Step::Assign(place, e) => put_assigned(out, place, e),
        Step::Call(to, form) => {
            put_target(out, to);
            put_call(out, form)
        }
        Step::If(e, a, b) => {
            put_test(out, "if ", e);
            put_statements(out, a.as_slice());
            put(out, "\n} else {");
            put_statements(out, b.as_slice());
            put(out, "\n}")
        }
        Step::While(e, body) => {
            put_test(out, "while ", e);
            put_statements(out, body.as_slice());
            put(out, "\n}")
        }
        Step::For(init, test, step, body) => {
            put(out, "for {");
            put_statements(out, init.as_slice());
            put_head(out, test);
            put_statements(out, step.as_slice());
            put(out, "\n} do {");
            put_statements(out, body.as_slice());
            put(out, "\n}")
        }
        Step::Return(e) => {
            put(out, "return ");
            put_option(out, e)
        }
        Step::ReturnCall(form) => {
            put(out, "return ");
            put_call(out, form)
        }
        Step::Break => put(out, "break"),
        Step::Continue => put(out, "continue"),
        Step::Empty => put(out, "nothing"),
        Step::Block(body) => {
            put(out, "{");
            put_statements(out, body.as_slice());
            put(out, "\n}")
        }
    }
}

#[cycle(statement)]
fn put_statements(out: &mut Text, body: &[Stmt]) {
    for s in body {
        put_statement(out, s);
    }
}

// ---- functions

fn put_entry(out: &mut Text, is_object: bool, ty: &Ty, count: u32) {
    put(out, if is_object { "object " } else { "slot " });
    put_type(out, ty);
    put_number(out, " x ", count);
    put(out, "\n")
}

/// A function's slots and objects in their order, its result and its statements.
pub fn put_function(out: &mut Text, func: &Func) {
    for p in func.params.as_slice() {
        put_entry(out, p.object, &p.ty, 1);
    }
    for l in func.locals.as_slice() {
        put_entry(out, l.object, &l.ty, l.count);
    }
    put_type(out, &func.result);
    match &func.body {
        Some(body) => put_statements(out, body.as_slice()),
        None => {}
    }
}
