// The forms of lines.

ghost use Rattle.std.specs.Prelude.{◌≡◌, codes};
ghost use Rattle.std.specs.Option.{option_map};
ghost use Rattle.mdr_plan.specs.Gives.{Gives};
ghost use Rattle.mdr_plan.specs.LineReading.{or_else};
ghost use Rattle.mdr_plan.specs.ShapeReading.{past_number, number_shape, type_shape, function_shape, field_shape, key_shape, word_shape, stub_shape, plain_shape, shape_at};
ghost use Rattle.mdr_plan.specs.declared.shape.Shape.TheVariants as shape_is;

use crate::front::{strip, word_at};
use crate::lines::place_of;
use crate::names::is_name;
use crate::number::is_number;
use crate::types::type_of_any;
use crate::unread::Unread;
use std::alloc::Global;

/// What a line is, whatever its numbers, names and types are.
#[derive(Clone, Copy)]
pub enum Shape {
    Heading,
    Type,
    Function,
    Down,
    Up,
    GlobalKey,
    FieldKey,
    ElemKey,
    End,
}

/// What stands behind a word and a number.
#[tactic(auto, unfolding(crate::specs::ShapeReading::past_number))]
fn past_number<'a>(bytes: &'a [u8], word: &[u8]) -> Option<&'a [u8]>
    ensures { option_map (λ r. r.now) result ≡ past_number word.now bytes.now }
{
    let rest = strip(bytes, word)?;
    let (digits, rest) = word_at(rest);
    if is_number(digits) { Some(rest) } else { None }
}

/// The form, where the bytes are a word and a number.
#[tactic(auto, unfolding(crate::specs::ShapeReading::number_shape))]
fn number_shape(bytes: &[u8], word: &[u8], shape: Shape) -> Option<Shape>
    ensures { result ≡ number_shape word.now shape bytes.now }
{
    let rest = past_number(bytes, word)?;
    if rest.is_empty() { Some(shape) } else { None }
}

#[tactic(auto, unfolding(crate::specs::ShapeReading::type_shape))]
fn type_shape(alloc: Global, bytes: &[u8]) -> Result<Shape, Unread>
    ensures { Gives (λ s. s) result (type_shape bytes.now) }
{
    let Some(rest) = past_number(bytes, b"type ") else {
        return Err(Unread::Refused);
    };
    let Some(text) = strip(rest, b" ") else {
        return Err(Unread::Refused);
    };
    type_of_any(alloc, text)?;
    Ok(Shape::Type)
}

#[tactic(auto, unfolding(crate::specs::ShapeReading::function_shape))]
fn function_shape(bytes: &[u8]) -> Option<Shape>
    ensures { result ≡ function_shape bytes.now }
{
    let rest = past_number(bytes, b"function ")?;
    let text = strip(rest, b" ")?;
    let (name, rest) = word_at(text);
    place_of(rest)?;
    if is_name(name) {
        Some(Shape::Function)
    } else {
        None
    }
}

#[tactic(auto, unfolding(crate::specs::ShapeReading::field_shape))]
fn field_shape(bytes: &[u8]) -> Option<Shape>
    ensures { result ≡ field_shape bytes.now }
{
    let rest = past_number(bytes, b" field ")?;
    number_shape(rest, b" ", Shape::FieldKey)
}

fn key_piece(bytes: &[u8]) -> Option<Shape>
    ensures { result ≡ or_else (number_shape (codes " global ") shape_is.GlobalKey bytes.now) (or_else (field_shape bytes.now) (number_shape (codes " elem ") shape_is.ElemKey bytes.now)) }
{
    if let Some(shape) = number_shape(bytes, b" global ", Shape::GlobalKey) {
        return Some(shape);
    }
    match field_shape(bytes) {
        Some(shape) => Some(shape),
        None => number_shape(bytes, b" elem ", Shape::ElemKey),
    }
}

#[tactic(auto, unfolding(crate::specs::ShapeReading::key_shape))]
fn key_shape(bytes: &[u8]) -> Option<Shape>
    ensures { result ≡ key_shape bytes.now }
{
    let rest = past_number(bytes, b"key ")?;
    key_piece(rest)
}

#[tactic(auto, unfolding(crate::specs::ShapeReading::word_shape))]
fn word_shape(bytes: &[u8]) -> Option<Shape>
    ensures { result ≡ word_shape bytes.now }
{
    if bytes == b"plan 1".as_slice() {
        Some(Shape::Heading)
    } else if bytes == b"end".as_slice() {
        Some(Shape::End)
    } else {
        None
    }
}

#[tactic(auto, unfolding(crate::specs::ShapeReading::stub_shape))]
fn stub_shape(bytes: &[u8]) -> Option<Shape>
    ensures { result ≡ stub_shape bytes.now }
{
    if let Some(shape) = number_shape(bytes, b"down ", Shape::Down) {
        return Some(shape);
    }
    match number_shape(bytes, b"up ", Shape::Up) {
        Some(shape) => Some(shape),
        None => key_shape(bytes),
    }
}

#[tactic(auto, unfolding(crate::specs::ShapeReading::plain_shape))]
fn plain_shape(bytes: &[u8]) -> Option<Shape>
    ensures { result ≡ plain_shape bytes.now }
{
    if let Some(shape) = word_shape(bytes) {
        return Some(shape);
    }
    match function_shape(bytes) {
        Some(shape) => Some(shape),
        None => stub_shape(bytes),
    }
}

/// The form of a line without its newline, where it is of one.
#[tactic(auto, unfolding(crate::specs::ShapeReading::shape_at))]
pub fn shape_at(alloc: Global, bytes: &[u8]) -> Result<Shape, Unread>
    ensures { Gives (λ s. s) result (shape_at bytes.now) }
{
    match plain_shape(bytes) {
        Some(shape) => Ok(shape),
        None => type_shape(alloc, bytes),
    }
}
