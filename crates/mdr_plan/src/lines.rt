// Reading a line.

ghost use Rattle.std.specs.Prelude.{◌≡◌, ◌≤◌, ◌-◌, ◌+◌, ◌==◌, ◌&&◌, nat_lt, nat_le, decimal, take, drop, length, slice_get};
ghost use Rattle.std.specs.List.{list_all};
ghost use Rattle.std.specs.Option.{option_map};
ghost use Rattle.mdr_plan.specs.Front.{strip};
ghost use Rattle.mdr_plan.specs.Gives.{Gives, Finds};
ghost use Rattle.mdr_plan.specs.Lines.{begins, takes_types, takes_functions, takes_downs, takes_ups, takes_keys, ends, first_text, is_kernel, is_user_half, is_next_user, is_after, is_there, Reads};
ghost use Rattle.mdr_plan.specs.LineReading.{behind_number, or_else, place_of, heading_at, end_at, first_at, struct_at, pointer_at};
ghost use Rattle.mdr_plan.specs.LineReading.{type_line_at, function_line_at, down_line_at, up_line_at, key_line_at, stub_at, line_at};
ghost use Rattle.mdr_plan.specs.Naming.{is_new, struct_number};
ghost use Rattle.mdr_core.specs.TypeText.{is_before};

use crate::front::{strip, word_at};
use crate::keys::{is_after, is_there, key_of};
use crate::line::{Line, Stage};
use crate::names::is_new;
use crate::number::number_of;
use crate::reader::Reader;
use crate::types::pointer_type;
use crate::unread::Unread;
use mdr_core::{Half, Items, Key, Name};
use std::alloc::Global;

pub fn begins(stage: Stage) -> bool
    ensures { result ≡ begins stage }
{
    match stage {
        Stage::Start => true,
        Stage::Types | Stage::Functions | Stage::Downs | Stage::Ups | Stage::Done => false,
    }
}

pub fn takes_types(stage: Stage) -> bool
    ensures { result ≡ takes_types stage }
{
    match stage {
        Stage::Types => true,
        Stage::Start | Stage::Functions | Stage::Downs | Stage::Ups | Stage::Done => false,
    }
}

pub fn takes_functions(stage: Stage) -> bool
    ensures { result ≡ takes_functions stage }
{
    match stage {
        Stage::Types | Stage::Functions => true,
        Stage::Start | Stage::Downs | Stage::Ups | Stage::Done => false,
    }
}

pub fn takes_downs(stage: Stage) -> bool
    ensures { result ≡ takes_downs stage }
{
    match stage {
        Stage::Functions | Stage::Downs => true,
        Stage::Start | Stage::Types | Stage::Ups | Stage::Done => false,
    }
}

pub fn takes_ups(stage: Stage) -> bool
    ensures { result ≡ takes_ups stage }
{
    match stage {
        Stage::Functions | Stage::Downs | Stage::Ups => true,
        Stage::Start | Stage::Types | Stage::Done => false,
    }
}

pub fn takes_keys(stage: Stage) -> bool
    ensures { result ≡ takes_keys stage }
{
    match stage {
        Stage::Ups => true,
        Stage::Start | Stage::Types | Stage::Functions | Stage::Downs | Stage::Done => false,
    }
}

fn ends(stage: Stage) -> bool
    ensures { result ≡ ends stage }
{
    match stage {
        Stage::Types | Stage::Functions | Stage::Downs | Stage::Ups => true,
        Stage::Start | Stage::Done => false,
    }
}

fn is_before(a: &[u8], b: &[u8]) -> bool
    ensures { result ≡ is_before a.now b.now }
{
    let [y, ys @ ..] = b else {
        return false;
    };
    let [x, xs @ ..] = a else {
        return true;
    };
    *x < *y || (*x == *y && is_before(xs, ys))
}

/// What stands behind a number.
fn expect_number(alloc: Global, bytes: &[u8], k: usize) -> Result<&[u8], Unread>
    ensures { Gives (λ r. r.now) result (strip (decimal k) bytes.now) }
{
    let digits = k.to_string(alloc)?;
    match strip(bytes, digits.as_bytes()) {
        Some(rest) => Ok(rest),
        None => Err(Unread::Refused),
    }
}

#[tactic(auto, unfolding(crate::specs::LineReading::behind_number))]
fn behind_number<'a>(
    alloc: Global,
    bytes: &'a [u8],
    word: &[u8],
    k: usize,
) -> Result<&'a [u8], Unread>
    ensures { Gives (λ r. r.now) result (behind_number word.now k bytes.now) }
{
    let Some(rest) = strip(bytes, word) else {
        return Err(Unread::Refused);
    };
    expect_number(alloc, rest, k)
}

/// The text of a type that each table begins with.
#[tactic(auto, unfolding(crate::specs::Lines::first_text))]
fn first_text(k: usize) -> &'static str
    ensures { result.now ≡ first_text k }
{
    if k == 0 {
        "u8"
    } else if k == 1 {
        "u16"
    } else if k == 2 {
        "u32"
    } else if k == 3 {
        "u64"
    } else if k == 4 {
        "s8"
    } else if k == 5 {
        "s16"
    } else if k == 6 {
        "s32"
    } else if k == 7 {
        "s64"
    } else {
        "combolock_t"
    }
}

#[tactic(auto, unfolding(crate::specs::LineReading::heading_at))]
fn heading_at(reader: &Reader, bytes: &[u8]) -> Option<Line>
    ensures { result ≡ heading_at reader.now bytes.now }
{
    if bytes == b"plan 1".as_slice() && begins(reader.stage) {
        Some(Line::Heading)
    } else {
        None
    }
}

#[tactic(auto, unfolding(crate::specs::LineReading::first_at))]
fn first_at(reader: &Reader, text: &[u8]) -> Option<Line>
    ensures { result ≡ first_at reader.now text.now }
{
    let k = reader.plan.types.len();
    if takes_types(reader.stage) && k < 9 && text == first_text(k).as_bytes() {
        Some(Line::First)
    } else {
        None
    }
}

/// Whether a struct may be the next type.
fn takes_struct(reader: &Reader, name: &[u8]) -> bool
    ensures { result ≡ (takes_types reader.now.stage && (length reader.now.plan.types == 9 + length reader.now.structs) && nat_lt (length reader.now.structs) 4294967296 && is_new reader.now.structs name.now) }
{
    let structs = reader.structs.len();
    takes_types(reader.stage)
        && reader.plan.types.len() >= 9
        && reader.plan.types.len() - 9 == structs
        && structs < 1 << 32
        && is_new(reader.structs.as_slice(), name)
}

#[tactic(auto, unfolding(crate::specs::LineReading::struct_at))]
fn struct_at(alloc: Global, reader: &Reader, text: &[u8]) -> Result<Line, Unread>
    ensures { Gives (λ l. l) result (struct_at reader.now text.now) }
{
    let Some(name) = strip(text, b"struct ") else {
        return Err(Unread::Refused);
    };
    if !takes_struct(reader, name) {
        return Err(Unread::Refused);
    }
    Ok(Line::Struct(Items::from_slice(alloc, name)?))
}

/// Whether a pointer type of this text may be the next type.
fn takes_pointer(reader: &Reader, text: &[u8]) -> bool
    ensures { result ≡ (takes_types reader.now.stage && nat_lt 8 (length reader.now.plan.types) && is_before reader.now.last text.now) }
{
    takes_types(reader.stage)
        && reader.plan.types.len() > 8
        && is_before(reader.last.as_slice(), text)
}

#[tactic(auto, unfolding(crate::specs::LineReading::pointer_at))]
fn pointer_at(alloc: Global, reader: &Reader, text: &[u8]) -> Result<Line, Unread>
    ensures { Gives (λ l. l) result (pointer_at reader.now text.now) }
{
    let ty = pointer_type(alloc, reader.structs.as_slice(), text)?;
    if takes_pointer(reader, text) {
        Ok(Line::Type(ty, Items::from_slice(alloc, text)?))
    } else {
        Err(Unread::Refused)
    }
}

/// The next type.
fn type_piece_at(alloc: Global, reader: &Reader, text: &[u8]) -> Result<Line, Unread>
    ensures { Gives (λ l. l) result (or_else (first_at reader.now text.now) (or_else (struct_at reader.now text.now) (pointer_at reader.now text.now))) }
{
    if let Some(line) = first_at(reader, text) {
        return Ok(line);
    }
    match struct_at(alloc, reader, text) {
        Ok(line) => Ok(line),
        Err(Unread::Refused) => pointer_at(alloc, reader, text),
        Err(Unread::OutOfMemory) => Err(Unread::OutOfMemory),
    }
}

#[tactic(auto, unfolding(crate::specs::LineReading::type_line_at))]
fn type_line_at(alloc: Global, reader: &Reader, bytes: &[u8]) -> Result<Line, Unread>
    ensures { Gives (λ l. l) result (type_line_at reader.now bytes.now) }
{
    let rest = behind_number(alloc, bytes, b"type ", reader.plan.types.len())?;
    let Some(text) = strip(rest, b" ") else {
        return Err(Unread::Refused);
    };
    type_piece_at(alloc, reader, text)
}

#[tactic(auto, unfolding(crate::specs::LineReading::place_of))]
pub fn place_of(bytes: &[u8]) -> Option<(Half, bool)>
    ensures { result ≡ place_of bytes.now }
{
    if bytes == b" kernel".as_slice() {
        Some((Half::Kernel, false))
    } else if bytes == b" kernel root".as_slice() {
        Some((Half::Kernel, true))
    } else if bytes == b" user".as_slice() {
        Some((Half::User, false))
    } else if bytes == b" user root".as_slice() {
        Some((Half::User, true))
    } else {
        None
    }
}

/// Whether a function of this name may come next.
fn takes_function(reader: &Reader, name: &[u8]) -> bool
    ensures { result ≡ (takes_functions reader.now.stage && nat_lt 8 (length reader.now.plan.types) && is_new reader.now.plan.names name.now) }
{
    takes_functions(reader.stage)
        && reader.plan.types.len() > 8
        && is_new(reader.plan.names.as_slice(), name)
}

#[tactic(auto, unfolding(crate::specs::LineReading::function_line_at))]
fn function_line_at(alloc: Global, reader: &Reader, bytes: &[u8]) -> Result<Line, Unread>
    ensures { Gives (λ l. l) result (function_line_at reader.now bytes.now) }
{
    let rest = behind_number(alloc, bytes, b"function ", reader.plan.names.len())?;
    let Some(text) = strip(rest, b" ") else {
        return Err(Unread::Refused);
    };
    let (name, rest) = word_at(text);
    let Some((half, is_root)) = place_of(rest) else {
        return Err(Unread::Refused);
    };
    if !takes_function(reader, name) {
        return Err(Unread::Refused);
    }
    Ok(Line::Function(Items::from_slice(alloc, name)?, half, is_root))
}

/// Whether a stub for calls of this function by the user half may come next.
fn takes_down(reader: &Reader, k: usize) -> bool
    ensures { result ≡ (takes_downs reader.now.stage && nat_le reader.now.low k && nat_lt k (length reader.now.plan.down)) }
{
    takes_downs(reader.stage) && reader.low <= k && k < reader.plan.down.len()
}

#[tactic(auto, unfolding(crate::specs::LineReading::down_line_at))]
fn down_line_at(reader: &Reader, bytes: &[u8]) -> Option<Line>
    ensures { result ≡ down_line_at reader.now bytes.now }
{
    let rest = strip(bytes, b"down ")?;
    let k = number_of(rest)? as usize;
    if takes_down(reader, k) {
        Some(Line::Down(k))
    } else {
        None
    }
}

fn is_kernel(half: Half) -> bool
    ensures { result ≡ is_kernel half }
{
    match half {
        Half::Kernel => true,
        Half::User => false,
    }
}

fn is_user_at(halves: &[Half], k: usize) -> bool
    ensures { result ≡ is_user_half (slice_get halves.now k) }
{
    match halves.get(k) {
        Some(half) => !is_kernel(*half),
        None => false,
    }
}

/// Whether each function from one on and before another is in the kernel half.
fn are_kernel_between(halves: &[Half], from: usize, to: usize) -> bool
    requires { from ≤ to }
    ensures { result ≡ list_all is_kernel (take (to - from) (drop from halves.now)) }
{
    halves
        .iter()
        .skip(from)
        .take(to - from)
        .all(|half| is_kernel(*half))
}

/// Whether each function from one on is.
pub fn are_kernel_from(halves: &[Half], from: usize) -> bool
    ensures { result ≡ list_all is_kernel (drop from halves.now) }
{
    halves.iter().skip(from).all(|half| is_kernel(*half))
}

#[tactic(auto, unfolding(crate::specs::Lines::is_next_user))]
fn is_next_user(reader: &Reader, k: usize) -> bool
    ensures { result ≡ is_next_user reader.now k }
{
    let halves = reader.plan.halves.as_slice();
    reader.ups <= k && is_user_at(halves, k) && are_kernel_between(halves, reader.ups, k)
}

#[tactic(auto, unfolding(crate::specs::LineReading::up_line_at))]
fn up_line_at(reader: &Reader, bytes: &[u8]) -> Option<Line>
    ensures { result ≡ up_line_at reader.now bytes.now }
{
    let rest = strip(bytes, b"up ")?;
    let k = number_of(rest)? as usize;
    if takes_ups(reader.stage) && is_next_user(reader, k) {
        Some(Line::Up(k))
    } else {
        None
    }
}

/// Whether the key may come next.
fn takes_key(reader: &Reader, key: Key) -> bool
    ensures { result ≡ (takes_keys reader.now.stage && is_there (length reader.now.structs) (length reader.now.plan.types) key && is_after reader.now.last_key key) }
{
    takes_keys(reader.stage)
        && is_there(reader.structs.len(), reader.plan.types.len(), key)
        && is_after(reader.last_key, key)
}

#[tactic(auto, unfolding(crate::specs::LineReading::key_line_at))]
fn key_line_at(alloc: Global, reader: &Reader, bytes: &[u8]) -> Result<Line, Unread>
    ensures { Gives (λ l. l) result (key_line_at reader.now bytes.now) }
{
    let rest = behind_number(alloc, bytes, b"key ", reader.ups.saturating_sub(1))?;
    match key_of(rest) {
        Some(key) => {
            if takes_key(reader, key) {
                Ok(Line::Key(key))
            } else {
                Err(Unread::Refused)
            }
        }
        None => Err(Unread::Refused),
    }
}

pub fn may_end(reader: &Reader) -> bool
    ensures { result ≡ (ends reader.now.stage && nat_lt 8 (length reader.now.plan.types) && list_all is_kernel (drop reader.now.ups reader.now.plan.halves)) }
{
    ends(reader.stage)
        && reader.plan.types.len() > 8
        && are_kernel_from(reader.plan.halves.as_slice(), reader.ups)
}

#[tactic(auto, unfolding(crate::specs::LineReading::end_at))]
fn end_at(reader: &Reader, bytes: &[u8]) -> Option<Line>
    ensures { result ≡ end_at reader.now bytes.now }
{
    if bytes == b"end".as_slice() && may_end(reader) {
        Some(Line::End)
    } else {
        None
    }
}

/// A line of stubs or keys, or the last one.
#[tactic(auto, unfolding(crate::specs::LineReading::stub_at))]
fn stub_at(alloc: Global, reader: &Reader, bytes: &[u8]) -> Result<Line, Unread>
    ensures { Gives (λ l. l) result (stub_at reader.now bytes.now) }
{
    if let Some(line) = down_line_at(reader, bytes) {
        return Ok(line);
    }
    if let Some(line) = up_line_at(reader, bytes) {
        return Ok(line);
    }
    match key_line_at(alloc, reader, bytes) {
        Ok(line) => Ok(line),
        Err(Unread::Refused) => end_at(reader, bytes).ok_or(Unread::Refused),
        Err(Unread::OutOfMemory) => Err(Unread::OutOfMemory),
    }
}

/// A function's line, or one behind those.
fn function_or_stub_at(alloc: Global, reader: &Reader, bytes: &[u8]) -> Result<Line, Unread>
    ensures { Gives (λ l. l) result (or_else (function_line_at reader.now bytes.now) (stub_at reader.now bytes.now)) }
{
    match function_line_at(alloc, reader, bytes) {
        Ok(line) => Ok(line),
        Err(Unread::Refused) => stub_at(alloc, reader, bytes),
        Err(Unread::OutOfMemory) => Err(Unread::OutOfMemory),
    }
}

#[tactic(auto, unfolding(crate::specs::LineReading::line_at))]
fn line_at(alloc: Global, reader: &Reader, bytes: &[u8]) -> Result<Line, Unread>
    ensures { Gives (λ l. l) result (line_at reader.now bytes.now) }
{
    if let Some(line) = heading_at(reader, bytes) {
        return Ok(line);
    }
    match type_line_at(alloc, reader, bytes) {
        Ok(line) => Ok(line),
        Err(Unread::Refused) => function_or_stub_at(alloc, reader, bytes),
        Err(Unread::OutOfMemory) => Err(Unread::OutOfMemory),
    }
}

/// The line that the bytes are, where so much was read before. It is refused exactly where no line that may come
/// next has this text. The newline isn't among the bytes.
pub fn line_of(alloc: Global, reader: &Reader, bytes: &[u8]) -> Result<Line, Unread>
    ensures { Finds (Reads reader.now bytes.now) result }
{
    line_at(alloc, reader, bytes)
}
