// Reading items.

ghost use Rattle.std.specs.Prelude.{◌≡◌, ◌≤◌, ◌+◌, ◌<◌, ◌^◌, ◌==◌, not, position, length, drop, List, ℕ, ℤ, ◌++◌, IsTrue, IfOk, IsOkAnd, IfSome};
ghost use Rattle.std.specs.Int.{byte_len, from_be_bytes};
ghost use Rattle.mdr_core.specs.Kinds.{is_in_range};
ghost use Rattle.mdr_model.specs.Xdr.{item_width, padding_of, number_of, bytes_at, four_at, item, item_at, opaque, opaque_at};
ghost use Rattle.mdr_xdr.specs.Reads.{input_at, Gives};

use crate::cursor::{Cursor, XdrError};
use mdr_core::Kind;

/// The bytes from an offset on.
fn rest_of(bytes: &[u8], at: u64) -> &[u8]
    ensures { result.now ≡ (input_at bytes.now at).bytes }
{
    match bytes.get(at as usize..) {
        Some(rest) => rest,
        None => &[],
    }
}

/// So many bytes as one item.
#[tactic(auto, unfolding(mdr_model::specs::Xdr::bytes_at))]
fn item_of<'a>(bytes: &'a [u8], len: usize, c: &mut Cursor) -> Result<&'a [u8], XdrError>
    ensures read { Gives (λ x. x.now) bytes.now c.old.at c.new.at result (bytes_at len) }
    ensures len { IfOk result (λ x. length x.now ≡ len) }
    ensures at { IfOk result (λ x. c.new.at ≡ c.old.at + len) }
    ensures fits { c.new.at < 2 ^ 64 }
{
    let rest = rest_of(bytes, c.at);
    if rest.len() < len {
        return Err(XdrError::Short(c.at));
    }
    c.at += len as u64;
    Ok(&rest[..len])
}

/// How many bytes a number of a kind takes.
fn item_len(kind: Kind) -> usize
    ensures { result ≡ byte_len (item_width kind) }
{
    match kind {
        Kind::U8 | Kind::U16 | Kind::U32 | Kind::S8 | Kind::S16 | Kind::S32 => 4,
        Kind::U64 | Kind::S64 => 8,
    }
}

fn four_of(item: &[u8]) -> [u8; 4]
    requires { length item.now ≡ 4 }
    ensures { result ≡ item.now }
{
    [item[0], item[1], item[2], item[3]]
}

fn eight_of(item: &[u8]) -> [u8; 8]
    requires { length item.now ≡ 8 }
    ensures { result ≡ item.now }
{
    [
        item[0], item[1], item[2], item[3], item[4], item[5], item[6], item[7],
    ]
}

/// The number that the bytes of an item are at a kind.
fn number_of(kind: Kind, item: &[u8]) -> i128
    requires { length item.now ≡ byte_len (item_width kind) }
    ensures { result ≡ number_of kind (from_be_bytes (item_width kind) item.now) }
{
    match kind {
        Kind::U8 | Kind::U16 | Kind::U32 => u32::from_be_bytes(four_of(item)) as i128,
        Kind::S8 | Kind::S16 | Kind::S32 => i32::from_be_bytes(four_of(item)) as i128,
        Kind::U64 => u64::from_be_bytes(eight_of(item)) as i128,
        Kind::S64 => i64::from_be_bytes(eight_of(item)) as i128,
    }
}

/// As `get`, by what reading gives.
#[tactic(auto, unfolding(mdr_model::specs::Xdr::item_at))]
fn integer_of(kind: Kind, bytes: &[u8], c: &mut Cursor) -> Result<i128, XdrError>
    // The result is what the item at the cursor is.
    ensures read { Gives (λ n. n) bytes.now c.old.at c.new.at result (item_at kind) }
    // What is read lies in the kind's range.
    ensures in_range { IfOk result (λ n. IsTrue (is_in_range kind n)) }
{
    let mut after = *c;
    let item = item_of(bytes, item_len(kind), &mut after)?;
    let n = number_of(kind, item);
    if !kind.contains(n) {
        return Err(XdrError::Range(c.at));
    }
    *c = after;
    Ok(n)
}

/// Reads the length of opaque bytes.
#[tactic(auto, unfolding(mdr_model::specs::Xdr::four_at))]
fn length_of(bytes: &[u8], c: &mut Cursor) -> Result<u32, XdrError>
    ensures { Gives (λ n. n) bytes.now c.old.at c.new.at result four_at }
{
    let item = item_of(bytes, 4, c)?;
    Ok(u32::from_be_bytes(four_of(item)))
}

/// How many bytes fill up to a multiple of four.
fn padding_of(len: usize) -> usize
    ensures { result ≡ padding_of len }
{
    (4 - len % 4) % 4
}

/// Where the first byte stands that isn't zero.
fn first_nonzero(padding: &[u8]) -> Option<usize>
    ensures first { result ≡ position (λ b. not (b == 0)) padding.now }
    ensures inside { IfSome result (λ n. n < length padding.now) }
{
    padding.iter().position(|b| *b != 0)
}

/// As `get_opaque`, by what reading gives.
#[tactic(auto, unfolding(mdr_model::specs::Xdr::opaque_at))]
fn opaque_of<'a>(bytes: &'a [u8], c: &mut Cursor) -> Result<&'a [u8], XdrError>
    ensures { Gives (λ x. x.now) bytes.now c.old.at c.new.at result opaque_at }
{
    let mut after = *c;
    let len = length_of(bytes, &mut after)? as usize;
    let start = after.at;
    let item = item_of(bytes, len + padding_of(len), &mut after)?;
    let (content, padding) = item.split_at(len);
    if let Some(n) = first_nonzero(padding) {
        return Err(XdrError::Padding(start + len as u64 + n as u64));
    }
    *c = after;
    Ok(content)
}

/// Reads a number of a kind. On a refusal the cursor stays.
pub fn get(kind: Kind, bytes: &[u8], c: &mut Cursor) -> Result<i128, XdrError>
    // What is read is spelled at the cursor, which goes behind it.
    ensures found { IfOk result (λ n. drop c.old.at bytes.now ≡ item kind n ++ drop c.new.at bytes.now) }
    // It lies in the kind's range.
    ensures in_range { IfOk result (λ n. IsTrue (is_in_range kind n)) }
    // What is spelled at the cursor is read.
    ensures only { (n : ℤ) (rest : List ℕ) → IsTrue (is_in_range kind n) → drop c.old.at bytes.now ≡ item kind n ++ rest → IsOkAnd result (λ m. m ≡ n) }
    // Which fault it is.
    ensures exact { Gives (λ n. n) bytes.now c.old.at c.new.at result (item_at kind) }
{
    integer_of(kind, bytes, c)
}

/// Reads opaque bytes. On a refusal the cursor stays.
pub fn get_opaque<'a>(bytes: &'a [u8], c: &mut Cursor) -> Result<&'a [u8], XdrError>
    // What is read is spelled at the cursor, which goes behind it.
    ensures found { IfOk result (λ content. drop c.old.at bytes.now ≡ opaque content.now ++ drop c.new.at bytes.now) }
    // What is spelled at the cursor is read.
    ensures only { (content rest : List ℕ) → length content < 2 ^ 32 → drop c.old.at bytes.now ≡ opaque content ++ rest → IsOkAnd result (λ x. x.now ≡ content) }
    // Which fault it is.
    ensures exact { Gives (λ x. x.now) bytes.now c.old.at c.new.at result opaque_at }
{
    opaque_of(bytes, c)
}
