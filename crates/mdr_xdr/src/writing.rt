// Writing items.

ghost use Rattle.std.specs.Prelude.{◌≡◌, ◌≤◌, ◌^◌, ◌++◌, length, replicate, take, IsTrue, OnOk, OnErr};
ghost use Rattle.mdr_core.specs.Kinds.{is_in_range};
ghost use Rattle.mdr_model.specs.Xdr.{item, opaque, padding_of};

use mdr_core::{Kind, OutOfMemory};

/// Writes bytes at the end.
fn append(bytes: &[u8], out: &mut Vec<u8>) -> Result<(), OutOfMemory>
    ensures ok { OnOk result (out.new.items ≡ out.old.items ++ bytes.now) }
    ensures err { OnErr result (out.new.items ≡ out.old.items) }
{
    match out.extend_from_slice(bytes) {
        Ok(()) => Ok(()),
        Err(error) => Err(error.into()),
    }
}

/// Writes the spelling of a number of a kind at the end. Where memory is wanting the bytes are as before.
#[tactic(auto, unfolding(mdr_model::specs::Xdr::item, mdr_core::specs::Kinds::is_in_range))]
pub fn put(kind: Kind, n: i128, out: &mut Vec<u8>) -> Result<(), OutOfMemory>
    requires { IsTrue (is_in_range kind n) }
    ensures ok { OnOk result (out.new.items ≡ out.old.items ++ item kind n) }
    ensures err { OnErr result (out.new.items ≡ out.old.items) }
{
    match kind {
        Kind::U8 | Kind::U16 | Kind::U32 => append(&(n as u32).to_be_bytes(), out),
        Kind::S8 | Kind::S16 | Kind::S32 => append(&(n as i32).to_be_bytes(), out),
        Kind::U64 => append(&(n as u64).to_be_bytes(), out),
        Kind::S64 => append(&(n as i64).to_be_bytes(), out),
    }
}

/// The zeros that fill up to a multiple of four.
fn zeros_after(len: usize) -> &'static [u8]
    ensures { result.now ≡ replicate (padding_of len) 0 }
{
    match len % 4 {
        0 => &[],
        1 => &[0, 0, 0],
        2 => &[0, 0],
        _ => &[0],
    }
}

/// As `put_opaque`, but want of memory can leave a part written.
#[tactic(auto, unfolding(mdr_model::specs::Xdr::opaque, mdr_model::specs::Xdr::four))]
fn append_opaque(bytes: &[u8], out: &mut Vec<u8>) -> Result<(), OutOfMemory>
    requires { length bytes.now ≤ 2 ^ 31 }
    ensures ok { OnOk result (out.new.items ≡ out.old.items ++ opaque bytes.now) }
    ensures err { OnErr result (take (length out.old.items) out.new.items ≡ out.old.items) }
{
    append(&(bytes.len() as u32).to_be_bytes(), out)?;
    append(bytes, out)?;
    append(zeros_after(bytes.len()), out)
}

/// Writes the spelling of opaque bytes at the end. Where memory is wanting the bytes are as before.
pub fn put_opaque(bytes: &[u8], out: &mut Vec<u8>) -> Result<(), OutOfMemory>
    requires { length bytes.now ≤ 2 ^ 31 }
    ensures ok { OnOk result (out.new.items ≡ out.old.items ++ opaque bytes.now) }
    ensures err { OnErr result (out.new.items ≡ out.old.items) }
{
    let len = out.len();
    let written = append_opaque(bytes, out);
    if written.is_err() {
        out.truncate(len);
    }
    written
}
