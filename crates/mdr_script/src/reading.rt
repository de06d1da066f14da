// Reading a script.

ghost use Rattle.std.specs.Prelude.{◌≡◌, ◌≤◌, ◌<◌, ◌+◌, length, take, drop};
ghost use Rattle.std.specs.List.{prefix_len};
ghost use Rattle.mdr_syntax.specs.Bytes.{in_line};
ghost use Rattle.mdr_script.specs.Scripts.{script_of, Told};

use crate::script::Script;
use crate::script_error::ScriptError;
use std::alloc::Global;

fn line_len(bytes: &[u8]) -> usize
    ensures count { result ≡ prefix_len in_line bytes.now }
    ensures within { result ≤ length bytes.now }
{
    bytes.iter().take_while(|b| **b != b'\n').count()
}

/// The first line without its newline, and what stands behind it.
fn split_line(bytes: &[u8]) -> (&[u8], &[u8])
    requires { 0 < length bytes.now }
    ensures line { result.0.now ≡ take (prefix_len in_line bytes.now) bytes.now }
    ensures rest { result.1.now ≡ drop (1 + prefix_len in_line bytes.now) bytes.now }
    ensures shorter { length result.1.now < length bytes.now }
{
    let len = line_len(bytes);
    let (line, rest) = bytes.split_at(len);
    match rest {
        [_, after @ ..] => (line, after),
        [] => (line, rest),
    }
}

/// The script that a text is, or the first line that is refused, and why.
pub fn read_script(alloc: Global, bytes: &[u8]) -> Result<Script, ScriptError>
    ensures { Told result (script_of bytes.now) }
{
    let mut script = Script::new(alloc);
    let mut number = 1u32;
    let mut rest = bytes;
    while !rest.is_empty() {
        let (line, after) = split_line(rest);
        match script.step(alloc, number, line) {
            Ok(()) => {}
            Err(e) => return Err(e),
        }
        number += 1;
        rest = after;
    }
    Ok(script)
}
