// The arguments of a call.

ghost use Rattle.std.specs.Prelude.{◌≡◌, ◌++◌, ◌∷◌, length};
ghost use Rattle.mdr_script.specs.Gives.{Gives};
ghost use Rattle.mdr_script.specs.Lines.{global_arg, integer_arg, other_arg, arg_of, args_from, args_at};

use crate::line::ArgText;
use crate::number::integer_of;
use crate::unread::Unread;
use crate::words::{name_of, word_at};
use mdr_core::Items;
use std::alloc::Global;

#[tactic(auto, unfolding(crate::specs::Lines::global_arg))]
fn global_arg(alloc: Global, bytes: &[u8]) -> Result<ArgText, Unread>
    ensures { Gives (λ a. a) result (global_arg bytes.now) }
{
    let name = name_of(alloc, bytes)?;
    Ok(ArgText::Global(name))
}

#[tactic(auto, unfolding(crate::specs::Lines::integer_arg))]
fn integer_arg(any: bool, word: &[u8]) -> Option<ArgText>
    ensures { result ≡ integer_arg any word.now }
{
    let n = integer_of(any, word)?;
    Some(ArgText::Int(n))
}

/// An argument that isn't `null`.
fn other_arg(alloc: Global, any: bool, word: &[u8]) -> Result<ArgText, Unread>
    ensures { Gives (λ a. a) result (other_arg any word.now) }
{
    match word {
        [] => Err(Unread::Refused),
        [b'&', name @ ..] => global_arg(alloc, name),
        _ => integer_arg(any, word).ok_or(Unread::Refused),
    }
}

#[tactic(auto, unfolding(crate::specs::Lines::arg_of))]
fn arg_of(alloc: Global, any: bool, word: &[u8]) -> Result<ArgText, Unread>
    ensures { Gives (λ a. a) result (arg_of any word.now) }
{
    if word == b"null".as_slice() {
        Ok(ArgText::Null)
    } else {
        other_arg(alloc, any, word)
    }
}

/// The words that are left, each an argument.
#[tactic(auto, unfolding(crate::specs::Lines::args_at))]
pub fn args_at(alloc: Global, any: bool, bytes: &[u8]) -> Result<Items<ArgText>, Unread>
    ensures { Gives (λ xs. xs) result (args_at any bytes.now) }
{
    let mut args = Items::new(alloc);
    let mut rest = bytes;
    let mut most = bytes.len();
    loop {
        let (word, behind) = word_at(rest);
        if word.is_empty() {
            return Ok(args);
        }
        args.push(arg_of(alloc, any, word)?)?;
        rest = behind;
        if most == 0 {
            return Err(Unread::Refused);
        }
        most -= 1;
    }
}
