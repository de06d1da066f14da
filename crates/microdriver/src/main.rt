//! The program: real files, standard output, and the user half in the same process.
#![tactic(auto)]

ghost use Rattle.std.specs.Prelude.{◌≡◌, ◌≢◌};
ghost use Rattle.std.specs.IoError.{error_kind};

use mdr_far::LocalFar;
use mdr_outside::{FolderShelf, OutSink};
use mdr_top::{Status, run};
use std::alloc::AllocGlobal;
use std::env::Env;
use std::io::ErrorKind;
use std::process::ExitCode;
use std::{env, io};

/// Where the system doesn't give the words.
const NO_WORDS: u8 = 14;

/// The words after the program's name.
fn words<R: Env + AllocGlobal>(rt: &R) -> io::Result<Vec<String>> {
    let mut words = Vec::new(rt.alloc());
    for word in env::args(rt)?.skip(1) {
        words.push(word)?;
    }
    Ok(words)
}

/// The status where the words couldn't be had.
fn no_words(e: &io::Error) -> u8
    ensures memory { error_kind e.now ≡ ErrorKind.OutOfMemory → result ≡ 9 }
    ensures other { error_kind e.now ≢ ErrorKind.OutOfMemory → result ≡ 14 }
{
    match e.kind() {
        ErrorKind::OutOfMemory => Status::OutOfMemory.number(),
        _ => NO_WORDS,
    }
}

fn main(rt: HostRuntime) -> ExitCode {
    let number = match words(&rt) {
        Ok(words) => {
            let mut shelf = FolderShelf::new(&rt);
            let mut out = OutSink::new(io::writer(&rt));
            let mut far = LocalFar::new();
            run(rt.alloc(), &words, &mut shelf, &mut out, &mut far).number()
        }
        Err(e) => no_words(&e),
    };
    ExitCode::from(number)
}
