// The files that a source is cut into.

ghost use Rattle.std.specs.Prelude.{◌≡◌, ◌++◌, IfOk, OnOk, map};
ghost use Rattle.mdr_core.specs.Sound.{IsSound};
ghost use Rattle.mdr_slicer.specs.Outputs.{file_of, outputs, length_line, length_lines};
ghost use Rattle.mdr_slicer.specs.Slicing.{AreMade};

use mdr_core::{Items, OutOfMemory};
use mdr_cut::{Texts, texts_of};
use mdr_due::{put_newline, put_word};
use mdr_source::Source;
use std::alloc::Global;

/// A file that is to be written.
#[derive(Drop)]
pub(crate) struct File {
    pub(crate) name: String,
    pub(crate) bytes: Items<u8>,
}

/// What is made before anything is written: the files, and what is printed once they are there.
#[derive(Drop)]
pub(crate) struct Cut {
    pub(crate) files: Vec<File>,
    pub(crate) lines: Vec<u8>,
}

/// A file that is named after the source.
fn output(alloc: Global, name: &str, ending: &str, bytes: Items<u8>) -> Result<File, OutOfMemory>
    ensures { IfOk result (λ file. file_of file ≡ (name.now ++ ending.now, bytes)) }
{
    let mut own = String::from_str(alloc, name)?;
    own.push_str(ending)?;
    Ok(File { name: own, bytes })
}

/// The files of a source, in the order in which they are written.
fn outputs(alloc: Global, name: &str, texts: Texts) -> Result<Vec<File>, OutOfMemory>
    ensures { IfOk result (λ files. map file_of files.items ≡ outputs name.now texts) }
{
    let kernel = output(alloc, name, ".k.c", texts.kernel)?;
    let user = output(alloc, name, ".u.c", texts.user)?;
    let plan = output(alloc, name, ".plan", texts.plan)?;
    let mut files = Vec::new(alloc);
    files.push(kernel)?;
    files.push(user)?;
    files.push(plan)?;
    Ok(files)
}

/// A file's name and how long it is.
fn put_length(alloc: Global, out: &mut Vec<u8>, file: &File) -> Result<(), OutOfMemory>
    ensures { OnOk result (out.new.items ≡ out.old.items ++ length_line (file_of file.now)) }
{
    put_word(out, file.name.as_str())?;
    put_word(out, " ")?;
    let digits = file.bytes.len().to_string(alloc)?;
    put_word(out, digits.as_str())?;
    put_newline(out)
}

/// A line for each file.
fn lengths(alloc: Global, files: &[File]) -> Result<Vec<u8>, OutOfMemory>
    ensures { IfOk result (λ text. text.items ≡ length_lines (map file_of files.now)) }
{
    let mut out = Vec::new(alloc);
    for file in files {
        put_length(alloc, &mut out, file)?;
    }
    Ok(out)
}

/// The files of a source and the lines that tell their lengths.
pub(crate) fn made(alloc: Global, name: &str, source: &Source) -> Result<Cut, OutOfMemory>
    requires { IsSound source.now.program }
    ensures { IfOk result (λ cut. AreMade name.now source.now (map file_of cut.files.items) cut.lines.items) }
{
    let texts = texts_of(alloc, &source.tree, &source.program)?;
    let files = outputs(alloc, name, texts)?;
    let lines = lengths(alloc, files.as_slice())?;
    Ok(Cut { files, lines })
}
