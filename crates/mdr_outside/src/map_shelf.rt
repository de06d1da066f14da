// A shelf in memory.

ghost use Rattle.std.specs.Prelude.{◌≡◌, ◌⊎◌, IsTrue, Some, None, OnOk, OnErr, option_map, position, find};
ghost use Rattle.std.specs.List.{list_any};
ghost use Rattle.std.specs.Option.{option_copied};
ghost use Rattle.std.specs.Str.{bytes_eq};
ghost use Rattle.mdr_outside.specs.Shelf.{WritesTo, Puts};
ghost use Rattle.mdr_outside.specs.MapShelf.{named, key_of, are_distinct, file_in, new_shelf, read_answer, write_answer, count_read, count_write, after_read, after_write, NoCountFell};

use crate::calls::Calls;
use crate::shelf::{ReadAnswer, Shelf, WriteAnswer};
use crate::shelf_calls::ShelfCalls;
use mdr_core::Items;
use std::alloc::{AllocError, Global};
use std::marker::Model;

/// Files in memory. Reads and writes are counted together from 1, and those of the given numbers fail.
#[derive(Drop)]
pub struct MapShelf {
    files: Vec<(String, Vec<u8>)>,
    calls: Calls,
    faults: u64,
    absent: u64,
    long: u64,
    unwritten: u64,
    history: ShelfCalls,
}

impl Model for MapShelf {
    ghost use Rattle.mdr_outside.specs.MapShelf.{ShelfState};

    ghost Value = { ShelfState };

    ghost use Rattle.mdr_outside.specs.MapShelfView.{shelf_state};

    ghost view = { shelf_state };
}

impl MapShelf {
    /// The shelf with these files. It takes no memory.
    pub fn new(files: Vec<(String, Vec<u8>)>, fails: Vec<u64>) -> Self
        // Of two files of one name nobody could see the second.
        requires { IsTrue (are_distinct key_of files.items) }
        ensures { result ≡ new_shelf (named files.items) fails.items }
    {
        MapShelf {
            files,
            calls: Calls::new(fails),
            faults: 0,
            absent: 0,
            long: 0,
            unwritten: 0,
            history: ShelfCalls::new(),
        }
    }

    /// Whether no name stands twice.
    pub fn can_hold(files: &[(String, Vec<u8>)]) -> bool
        ensures { result ≡ are_distinct key_of files.now }
    {
        match files {
            [] => true,
            [first, rest @ ..] => !is_there(rest, first.0.as_str()) && MapShelf::can_hold(rest),
        }
    }

    /// Lends the file of that name.
    pub fn file(&self, name: &str) -> Option<&[u8]>
        ensures { option_map (λ bytes. bytes.now) result ≡ file_in self.now.files name.now }
    {
        let file = found(&self.files, name)?;
        Some(file.1.as_slice())
    }

    // What a read is to answer.
    fn answer(&self, alloc: Global, name: &str, limit: u64) -> ReadAnswer
        ensures { (result ≡ ReadAnswer.OutOfMemory) ⊎ (result ≡ read_answer self.now name.now limit) }
    {
        if self.calls.is_next_failing() {
            return ReadAnswer::Failed;
        }
        let Some(bytes) = self.file(name) else {
            return ReadAnswer::Missing;
        };
        if bytes.len() as u64 > limit {
            return ReadAnswer::TooLarge;
        }
        match Items::from_slice(alloc, bytes) {
            Ok(copy) => ReadAnswer::Ok(copy),
            Err(error) => ReadAnswer::from(error),
        }
    }

    // Counts a read and its answer.
    fn count_read(&mut self, answer: &ReadAnswer)
        ensures after { self.new ≡ count_read self.old answer.now }
        ensures later { NoCountFell self.old self.new }
    {
        match answer {
            ReadAnswer::Ok(_) => {}
            ReadAnswer::Missing => self.absent = self.absent.saturating_add(1),
            ReadAnswer::TooLarge => self.long = self.long.saturating_add(1),
            ReadAnswer::Failed => self.faults = self.faults.saturating_add(1),
            ReadAnswer::OutOfMemory => return,
        }
        self.calls.count();
    }

    // Writes, and counts the write and its answer.
    fn put(&mut self, alloc: Global, name: &str, bytes: &[u8]) -> WriteAnswer
        ensures answers { (result ≡ WriteAnswer.OutOfMemory) ⊎ (result ≡ write_answer self.old) }
        ensures told { WritesTo (Some (file_in self.old.files)) (Some (file_in self.new.files)) name.now bytes.now result }
        ensures after { self.new ≡ count_write self.old self.new.files result }
        ensures later { NoCountFell self.old self.new }
    {
        if self.calls.is_next_failing() {
            self.calls.count();
            self.unwritten = self.unwritten.saturating_add(1);
            return WriteAnswer::Failed;
        }
        match put(alloc, &mut self.files, name, bytes) {
            Ok(()) => {
                self.calls.count();
                WriteAnswer::Ok
            }
            Err(error) => WriteAnswer::from(error),
        }
    }
}

// Puts a copy of the bytes in the place of the file of that name, or behind the others.
fn put(
    alloc: Global,
    files: &mut Vec<(String, Vec<u8>)>,
    name: &str,
    bytes: &[u8],
) -> Result<(), AllocError>
    ensures ok { OnOk result (Puts (file_in (named files.old.items)) (file_in (named files.new.items)) name.now bytes.now) }
    ensures err { OnErr result (files.new.items ≡ files.old.items) }
{
    let copy = Vec::from_slice(alloc, bytes)?;
    match place_of(files, name) {
        Some(at) => files[at].1 = copy,
        None => files.push((String::from_str(alloc, name)?, copy))?,
    }
    Ok(())
}

// The file of that name.
fn found<'a>(files: &'a [(String, Vec<u8>)], name: &str) -> Option<&'a (String, Vec<u8>)>
    ensures { option_copied result ≡ find (λ file. bytes_eq (key_of file) name.now) files.now }
{
    files.iter().find(|file| file.0.as_str() == name)
}

// Whether a file has that name.
fn is_there(files: &[(String, Vec<u8>)], name: &str) -> bool
    ensures { result ≡ list_any (λ file. bytes_eq (key_of file) name.now) files.now }
{
    files.iter().any(|file| file.0.as_str() == name)
}

// Where the file of that name stands.
fn place_of(files: &[(String, Vec<u8>)], name: &str) -> Option<usize>
    ensures { result ≡ position (λ file. bytes_eq (key_of file) name.now) files.now }
{
    files.iter().position(|file| file.0.as_str() == name)
}

impl Shelf for MapShelf {
    ghost files = { λ s. Some (file_in s.files) };

    ghost faults = { λ s. s.faults };

    ghost absent = { λ s. s.absent };

    ghost long = { λ s. s.long };

    ghost unwritten = { λ s. s.unwritten };

    ghost calls = { λ s. s.history };

    fn read(&mut self, alloc: Global, name: &str, limit: u64) -> ReadAnswer
        ensures answers { (result ≡ ReadAnswer.OutOfMemory) ⊎ (result ≡ read_answer self.old name.now limit) }
        ensures after { self.new ≡ after_read self.old name.now limit result }
        ensures later { NoCountFell self.old self.new }
    {
        let answer = self.answer(alloc, name, limit);
        self.count_read(&answer);
        self.history = self.history.and_read(name, limit, &answer);
        answer
    }

    fn write(&mut self, alloc: Global, name: &str, bytes: &[u8]) -> WriteAnswer
        ensures answers { (result ≡ WriteAnswer.OutOfMemory) ⊎ (result ≡ write_answer self.old) }
        ensures told { WritesTo (Some (file_in self.old.files)) (Some (file_in self.new.files)) name.now bytes.now result }
        ensures after { self.new ≡ after_write self.old self.new.files name.now bytes.now result }
        ensures later { NoCountFell self.old self.new }
    {
        let answer = self.put(alloc, name, bytes);
        self.history = self.history.and_written(name, bytes, answer);
        answer
    }
}
