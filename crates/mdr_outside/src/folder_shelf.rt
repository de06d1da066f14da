// A shelf of real files.

ghost use Rattle.std.specs.Prelude.{◌≡◌, [], None};
ghost use Rattle.mdr_outside.specs.Calls.{Read, Written, and_then};
ghost use Rattle.mdr_outside.specs.Count.{Rose};
ghost use Rattle.mdr_outside.specs.Shelf.{IsShort, WritesTo, counts_after_read, counts_after_write, NoneFell};

use crate::counts::Counts;
use crate::shelf::{ReadAnswer, Shelf, WriteAnswer};
use crate::shelf_calls::ShelfCalls;
use mdr_core::Items;
use std::alloc::Global;
use std::io::{ErrorKind, Read};
use std::rt::Files;
use std::{fs, io};

/// The files of the current folder. It tells nothing of them.
///
/// A write that fails may leave a part of the file.
#[derive(Drop)]
pub struct FolderShelf<'a, R> {
    rt: &'a R,
    counts: Counts,
    calls: ShelfCalls,
}

impl<'a, R: Files> FolderShelf<'a, R> {
    /// The shelf, with each count 0.
    pub fn new(rt: &'a R) -> Self
        ensures faults { ⟦<FolderShelf<'a, R> as Shelf>⟧.faults result ≡ 0 }
        ensures absent { ⟦<FolderShelf<'a, R> as Shelf>⟧.absent result ≡ 0 }
        ensures long { ⟦<FolderShelf<'a, R> as Shelf>⟧.long result ≡ 0 }
        ensures unwritten { ⟦<FolderShelf<'a, R> as Shelf>⟧.unwritten result ≡ 0 }
        ensures calls { ⟦<FolderShelf<'a, R> as Shelf>⟧.calls result ≡ [] }
    {
        let counts = Counts {
            faults: 0,
            absent: 0,
            long: 0,
            unwritten: 0,
        };
        FolderShelf {
            rt,
            counts,
            calls: ShelfCalls::new(),
        }
    }
}

// The first bytes of a file, `most` at most.
fn read_front<R: Files>(rt: &R, alloc: Global, name: &str, most: u64) -> io::Result<Vec<u8>> {
    let mut bytes = Vec::new(alloc);
    fs::open(rt, name)?.take(most).read_to_end(&mut bytes)?;
    Ok(bytes)
}

// What a read answers.
fn answer<R: Files>(rt: &R, alloc: Global, name: &str, limit: u64) -> ReadAnswer
    ensures { IsShort limit result }
{
    match read_front(rt, alloc, name, limit.saturating_add(1)) {
        Ok(bytes) if bytes.len() as u64 <= limit => ReadAnswer::Ok(Items::from_vec(bytes)),
        Ok(_) => ReadAnswer::TooLarge,
        Err(e) if e.kind() == ErrorKind::NotFound => ReadAnswer::Missing,
        Err(e) if e.kind() == ErrorKind::OutOfMemory => ReadAnswer::OutOfMemory,
        Err(_) => ReadAnswer::Failed,
    }
}

impl<R: Files> Shelf for FolderShelf<'_, R> {
    ghost use Rattle.std.specs.Prelude.{None};

    ghost files = { λ _. None };

    ghost faults = { λ s. s.counts.faults };

    ghost absent = { λ s. s.counts.absent };

    ghost long = { λ s. s.counts.long };

    ghost unwritten = { λ s. s.counts.unwritten };

    ghost calls = { λ s. s.calls };

    fn read(&mut self, alloc: Global, name: &str, limit: u64) -> ReadAnswer
        ensures short { IsShort limit result }
        ensures counted { self.new.counts ≡ counts_after_read self.old.counts result }
        ensures later { NoneFell self.old.counts self.new.counts }
        ensures called { self.new.calls ≡ and_then self.old.calls (Read name.now limit result) }
        ensures failed { result ≡ ReadAnswer.Failed → Rose self.old.counts.faults self.new.counts.faults }
        ensures missing { result ≡ ReadAnswer.Missing → Rose self.old.counts.absent self.new.counts.absent }
        ensures too_large { result ≡ ReadAnswer.TooLarge → Rose self.old.counts.long self.new.counts.long }
        ensures unwritten_same { self.new.counts.unwritten ≡ self.old.counts.unwritten }
    {
        let answer = answer(self.rt, alloc, name, limit);
        self.counts.count_read(&answer);
        self.calls = self.calls.and_read(name, limit, &answer);
        answer
    }

    fn write(&mut self, _alloc: Global, name: &str, bytes: &[u8]) -> WriteAnswer
        ensures counted { self.new.counts ≡ counts_after_write self.old.counts result }
        ensures later { NoneFell self.old.counts self.new.counts }
        ensures called { self.new.calls ≡ and_then self.old.calls (Written name.now bytes.now result) }
        ensures told { WritesTo None None name.now bytes.now result }
        ensures failed { result ≡ WriteAnswer.Failed → Rose self.old.counts.unwritten self.new.counts.unwritten }
        ensures faults_same { self.new.counts.faults ≡ self.old.counts.faults }
        ensures absent_same { self.new.counts.absent ≡ self.old.counts.absent }
        ensures long_same { self.new.counts.long ≡ self.old.counts.long }
    {
        let answer = match fs::write(self.rt, name, bytes) {
            Ok(()) => WriteAnswer::Ok,
            Err(e) if e.kind() == ErrorKind::OutOfMemory => WriteAnswer::OutOfMemory,
            Err(_) => WriteAnswer::Failed,
        };
        self.counts.count_write(answer);
        self.calls = self.calls.and_written(name, bytes, answer);
        answer
    }
}
