//! Shelves in memory.
ghost use Rattle.std.specs.Prelude.{◌≡◌, ◌≢◌, [], ◌≤◌, ◌⊎◌, IfOk, OnOk, OnErr, vec_len};
ghost use Rattle.std.specs.Prelude.{option_copied, option_map};
ghost use Rattle.std.specs.FinMap as map;
ghost use Rattle.pct_outside.specs.Files.{bytes_of};
ghost use Rattle.pct_outside.specs.Reading.{FirstBytes, names_with};
ghost use Rattle.pct_outside.specs.ShelfState.{is_refused, after_read, FailsOnly};

use crate::calls::Calls;
use crate::shelves::{Shelf, ShelfError, keep_name};
use std::alloc::{AllocError as NoMemory, Global};
use std::collections::BTreeMap;
use std::marker::Model;

/// Files by their names.
#[derive(Drop)]
struct FileMap {
    alloc: Global,
    files: BTreeMap<String, Vec<u8>>,
}

impl Model for FileMap {
    ghost use Rattle.std.specs.Prelude.{map};
    ghost use Rattle.std.specs.FinMap.{from_entries};
    ghost use Rattle.pct_outside.specs.Files.{Files, coded_files, name_and_bytes};

    ghost Value = { Files };

    ghost coded = { coded_files };

    ghost view = { λ s. from_entries (map name_and_bytes s.files.entries) };
}

impl FileMap {
    fn new(alloc: Global) -> FileMap
        ensures { result ≡ map.empty }
    {
        FileMap {
            alloc,
            files: BTreeMap::new(alloc),
        }
    }

    /// Gives the name these bytes.
    fn add(&mut self, name: &str, bytes: &[u8]) -> Result<(), NoMemory>
        ensures ok { OnOk result (self.new ≡ map.insert self.old name.now bytes.now) }
        ensures err { OnErr result (self.new ≡ self.old) }
    {
        let name = String::from_str(self.alloc, name)?;
        let bytes = Vec::from_slice(self.alloc, bytes)?;
        self.files.insert(name, bytes)?;
        Ok(())
    }

    /// The bytes that the name has.
    fn get(&self, name: &str) -> Option<&Vec<u8>>
        ensures { option_map (λ bytes. bytes.items) (option_copied result)
            ≡ map.get self.now name.now }
    {
        self.files.get(name)
    }
}

/// The first bytes, at most `most`.
fn first_bytes(alloc: Global, bytes: &[u8], most: u64) -> Result<Vec<u8>, NoMemory>
    ensures { IfOk result (λ first. FirstBytes most bytes.now first.items) }
{
    let count = most.min(bytes.len() as u64) as usize;
    Vec::from_slice(alloc, &bytes[..count])
}

/// A shelf that holds the files that were added, and of which chosen reads fail.
#[derive(Drop)]
pub struct MemoryShelf {
    alloc: Global,
    files: FileMap,
    failed: Vec<String>,
    calls: Calls,
}

impl Model for MemoryShelf {
    ghost use Rattle.pct_outside.specs.Reading.{texts_of};
    ghost use Rattle.pct_outside.specs.ShelfState.{ShelfState, coded_shelf};

    ghost Value = { ShelfState };

    ghost coded = { coded_shelf };

    ghost view = { λ s. record {
      files = s.files;
      failed = texts_of s.failed.items;
      fails = s.calls.fails.items;
      calls = s.calls.count;
    } };
}

impl MemoryShelf {
    /// A shelf with no files. The reads with these numbers, counted from 1, fail. All reads past
    /// the number 2^64 - 1 have that number.
    pub fn new(alloc: Global, fails: Vec<u64>) -> MemoryShelf
        ensures { result
            ≡ record { files = map.empty; failed = []; fails = fails.items; calls = 0 } }
    {
        MemoryShelf {
            alloc,
            files: FileMap::new(alloc),
            failed: Vec::new(alloc),
            calls: Calls::new(fails),
        }
    }

    /// Gives the name these bytes, in place of those that it had.
    pub fn add(&mut self, name: &str, bytes: &[u8]) -> Result<(), NoMemory>
        ensures ok { OnOk result (self.new
            ≡ record self.old { files = map.insert self.old.files name.now bytes.now }) }
        ensures err { OnErr result (self.new ≡ self.old) }
    {
        self.files.add(name, bytes)
    }
}

impl Shelf for MemoryShelf {
    ghost use Rattle.std.specs.Prelude.{Some, true};
    ghost use Rattle.pct_outside.specs.Files.{bytes_of};

    ghost told = { λ s. record {
      files = Some (bytes_of s.files);
      failed = s.failed;
      keeps = true;
    } };

    fn read_up_to(&mut self, name: &str, most: u64) -> Result<Vec<u8>, ShelfError>
        ensures refused { FailsOnly (is_refused self.old name.now) result }
        ensures after { self.new ≡ after_read self.old name.now result }

        // As of every shelf.
        ensures most { IfOk result (λ bytes. vec_len bytes ≤ most) }
        ensures first { IfOk result (λ bytes.
            FirstBytes most (bytes_of self.old.files name.now) bytes.items) }
        ensures files { self.new.files ≡ self.old.files }
        ensures failed { (self.new.failed ≡ self.old.failed)
            ⊎ (self.new.failed ≡ names_with self.old.failed name.now) }
        ensures cause { result ≡ Err ShelfError.Failed
            → self.new.failed ≡ names_with self.old.failed name.now }
    {
        let fails = self.calls.next_fails();
        match self.files.get(name) {
            Some(bytes) if !fails => Ok(first_bytes(self.alloc, bytes, most)?),
            _ => {
                keep_name(self.alloc, &mut self.failed, name)?;
                Err(ShelfError::Failed)
            }
        }
    }
}

/// A shelf that holds the files that were added, and fails by want of memory alone.
#[derive(Drop)]
pub struct SureShelf {
    alloc: Global,
    files: FileMap,
}

impl Model for SureShelf {
    ghost use Rattle.pct_outside.specs.Files.{Files, coded_files};

    ghost Value = { Files };

    ghost coded = { coded_files };

    ghost view = { λ s. s.files };
}

impl SureShelf {
    /// A shelf with no files.
    pub fn new(alloc: Global) -> SureShelf
        ensures { result ≡ map.empty }
    {
        SureShelf {
            alloc,
            files: FileMap::new(alloc),
        }
    }

    /// Gives the name these bytes, in place of those that it had.
    pub fn add(&mut self, name: &str, bytes: &[u8]) -> Result<(), NoMemory>
        ensures ok { OnOk result (self.new ≡ map.insert self.old name.now bytes.now) }
        ensures err { OnErr result (self.new ≡ self.old) }
    {
        self.files.add(name, bytes)
    }
}

impl Shelf for SureShelf {
    ghost use Rattle.std.specs.Prelude.{[], Some, true};
    ghost use Rattle.pct_outside.specs.Files.{bytes_of};

    ghost told = { λ s. record { files = Some (bytes_of s); failed = []; keeps = true } };

    fn read_up_to(&mut self, name: &str, most: u64) -> Result<Vec<u8>, ShelfError>
        ensures sure { result ≢ Err ShelfError.Failed }
        ensures same { self.new ≡ self.old }
        ensures most { IfOk result (λ bytes. vec_len bytes ≤ most) }
        ensures first { IfOk result (λ bytes.
            FirstBytes most (bytes_of self.old name.now) bytes.items) }
    {
        let bytes = match self.files.get(name) {
            Some(bytes) => first_bytes(self.alloc, bytes, most)?,
            None => Vec::new(self.alloc),
        };
        Ok(bytes)
    }
}
