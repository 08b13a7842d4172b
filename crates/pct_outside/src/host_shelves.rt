//! The host's files. No clause tells their bytes: what the host gives for a name is trusted, and
//! that the first bytes of it are handed on is proved.
ghost use Rattle.std.specs.Prelude.{◌≡◌, [], ◌≤◌, ◌⊎◌, IfOk, IfSome, vec_len};
ghost use Rattle.pct_outside.specs.Reading.{FirstBytes, names_with};
ghost use Rattle.pct_outside.specs.ShelfState.{names_after};

use crate::shelves::{Shelf, ShelfError, keep_name};
use std::alloc::Global;
use std::fs::File;
use std::io::{ErrorKind, Read};
use std::marker::Model;
use std::rt::Files;

/// How many bytes one call asks of a file.
const CHUNK: usize = 4096;

/// The files of the host.
#[derive(Drop)]
pub struct HostShelf<R: Files + AllocGlobal + Drop> {
    rt: R,
    failed: Vec<String>,
}

impl<R: Files + AllocGlobal + Drop> Model for HostShelf<R> {
    ghost use Rattle.std.specs.Prelude.{ℕ, List};
    ghost use Rattle.pct_outside.specs.Reading.{texts_of};

    ghost Value = { List (List ℕ) };

    ghost view = { λ s. texts_of s.failed.items };
}

impl<R: Files + AllocGlobal + Drop> HostShelf<R> {
    /// The files as the runtime opens them. No read has failed.
    pub fn new(rt: R) -> HostShelf<R>
        ensures { result ≡ [] }
    {
        let failed = Vec::new(rt.alloc());
        HostShelf { rt, failed }
    }
}

impl<R: Files + AllocGlobal + Drop> Shelf for HostShelf<R> {
    ghost use Rattle.std.specs.Prelude.{None, true};

    ghost told = { λ s. record { files = None; failed = s; keeps = true } };

    fn read_up_to(&mut self, name: &str, most: u64) -> Result<Vec<u8>, ShelfError>
        ensures kept { self.new ≡ names_after self.old name.now result }

        // As of every shelf.
        ensures most { IfOk result (λ bytes. vec_len bytes ≤ most) }
        ensures failed { (self.new ≡ self.old) ⊎ (self.new ≡ names_with self.old name.now) }
        ensures cause { result ≡ Err ShelfError.Failed → self.new ≡ names_with self.old name.now }
    {
        let read = read_file(&self.rt, name, most);
        if let Err(ShelfError::Failed) = read {
            keep_name(self.rt.alloc(), &mut self.failed, name)?;
        }
        read
    }
}

/// Opens the file, and reads its first bytes.
fn read_file<R: Files + AllocGlobal>(rt: &R, name: &str, most: u64) -> Result<Vec<u8>, ShelfError>
    ensures { IfOk result (λ bytes. vec_len bytes ≤ most) }
{
    let mut file = File::open(rt, name)?;
    read_first(rt.alloc(), &mut file, most)
}

/// Reads to the end of the reader, which is where a read gives no bytes, or until there are so
/// many.
fn read_first<F: Read>(alloc: Global, file: &mut F, most: u64) -> Result<Vec<u8>, ShelfError>
    ensures most { IfOk result (λ bytes. vec_len bytes ≤ most) }
    ensures first { IfOk result (λ bytes.
        IfSome (F.remaining file.old) (λ known. FirstBytes most known bytes.items)) }
{
    let mut bytes = Vec::new(alloc);
    let mut chunk = [0; CHUNK];
    for _ in 0..u64::MAX {
        let left = most - bytes.len() as u64;
        if left == 0 {
            return Ok(bytes);
        }
        let room = left.min(CHUNK as u64) as usize;
        match file.read(&mut chunk[..room]) {
            Ok(0) => return Ok(bytes),
            Ok(count) => bytes.extend_from_slice(&chunk[..count])?,
            Err(error) if error.kind() == ErrorKind::Interrupted => {}
            Err(error) => return Err(ShelfError::from(error)),
        }
    }
    Err(ShelfError::Failed)
}
