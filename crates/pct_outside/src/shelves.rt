//! Where files are read from.
ghost use Rattle.std.specs.Prelude.{◌≡◌, ◌≤◌, ◌⊎◌, ◌↔◌, true, IfOk, OnOk, OnErr};
ghost use Rattle.std.specs.Prelude.{vec_len};
ghost use Rattle.std.specs.IoError.{error_kind};
ghost use Rattle.std.specs.declared.io.ErrorKind.TheVariants.{OutOfMemory};
ghost use Rattle.pct_outside.specs.Reading.{FirstOf, names_with, texts_of};
ghost use Rattle.pct_outside.specs.ShelfState.{names_after};
ghost use Rattle.pct_outside.specs.Told.{ShelfTold};
ghost use Rattle.pct_outside.specs.declared.shelves.ShelfError.TheVariants.{NoMemory};

use std::alloc::{AllocError, AllocFailed, Global};
use std::io;
use std::io::ErrorKind;

/// Why a read gave no bytes.
#[derive(Clone, Copy, Debug, PartialEq, Eq)]
pub enum ShelfError {
    /// The file could not be read.
    Failed,
    /// There was no memory for its bytes, or for its name among those that failed.
    NoMemory,
}

impl From<AllocError> for ShelfError {
    ghost from_gives = { λ _ e. e ≡ NoMemory };

    fn from(_error: AllocError) -> ShelfError {
        ShelfError::NoMemory
    }
}

impl<T: Drop> From<AllocFailed<T>> for ShelfError {
    ghost from_gives = { λ _ e. e ≡ NoMemory };

    fn from(_error: AllocFailed<T>) -> ShelfError {
        ShelfError::NoMemory
    }
}

/// Want of memory is told apart from all other errors of the host.
impl From<io::Error> for ShelfError {
    ghost from_gives = { λ e s. (s ≡ NoMemory) ↔ (error_kind e ≡ OutOfMemory) };

    fn from(error: io::Error) -> ShelfError {
        match error.kind() {
            ErrorKind::OutOfMemory => ShelfError::NoMemory,
            _ => ShelfError::Failed,
        }
    }
}

/// Files that are read by their names.
pub trait Shelf {
    /// What the shelf tells of itself: the bytes of each file by its name, where it tells them, of
    /// which a name that it does not hold has none; the names of the reads that have failed, in the
    /// order of the calls; and whether it keeps the names of these reads alone.
    ghost told: { Self → ShelfTold };

    /// Reads the first bytes of a file, at most `most`.
    fn read_up_to(&mut self, name: &str, most: u64) -> Result<Vec<u8>, ShelfError>
        ensures most { IfOk result (λ bytes. vec_len bytes ≤ most) }
        ensures first { IfOk result (λ bytes.
            FirstOf (told self.old).files name.now most bytes.items) }
        ensures files { (told self.new).files ≡ (told self.old).files }

        // No name is kept but this one, and that of a failed read is. Where the names of failed
        // reads alone are kept, that of another isn't.
        ensures failed { ((told self.new).failed ≡ (told self.old).failed)
            ⊎ ((told self.new).failed ≡ names_with (told self.old).failed name.now) }
        ensures cause { result ≡ Err ShelfError.Failed
            → (told self.new).failed ≡ names_with (told self.old).failed name.now }
        ensures alone { (told self.old).keeps ≡ true
            → (told self.new).failed ≡ names_after (told self.old).failed name.now result }
        ensures keeps { (told self.new).keeps ≡ (told self.old).keeps };
}

/// Keeps the name of a read that failed.
pub(crate) fn keep_name(
    alloc: Global,
    names: &mut Vec<String>,
    name: &str,
) -> Result<(), AllocError>
    ensures ok { OnOk result
        (texts_of names.new.items ≡ names_with (texts_of names.old.items) name.now) }
    ensures err { OnErr result (names.new.items ≡ names.old.items) }
{
    names.push(String::from_str(alloc, name)?)?;
    Ok(())
}
