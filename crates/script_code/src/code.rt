ghost use Rattle.std.specs.Prelude.{◌≡◌, ◌≤◌, true, length};
ghost use Rattle.std.specs.List.{list_all};
ghost use Rattle.script_code.specs.Operations.{listings};
ghost use Rattle.script_code.specs.Placed.{is_listing};
ghost use Rattle.pct_ask.specs.declared.limits.TheConstants.{MAX_THREADS};

use crate::flat::{Flat, FlatList};
use pct_ask::Sequence;

/// The operations of each thread of a script.
#[derive(Debug, Drop)]
pub struct Code {
    pub(crate) threads: Sequence<FlatList>,
    ghost few: { length threads ≤ MAX_THREADS },
    ghost placed: { list_all is_listing (listings threads) ≡ true },
}

impl Code {
    ghost use Rattle.std.specs.Prelude.{◌<◌, slice_get, Some};
    ghost use Rattle.script_code.specs.Operations.{operation};
    ghost use Rattle.script_code.specs.Placed.{listing_of, is_placed, last_place, is_end};
    ghost use Rattle.script_code.specs.Listing.{listing};

    /// How many threads there are.
    pub fn threads(&self) -> u32
        ensures { result ≡ length (listing self.now) }
    {
        self.threads.len() as u32
    }

    /// The operation at a place of a thread.
    pub fn flat(&self, thread: u32, place: u32) -> &Flat
        requires thread { thread < length (listing self.now) }
        requires place { place < length (listing_of (listing self.now) thread) }
        ensures flat { slice_get (listing_of (listing self.now) thread) place
            ≡ Some (operation result.now) }
        ensures placed { is_placed (length (listing_of (listing self.now) thread))
            (operation result.now)
            ≡ true }
    {
        &self.threads.as_slice()[thread as usize].as_slice()[place as usize]
    }

    /// The place of a thread's end.
    pub fn end(&self, thread: u32) -> u32
        requires { thread < length (listing self.now) }
        ensures place { result ≡ last_place (listing_of (listing self.now) thread) }
        ensures end { is_end (slice_get (listing_of (listing self.now) thread) result) ≡ true }
    {
        let list = &self.threads.as_slice()[thread as usize];
        list.len() as u32 - 1
    }
}
