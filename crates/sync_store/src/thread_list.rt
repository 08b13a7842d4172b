ghost use Rattle.std.specs.Prelude.{◌≡◌, ◌<◌, ◌≤◌, [], ◌∷◌, length, IfOk, MatchOption, All};
ghost use Rattle.sync_store.specs.Store.{is_on};
ghost use Rattle.sync_store.specs.Effect.{put_last, list_without, put_all_last};

use pct_ask::MAX_THREADS;
use std::alloc::{AllocError as NoMemory, Global};
use std::marker::Model;

/// Threads in the order in which they came, each once. It has room for all threads of a test.
#[derive(Drop)]
pub(crate) struct ThreadList {
    threads: Vec<u32>,
    /// For each thread, whether it is on the list.
    present: [bool; MAX_THREADS],
}

impl Model for ThreadList {
    ghost use Rattle.std.specs.Prelude.{List, ℕ, vec_capacity};
    ghost use Rattle.sync_store.specs.ThreadList.{IsThreadList};

    ghost Value = { List ℕ };

    ghost view = { λ l. l.threads.items };

    ghost invariant = { λ l. IsThreadList l.threads.items (vec_capacity l.threads) l.present };
}

impl ThreadList {
    pub(crate) fn new(alloc: Global) -> Result<Self, NoMemory>
        ensures { IfOk result (λ list. list ≡ []) }
    {
        Ok(ThreadList {
            threads: Vec::with_capacity(alloc, MAX_THREADS)?,
            present: [false; MAX_THREADS],
        })
    }

    pub(crate) fn len(&self) -> usize
        ensures len { result ≡ length self.now }
        ensures few { result ≤ MAX_THREADS }
    {
        self.threads.len()
    }

    pub(crate) fn as_slice(&self) -> &[u32]
        ensures items { result.now ≡ self.now }
        ensures below { All (λ t. t < MAX_THREADS) result.now }
    {
        self.threads.as_slice()
    }

    pub(crate) fn has(&self, thread: u32) -> bool
        requires { thread < MAX_THREADS }
        ensures { result ≡ is_on thread self.now }
    {
        self.present[thread as usize]
    }

    /// The thread goes last, unless the list has it.
    pub(crate) fn add(&mut self, thread: u32)
        requires { thread < MAX_THREADS }
        ensures { self.new ≡ put_last thread self.old }
    {
        if !self.present[thread as usize] {
            self.present[thread as usize] = true;
            self.threads.push_reserved(thread);
        }
    }

    pub(crate) fn take_first(&mut self) -> Option<u32>
        ensures { MatchOption result ((self.old ≡ []) × (self.new ≡ []))
            (λ first. (self.old ≡ first ∷ self.new) × (first < MAX_THREADS)) }
    {
        if self.threads.is_empty() {
            return None;
        }
        let first = self.threads.remove(0);
        self.present[first as usize] = false;
        Some(first)
    }

    pub(crate) fn leave(&mut self, thread: u32)
        requires { thread < MAX_THREADS }
        ensures { self.new ≡ list_without thread self.old }
    {
        self.present[thread as usize] = false;
        self.threads.retain(|other| thread != *other);
    }

    pub(crate) fn clear(&mut self)
        ensures { self.new ≡ [] }
    {
        self.threads.clear();
        self.present = [false; MAX_THREADS];
    }

    /// All threads go, in order, to the end of another list.
    pub(crate) fn move_to(&mut self, other: &mut ThreadList)
        ensures here { self.new ≡ [] }
        ensures there { other.new ≡ put_all_last self.old other.old }
    {
        for thread in self.threads.as_slice() {
            other.add(*thread);
        }
        self.clear();
    }
}
