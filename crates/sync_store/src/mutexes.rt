ghost use Rattle.std.specs.Prelude.{◌≡◌, ◌<◌, if◌then◌else◌, is_none, pos, length, replicate};
ghost use Rattle.std.specs.Prelude.{slice_index_or, slice_set, IfOk};
ghost use Rattle.sync_store.specs.Store.{owner_of, with_owner};
ghost use Rattle.sync_store.specs.Effect.{is_held_by, effect, store_after, applied_of};
ghost use Rattle.sync_store.specs.Stepped.{applied_by};

use crate::applied::{Stepped, not_owner};
use crate::store::Store;
use pct_ask::Ask;
use std::alloc::{AllocError as NoMemory, Global};
use std::marker::Model;

/// The mutexes, of POSIX's normal kind.
#[derive(Drop)]
pub(crate) struct Mutexes {
    owners: Vec<Option<u32>>,
}

impl Model for Mutexes {
    ghost use Rattle.std.specs.Prelude.{List, Option, ℕ};

    ghost Value = { List (Option ℕ) };

    ghost view = { λ m. m.owners.items };
}

impl Mutexes {
    pub(crate) fn new(alloc: Global, count: u32) -> Result<Self, NoMemory>
        ensures { IfOk result (λ mutexes. mutexes ≡ replicate count None) }
    {
        Ok(Mutexes {
            owners: Vec::from_elem(alloc, None, count as usize)?,
        })
    }

    /// Makes all of them free.
    pub(crate) fn restart(&mut self)
        ensures { self.new ≡ replicate (length self.old) None }
    {
        self.owners.fill(None);
    }

    pub(crate) fn is_free(&self, mutex: u32) -> bool
        requires { mutex < length self.now }
        ensures { result ≡ is_none (slice_index_or self.now mutex None) }
    {
        self.owners[mutex as usize].is_none()
    }

    pub(crate) fn is_owner(&self, mutex: u32, thread: u32) -> bool
        requires { mutex < length self.now }
        ensures { result ≡ is_held_by thread (slice_index_or self.now mutex None) }
    {
        self.owners[mutex as usize] == Some(thread)
    }

    /// The thread takes a mutex, which nobody owns.
    pub(crate) fn lock(&mut self, mutex: u32, thread: u32)
        requires { mutex < length self.old }
        ensures { self.new ≡ slice_set self.old mutex (Some thread) }
    {
        self.owners[mutex as usize] = Some(thread);
    }

    /// The thread lets a mutex go. The answer is false, and nothing changes, where it isn't the
    /// owner.
    pub(crate) fn unlock(&mut self, mutex: u32, thread: u32) -> bool
        requires { mutex < length self.old }
        ensures owner { result ≡ is_held_by thread (slice_index_or self.old mutex None) }
        ensures owners { self.new ≡ (if result then slice_set self.old mutex None else self.old) }
    {
        let owner = self.is_owner(mutex, thread);
        if owner {
            self.owners[mutex as usize] = None;
        }
        owner
    }
}

impl Store {
    pub(crate) fn lock(&mut self, thread: u32, mutex: u32)
        requires { mutex < length self.old.owners }
        ensures { self.new ≡ with_owner self.old mutex (Some thread) }
    {
        self.mutexes.lock(mutex, thread);
    }

    pub(crate) fn try_lock(&mut self, thread: u32, mutex: u32) -> Stepped
        requires { mutex < length self.old.owners }
        ensures store { self.new
            ≡ (if is_none (owner_of self.old mutex) then with_owner self.old mutex (Some thread)
            else self.old) }
        ensures applied { result
            ≡ Stepped.Answer (if is_none (owner_of self.old mutex) then pos 1 else pos 0) }
    {
        let free = self.mutexes.is_free(mutex);
        if free {
            self.mutexes.lock(mutex, thread);
        }
        Stepped::truth(free)
    }

    pub(crate) fn unlock(&mut self, thread: u32, line: u32, mutex: u32) -> Stepped
        requires { mutex < length self.old.owners }
        ensures store { self.new
            ≡ store_after self.old (effect self.old thread line (Ask.Unlock mutex)) }
        ensures applied { applied_by result
            ≡ applied_of (effect self.old thread line (Ask.Unlock mutex)) }
    {
        Stepped::done_or(self.mutexes.unlock(mutex, thread), not_owner(thread, line))
    }
}
