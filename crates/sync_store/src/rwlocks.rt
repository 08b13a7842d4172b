ghost use Rattle.std.specs.Prelude.{◌≡◌, ◌<◌, ◌+◌, if◌then◌else◌, is_some, is_none, nat_lt};
ghost use Rattle.std.specs.Prelude.{ℕ, All, length, replicate, slice_index, IfOk, MatchOption};
ghost use Rattle.sync_store.specs.Store.{new_rwlock, rwlock_of, with_rwlock};
ghost use Rattle.sync_store.specs.Enabled.{is_unread};
ghost use Rattle.sync_store.specs.Effect.{max_reads, with_writer, with_reads, after_unlock, effect};
ghost use Rattle.sync_store.specs.Effect.{store_after, applied_of};
ghost use Rattle.sync_store.specs.Stepped.{applied_by};

use crate::applied::{Stepped, not_owner};
use crate::store::Store;
use pct_ask::{Ask, MisuseKind};
use std::alloc::{AllocError as NoMemory, Global};
use std::marker::Model;

/// How many read holds a thread may have of one lock.
const MAX_READS: u32 = 1000;

/// A read-write lock.
#[derive(Drop)]
pub(crate) struct ReadWriteLock {
    writer: Option<u32>,
    /// How many read holds each thread has.
    reads: Vec<u32>,
}

impl Model for ReadWriteLock {
    ghost use Rattle.sync_store.specs.Store.{RwLockState};

    ghost Value = { RwLockState };

    ghost view = { λ l. record { writer = l.writer; reads = l.reads.items } };
}

impl ReadWriteLock {
    pub(crate) fn new(alloc: Global, threads: u32) -> Result<Self, NoMemory>
        ensures { IfOk result (λ lock. lock ≡ new_rwlock threads) }
    {
        Ok(ReadWriteLock {
            writer: None,
            reads: Vec::from_elem(alloc, 0, threads as usize)?,
        })
    }

    pub(crate) fn several(
        alloc: Global,
        count: u32,
        threads: u32,
    ) -> Result<Vec<ReadWriteLock>, NoMemory>
        ensures { IfOk result (λ rwlocks. rwlocks.items ≡ replicate count (new_rwlock threads)) }
    {
        let mut rwlocks = Vec::with_capacity(alloc, count as usize)?;
        for _ in 0..count {
            rwlocks.push(ReadWriteLock::new(alloc, threads)?)?;
        }
        Ok(rwlocks)
    }

    /// Makes it free.
    pub(crate) fn restart(&mut self)
        ensures { self.new ≡ new_rwlock (length self.old.reads) }
    {
        self.writer = None;
        self.reads.fill(0);
    }

    pub(crate) fn restart_all(rwlocks: &mut [ReadWriteLock])
        ensures { (threads : ℕ) → All (λ rwlock. length rwlock.reads ≡ threads) rwlocks.old
            → rwlocks.new ≡ replicate (length rwlocks.old) (new_rwlock threads) }
    {
        for rwlock in rwlocks.iter_mut() {
            rwlock.restart();
        }
    }

    pub(crate) fn has_no_writer(&self) -> bool
        ensures { result ≡ is_none self.now.writer }
    {
        self.writer.is_none()
    }

    /// Whether no thread has a read hold.
    pub(crate) fn is_unread(&self) -> bool
        ensures { result ≡ is_unread self.now }
    {
        self.reads.iter().all(|holds| *holds == 0)
    }

    /// The thread takes one more read hold. The answer is false, and nothing changes, where it has
    /// as many as it may have.
    pub(crate) fn read(&mut self, thread: u32) -> bool
        requires { thread < length self.old.reads }
        ensures room { result ≡ nat_lt (slice_index self.old.reads thread) max_reads }
        ensures lock { self.new
            ≡ (if result then with_reads self.old thread (slice_index self.old.reads thread + 1)
            else self.old) }
    {
        let holds = self.reads[thread as usize];
        if holds < MAX_READS {
            self.reads[thread as usize] = holds + 1;
            true
        } else {
            false
        }
    }

    pub(crate) fn write(&mut self, thread: u32)
        ensures { self.new ≡ with_writer self.old (Some thread) }
    {
        self.writer = Some(thread);
    }

    /// The thread lets go what it holds: as the writer, else a read hold. The answer is false, and
    /// nothing changes, where it holds nothing.
    pub(crate) fn unlock(&mut self, thread: u32) -> bool
        requires { thread < length self.old.reads }
        ensures held { result ≡ is_some (after_unlock self.old thread) }
        ensures lock { MatchOption (after_unlock self.old thread) (self.new ≡ self.old)
            (λ after. self.new ≡ after) }
    {
        if self.writer == Some(thread) {
            self.writer = None;
            return true;
        }
        let holds = self.reads[thread as usize];
        if holds > 0 {
            self.reads[thread as usize] = holds - 1;
            return true;
        }
        false
    }
}

impl Store {
    pub(crate) fn read_lock(&mut self, thread: u32, line: u32, rwlock: u32) -> Stepped
        requires there { thread < self.old.threads }
        requires rwlock { rwlock < length self.old.rwlocks }
        ensures store { self.new
            ≡ store_after self.old (effect self.old thread line (Ask.RdLock rwlock)) }
        ensures applied { applied_by result
            ≡ applied_of (effect self.old thread line (Ask.RdLock rwlock)) }
    {
        Stepped::done_or(
            self.rwlocks[rwlock as usize].read(thread),
            Stepped::Misuse {
                thread,
                line,
                kind: MisuseKind::TooManyReads,
            },
        )
    }

    pub(crate) fn write_lock(&mut self, thread: u32, rwlock: u32)
        requires { rwlock < length self.old.rwlocks }
        ensures { self.new
            ≡ with_rwlock self.old rwlock (with_writer (rwlock_of self.old rwlock) (Some thread)) }
    {
        self.rwlocks[rwlock as usize].write(thread);
    }

    pub(crate) fn try_read_lock(&mut self, thread: u32, rwlock: u32) -> Stepped
        requires there { thread < self.old.threads }
        requires rwlock { rwlock < length self.old.rwlocks }
        ensures store { self.new
            ≡ store_after self.old (effect self.old thread 0 (Ask.TryRdLock rwlock)) }
        ensures applied { applied_by result
            ≡ applied_of (effect self.old thread 0 (Ask.TryRdLock rwlock)) }
    {
        let lock = &mut self.rwlocks[rwlock as usize];
        let held = lock.has_no_writer() && lock.read(thread);
        Stepped::truth(held)
    }

    pub(crate) fn try_write_lock(&mut self, thread: u32, rwlock: u32) -> Stepped
        requires { rwlock < length self.old.rwlocks }
        ensures store { self.new
            ≡ store_after self.old (effect self.old thread 0 (Ask.TryWrLock rwlock)) }
        ensures applied { applied_by result
            ≡ applied_of (effect self.old thread 0 (Ask.TryWrLock rwlock)) }
    {
        let lock = &mut self.rwlocks[rwlock as usize];
        let free = lock.has_no_writer() && lock.is_unread();
        if free {
            lock.write(thread);
        }
        Stepped::truth(free)
    }

    pub(crate) fn read_write_unlock(&mut self, thread: u32, line: u32, rwlock: u32) -> Stepped
        requires there { thread < self.old.threads }
        requires rwlock { rwlock < length self.old.rwlocks }
        ensures store { self.new
            ≡ store_after self.old (effect self.old thread line (Ask.RwUnlock rwlock)) }
        ensures applied { applied_by result
            ≡ applied_of (effect self.old thread line (Ask.RwUnlock rwlock)) }
    {
        Stepped::done_or(
            self.rwlocks[rwlock as usize].unlock(thread),
            not_owner(thread, line),
        )
    }
}
