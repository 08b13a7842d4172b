ghost use Rattle.std.specs.Prelude.{◌≡◌, ◌<◌, [], IfOk, not, ◌==◌, filter, All};
ghost use Rattle.sync_store.specs.Enabled.{is_released};
ghost use Rattle.sync_store.specs.Effect.{let_through, all_through, is_serial};

use crate::thread_list::ThreadList;
use pct_ask::MAX_THREADS;
use std::alloc::{AllocError as NoMemory, Global};
use std::marker::Model;

/// The threads that a barrier has let through and that haven't left it, in order, each with whether
/// it is the serial one.
#[derive(Drop)]
pub(crate) struct ReleaseList {
    threads: ThreadList,
    /// For each thread on the list, whether it is the serial one.
    serial: [bool; MAX_THREADS],
}

impl Model for ReleaseList {
    ghost use Rattle.std.specs.Prelude.{List};
    ghost use Rattle.sync_store.specs.Store.{Release};
    ghost use Rattle.sync_store.specs.ReleaseList.{releases_by};

    ghost Value = { List Release };

    ghost view = { λ l. releases_by l.serial l.threads };
}

impl ReleaseList {
    pub(crate) fn new(alloc: Global) -> Result<Self, NoMemory>
        ensures { IfOk result (λ list. list ≡ []) }
    {
        Ok(ReleaseList {
            threads: ThreadList::new(alloc)?,
            serial: [false; MAX_THREADS],
        })
    }

    pub(crate) fn has(&self, thread: u32) -> bool
        requires { thread < MAX_THREADS }
        ensures { result ≡ is_released thread self.now }
    {
        self.threads.has(thread)
    }

    /// Whether a thread is on the list as the serial one.
    pub(crate) fn has_serial(&self, thread: u32) -> bool
        requires { thread < MAX_THREADS }
        ensures { result ≡ is_serial thread self.now }
    {
        self.threads.has(thread) && self.serial[thread as usize]
    }

    /// The thread goes last, unless the list has it.
    pub(crate) fn add(&mut self, thread: u32, serial: bool)
        requires { thread < MAX_THREADS }
        ensures { self.new ≡ let_through thread serial self.old }
    {
        if !self.threads.has(thread) {
            self.threads.add(thread);
            self.serial[thread as usize] = serial;
        }
    }

    /// All these threads go last, in order. The one that arrived last is the serial one.
    pub(crate) fn add_all(&mut self, arrived: &[u32], last: u32)
        requires { All (λ t. t < MAX_THREADS) arrived.now }
        ensures { self.new ≡ all_through last arrived.now self.old }
    {
        for thread in arrived {
            self.add(*thread, *thread == last);
        }
    }

    pub(crate) fn clear(&mut self)
        ensures { self.new ≡ [] }
    {
        self.threads.clear();
    }

    pub(crate) fn leave(&mut self, thread: u32)
        requires { thread < MAX_THREADS }
        ensures { self.new ≡ filter (λ release. not (thread == release.thread)) self.old }
    {
        self.threads.leave(thread);
    }
}
