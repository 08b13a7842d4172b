ghost use Rattle.std.specs.Prelude.{◌≡◌, ◌<◌, pos, if◌then◌else◌, length, map, IfOk};
ghost use Rattle.sync_store.specs.Store.{new_barrier, barrier_of, with_barrier};
ghost use Rattle.sync_store.specs.Enabled.{is_released};
ghost use Rattle.sync_store.specs.Effect.{after_arrival, after_leaving, is_serial};
ghost use Rattle.pct_ask.specs.declared.limits.TheConstants.{MAX_THREADS};

use crate::applied::Stepped;
use crate::release_list::ReleaseList;
use crate::store::Store;
use crate::thread_list::ThreadList;
use pct_ask::NumberList;
use std::alloc::{AllocError as NoMemory, Global};
use std::marker::Model;

/// A barrier.
#[derive(Drop)]
pub(crate) struct Barrier {
    /// How many threads meet.
    count: i64,
    arrived: ThreadList,
    released: ReleaseList,
}

impl Model for Barrier {
    ghost use Rattle.sync_store.specs.Store.{BarrierState};

    ghost Value = { BarrierState };

    ghost view = { λ b. record { count = b.count; arrived = b.arrived; released = b.released } };
}

impl Barrier {
    pub(crate) fn new(alloc: Global, count: i64) -> Result<Self, NoMemory>
        ensures { IfOk result (λ barrier. barrier ≡ new_barrier count) }
    {
        Ok(Barrier {
            count,
            arrived: ThreadList::new(alloc)?,
            released: ReleaseList::new(alloc)?,
        })
    }

    pub(crate) fn several(alloc: Global, counts: &NumberList) -> Result<Vec<Barrier>, NoMemory>
        ensures { IfOk result (λ barriers. barriers.items ≡ map new_barrier counts.now) }
    {
        let mut barriers = Vec::with_capacity(alloc, counts.len())?;
        for count in counts.as_slice() {
            barriers.push(Barrier::new(alloc, *count)?)?;
        }
        Ok(barriers)
    }

    pub(crate) fn restart(&mut self, count: i64)
        ensures { self.new ≡ new_barrier count }
    {
        self.count = count;
        self.arrived.clear();
        self.released.clear();
    }

    pub(crate) fn restart_all(barriers: &mut [Barrier], counts: &NumberList)
        requires { length barriers.old ≡ length counts.now }
        ensures { barriers.new ≡ map new_barrier counts.now }
    {
        for (place, count) in counts.as_slice().iter().enumerate() {
            barriers[place].restart(*count);
        }
    }

    pub(crate) fn has_released(&self, thread: u32) -> bool
        requires { thread < MAX_THREADS }
        ensures { result ≡ is_released thread self.now.released }
    {
        self.released.has(thread)
    }

    /// The thread arrives. Where it is the last of those that meet, they are all let through.
    pub(crate) fn arrive(&mut self, thread: u32)
        requires { thread < MAX_THREADS }
        ensures { self.new ≡ after_arrival thread self.old }
    {
        self.arrived.add(thread);
        if self.arrived.len() as i64 == self.count {
            self.released.add_all(self.arrived.as_slice(), thread);
            self.arrived.clear();
        }
    }

    /// The thread that was let through leaves. The answer is whether it was the serial one.
    pub(crate) fn leave(&mut self, thread: u32) -> bool
        requires { thread < MAX_THREADS }
        ensures left { self.new ≡ after_leaving thread self.old }
        ensures serial { result ≡ is_serial thread self.old.released }
    {
        let serial = self.released.has_serial(thread);
        self.released.leave(thread);
        serial
    }
}

impl Store {
    pub(crate) fn arrive(&mut self, thread: u32, barrier: u32)
        requires there { thread < self.old.threads }
        requires barrier { barrier < length self.old.barriers }
        ensures { self.new
            ≡ with_barrier self.old barrier (after_arrival thread (barrier_of self.old barrier)) }
    {
        self.barriers[barrier as usize].arrive(thread);
    }

    pub(crate) fn leave(&mut self, thread: u32, barrier: u32) -> Stepped
        requires there { thread < self.old.threads }
        requires barrier { barrier < length self.old.barriers }
        ensures store { self.new
            ≡ with_barrier self.old barrier (after_leaving thread (barrier_of self.old barrier)) }
        ensures applied { result ≡ Stepped.Answer
            (if is_serial thread (barrier_of self.old barrier).released then pos 1 else pos 0) }
    {
        Stepped::truth(self.barriers[barrier as usize].leave(thread))
    }
}
