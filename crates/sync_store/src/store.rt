ghost use Rattle.std.specs.Prelude.{◌≡◌, ◌<◌, IfOk};
ghost use Rattle.pct_ask.specs.Objects.{sizes_of_deal};
ghost use Rattle.sync_store.specs.Store.{first_store, is_on, sizes_of};
ghost use Rattle.sync_store.specs.Effect.{effect, store_after, applied_of};
ghost use Rattle.sync_store.specs.Stepped.{applied_by};

use crate::applied::Stepped;
use crate::barriers::Barrier;
use crate::conditions::Condition;
use crate::mutexes::Mutexes;
use crate::rwlocks::ReadWriteLock;
use crate::semaphores::Semaphores;
use crate::thread_list::ThreadList;
use crate::variables::Variables;
use pct_ask::{Ask, Deal, MisuseKind};
use std::alloc::{AllocError as NoMemory, Global};
use std::marker::Model;

/// What the threads of a test share. All its lists have room for all threads, so only `new` takes
/// memory.
#[derive(Drop)]
pub struct Store {
    pub(crate) threads: u32,
    pub(crate) variables: Variables,
    pub(crate) mutexes: Mutexes,
    pub(crate) conditions: Vec<Condition>,
    pub(crate) semaphores: Semaphores,
    pub(crate) barriers: Vec<Barrier>,
    pub(crate) started: ThreadList,
    pub(crate) rwlocks: Vec<ReadWriteLock>,
}

impl Model for Store {
    ghost use Rattle.sync_store.specs.Store.{StoreState};
    ghost use Rattle.sync_store.specs.Kept.{CountsReads};

    ghost Value = { StoreState };

    ghost view = { λ s. record {
      threads = s.threads;
      values = s.variables;
      owners = s.mutexes;
      conditions = s.conditions.items;
      numbers = s.semaphores;
      barriers = s.barriers.items;
      started = s.started;
      rwlocks = s.rwlocks.items;
    } };

    ghost invariant = { λ s. CountsReads s.threads s.rwlocks.items };
}

impl Store {
    /// The store at the start of a run.
    pub fn new(alloc: Global, deal: &Deal) -> Result<Self, NoMemory>
        ensures first { IfOk result (λ store. store ≡ first_store deal.now) }
        ensures sizes { IfOk result (λ store. sizes_of store ≡ sizes_of_deal deal.now) }
    {
        Ok(Store {
            threads: deal.threads,
            variables: Variables::new(alloc, &deal.vars)?,
            mutexes: Mutexes::new(alloc, deal.mutexes)?,
            conditions: Condition::several(alloc, deal.conds)?,
            semaphores: Semaphores::new(alloc, &deal.sems)?,
            barriers: Barrier::several(alloc, &deal.barriers)?,
            started: ThreadList::new(alloc)?,
            rwlocks: ReadWriteLock::several(alloc, deal.rwlocks, deal.threads)?,
        })
    }

    /// The store at the start of a run again, of a deal of the same sizes. Takes no memory.
    pub fn restart(&mut self, deal: &Deal)
        requires { sizes_of self.old ≡ sizes_of_deal deal.now }
        ensures first { self.new ≡ first_store deal.now }
        ensures sizes { sizes_of self.new ≡ sizes_of_deal deal.now }
    {
        self.variables.restart(&deal.vars);
        self.mutexes.restart();
        Condition::restart_all(self.conditions.as_mut_slice());
        self.semaphores.restart(&deal.sems);
        Barrier::restart_all(self.barriers.as_mut_slice(), &deal.barriers);
        self.started.clear();
        ReadWriteLock::restart_all(self.rwlocks.as_mut_slice());
    }

    /// Whether a thread was started by another one.
    pub fn is_started(&self, thread: u32) -> bool
        requires { thread < self.now.threads }
        ensures { result ≡ is_on thread self.now.started }
    {
        self.started.has(thread)
    }

    pub(crate) fn start(&mut self, thread: u32, line: u32, target: u32) -> Stepped
        requires { target < self.old.threads }
        ensures store { self.new
            ≡ store_after self.old (effect self.old thread line (Ask.Start target)) }
        ensures applied { applied_by result
            ≡ applied_of (effect self.old thread line (Ask.Start target)) }
    {
        let fresh = !self.started.has(target);
        if fresh {
            self.started.add(target);
        }
        Stepped::done_or(
            fresh,
            Stepped::Misuse {
                thread,
                line,
                kind: MisuseKind::AlreadyStarted,
            },
        )
    }
}
