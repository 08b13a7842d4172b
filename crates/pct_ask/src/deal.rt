ghost use Rattle.std.specs.Prelude.{◌≡◌, ◌≤◌, length, All, IfOk};
ghost use Rattle.pct_ask.specs.Ranges.{IsSemValue, IsBarrierCount};
ghost use Rattle.pct_ask.specs.declared.limits.TheConstants.{MAX_OBJECTS, MAX_THREADS};

use crate::sequence::NumberList;
use std::alloc::{AllocError as NoMemory, Global};

/// What the threads of a test share: how many objects there are of each kind, and their first
/// values.
#[derive(Debug, Drop)]
pub struct Deal {
    pub threads: u32,
    /// The first value of each variable.
    pub vars: NumberList,
    pub mutexes: u32,
    pub conds: u32,
    /// The first value of each semaphore.
    pub sems: NumberList,
    /// How many threads meet at each barrier.
    pub barriers: NumberList,
    pub rwlocks: u32,
    ghost some_thread: { 1 ≤ threads },
    ghost few_threads: { threads ≤ MAX_THREADS },
    ghost few_vars: { length vars ≤ MAX_OBJECTS },
    ghost few_mutexes: { mutexes ≤ MAX_OBJECTS },
    ghost few_conds: { conds ≤ MAX_OBJECTS },
    ghost few_sems: { length sems ≤ MAX_OBJECTS },
    ghost few_barriers: { length barriers ≤ MAX_OBJECTS },
    ghost few_rwlocks: { rwlocks ≤ MAX_OBJECTS },
    ghost sem_values: { All IsSemValue sems },
    ghost barrier_counts: { All IsBarrierCount barriers },
}

impl Deal {
    /// An equal deal in memory of its own.
    pub fn copy(&self, alloc: Global) -> Result<Self, NoMemory>
        ensures { IfOk result (λ copy. copy ≡ self.now) }
    {
        Ok(Deal {
            threads: self.threads,
            vars: self.vars.copy(alloc)?,
            mutexes: self.mutexes,
            conds: self.conds,
            sems: self.sems.copy(alloc)?,
            barriers: self.barriers.copy(alloc)?,
            rwlocks: self.rwlocks,
        })
    }
}
