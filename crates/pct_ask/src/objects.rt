//! The threads and objects that an ask names.

ghost use Rattle.std.specs.Prelude.{◌↔◌, IsTrue};
ghost use Rattle.pct_ask.specs.Objects.{sizes_of_deal, IsInRange};

use crate::ask::Ask;
use crate::deal::Deal;

impl Deal {
    /// Whether the threads and objects that an ask names are there.
    pub fn has_objects_of(&self, ask: &Ask) -> bool
        ensures { IsTrue result ↔ IsInRange (sizes_of_deal self.now) ask.now }
    {
        match *ask {
            Ask::Read { var }
            | Ask::Write { var, .. }
            | Ask::Add { var, .. }
            | Ask::Cas { var, .. } => (var as usize) < self.vars.len(),
            Ask::Lock { mutex } | Ask::TryLock { mutex } | Ask::Unlock { mutex } => mutex
                < self.mutexes,
            Ask::Release { cond, mutex } | Ask::Regain { cond, mutex } => cond < self.conds
                && mutex < self.mutexes,
            Ask::Signal { cond } | Ask::Broadcast { cond } => cond < self.conds,
            Ask::Down { sem } | Ask::TryDown { sem } | Ask::Up { sem } => (sem as usize)
                < self.sems.len(),
            Ask::Arrive { barrier } | Ask::Leave { barrier } => (barrier as usize)
                < self.barriers.len(),
            Ask::Join { thread } | Ask::Start { thread } => thread < self.threads,
            Ask::Yield | Ask::Check { .. } | Ask::Fault { .. } | Ask::Begin => true,
            Ask::RdLock { rwlock }
            | Ask::WrLock { rwlock }
            | Ask::TryRdLock { rwlock }
            | Ask::TryWrLock { rwlock }
            | Ask::RwUnlock { rwlock } => rwlock < self.rwlocks,
        }
    }
}
