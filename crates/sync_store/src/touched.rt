ghost use Rattle.std.specs.Prelude.{◌≡◌};
ghost use Rattle.sync_store.specs.Touched.{touched_of};

use crate::store::Store;
use pct_ask::Ask;

/// The object that a step of a thread may have changed for the others.
#[derive(Clone, Copy, Debug, PartialEq, Eq, Hash)]
pub enum Touched {
    Nothing,
    Mutex(u32),
    Cond(u32),
    Sem(u32),
    Barrier(u32),
    Thread(u32),
    RwLock(u32),
}

impl Store {
    /// The object that the step of an ask touches. Only asks that depend on it may be more or less
    /// enabled afterwards.
    pub fn touched(ask: &Ask) -> Touched
        ensures { result ≡ touched_of ask.now }
    {
        match *ask {
            Ask::Lock { mutex }
            | Ask::TryLock { mutex }
            | Ask::Unlock { mutex }
            | Ask::Release { mutex, .. }
            | Ask::Regain { mutex, .. } => Touched::Mutex(mutex),
            Ask::Signal { cond } | Ask::Broadcast { cond } => Touched::Cond(cond),
            Ask::Down { sem } | Ask::TryDown { sem } | Ask::Up { sem } => Touched::Sem(sem),
            Ask::Arrive { barrier } | Ask::Leave { barrier } => Touched::Barrier(barrier),
            Ask::Start { thread } => Touched::Thread(thread),
            Ask::RdLock { rwlock }
            | Ask::WrLock { rwlock }
            | Ask::TryRdLock { rwlock }
            | Ask::TryWrLock { rwlock }
            | Ask::RwUnlock { rwlock } => Touched::RwLock(rwlock),
            Ask::Read { .. }
            | Ask::Write { .. }
            | Ask::Add { .. }
            | Ask::Cas { .. }
            | Ask::Join { .. }
            | Ask::Yield
            | Ask::Check { .. }
            | Ask::Fault { .. }
            | Ask::Begin => Touched::Nothing,
        }
    }
}
