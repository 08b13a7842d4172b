ghost use Rattle.std.specs.Prelude.{◌≡◌, ◌<◌, ◌↔◌, ℕ, IsTrue, length};
ghost use Rattle.pct_ask.specs.Objects.{IsInRange};
ghost use Rattle.sync_store.specs.Store.{sizes_of};
ghost use Rattle.sync_store.specs.Ready.{readiness, away_by, ended_by};

use crate::ready::Ready;
use crate::store::Store;
use pct_ask::{Ask, Standing};

impl Store {
    /// Whether an ask of a thread may take its step, where `standings` has what is known of each
    /// thread.
    pub fn ready(&self, standings: &[Standing], thread: u32, ask: &Ask) -> Ready
        requires thread { thread < self.now.threads }
        requires standings { length standings.now ≡ self.now.threads }
        requires ask { IsInRange (sizes_of self.now) ask.now }
        ensures unknown { (u : ℕ) → (result ≡ Ready.Unknown u)
            ↔ ((ask.now ≡ Ask.Join u) × IsTrue (away_by standings.now u)) }
        ensures ready { result
            ≡ readiness self.now (away_by standings.now) (ended_by standings.now) thread ask.now }
    {
        match *ask {
            Ask::Lock { mutex } => Ready::of(self.mutexes.is_free(mutex)),
            Ask::Regain { cond, mutex } => Ready::of(
                self.conditions[cond as usize].has_woken(thread) && self.mutexes.is_free(mutex),
            ),
            Ask::Down { sem } => Ready::of(self.semaphores.is_open(sem)),
            Ask::Leave { barrier } => {
                Ready::of(self.barriers[barrier as usize].has_released(thread))
            }
            Ask::Join { thread: target } => match standings[target as usize] {
                Standing::Away => Ready::Unknown { target },
                Standing::Asks => Ready::No,
                Standing::Ended => Ready::Yes,
            },
            Ask::Begin => Ready::of(self.started.has(thread)),
            Ask::RdLock { rwlock } => Ready::of(self.rwlocks[rwlock as usize].has_no_writer()),
            Ask::WrLock { rwlock } => {
                let lock = &self.rwlocks[rwlock as usize];
                Ready::of(lock.has_no_writer() && lock.is_unread())
            }
            Ask::Read { .. }
            | Ask::Write { .. }
            | Ask::Add { .. }
            | Ask::Cas { .. }
            | Ask::TryLock { .. }
            | Ask::Unlock { .. }
            | Ask::Release { .. }
            | Ask::Signal { .. }
            | Ask::Broadcast { .. }
            | Ask::TryDown { .. }
            | Ask::Up { .. }
            | Ask::Arrive { .. }
            | Ask::Yield
            | Ask::Check { .. }
            | Ask::Fault { .. }
            | Ask::Start { .. }
            | Ask::TryRdLock { .. }
            | Ask::TryWrLock { .. }
            | Ask::RwUnlock { .. } => Ready::Yes,
        }
    }
}
