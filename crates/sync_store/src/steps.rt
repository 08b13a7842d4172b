ghost use Rattle.std.specs.Prelude.{◌≡◌, ◌<◌, pos, if◌then◌else◌, IsTrue};
ghost use Rattle.pct_ask.specs.Objects.{IsInRange};
ghost use Rattle.sync_store.specs.Store.{sizes_of};
ghost use Rattle.sync_store.specs.Enabled.{enabled, others_ended};
ghost use Rattle.sync_store.specs.Effect.{effect, store_after, applied_of};
ghost use Rattle.sync_store.specs.Stepped.{applied_by};
ghost use Rattle.sync_store.specs.Touched.{KeepsOthers, touched_of};
ghost use Rattle.pct_ask.specs.declared.Verdict.{Verdict};

use crate::applied::{Applied, Stepped};
use crate::store::Store;
use pct_ask::Ask;

/// An assertion ends the run where it doesn't hold.
fn check(thread: u32, line: u32, holds: bool) -> Stepped
    ensures { result ≡ (if holds then Stepped.Answer (pos 0) else Stepped.Failed thread line) }
{
    Stepped::done_or(holds, Stepped::Failed { thread, line })
}

impl Store {
    /// Takes the step of a thread's ask, which stands on a line of the test. It takes no memory,
    /// and its time grows with the number of threads at most.
    pub fn apply(&mut self, thread: u32, line: u32, ask: &Ask) -> Applied
        requires thread { thread < self.old.threads }
        requires ask { IsInRange (sizes_of self.old) ask.now }
        requires enabled { IsTrue (enabled self.old (others_ended thread) thread ask.now) }
        ensures store { self.new ≡ store_after self.old (effect self.old thread line ask.now) }
        ensures applied { result ≡ applied_of (effect self.old thread line ask.now) }
        ensures unchanged { (verdict : Verdict) → result ≡ Applied.Ends verdict
            → self.new ≡ self.old }
        ensures sizes { sizes_of self.new ≡ sizes_of self.old }
        ensures others { KeepsOthers thread (touched_of ask.now) self.old self.new }
    {
        self.take_step(thread, line, ask).applied()
    }

    /// As `apply`, without the room that a verdict takes.
    pub fn take_step(&mut self, thread: u32, line: u32, ask: &Ask) -> Stepped
        requires thread { thread < self.old.threads }
        requires ask { IsInRange (sizes_of self.old) ask.now }
        requires enabled { IsTrue (enabled self.old (others_ended thread) thread ask.now) }
        ensures store { self.new ≡ store_after self.old (effect self.old thread line ask.now) }
        ensures applied { applied_by result ≡ applied_of (effect self.old thread line ask.now) }
        ensures sizes { sizes_of self.new ≡ sizes_of self.old }
        ensures others { KeepsOthers thread (touched_of ask.now) self.old self.new }
    {
        self.step(thread, line, *ask)
    }

    fn step(&mut self, thread: u32, line: u32, ask: Ask) -> Stepped
        requires thread { thread < self.old.threads }
        requires ask { IsInRange (sizes_of self.old) ask }
        requires enabled { IsTrue (enabled self.old (others_ended thread) thread ask) }
        ensures store { self.new ≡ store_after self.old (effect self.old thread line ask) }
        ensures applied { applied_by result ≡ applied_of (effect self.old thread line ask) }
    {
        match ask {
            Ask::Read { var } => return Stepped::Answer(self.variables.read(var)),
            Ask::Write { var, value } => self.write(var, value),
            Ask::Add { var, value } => return self.add(thread, line, var, value),
            Ask::Cas { var, old, new } => return self.compare_exchange(var, old, new),
            Ask::Lock { mutex } => self.lock(thread, mutex),
            Ask::TryLock { mutex } => return self.try_lock(thread, mutex),
            Ask::Unlock { mutex } => return self.unlock(thread, line, mutex),
            Ask::Release { cond, mutex } => return self.release(thread, line, cond, mutex),
            Ask::Regain { cond, mutex } => self.regain(thread, cond, mutex),
            Ask::Signal { cond } => return self.signal(cond),
            Ask::Broadcast { cond } => return self.broadcast(cond),
            Ask::Down { sem } => self.down(sem),
            Ask::TryDown { sem } => return self.try_down(sem),
            Ask::Up { sem } => return self.up(thread, line, sem),
            Ask::Arrive { barrier } => self.arrive(thread, barrier),
            Ask::Leave { barrier } => return self.leave(thread, barrier),
            Ask::Join { .. } | Ask::Yield | Ask::Begin => {}
            Ask::Check { holds } => return check(thread, line, holds),
            Ask::Fault { kind } => return Stepped::Fault { thread, line, kind },
            Ask::Start { thread: target } => return self.start(thread, line, target),
            Ask::RdLock { rwlock } => return self.read_lock(thread, line, rwlock),
            Ask::WrLock { rwlock } => self.write_lock(thread, rwlock),
            Ask::TryRdLock { rwlock } => return self.try_read_lock(thread, rwlock),
            Ask::TryWrLock { rwlock } => return self.try_write_lock(thread, rwlock),
            Ask::RwUnlock { rwlock } => return self.read_write_unlock(thread, line, rwlock),
        }
        Stepped::Answer(0)
    }
}
