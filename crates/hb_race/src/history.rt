ghost use Rattle.std.specs.Prelude.{◌≡◌, ◌<◌, ◌+◌, ℕ, suc};
ghost use Rattle.hb_race.specs.Order.{Steps};
ghost use Rattle.hb_race.specs.Lasts.{Accesses, HasLasts, IsHistory, IsCurrent, IsLatest};
ghost use Rattle.hb_race.specs.Lasts.{IsGreatest, IsFlagged, NumbersRace, later, untold_step};
ghost use Rattle.hb_race.specs.Lasts.{lasts_of, with_last, new_history};
ghost use Rattle.pct_ask.specs.declared.limits.TheConstants.{MAX_THREADS};

use crate::access::{Access, AccessKind, conflict};
use crate::clock::Clock;
use crate::race::Race;
use pct_ask::MAX_THREADS;

/// A thread's last access of a variable of one kind.
#[derive(Clone, Copy)]
pub(crate) struct LastAccess {
    /// The number of the step, from 1.
    pub(crate) step: u32,
    /// Its number among the thread's own steps, from 1.
    pub(crate) own: u32,
}

/// The last access of each thread.
pub(crate) type LastAccesses = [Option<LastAccess>; MAX_THREADS];

/// What is kept of the accesses of one variable, until some of them race. All four kinds are kept
/// apart, so that an atomic access doesn't hide a plain one that came before it.
#[derive(Clone, Copy)]
pub(crate) struct History {
    pub(crate) plain_reads: LastAccesses,
    pub(crate) plain_writes: LastAccesses,
    pub(crate) atomic_reads: LastAccesses,
    pub(crate) atomic_writes: LastAccesses,
    pub(crate) race: Option<Race>,
}

/// The later one of two steps that may be.
fn later(a: Option<u32>, b: Option<u32>) -> Option<u32>
    ensures { result ≡ later a b }
{
    match (a, b) {
        (Some(m), Some(n)) => Some(m.max(n)),
        (Some(m), None) => Some(m),
        (None, b) => b,
    }
}

/// The step of a last access, where it isn't among the first `known` steps of its thread, which are
/// known to come before.
fn untold_step(last: Option<LastAccess>, known: u32) -> Option<u32>
    ensures { result ≡ untold_step last known }
{
    match last {
        Some(last) if known < last.own => Some(last.step),
        _ => None,
    }
}

/// The latest of other threads' last accesses of which a thread's clock doesn't tell.
fn latest_untold(lasts: &LastAccesses, thread: u32, clock: &Clock) -> Option<u32>
    ensures { IsLatest lasts.now thread clock.now MAX_THREADS result }
{
    let mut latest = None;
    for u in 0..MAX_THREADS {
        if u != thread as usize {
            latest = later(latest, untold_step(lasts[u], clock[u]));
        }
    }
    latest
}

impl History {
    /// No accesses yet.
    pub(crate) fn new() -> Self
        ensures { result ≡ new_history }
    {
        History {
            plain_reads: [None; MAX_THREADS],
            plain_writes: [None; MAX_THREADS],
            atomic_reads: [None; MAX_THREADS],
            atomic_writes: [None; MAX_THREADS],
            race: None,
        }
    }

    fn lasts(&self, kind: AccessKind) -> &LastAccesses
        ensures { result.now ≡ lasts_of kind self.now }
    {
        match kind {
            AccessKind::PlainRead => &self.plain_reads,
            AccessKind::PlainWrite => &self.plain_writes,
            AccessKind::AtomicRead => &self.atomic_reads,
            AccessKind::AtomicWrite => &self.atomic_writes,
        }
    }

    fn keep(&mut self, kind: AccessKind, thread: u32, last: LastAccess)
        requires { thread < MAX_THREADS }
        ensures { self.new ≡ with_last kind thread last self.old }
    {
        let thread = thread as usize;
        match kind {
            AccessKind::PlainRead => self.plain_reads[thread] = Some(last),
            AccessKind::PlainWrite => self.plain_writes[thread] = Some(last),
            AccessKind::AtomicRead => self.atomic_reads[thread] = Some(last),
            AccessKind::AtomicWrite => self.atomic_writes[thread] = Some(last),
        }
    }

    /// The latest step of a kind that races with the next step, an access of another kind.
    fn latest_of(
        &self,
        first: AccessKind,
        second: AccessKind,
        thread: u32,
        clock: &Clock,
    ) -> Option<u32>
        ensures { (s : Steps ℕ) (access : Accesses) (n : ℕ)
            → IsCurrent s access n second thread clock.now → HasLasts s access n self.now
            → IsGreatest (IsFlagged s access n first second) result }
    {
        if conflict(first, second) {
            latest_untold(self.lasts(first), thread, clock)
        } else {
            None
        }
    }

    /// The latest step that races with the next one.
    fn latest_race(&self, kind: AccessKind, thread: u32, clock: &Clock) -> Option<u32>
        ensures { (s : Steps ℕ) (access : Accesses) (n : ℕ)
            → IsCurrent s access n kind thread clock.now → HasLasts s access n self.now
            → IsGreatest (NumbersRace s access n) result }
    {
        let plain_read = self.latest_of(AccessKind::PlainRead, kind, thread, clock);
        let plain_write = self.latest_of(AccessKind::PlainWrite, kind, thread, clock);
        let atomic_read = self.latest_of(AccessKind::AtomicRead, kind, thread, clock);
        let atomic_write = self.latest_of(AccessKind::AtomicWrite, kind, thread, clock);
        later(
            later(plain_read, plain_write),
            later(atomic_read, atomic_write),
        )
    }

    /// Tests the next step against the last accesses, and then makes it one of them. Steps are
    /// numbered from 1.
    pub(crate) fn add(&mut self, access: Access, step: u32, thread: u32, clock: &Clock)
        requires { thread < MAX_THREADS }
        ensures { (s : Steps ℕ) (kinds : Accesses) (n : ℕ)
            → step ≡ n + 1 → IsCurrent s kinds n access.kind thread clock.now
            → IsHistory s kinds access.var n self.old
            → IsHistory s kinds access.var (suc n) self.new }
    {
        if self.race.is_some() {
            return;
        }
        match self.latest_race(access.kind, thread, clock) {
            Some(first) => {
                self.race = Some(Race {
                    var: access.var,
                    first,
                    second: step,
                });
            }
            None => {
                let own = clock[thread as usize];
                self.keep(access.kind, thread, LastAccess { step, own });
            }
        }
    }
}
