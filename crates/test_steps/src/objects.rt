ghost use Rattle.std.specs.Prelude.{◌≡◌, IfOk};
ghost use Rattle.pct_ask.specs.Objects.{sizes_of_deal};
ghost use Rattle.sync_store.specs.Store.{sizes_of};

use crate::samples::deal_of;
use pct_ask::{Ask, Deal, FaultKind, MisuseKind, Standing, Verdict};
use std::alloc::{AllocError, Global};
use std::process::Abort;
use std::test::Fail;
use sync_store::{Applied, Ready, Store, Touched};

/// What becomes of an ask while all other threads have ended.
#[derive(Clone, Copy, Debug, PartialEq, Eq)]
enum Seen {
    Told(i64),
    Waits,
    Ends(Verdict),
}

const LINE: u32 = 7;

/// What three threads share, at the start of a run.
fn small_store(alloc: Global) -> Result<(Deal, Store), AllocError>
    ensures { IfOk result (λ both. sizes_of both.1 ≡ sizes_of_deal both.0) }
{
    let deal = deal_of(alloc, 3, 5)?;
    match Store::new(alloc, &deal) {
        Ok(store) => Ok((deal, store)),
        Err(error) => {
            drop(deal);
            Err(error)
        }
    }
}

fn see(rt: &impl Abort, deal: &Deal, store: &mut Store, thread: u32, ask: Ask) -> Seen
    requires { sizes_of store.old ≡ sizes_of_deal deal.now }
    ensures { sizes_of store.new ≡ sizes_of_deal deal.now }
{
    assert_eq!(rt; deal.threads, 3);
    assert!(rt; thread < 3);
    assert!(rt; deal.has_objects_of(&ask));
    let mut standings = [Standing::Ended; 3];
    standings[thread as usize] = Standing::Asks;
    match store.ready(&standings, thread, &ask) {
        Ready::Yes => match store.apply(thread, LINE, &ask) {
            Applied::Answer(answer) => Seen::Told(answer),
            Applied::Ends(verdict) => Seen::Ends(verdict),
        },
        Ready::No => Seen::Waits,
        Ready::Unknown { .. } => panic!(rt; "no thread is away"),
    }
}

/// A thread, its ask, and what becomes of it.
type Step = (u32, Ask, Seen);

fn expect_each(rt: &impl Abort, deal: &Deal, store: &mut Store, steps: &[Step])
    requires { sizes_of store.old ≡ sizes_of_deal deal.now }
    ensures { sizes_of store.new ≡ sizes_of_deal deal.now }
{
    for (thread, ask, wanted) in steps {
        let seen = see(rt, deal, store, *thread, *ask);
        assert_eq!(rt; seen, *wanted, "{thread} {ask:?}");
    }
}

/// What becomes of asks, one after another, from the beginning on, twice.
fn expect(rt: &impl Abort, alloc: Global, steps: &[Step]) -> Result<(), Fail> {
    let (deal, mut store) = small_store(alloc)?;
    expect_each(rt, &deal, &mut store, steps);
    store.restart(&deal);
    expect_each(rt, &deal, &mut store, steps);
    drop(store);
    drop(deal);
    Ok(())
}

macro_rules! misuse {
    ($thread:literal, $kind:expr) => {
        Seen::Ends(Verdict::Misuse {
            thread: $thread,
            line: LINE,
            kind: $kind,
        })
    };
}

macro_rules! fault {
    ($thread:literal, $kind:expr) => {
        Seen::Ends(Verdict::Fault {
            thread: $thread,
            line: LINE,
            kind: $kind,
        })
    };
}

/// An addition to the variable.
macro_rules! add {
    ($value:expr) => {
        Ask::Add {
            var: 0,
            value: $value,
        }
    };
}

/// A compare-and-swap of the variable.
macro_rules! exchange {
    ($old:expr, $new:expr) => {
        Ask::Cas {
            var: 0,
            old: $old,
            new: $new,
        }
    };
}

const VARIABLES: [Step; 8] = [
    (0, Ask::Read { var: 0 }, Seen::Told(5)),
    (1, Ask::Write { var: 0, value: 7 }, Seen::Told(0)),
    (0, add!(3), Seen::Told(7)),
    (1, add!(i64::MAX), fault!(1, FaultKind::Overflow)),
    (0, exchange!(10, i64::MIN), Seen::Told(1)),
    (0, exchange!(10, 1), Seen::Told(0)),
    (1, add!(-1), fault!(1, FaultKind::Overflow)),
    (2, Ask::Read { var: 0 }, Seen::Told(i64::MIN)),
];

#[test]
fn variables(rt: HostRuntime) -> Result<(), Fail> {
    expect(&rt, rt.alloc(), &VARIABLES)
}

const MUTEXES: [Step; 10] = [
    (
        0,
        Ask::Unlock { mutex: 0 },
        misuse!(0, MisuseKind::NotOwner),
    ),
    (0, Ask::Lock { mutex: 0 }, Seen::Told(0)),
    (0, Ask::Lock { mutex: 0 }, Seen::Waits),
    (1, Ask::Lock { mutex: 0 }, Seen::Waits),
    (1, Ask::TryLock { mutex: 0 }, Seen::Told(0)),
    (
        1,
        Ask::Unlock { mutex: 0 },
        misuse!(1, MisuseKind::NotOwner),
    ),
    (1, Ask::Lock { mutex: 1 }, Seen::Told(0)),
    (0, Ask::Unlock { mutex: 0 }, Seen::Told(0)),
    (1, Ask::TryLock { mutex: 0 }, Seen::Told(1)),
    (1, Ask::Unlock { mutex: 0 }, Seen::Told(0)),
];

#[test]
fn mutexes(rt: HostRuntime) -> Result<(), Fail> {
    expect(&rt, rt.alloc(), &MUTEXES)
}

// A signal is lost where nobody waits. Three threads wait with two mutexes and are woken together.
const CONDITIONS: [Step; 17] = [
    (
        0,
        Ask::Release { cond: 0, mutex: 0 },
        misuse!(0, MisuseKind::NotOwner),
    ),
    (0, Ask::Signal { cond: 0 }, Seen::Told(0)),
    (0, Ask::Lock { mutex: 0 }, Seen::Told(0)),
    (0, Ask::Release { cond: 0, mutex: 0 }, Seen::Told(0)),
    (1, Ask::Lock { mutex: 1 }, Seen::Told(0)),
    (1, Ask::Release { cond: 0, mutex: 1 }, Seen::Told(0)),
    (2, Ask::Lock { mutex: 0 }, Seen::Told(0)),
    (2, Ask::Release { cond: 0, mutex: 0 }, Seen::Told(0)),
    (0, Ask::Regain { cond: 0, mutex: 0 }, Seen::Waits),
    (0, Ask::Broadcast { cond: 0 }, Seen::Told(3)),
    (0, Ask::Broadcast { cond: 0 }, Seen::Told(0)),
    (2, Ask::Regain { cond: 0, mutex: 0 }, Seen::Told(0)),
    (0, Ask::Regain { cond: 0, mutex: 0 }, Seen::Waits),
    (1, Ask::Regain { cond: 0, mutex: 1 }, Seen::Told(0)),
    (2, Ask::Unlock { mutex: 0 }, Seen::Told(0)),
    (2, Ask::Regain { cond: 0, mutex: 0 }, Seen::Waits),
    (0, Ask::Regain { cond: 0, mutex: 0 }, Seen::Told(0)),
];

#[test]
fn conditions(rt: HostRuntime) -> Result<(), Fail> {
    expect(&rt, rt.alloc(), &CONDITIONS)
}

// A thread that waits twice stands on the list once, and signals wake the longest waiter first.
const WAITS_TWICE: [Step; 17] = [
    (0, Ask::Lock { mutex: 0 }, Seen::Told(0)),
    (0, Ask::Release { cond: 0, mutex: 0 }, Seen::Told(0)),
    (1, Ask::Lock { mutex: 1 }, Seen::Told(0)),
    (1, Ask::Release { cond: 0, mutex: 1 }, Seen::Told(0)),
    (0, Ask::Lock { mutex: 0 }, Seen::Told(0)),
    (0, Ask::Release { cond: 0, mutex: 0 }, Seen::Told(0)),
    (2, Ask::Signal { cond: 0 }, Seen::Told(1)),
    (1, Ask::Regain { cond: 0, mutex: 1 }, Seen::Waits),
    (0, Ask::Lock { mutex: 0 }, Seen::Told(0)),
    (0, Ask::Release { cond: 0, mutex: 0 }, Seen::Told(0)),
    (2, Ask::Signal { cond: 0 }, Seen::Told(1)),
    (1, Ask::Regain { cond: 0, mutex: 1 }, Seen::Told(0)),
    (2, Ask::Signal { cond: 0 }, Seen::Told(1)),
    (2, Ask::Signal { cond: 0 }, Seen::Told(0)),
    (0, Ask::Regain { cond: 0, mutex: 0 }, Seen::Told(0)),
    (0, Ask::Unlock { mutex: 0 }, Seen::Told(0)),
    (0, Ask::Regain { cond: 0, mutex: 0 }, Seen::Waits),
];

#[test]
fn waits_twice(rt: HostRuntime) -> Result<(), Fail> {
    expect(&rt, rt.alloc(), &WAITS_TWICE)
}

const SEMAPHORES: [Step; 10] = [
    (0, Ask::Down { sem: 0 }, Seen::Told(0)),
    (0, Ask::Down { sem: 0 }, Seen::Waits),
    (1, Ask::TryDown { sem: 0 }, Seen::Told(0)),
    (1, Ask::Up { sem: 0 }, Seen::Told(0)),
    (0, Ask::TryDown { sem: 0 }, Seen::Told(1)),
    (0, Ask::TryDown { sem: 0 }, Seen::Told(0)),
    (2, Ask::Up { sem: 1 }, misuse!(2, MisuseKind::SemFull)),
    (2, Ask::Down { sem: 1 }, Seen::Told(0)),
    (2, Ask::Up { sem: 1 }, Seen::Told(0)),
    (2, Ask::Up { sem: 1 }, misuse!(2, MisuseKind::SemFull)),
];

#[test]
fn semaphores(rt: HostRuntime) -> Result<(), Fail> {
    expect(&rt, rt.alloc(), &SEMAPHORES)
}

// A barrier of one, and one of three at which the threads meet twice. A thread that arrives again
// before it has left keeps its old entry.
const BARRIERS: [Step; 18] = [
    (0, Ask::Leave { barrier: 0 }, Seen::Waits),
    (0, Ask::Arrive { barrier: 0 }, Seen::Told(0)),
    (0, Ask::Leave { barrier: 0 }, Seen::Told(1)),
    (0, Ask::Leave { barrier: 0 }, Seen::Waits),
    (0, Ask::Arrive { barrier: 1 }, Seen::Told(0)),
    (0, Ask::Arrive { barrier: 1 }, Seen::Told(0)),
    (1, Ask::Arrive { barrier: 1 }, Seen::Told(0)),
    (0, Ask::Leave { barrier: 1 }, Seen::Waits),
    (2, Ask::Arrive { barrier: 1 }, Seen::Told(0)),
    (0, Ask::Leave { barrier: 1 }, Seen::Told(0)),
    (1, Ask::Leave { barrier: 1 }, Seen::Told(0)),
    (2, Ask::Arrive { barrier: 1 }, Seen::Told(0)),
    (1, Ask::Arrive { barrier: 1 }, Seen::Told(0)),
    (0, Ask::Arrive { barrier: 1 }, Seen::Told(0)),
    (2, Ask::Leave { barrier: 1 }, Seen::Told(1)),
    (2, Ask::Leave { barrier: 1 }, Seen::Waits),
    (1, Ask::Leave { barrier: 1 }, Seen::Told(0)),
    (0, Ask::Leave { barrier: 1 }, Seen::Told(1)),
];

#[test]
fn barriers(rt: HostRuntime) -> Result<(), Fail> {
    expect(&rt, rt.alloc(), &BARRIERS)
}

const FAILED: Verdict = Verdict::Failed {
    thread: 1,
    line: LINE,
};

const THREADS: [Step; 10] = [
    (0, Ask::Join { thread: 1 }, Seen::Told(0)),
    (0, Ask::Join { thread: 0 }, Seen::Waits),
    (0, Ask::Yield, Seen::Told(0)),
    (0, Ask::Check { holds: true }, Seen::Told(0)),
    (1, Ask::Check { holds: false }, Seen::Ends(FAILED)),
    (
        2,
        Ask::Fault {
            kind: FaultKind::Spin,
        },
        fault!(2, FaultKind::Spin),
    ),
    (1, Ask::Begin, Seen::Waits),
    (0, Ask::Start { thread: 1 }, Seen::Told(0)),
    (1, Ask::Begin, Seen::Told(0)),
    (
        2,
        Ask::Start { thread: 1 },
        misuse!(2, MisuseKind::AlreadyStarted),
    ),
];

#[test]
fn threads(rt: HostRuntime) -> Result<(), Fail> {
    expect(&rt, rt.alloc(), &THREADS)
}

const READ_WRITE_LOCKS: [Step; 17] = [
    (
        2,
        Ask::RwUnlock { rwlock: 0 },
        misuse!(2, MisuseKind::NotOwner),
    ),
    (0, Ask::RdLock { rwlock: 0 }, Seen::Told(0)),
    (1, Ask::TryRdLock { rwlock: 0 }, Seen::Told(1)),
    (2, Ask::WrLock { rwlock: 0 }, Seen::Waits),
    (2, Ask::TryWrLock { rwlock: 0 }, Seen::Told(0)),
    (
        2,
        Ask::RwUnlock { rwlock: 0 },
        misuse!(2, MisuseKind::NotOwner),
    ),
    (0, Ask::RwUnlock { rwlock: 0 }, Seen::Told(0)),
    (1, Ask::RwUnlock { rwlock: 0 }, Seen::Told(0)),
    (2, Ask::WrLock { rwlock: 0 }, Seen::Told(0)),
    (2, Ask::WrLock { rwlock: 0 }, Seen::Waits),
    (0, Ask::RdLock { rwlock: 0 }, Seen::Waits),
    (0, Ask::TryRdLock { rwlock: 0 }, Seen::Told(0)),
    (0, Ask::TryWrLock { rwlock: 0 }, Seen::Told(0)),
    (
        0,
        Ask::RwUnlock { rwlock: 0 },
        misuse!(0, MisuseKind::NotOwner),
    ),
    (2, Ask::RwUnlock { rwlock: 0 }, Seen::Told(0)),
    (0, Ask::TryWrLock { rwlock: 0 }, Seen::Told(1)),
    (0, Ask::RwUnlock { rwlock: 0 }, Seen::Told(0)),
];

#[test]
fn read_write_locks(rt: HostRuntime) -> Result<(), Fail> {
    expect(&rt, rt.alloc(), &READ_WRITE_LOCKS)
}

const READ: Ask = Ask::RdLock { rwlock: 0 };

/// A read lock after a thousand of them.
const READS_MORE: [Step; 5] = [
    (0, READ, misuse!(0, MisuseKind::TooManyReads)),
    (0, Ask::TryRdLock { rwlock: 0 }, Seen::Told(0)),
    (1, READ, Seen::Told(0)),
    (0, Ask::RwUnlock { rwlock: 0 }, Seen::Told(0)),
    (0, READ, Seen::Told(0)),
];

#[test]
fn read_holds(rt: HostRuntime) -> Result<(), Fail> {
    let mut steps = vec![in rt.alloc(); (0, READ, Seen::Told(0)); 1000]?;
    steps.extend_from_slice(&READS_MORE)?;
    expect(&rt, rt.alloc(), &steps)
}

/// Whether the first thread may do what it asks, where the second is away and the third has ended.
fn ready_to(rt: &impl Abort, deal: &Deal, store: &Store, ask: Ask) -> Ready
    requires { sizes_of store.now ≡ sizes_of_deal deal.now }
{
    assert_eq!(rt; deal.threads, 3);
    assert!(rt; deal.has_objects_of(&ask));
    let standings = [Standing::Asks, Standing::Away, Standing::Ended];
    store.ready(&standings, 0, &ask)
}

/// Each ask is so ready, and no thread is started.
fn expect_ready(rt: &impl Abort, alloc: Global, asks: &[(Ask, Ready)]) -> Result<(), Fail> {
    let (deal, store) = small_store(alloc)?;
    for (ask, wanted) in asks {
        assert_eq!(rt; ready_to(rt, &deal, &store, *ask), *wanted, "{ask:?}");
    }
    assert_eq!(rt; deal.threads, 3);
    assert!(rt; !store.is_started(1));
    drop(store);
    drop(deal);
    Ok(())
}

// The answer to a join goes with its target, and no other ask looks at the other threads.
const JOINS: [(Ask, Ready); 5] = [
    (Ask::Join { thread: 0 }, Ready::No),
    (Ask::Join { thread: 1 }, Ready::Unknown { target: 1 }),
    (Ask::Join { thread: 2 }, Ready::Yes),
    (Ask::Lock { mutex: 1 }, Ready::Yes),
    (Ask::Begin, Ready::No),
];

#[test]
fn joins(rt: HostRuntime) -> Result<(), Fail> {
    expect_ready(&rt, rt.alloc(), &JOINS)
}

/// What the store names as touched by an ask.
const TOUCHED: [(Ask, Touched); 8] = [
    (Ask::Read { var: 1 }, Touched::Nothing),
    (Ask::Regain { cond: 1, mutex: 2 }, Touched::Mutex(2)),
    (Ask::Broadcast { cond: 1 }, Touched::Cond(1)),
    (Ask::TryDown { sem: 3 }, Touched::Sem(3)),
    (Ask::Leave { barrier: 4 }, Touched::Barrier(4)),
    (Ask::Start { thread: 5 }, Touched::Thread(5)),
    (Ask::Begin, Touched::Nothing),
    (Ask::TryRdLock { rwlock: 6 }, Touched::RwLock(6)),
];

#[test]
fn touched_objects(rt: HostRuntime) {
    for (ask, wanted) in &TOUCHED {
        assert_eq!(rt; Store::touched(ask), *wanted, "{ask:?}");
    }
}
