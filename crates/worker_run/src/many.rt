// Many tests, for which workers are started once.
ghost use Rattle.std.specs.Prelude.{◌≡◌, ◌≤◌, length, IfOk, vec_len, vec_capacity};
ghost use Rattle.turn_lock.specs.Views.{HasSeat};
ghost use Rattle.worker_run.specs.Batch.{Each, IsSeatOf};
ghost use Rattle.worker_run.specs.Batches.{AreShares};
ghost use Rattle.worker_run.specs.Tests.{IsTest, AreTests, IsRunOf, AllTold, IsLockOf};
ghost use Rattle.worker_run.specs.Tests.{IsFirstShare};
ghost use Rattle.pct_ask.specs.declared.limits.TheConstants.{MAX_THREADS};

use crate::batch::{RunningTest, Share, Test};
use crate::lent::runners_of;
use crate::played::Played;
use crate::run::{finish, new_lock};
use crate::serving::{Serve, Serving};
use crate::share::has_runner;
use crate::task_lists::empty_lists;
use crate::workers::serve_tests;
use pct_ask::{Body, EventList};
use pct_gate::Gate;
use policy_pick::Policy;
use std::alloc::{AllocError as NoMemory, Global};
use std::snapshot::Snapshot;
use std::sync::Wait;
use std::thread::Threads;
use turn_lock::TurnLock;

/// A test's lock, and the caller's share before the first post, which has all of its threads. The
/// run's steps stand in the memory of a trace that nobody needs any more.
fn set_up<P: Policy, B: Body>(
    alloc: Global,
    test: Test<P, B>,
    trace: EventList,
) -> Result<(TurnLock<P>, Share<P, B>), NoMemory>
    requires test { IsTest B.pending P.plan P.stands test }
    ensures lock { IfOk result (λ r. IsLockOf P.plan test r.0) }
    ensures share { IfOk result (λ r. IsFirstShare P.plan test r.1) }
    ensures of { IfOk result (λ r. HasSeat r.0 r.1.seat) }
{
    let Test {
        deal,
        policy,
        limit,
        bodies,
    } = test;
    let (lock, seat) = new_lock(alloc, deal, policy, limit, trace)?;
    let runners = runners_of(alloc, bodies)?;
    Ok((lock, Share { seat, runners }))
}

/// The locks of all tests, and the caller's shares.
fn set_up_all<P: Policy, B: Body>(
    alloc: Global,
    tests: Vec<Test<P, B>>,
    serving: &mut Serving,
) -> Result<(Vec<TurnLock<P>>, Vec<Share<P, B>>), NoMemory>
    requires tests { AreTests B.pending P.plan P.stands tests.items }
    ensures locks { IfOk result (λ r. Each (IsLockOf P.plan) tests.items r.0.items) }
    ensures shares { IfOk result (λ r. Each (IsFirstShare P.plan) tests.items r.1.items) }
    ensures of { IfOk result (λ r.
        Each (λ lock share. HasSeat lock share.seat) r.0.items r.1.items) }
    ensures by { serving.new.by ≡ serving.old.by }
{
    let mut locks = Vec::with_capacity(alloc, tests.len())?;
    let mut shares = Vec::with_capacity(alloc, tests.len())?;
    for test in tests {
        let (lock, share) = set_up(alloc, test, serving.next_trace(alloc))?;
        locks.push(lock)?;
        shares.push(share)?;
    }
    Ok((locks, shares))
}

/// The running tests: each lock with the runners of its test's share.
fn running_tests_of<'l, P: Policy, B: Body>(
    alloc: Global,
    locks: &'l [TurnLock<P>],
    shares: &[Share<P, B>],
) -> Result<Vec<RunningTest<'l, P, B>>, NoMemory>
    requires { length shares.now ≡ length locks.now }
    ensures locks { IfOk result (λ running.
        Each (λ lock test. test.lock.now ≡ lock) locks.now running.items) }
    ensures shares { IfOk result (λ running.
        Each (λ share test. test.runners.value ≡ share.runners) shares.now running.items) }
{
    let mut running = Vec::with_capacity(alloc, locks.len())?;
    for index in 0..locks.len() {
        let runners = Snapshot::of(&shares[index].runners);
        let lock = &locks[index];
        running.push_reserved(RunningTest { lock, runners });
    }
    Ok(running)
}

/// The most threads that a test has.
fn most_threads<P: Policy, B: Body>(running: &[RunningTest<P, B>], shares: &[Share<P, B>]) -> u32
    requires shares { AreShares B.pending running.now shares.now }
    ensures { result ≤ MAX_THREADS }
{
    let mut most = 0;
    for index in 0..running.len() {
        most = shares[index].runners.len().max(most);
    }
    most as u32
}

/// Plays the tests on their locks, where the caller's shares have all threads.
fn play_tests<R: Threads + Wait + Sync, P: Policy, B: Body, G: Gate>(
    rt: &R,
    alloc: Global,
    tests: &Snapshot<Vec<Test<P, B>>>,
    locks: &[TurnLock<P>],
    shares: Vec<Share<P, B>>,
    gate: &G,
) -> Result<Vec<Share<P, B>>, NoMemory>
    requires tests { AreTests B.pending P.plan P.stands tests.now.value.items }
    requires locks { Each (IsLockOf P.plan) tests.now.value.items locks.now }
    requires shares { Each (IsFirstShare P.plan) tests.now.value.items shares.items }
    requires of { Each (λ lock share. HasSeat lock share.seat) locks.now shares.items }
    ensures seats { IfOk result (λ after.
        Each (λ lock share. IsSeatOf lock share.seat) locks.now after.items) }
    ensures told { IfOk result (λ after.
        AllTold B.pending P.plan tests.now.value.items after.items) }
{
    let _ = tests; // which the clauses name
    let running = running_tests_of(alloc, locks, shares.as_slice())?;
    let most = most_threads(running.as_slice(), shares.as_slice());
    let lists = empty_lists(alloc, running.len(), most)?;
    Ok(serve_tests(rt, &running, shares, lists, gate))
}

/// The runs of all tests, whose seats have seen that their threads were served.
fn runs_of<P: Policy, B: Body>(
    tests: Snapshot<Vec<Test<P, B>>>,
    locks: Vec<TurnLock<P>>,
    shares: Vec<Share<P, B>>,
    mut runs: Vec<Played>,
) -> Vec<Played>
    requires tests { AreTests B.pending P.plan P.stands tests.value.items }
    requires locks { Each (IsLockOf P.plan) tests.value.items locks.items }
    requires seats { Each (λ lock share. IsSeatOf lock share.seat) locks.items shares.items }
    requires told { AllTold B.pending P.plan tests.value.items shares.items }
    requires none { vec_len runs ≡ 0 }
    requires room { vec_capacity runs ≡ length locks.items }
    ensures { Each (IsRunOf B.pending P.plan) tests.value.items result.items }
{
    let mut others = shares.into_iter();
    for lock in locks {
        let Some(share) = others.next() else {
            unreachable!()
        };
        runs.push_reserved(finish(lock, share.seat));
    }
    runs
}

/// How many tests are worth being run at once, where there are many. 2,000 seeds of a bounded
/// buffer took 0.35 seconds of processor time one by one, 0.14 in batches of 16 runs, 0.12 of 64
/// or 128, and 0.13 of 256.
pub const RUNS_AT_ONCE: u32 = 64;

/// Whether the caller served a body of one of the tests.
fn caller_served<P: Policy, B: Body>(shares: &[Share<P, B>]) -> bool {
    for index in 0..shares.len() {
        if has_runner(shares[index].runners.as_slice()) {
            return true;
        }
    }
    false
}

/// Runs many tests as `run_many` does, in the memory of traces that were taken back. Where a thread
/// couldn't be started, the caller is to serve what comes next.
pub fn run_many_by<R: Threads + Wait + Sync, P: Policy, B: Body, G: Gate>(
    rt: &R,
    alloc: Global,
    tests: Vec<Test<P, B>>,
    serving: &mut Serving,
    gate: &G,
) -> Result<Vec<Played>, NoMemory>
    requires tests { AreTests B.pending P.plan P.stands tests.items }
    ensures runs { IfOk result (λ runs. Each (IsRunOf B.pending P.plan) tests.items runs.items) }
    ensures caller { serving.old.by ≡ Serve.Caller → serving.new.by ≡ Serve.Caller }
{
    let runs = Vec::with_capacity(alloc, tests.len())?;
    let first = Snapshot::of(&tests);
    let (locks, shares) = set_up_all(alloc, tests, serving)?;
    let shares = play_tests(rt, alloc, &first, locks.as_slice(), shares, gate)?;
    if caller_served(shares.as_slice()) {
        serving.leave_to_caller();
    }
    Ok(runs_of(first, locks, shares, runs))
}

/// Runs many tests. A worker is started for each thread number up to the largest; it serves its
/// body of the first test, then that of the second, and so on, each until it has ended or its run
/// is over. Bodies that no worker can be started for are served by the caller. The gate is passed
/// before each post. Where there is no memory nothing was posted.
pub fn run_many<R: Threads + Wait + Sync, P: Policy, B: Body, G: Gate>(
    rt: &R,
    alloc: Global,
    tests: Vec<Test<P, B>>,
    gate: &G,
) -> Result<Vec<Played>, NoMemory>
    requires tests { AreTests B.pending P.plan P.stands tests.items }
    ensures runs { IfOk result (λ runs. Each (IsRunOf B.pending P.plan) tests.items runs.items) }
{
    let mut serving = Serving::new(alloc, Serve::Threads);
    run_many_by(rt, alloc, tests, &mut serving, gate)
}
