// Each worker of a batch serves its body of the first test, then that of the second, and so on.
ghost use Rattle.std.specs.Prelude.{◌≡◌, ◌≤◌, ℕ, length};
ghost use Rattle.std.specs.Thread.{IsSync};
ghost use Rattle.worker_run.specs.Batches.{AreShares, AreTasks, AreTaskLists, AreEmptyLists};
ghost use Rattle.worker_run.specs.Batches.{AreSeats, AreBack, AreTold, AreToldBeside, Holds};
ghost use Rattle.worker_run.specs.Batches.{IsThere, ToldAt};
ghost use Rattle.pct_ask.specs.declared.limits.TheConstants.{MAX_THREADS};

use crate::batch::{RunningTest, Share, Task};
use crate::start::start;
use crate::task_lists::{fill_lists, join_tasks, serve_shares, serve_tasks, take_tasks};
use pct_ask::Body;
use pct_gate::Gate;
use policy_pick::Policy;
use std::snapshot::Snapshot;
use std::sync::Wait;
use std::sync::atomic::{AtomicBool, Ordering};
use std::thread;
use std::thread::{Promise, Threads};

/// What a worker was given.
#[derive(Drop)]
struct GivenTasks<P: Policy, B: Body> {
    tasks: Snapshot<Vec<Task<P, B>>>,
    thread: u32,
}

impl<P: Policy, B: Body> GivenTasks<P, B> {
    fn of(tasks: &Vec<Task<P, B>>, thread: u32) -> GivenTasks<P, B>
        ensures tasks { result.tasks.value ≡ tasks.now }
        ensures thread { result.thread ≡ thread }
    {
        GivenTasks {
            tasks: Snapshot::of(tasks),
            thread,
        }
    }
}

impl<P: Policy, B: Body> Promise<Vec<Task<P, B>>> for GivenTasks<P, B> {
    ghost use Rattle.worker_run.specs.Batches.{AreBack};

    ghost kept_by = { λ given tasks.
        AreBack B.pending given.thread given.tasks.value.items tasks.items };
}

/// What a worker does. It gives its tasks back as they are where it isn't to go.
fn serve_if<R: Wait, P: Policy, B: Body, G: Gate>(
    rt: &R,
    tests: &Vec<RunningTest<P, B>>,
    goes: &AtomicBool,
    mut tasks: Vec<Task<P, B>>,
    thread: u32,
    gate: &G,
) -> Vec<Task<P, B>>
    requires { AreTasks B.pending tests.now.items thread tasks.items }
    ensures { AreBack B.pending thread tasks.items result.items }
{
    if goes.load(Ordering::SeqCst) {
        serve_tasks(rt, tests.as_slice(), tasks.as_mut_slice(), thread, gate);
    }
    tasks
}

/// Serves tests that nobody has begun. A worker is started for each empty list, and serves its body
/// of the first test, then that of the second, and so on. The caller serves the bodies that no
/// worker could be started for. Afterwards the shares have seen that all were served.
pub fn serve_tests<R: Threads + Wait + Sync, P: Policy, B: Body, G: Gate>(
    rt: &R,
    tests: &Vec<RunningTest<P, B>>,
    mut shares: Vec<Share<P, B>>,
    mut lists: Vec<Vec<Task<P, B>>>,
    gate: &G,
) -> Vec<Share<P, B>>
    requires shares { AreShares B.pending tests.now.items shares.items }
    requires empty { AreEmptyLists (length tests.now.items) lists.items }
    requires few { length lists.items ≤ MAX_THREADS }
    ensures seats { AreSeats tests.now.items result.items }
    ensures told { (i t : ℕ) → Holds shares.items i t
        → ToldAt B.pending tests.now.items result.items i t }
{
    fill_lists(
        tests.as_slice(),
        shares.as_mut_slice(),
        lists.as_mut_slice(),
    );
    start_workers(rt, tests, shares, lists, gate)
}

/// Starts a worker for each list of tasks, the last list first. The caller serves the bodies that
/// no worker could be started for. Then every worker is joined, and its seats to those of the
/// shares.
#[cycle(workers)]
fn start_workers<R: Threads + Wait + Sync, P: Policy, B: Body, G: Gate>(
    rt: &R,
    tests: &Vec<RunningTest<P, B>>,
    mut shares: Vec<Share<P, B>>,
    mut lists: Vec<Vec<Task<P, B>>>,
    gate: &G,
) -> Vec<Share<P, B>>
    requires shares { AreShares B.pending tests.now.items shares.items }
    requires lists { AreTaskLists B.pending tests.now.items lists.items }
    requires few { length lists.items ≤ MAX_THREADS }
    ensures { AreTold B.pending tests.now.items shares.items lists.items result.items }
{
    match lists.pop() {
        None => {
            serve_shares(rt, tests.as_slice(), shares.as_mut_slice(), gate);
            shares
        }
        Some(tasks) => {
            let thread = lists.len() as u32;
            start_worker(rt, tests, shares, lists, tasks, thread, gate)
        }
    }
}

/// Starts a worker for one list of tasks, and goes on with the lists before it.
#[cycle(workers)]
fn start_worker<R: Threads + Wait + Sync, P: Policy, B: Body, G: Gate>(
    rt: &R,
    tests: &Vec<RunningTest<P, B>>,
    shares: Vec<Share<P, B>>,
    lists: Vec<Vec<Task<P, B>>>,
    tasks: Vec<Task<P, B>>,
    thread: u32,
    gate: &G,
) -> Vec<Share<P, B>>
    requires shares { AreShares B.pending tests.now.items shares.items }
    requires lists { AreTaskLists B.pending tests.now.items lists.items }
    requires tasks { AreTasks B.pending tests.now.items thread tasks.items }
    requires few { length lists.items ≤ MAX_THREADS }
    ensures { AreToldBeside B.pending tests.now.items shares.items lists.items
        thread tasks.items result.items }
{
    let flag = AtomicBool::new(true);
    let goes = &flag;
    thread::scope(
        thread::scope_env(),
        rt,
        move |scope| -> Vec<Share<P, B>>
            requires { IsSync R.row × AreShares B.pending tests.now.items shares.items
                × AreTaskLists B.pending tests.now.items lists.items
                × AreTasks B.pending tests.now.items thread tasks.items
                × (length lists.items ≤ MAX_THREADS) }
            ensures { AreToldBeside B.pending tests.entry.now.items shares.items lists.items
                thread tasks.items result.items }
        {
            let promise = GivenTasks::of(&tasks, thread);
            let work = move || -> Vec<Task<P, B>>
                requires { AreTasks B.pending tests.now.items thread tasks.items }
                ensures { AreBack B.pending thread tasks.items result.items }
            { serve_if(rt, tests, goes, tasks, thread, gate) };
            match start(scope, promise, work) {
                Ok(child) => {
                    let shares = start_workers(rt, tests, shares, lists, gate);
                    go_on(rt, tests, shares, child.join(rt), thread, gate)
                }
                Err(refused) => {
                    goes.store(false, Ordering::SeqCst);
                    go_without(rt, tests, shares, lists, (refused.value)(), thread, gate)
                }
            }
        },
    )
}

/// The tasks that a worker left are served, and joined to the shares.
fn go_on<R: Wait, P: Policy, B: Body, G: Gate>(
    rt: &R,
    tests: &Vec<RunningTest<P, B>>,
    mut shares: Vec<Share<P, B>>,
    mut tasks: Vec<Task<P, B>>,
    thread: u32,
    gate: &G,
) -> Vec<Share<P, B>>
    requires seats { AreSeats tests.now.items shares.items }
    requires tasks { AreTasks B.pending tests.now.items thread tasks.items }
    ensures seats { AreSeats tests.now.items result.items }
    ensures kept { (i t : ℕ) → ToldAt B.pending tests.now.items shares.items i t
        → ToldAt B.pending tests.now.items result.items i t }
    ensures joined { (i : ℕ) → IsThere tasks.items i
        → ToldAt B.pending tests.now.items result.items i thread }
{
    serve_tasks(rt, tests.as_slice(), tasks.as_mut_slice(), thread, gate);
    join_tasks(
        tests.as_slice(),
        shares.as_mut_slice(),
        tasks.as_mut_slice(),
    );
    shares
}

/// The caller serves the bodies of all lists, and no worker is started for them.
#[cycle(without)]
fn serve_lists<R: Wait, P: Policy, B: Body, G: Gate>(
    rt: &R,
    tests: &Vec<RunningTest<P, B>>,
    mut shares: Vec<Share<P, B>>,
    mut lists: Vec<Vec<Task<P, B>>>,
    gate: &G,
) -> Vec<Share<P, B>>
    requires shares { AreShares B.pending tests.now.items shares.items }
    requires lists { AreTaskLists B.pending tests.now.items lists.items }
    requires few { length lists.items ≤ MAX_THREADS }
    ensures { AreTold B.pending tests.now.items shares.items lists.items result.items }
{
    match lists.pop() {
        None => {
            serve_shares(rt, tests.as_slice(), shares.as_mut_slice(), gate);
            shares
        }
        Some(tasks) => {
            let thread = lists.len() as u32;
            go_without(rt, tests, shares, lists, tasks, thread, gate)
        }
    }
}

/// Goes on where no worker could be started: the shares take its tasks in again, and those of the
/// lists before, since the next start would fail, too, or the one after it.
#[cycle(without)]
fn go_without<R: Wait, P: Policy, B: Body, G: Gate>(
    rt: &R,
    tests: &Vec<RunningTest<P, B>>,
    mut shares: Vec<Share<P, B>>,
    lists: Vec<Vec<Task<P, B>>>,
    mut tasks: Vec<Task<P, B>>,
    thread: u32,
    gate: &G,
) -> Vec<Share<P, B>>
    requires shares { AreShares B.pending tests.now.items shares.items }
    requires lists { AreTaskLists B.pending tests.now.items lists.items }
    requires tasks { AreTasks B.pending tests.now.items thread tasks.items }
    requires few { length lists.items ≤ MAX_THREADS }
    ensures { AreToldBeside B.pending tests.now.items shares.items lists.items
        thread tasks.items result.items }
{
    take_tasks(
        tests.as_slice(),
        shares.as_mut_slice(),
        tasks.as_mut_slice(),
        thread,
    );
    let mut all = serve_lists(rt, tests, shares, lists, gate);
    join_tasks(tests.as_slice(), all.as_mut_slice(), tasks.as_mut_slice());
    all
}
