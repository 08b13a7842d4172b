// The tests of a batch, one after another: each thread's list of tasks, and the caller's shares.
ghost use Rattle.std.specs.Prelude.{◌≡◌, ◌≤◌, ◌⊎◌, ℕ, length, IfOk};
ghost use Rattle.worker_run.specs.Batches.{AreSeats, AreShares, AreTasks, AreServedTasks};
ghost use Rattle.worker_run.specs.Batches.{AreTaskLists, IsEmptyList, AreEmptyLists, IsThere};
ghost use Rattle.worker_run.specs.Batches.{AreBack, Holds, IsListed, ToldAt};
ghost use Rattle.pct_ask.specs.declared.limits.TheConstants.{MAX_THREADS};

use crate::batch::{RunningTest, Share, Task};
use crate::tasks::{join_task, serve_share, serve_task, take_task, task_of};
use pct_ask::Body;
use pct_gate::Gate;
use policy_pick::Policy;
use std::alloc::{AllocError as NoMemory, Global};
use std::sync::Wait;

/// An empty list for each thread, with memory for its task of each test.
pub fn empty_lists<P: Policy, B: Body>(
    alloc: Global,
    tests: usize,
    threads: u32,
) -> Result<Vec<Vec<Task<P, B>>>, NoMemory>
    ensures long { IfOk result (λ lists. length lists.items ≡ threads) }
    ensures empty { IfOk result (λ lists. AreEmptyLists tests lists.items) }
{
    let mut lists = Vec::with_capacity(alloc, threads as usize)?;
    for _thread in 0..threads {
        let list = Vec::with_capacity(alloc, tests)?;
        lists.push_reserved(list);
    }
    Ok(lists)
}

/// Takes a thread's tasks off the shares of all tests, into its list, which has memory for them.
fn fill_tasks<P: Policy, B: Body>(
    tests: &[RunningTest<P, B>],
    shares: &mut [Share<P, B>],
    tasks: &mut Vec<Task<P, B>>,
    thread: u32,
)
    requires shares { AreShares B.pending tests.now shares.old }
    requires empty { IsEmptyList (length tests.now) tasks.old }
    ensures shares { AreShares B.pending tests.now shares.new }
    ensures tasks { AreTasks B.pending tests.now thread tasks.new.items }
    ensures shared { (i t : ℕ) → Holds shares.old i t
        → Holds shares.new i t ⊎ ((t ≡ thread) × IsThere tasks.new.items i) }
{
    for index in 0..tests.len() {
        tasks.push_reserved(task_of(&tests[index], &mut shares[index], thread));
    }
}

/// Takes the tasks of the first threads off the shares, into a list for each thread.
pub fn fill_lists<P: Policy, B: Body>(
    tests: &[RunningTest<P, B>],
    shares: &mut [Share<P, B>],
    lists: &mut [Vec<Task<P, B>>],
)
    requires shares { AreShares B.pending tests.now shares.old }
    requires empty { AreEmptyLists (length tests.now) lists.old }
    requires few { length lists.old ≤ MAX_THREADS }
    ensures long { length lists.new ≡ length lists.old }
    ensures shares { AreShares B.pending tests.now shares.new }
    ensures lists { AreTaskLists B.pending tests.now lists.new }
    ensures shared { (i t : ℕ) → Holds shares.old i t
        → Holds shares.new i t ⊎ IsListed lists.new i t }
{
    for thread in 0..lists.len() {
        fill_tasks(tests, shares, &mut lists[thread], thread as u32);
    }
}

/// Serves a thread's tasks of all tests, the first test's first.
pub fn serve_tasks<R: Wait, P: Policy, B: Body, G: Gate>(
    rt: &R,
    tests: &[RunningTest<P, B>],
    tasks: &mut [Task<P, B>],
    thread: u32,
    gate: &G,
)
    requires tasks { AreTasks B.pending tests.now thread tasks.old }
    ensures served { AreServedTasks B.pending tests.now thread tasks.new }
    ensures back { AreBack B.pending thread tasks.old tasks.new }
{
    for index in 0..tests.len() {
        serve_task(rt, &tests[index], &mut tasks[index], thread, gate);
    }
}

/// The shares take in again those tasks of a thread that are to be served.
pub fn take_tasks<P: Policy, B: Body>(
    tests: &[RunningTest<P, B>],
    shares: &mut [Share<P, B>],
    tasks: &mut [Task<P, B>],
    thread: u32,
)
    requires shares { AreShares B.pending tests.now shares.old }
    requires tasks { AreTasks B.pending tests.now thread tasks.old }
    ensures shares { AreShares B.pending tests.now shares.new }
    ensures served { AreServedTasks B.pending tests.now thread tasks.new }
    ensures kept { (i t : ℕ) → Holds shares.old i t → Holds shares.new i t }
    ensures taken { (i : ℕ) → IsThere tasks.old i
        → Holds shares.new i thread ⊎ IsThere tasks.new i }
{
    for index in 0..tests.len() {
        take_task(&tests[index], &mut shares[index], &mut tasks[index], thread);
    }
}

/// The seats of a thread's tasks are joined to those of the shares.
pub fn join_tasks<P: Policy, B: Body>(
    tests: &[RunningTest<P, B>],
    shares: &mut [Share<P, B>],
    tasks: &mut [Task<P, B>],
)
    requires seats { AreSeats tests.now shares.old }
    requires tasks { (t : ℕ) × AreServedTasks B.pending tests.now t tasks.old }
    ensures seats { AreSeats tests.now shares.new }
    ensures kept { (i t : ℕ) → ToldAt B.pending tests.now shares.old i t
        → ToldAt B.pending tests.now shares.new i t }
    ensures joined { (i t : ℕ) → AreServedTasks B.pending tests.now t tasks.old
        → IsThere tasks.old i → ToldAt B.pending tests.now shares.new i t }
{
    for index in 0..tests.len() {
        join_task(&tests[index], &mut shares[index], &mut tasks[index]);
    }
}

/// The caller serves its shares, one after another.
pub fn serve_shares<R: Wait, P: Policy, B: Body, G: Gate>(
    rt: &R,
    tests: &[RunningTest<P, B>],
    shares: &mut [Share<P, B>],
    gate: &G,
)
    requires shares { AreShares B.pending tests.now shares.old }
    ensures seats { AreSeats tests.now shares.new }
    ensures told { (i t : ℕ) → Holds shares.old i t → ToldAt B.pending tests.now shares.new i t }
{
    for index in 0..tests.len() {
        serve_share(rt, &tests[index], &mut shares[index], gate);
    }
}
