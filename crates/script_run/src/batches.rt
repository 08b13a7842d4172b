//! Batches of runs, which are made at once by threads, or one after another by the caller.

ghost use Rattle.std.specs.Prelude.{◌≡◌, ◌≤◌, ◌<◌, ◌+◌, length, IfOk};
ghost use Rattle.script_body.specs.BodyPosts.{pending_of_body};
ghost use Rattle.worker_run.specs.Tests.{AreTests};
ghost use Rattle.script_run.specs.Tests.{Tries};
ghost use Rattle.script_run.specs.Batches.{Decides, FromPlace};

use crate::alone::run_alone;
use crate::batch::Batch;
use pct_gate::Gate;
use script_body::ScriptBody;
use std::alloc::{AllocError as NoMemory, Global};
use std::sync::Wait;
use std::thread::Threads;
use worker_run::{Played, RUNS_AT_ONCE, Serve, Serving, Test, run_many_by};

/// The tests from one place to before another.
fn tests_of<'b, T: Batch>(
    alloc: Global,
    batch: &'b T,
    start: u32,
    end: u32,
) -> Result<Vec<Test<T::Policy, ScriptBody<'b>>>, NoMemory>
    requires places { start ≤ end }
    requires within { end ≤ T.size batch.now }
    ensures long { IfOk result (λ tests. start + length tests.items ≡ end) }
    ensures asked { IfOk result
        (λ tests. AreTests pending_of_body T.Policy.plan T.Policy.stands tests.items) }
    ensures tests { IfOk result (λ tests. FromPlace
        (λ place. Tries pending_of_body T.Policy.plan (T.is_run batch.now place))
        start tests.items) }
{
    let script = batch.script();
    let limit = batch.limit();
    let mut tests = Vec::with_capacity(alloc, (end - start) as usize)?;
    for place in start..end {
        let policy = batch.policy(alloc, place, None)?;
        let test = script.test(alloc, policy, limit)?;
        tests.push_reserved(test);
    }
    Ok(tests)
}

/// The runs from one place to before another, made at once by threads.
fn runs_of<R: Threads + Wait + Sync, T: Batch, G: Gate>(
    rt: &R,
    alloc: Global,
    batch: &T,
    start: u32,
    end: u32,
    serving: &mut Serving,
    gate: &G,
) -> Result<Vec<Played>, NoMemory>
    requires places { start ≤ end }
    requires within { end ≤ T.size batch.now }
    ensures long { IfOk result (λ runs. start + length runs.items ≡ end) }
    ensures runs { IfOk result (λ runs. FromPlace (T.is_run batch.now) start runs.items) }
{
    let tests = tests_of(alloc, batch, start, end)?;
    run_many_by(rt, alloc, tests, serving, gate)
}

/// Takes runs in their order, up to one that comes to an answer.
fn take_runs<T: Batch>(
    alloc: Global,
    batch: &T,
    kept: &mut T::Kept,
    start: u32,
    end: u32,
    runs: &[Played],
) -> Result<Option<T::Answer>, NoMemory>
    requires places { start ≤ end }
    requires within { end ≤ T.size batch.now }
    requires long { start + length runs.now ≡ end }
    requires runs { FromPlace (T.is_run batch.now) start runs.now }
    requires stands { T.stands batch.now kept.old start }
    ensures { IfOk result (Decides (T.stands batch.now) (T.answers batch.now) kept.new end) }
{
    for place in start..end {
        let played = &runs[(place - start) as usize];
        let events = played.events.as_slice();
        if let Some(answer) = batch.take(alloc, kept, place, events, &played.outcome)? {
            return Ok(Some(answer));
        }
    }
    Ok(None)
}

/// Makes the runs from one place to before another, and takes them in their order, up to one that
/// comes to an answer. They are made at once by threads, or one after another by the caller, who
/// serves what comes next, too, where there was no memory for threads or one couldn't be started.
pub fn run_batch<R: Threads + Wait + Sync, T: Batch, G: Gate>(
    rt: &R,
    alloc: Global,
    batch: &T,
    kept: &mut T::Kept,
    start: u32,
    end: u32,
    serving: &mut Serving,
    gate: &G,
) -> Result<Option<T::Answer>, NoMemory>
    requires places { start ≤ end }
    requires within { end ≤ T.size batch.now }
    requires stands { T.stands batch.now kept.old start }
    ensures { IfOk result (Decides (T.stands batch.now) (T.answers batch.now) kept.new end) }
{
    if serving.is_by_caller() {
        return run_alone(rt, alloc, batch, kept, start, end, serving, gate);
    }
    match runs_of(rt, alloc, batch, start, end, serving, gate) {
        Ok(runs) => {
            let answer = take_runs(alloc, batch, kept, start, end, runs.as_slice())?;
            serving.take_all_back(runs);
            Ok(answer)
        }
        Err(NoMemory) => {
            serving.leave_to_caller();
            run_alone(rt, alloc, batch, kept, start, end, serving, gate)
        }
    }
}

/// Makes the first `total` runs in batches, and takes them in their order, up to one that comes to
/// an answer. A batch has twice the runs of the one before, and the first one has `first`, but none
/// more than `RUNS_AT_ONCE`.
pub fn run_batches<R: Threads + Wait + Sync, T: Batch, G: Gate>(
    rt: &R,
    alloc: Global,
    batch: &T,
    kept: &mut T::Kept,
    total: u32,
    first: u32,
    serve: Serve,
    gate: &G,
) -> Result<Option<T::Answer>, NoMemory>
    requires within { total ≤ T.size batch.now }
    requires some { 1 ≤ first }
    requires stands { T.stands batch.now kept.old 0 }
    ensures { IfOk result (Decides (T.stands batch.now) (T.answers batch.now) kept.new total) }
{
    let mut serving = Serving::new(alloc, serve);
    let most = RUNS_AT_ONCE;
    let first = most.min(first);
    let mut size = first;
    let mut start = 0;
    'batches: while start < total {
        let end = start + size.min(total - start);
        if let Some(answer) = run_batch(rt, alloc, batch, kept, start, end, &mut serving, gate)? {
            return Ok(Some(answer));
        }
        start = end;
        size = most.min(2 * size);
    }
    Ok(None)
}
