// The run on a lent lock: the one-lock case of a batch.
ghost use Rattle.std.specs.Prelude.{◌≡◌, ◌<◌, ◌≤◌, ℕ, length, map, OnErr, OnOk, IfOk};
ghost use Rattle.pct_ask.specs.Objects.{sizes_of_deal};
ghost use Rattle.pct_ask.specs.Bodies.{AreInRange};
ghost use Rattle.turn_lock.specs.Rule.{Serves};
ghost use Rattle.turn_lock.specs.Calls.{first_book, ServesAll};
ghost use Rattle.turn_lock.specs.Views.{view, HasSeat};
ghost use Rattle.worker_run.specs.Played.{HasPlayed};
ghost use Rattle.worker_run.specs.Served.{IsUnposted, IsWhole, first_runners};
ghost use Rattle.pct_ask.specs.declared.limits.TheConstants.{MAX_THREADS};

use crate::batch::{RunningTest, Share};
use crate::runner::Runner;
use crate::task_lists::empty_lists;
use crate::workers::serve_tests;
use pct_ask::Body;
use pct_gate::Gate;
use policy_pick::Policy;
use std::alloc::{AllocError as NoMemory, Global};
use std::snapshot::Snapshot;
use std::sync::Wait;
use std::thread::Threads;
use turn_lock::{Seat, TurnLock};

/// A runner for each body.
pub fn runners_of<B: Body>(
    alloc: Global,
    bodies: Vec<B>,
) -> Result<Vec<Option<Runner<B>>>, NoMemory>
    ensures { IfOk result (λ runners. runners.items ≡ first_runners bodies.items) }
{
    bodies
        .into_iter()
        .map(|body| Some(Runner::new(body)))
        .collect(alloc)
}

/// Takes all threads off the seat, into one of their own.
fn split_all<P: Policy>(lock: &TurnLock<P>, seat: &mut Seat<P>, threads: u32) -> Seat<P>
    requires of { HasSeat lock.now seat.old }
    requires some { 1 ≤ threads }
    requires few { threads ≤ MAX_THREADS }
    requires all { (t : ℕ) → t < threads → Serves (view seat.old) t }
    requires unposted { IsUnposted (view seat.old).seen }
    ensures of { HasSeat lock.now seat.new × HasSeat lock.now result }
    ensures left { (view seat.new).seen ≡ (view seat.old).seen }
    ensures right { IsWhole threads (view seat.old).seen (view result) }
{
    let mut all = lock.split(seat, 0);
    for thread in 1..threads {
        let one = lock.split(seat, thread);
        lock.join(&mut all, one);
    }
    all
}

/// Runs the bodies of a test on a lock, each in a thread of its own, until the run is over. A body
/// that no thread can be started for is served by the caller. The gate is passed before each post.
/// The lock's seat serves all threads again afterwards, and has seen the run. Where there is no
/// memory nothing was posted, and the seat is as before.
pub fn run_on<R: Threads + Wait + Sync, P: Policy, B: Body, G: Gate>(
    rt: &R,
    alloc: Global,
    lock: &TurnLock<P>,
    seat: &mut Seat<P>,
    bodies: Vec<B>,
    gate: &G,
) -> Result<(), NoMemory>
    requires of { HasSeat lock.now seat.old }
    requires all { ServesAll (view seat.old) }
    requires unposted { IsUnposted (view seat.old).seen }
    requires bodies { length bodies.items ≡ (first_book lock.now).deal.threads }
    requires in_range { AreInRange (sizes_of_deal (first_book lock.now).deal)
        (map B.pending bodies.items) }
    ensures of { HasSeat lock.now seat.new }
    ensures all { ServesAll (view seat.new) }
    ensures played { OnOk result
        (HasPlayed (first_book lock.now) (map B.pending bodies.items) (view seat.new).seen) }
    ensures no_memory { OnErr result (seat.new ≡ seat.old) }
{
    let threads = bodies.len() as u32;
    let runners = runners_of(alloc, bodies)?;
    let mut tests = Vec::with_capacity(alloc, 1)?;
    let mut shares = Vec::with_capacity(alloc, 1)?;
    let lists = empty_lists(alloc, 1, threads)?;
    let first = Snapshot::of(&runners);
    tests.push_reserved(RunningTest {
        lock,
        runners: first,
    });
    let all = split_all(lock, seat, threads);
    shares.push_reserved(Share { seat: all, runners });
    let mut played = serve_tests(rt, &tests, shares, lists, gate);
    let Some(share) = played.pop() else {
        unreachable!()
    };
    lock.join(seat, share.seat);
    Ok(())
}
