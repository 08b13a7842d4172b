// One test of a batch: tasks are taken off the caller's share, served, and joined to it again.
ghost use Rattle.std.specs.Prelude.{◌≡◌, ◌⊎◌, ℕ, ◌∷◌, [], true, Some};
ghost use Rattle.pct_ask.specs.Objects.{sizes_of_deal};
ghost use Rattle.pct_ask.specs.Bodies.{Pending};
ghost use Rattle.turn_lock.specs.Rule.{Serves};
ghost use Rattle.turn_lock.specs.Calls.{first_book};
ghost use Rattle.turn_lock.specs.Views.{view, HasSeat};
ghost use Rattle.worker_run.specs.Served.{IsShare, HasShare, AllOwe, IsServed};
ghost use Rattle.worker_run.specs.Batch.{IsSeatOf, IsShareOf, IsTask, IsServedTask};
ghost use Rattle.worker_run.specs.Batch.{IsTaskBack, IsThreadTold, bodies_on, is_there};

use crate::batch::{RunningTest, Share, Task};
use crate::runner::Runner;
use crate::share::serve_all;
use pct_ask::Body;
use pct_gate::Gate;
use policy_pick::Policy;
use std::mem;
use std::sync::Wait;
use turn_lock::{Brief, Seat, TurnLock};

/// Takes a thread's task off a test's share, if the test has the thread.
pub fn task_of<P: Policy, B: Body>(
    test: &RunningTest<P, B>,
    share: &mut Share<P, B>,
    thread: u32,
) -> Task<P, B>
    requires share { IsShareOf B.pending test.now share.old }
    ensures share { IsShareOf B.pending test.now share.new }
    ensures task { IsTask B.pending test.now thread result }
    ensures shared { (t : ℕ) → Serves (view share.old.seat) t
        → Serves (view share.new.seat) t ⊎ ((t ≡ thread) × (is_there result ≡ true)) }
{
    if share.runners.len() <= thread as usize {
        return Task::Absent;
    }
    match share.runners[thread as usize].take() {
        None => Task::Absent,
        Some(runner) => Task::Waiting(test.lock.split(&mut share.seat, thread), runner),
    }
}

/// Serves the one body until it has ended or the run is over.
fn serve<R: Wait, P: Policy, B: Body, G: Gate>(
    rt: &R,
    lock: &TurnLock<P>,
    mut seat: Seat<P>,
    thread: u32,
    mut runner: Runner<B>,
    gate: &G,
) -> Seat<P>
    requires of { HasSeat lock.now seat }
    requires share { HasShare (sizes_of_deal (first_book lock.now).deal) B.pending thread
        (Some runner ∷ []) (view seat) }
    requires owe { AllOwe (view seat) }
    ensures of { HasSeat lock.now result }
    ensures served { (start : ℕ → Pending)
        → IsShare B.pending start thread (Some runner ∷ []) (view seat)
        → IsServed start (view seat) (view result) }
{
    if runner.speak(rt, lock, &mut seat, thread, gate) {
        return seat;
    }
    for _ in rt.forever() {
        let (_, told) = lock.turn_brief(rt, &mut seat);
        let Brief::Answer(value) = told else {
            return seat;
        };
        runner.hear(value);
        if runner.speak(rt, lock, &mut seat, thread, gate) {
            return seat;
        }
    }
    unreachable!()
}

/// Serves a thread's task, unless that was done.
pub fn serve_task<R: Wait, P: Policy, B: Body, G: Gate>(
    rt: &R,
    test: &RunningTest<P, B>,
    task: &mut Task<P, B>,
    thread: u32,
    gate: &G,
)
    requires task { IsTask B.pending test.now thread task.old }
    ensures served { IsServedTask B.pending test.now thread task.new }
    ensures back { IsTaskBack B.pending thread task.old task.new }
{
    match mem::replace(task, Task::Absent) {
        Task::Absent => {}
        Task::Waiting(seat, runner) => {
            *task = Task::Served(serve(rt, test.lock, seat, thread, runner, gate));
        }
        Task::Served(seat) => *task = Task::Served(seat),
    }
}

/// The share takes in again a task that is to be served.
pub fn take_task<P: Policy, B: Body>(
    test: &RunningTest<P, B>,
    share: &mut Share<P, B>,
    task: &mut Task<P, B>,
    thread: u32,
)
    requires share { IsShareOf B.pending test.now share.old }
    requires task { IsTask B.pending test.now thread task.old }
    ensures share { IsShareOf B.pending test.now share.new }
    ensures served { IsServedTask B.pending test.now thread task.new }
    ensures kept { (t : ℕ) → Serves (view share.old.seat) t → Serves (view share.new.seat) t }
    ensures taken { is_there task.old ≡ true
        → Serves (view share.new.seat) thread ⊎ (is_there task.new ≡ true) }
{
    match mem::replace(task, Task::Absent) {
        Task::Absent => {}
        Task::Waiting(seat, runner) => {
            test.lock.join(&mut share.seat, seat);
            share.runners[thread as usize] = Some(runner);
        }
        Task::Served(seat) => *task = Task::Served(seat),
    }
}

/// The seat of a task that was served is joined to the share's.
pub fn join_task<P: Policy, B: Body>(
    test: &RunningTest<P, B>,
    share: &mut Share<P, B>,
    task: &mut Task<P, B>,
)
    requires seat { IsSeatOf test.now.lock.now share.old.seat }
    requires task { (t : ℕ) × IsServedTask B.pending test.now t task.old }
    ensures seat { IsSeatOf test.now.lock.now share.new.seat }
    ensures kept { (t : ℕ) → IsThreadTold (bodies_on B.pending test.now) t (view share.old.seat)
        → IsThreadTold (bodies_on B.pending test.now) t (view share.new.seat) }
    ensures joined { (t : ℕ) → IsServedTask B.pending test.now t task.old
        → is_there task.old ≡ true
        → IsThreadTold (bodies_on B.pending test.now) t (view share.new.seat) }
{
    if let Task::Served(seat) = mem::replace(task, Task::Absent) {
        test.lock.join(&mut share.seat, seat);
    }
}

/// The caller serves the threads of its share.
pub fn serve_share<R: Wait, P: Policy, B: Body, G: Gate>(
    rt: &R,
    test: &RunningTest<P, B>,
    share: &mut Share<P, B>,
    gate: &G,
)
    requires share { IsShareOf B.pending test.now share.old }
    ensures seat { IsSeatOf test.now.lock.now share.new.seat }
    ensures told { (t : ℕ) → Serves (view share.old.seat) t
        → IsThreadTold (bodies_on B.pending test.now) t (view share.new.seat) }
{
    serve_all(
        rt,
        test.lock,
        &mut share.seat,
        share.runners.as_mut_slice(),
        gate,
    );
}
