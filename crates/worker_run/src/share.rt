// The caller's loop: one thread serves a share, which is some runners by one seat.
ghost use Rattle.std.specs.Prelude.{◌≡◌, ◌≤◌, ℕ, true, false, None, Some, length};
ghost use Rattle.pct_ask.specs.Objects.{sizes_of_deal};
ghost use Rattle.pct_ask.specs.Bodies.{Pending};
ghost use Rattle.turn_book.specs.Told.{IsLawful};
ghost use Rattle.turn_lock.specs.Rule.{Serves};
ghost use Rattle.turn_lock.specs.Calls.{first_book};
ghost use Rattle.turn_lock.specs.Views.{view, HasSeat};
ghost use Rattle.worker_run.specs.Served.{IsShare, HasShare, AllOwe, NoneOwes, GoesOn, IsOver};
ghost use Rattle.worker_run.specs.Served.{IsServed, runner_at};
ghost use Rattle.worker_run.specs.declared.runner.Runner.{Runner};
ghost use Rattle.pct_ask.specs.declared.limits.TheConstants.{MAX_THREADS};

use crate::runner::Runner;
use pct_ask::Body;
use pct_gate::Gate;
use policy_pick::Policy;
use std::sync::Wait;
use turn_lock::{Brief, Seat, TurnLock};

/// Whether there is a runner.
pub fn has_runner<B: Body>(runners: &[Option<Runner<B>>]) -> bool
    ensures some { result ≡ true
        → (index : ℕ) × (runner : Runner B) × (runner_at runners.now index ≡ Some runner) }
    ensures none { result ≡ false → (index : ℕ) → runner_at runners.now index ≡ None }
{
    for at in 0..runners.len() {
        if runners[at].is_some() {
            return true;
        }
    }
    false
}

/// Each body posts, and goes on for as long as it is its turn. It is true where the run is over.
fn begin<R: Wait, P: Policy, B: Body, G: Gate>(
    rt: &R,
    lock: &TurnLock<P>,
    seat: &mut Seat<P>,
    runners: &mut [Option<Runner<B>>],
    gate: &G,
) -> bool
    requires of { HasSeat lock.now seat.old }
    requires share { HasShare (sizes_of_deal (first_book lock.now).deal) B.pending 0 runners.old
        (view seat.old) }
    requires owe { AllOwe (view seat.old) }
    requires few { length runners.old ≤ MAX_THREADS }
    ensures of { HasSeat lock.now seat.new }
    ensures share { (start : ℕ → Pending)
        → IsShare B.pending start 0 runners.old (view seat.old)
        → IsShare B.pending start 0 runners.new (view seat.new) }
    ensures on { GoesOn (view seat.old) (view seat.new) }
    ensures runners { length runners.new ≡ length runners.old }
    ensures lawful { (t : ℕ) → Serves (view seat.old) t → IsLawful (view seat.new).seen }
    ensures over { result ≡ true → IsOver (view seat.new).seen }
    ensures posted { result ≡ false → NoneOwes (view seat.new) }
{
    for index in 0..runners.len() {
        if let Some(runner) = &mut runners[index] {
            if runner.speak(rt, lock, seat, index as u32, gate) {
                return true;
            }
        }
    }
    false
}

/// The threads of the seat take their turns, as the lock gives them, until the run is over or all
/// of them have ended.
fn take_turns<R: Wait, P: Policy, B: Body, G: Gate>(
    rt: &R,
    lock: &TurnLock<P>,
    seat: &mut Seat<P>,
    runners: &mut [Option<Runner<B>>],
    gate: &G,
)
    requires of { HasSeat lock.now seat.old }
    requires share { HasShare (sizes_of_deal (first_book lock.now).deal) B.pending 0 runners.old
        (view seat.old) }
    requires some { (t : ℕ) × Serves (view seat.old) t }
    requires posted { NoneOwes (view seat.old) }
    requires few { length runners.old ≤ MAX_THREADS }
    ensures of { HasSeat lock.now seat.new }
    ensures served { (start : ℕ → Pending)
        → IsShare B.pending start 0 runners.old (view seat.old)
        → IsServed start (view seat.old) (view seat.new) }
    ensures lawful { IsLawful (view seat.new).seen }
{
    for _ in rt.forever() {
        let (thread, told) = lock.turn_brief(rt, seat);
        let Brief::Answer(value) = told else {
            return;
        };
        let Some(runner) = &mut runners[thread as usize] else {
            unreachable!()
        };
        runner.hear(value);
        if runner.speak(rt, lock, seat, thread, gate) {
            return;
        }
    }
    unreachable!()
}

/// Serves the bodies until the run is over or all of them have ended. The seat's threads are those
/// that have a runner.
pub fn serve_all<R: Wait, P: Policy, B: Body, G: Gate>(
    rt: &R,
    lock: &TurnLock<P>,
    seat: &mut Seat<P>,
    runners: &mut [Option<Runner<B>>],
    gate: &G,
)
    requires of { HasSeat lock.now seat.old }
    requires share { HasShare (sizes_of_deal (first_book lock.now).deal) B.pending 0 runners.old
        (view seat.old) }
    requires owe { AllOwe (view seat.old) }
    requires few { length runners.old ≤ MAX_THREADS }
    ensures of { HasSeat lock.now seat.new }
    ensures served { (start : ℕ → Pending)
        → IsShare B.pending start 0 runners.old (view seat.old)
        → IsServed start (view seat.old) (view seat.new) }
    ensures lawful { (t : ℕ) → Serves (view seat.old) t → IsLawful (view seat.new).seen }
{
    if !has_runner(runners) || begin(rt, lock, seat, runners, gate) {
        return;
    }
    take_turns(rt, lock, seat, runners, gate);
}
