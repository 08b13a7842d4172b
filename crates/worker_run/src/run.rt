ghost use Rattle.std.specs.Prelude.{◌≡◌, ◌≤◌, [], List, length, map, IfOk, ℕ, Some};
ghost use Rattle.pct_ask.specs.declared.verdict.Outcome.{Outcome};
ghost use Rattle.pct_ask.specs.Objects.{sizes_of_deal};
ghost use Rattle.pct_ask.specs.Bodies.{Pending, AreInRange};
ghost use Rattle.rank_now.specs.declared.moment.Moment.{Moment};
ghost use Rattle.policy_pick.specs.Plan.{SpeaksOf, ByPoints, ByMoments};
ghost use Rattle.turn_book.specs.Told.{new_book};
ghost use Rattle.turn_lock.specs.Rule.{first_view};
ghost use Rattle.turn_lock.specs.Calls.{first_book, ServesAll};
ghost use Rattle.turn_lock.specs.Views.{view, HasSeat};
ghost use Rattle.worker_run.specs.Run.{run, directed_run};
ghost use Rattle.worker_run.specs.Played.{IsPlayed, IsRun, HasPlayed};
ghost use Rattle.pct_ask.specs.declared.limits.TheConstants.{MAX_STEPS};

use crate::by_caller::serve_by_caller;
use crate::lent::{run_on, runners_of};
use crate::played::Played;
use pct_ask::{Body, Deal, EventList, Limit, Sequence};
use pct_gate::Gate;
use policy_pick::Policy;
use std::alloc::{AllocError as NoMemory, Global};
use std::sync::Wait;
use std::thread::Threads;
use turn_book::TurnBook;
use turn_lock::{Seat, TurnLock};

/// A lock for a run, and its first seat. The run's steps stand in the memory of a trace that nobody
/// needs any more.
pub fn new_lock<P: Policy>(
    alloc: Global,
    deal: Deal,
    policy: P,
    limit: Limit,
    trace: EventList,
) -> Result<(TurnLock<P>, Seat<P>), NoMemory>
    requires stands { P.stands policy [] }
    requires speaks { SpeaksOf (P.plan policy) deal.threads }
    ensures made { IfOk result (λ r. first_book r.0 ≡ new_book deal limit (P.plan policy)) }
    ensures of { IfOk result (λ r. HasSeat r.0 r.1) }
    ensures view { IfOk result (λ r. view r.1 ≡ first_view (new_book deal limit (P.plan policy))) }
{
    let book = TurnBook::new_in(alloc, deal, policy, limit, trace)?;
    TurnLock::new(alloc, book)
}

/// The run of a book, which is over.
fn played_of<P: Policy>(book: TurnBook<P>) -> Played
    requires over { (outcome : Outcome) × (book.outcome ≡ Some outcome) }
    ensures events { result.events ≡ book.trace }
    ensures outcome { book.outcome ≡ Some result.outcome }
{
    let (events, outcome) = book.into_parts();
    match outcome {
        Some(outcome) => Played { events, outcome },
        None => unreachable!(),
    }
}

/// The run of the lock's book, which is over.
pub fn finish<P: Policy>(lock: TurnLock<P>, seat: Seat<P>) -> Played
    requires of { HasSeat lock seat }
    requires all { ServesAll (view seat) }
    requires played { (bodies : List Pending)
        × HasPlayed (first_book lock) bodies (view seat).seen }
    ensures { (bodies : List Pending) → HasPlayed (first_book lock) bodies (view seat).seen
        → IsPlayed (first_book lock).plan (first_book lock).deal bodies
        (first_book lock).limit result.events result.outcome }
{
    played_of(lock.close(seat))
}

/// Runs the bodies of a test, one for each thread, under a policy, and stops after `limit` steps.
/// The calling thread serves every body. The gate is passed before each post.
pub fn run_here<R: Wait, P: Policy, B: Body, G: Gate>(
    rt: &R,
    alloc: Global,
    deal: Deal,
    policy: P,
    limit: u32,
    bodies: Vec<B>,
    gate: &G,
) -> Result<Played, NoMemory>
    requires some_steps { 1 ≤ limit }
    requires few_steps { limit ≤ MAX_STEPS }
    requires stands { P.stands policy [] }
    requires speaks { SpeaksOf (P.plan policy) deal.threads }
    requires bodies { length bodies.items ≡ deal.threads }
    requires in_range { AreInRange (sizes_of_deal deal) (map B.pending bodies.items) }
    ensures played { IfOk result (λ played. IsPlayed (P.plan policy) deal
        (map B.pending bodies.items) limit played.events played.outcome) }
    ensures run { (order points : List ℕ)
        → P.plan policy ≡ ByPoints order points → IfOk result (λ played. IsRun (run deal
        (map B.pending bodies.items) order points limit) played.events played.outcome) }
    ensures directed { (order : List ℕ) (moments : List Moment)
        → P.plan policy ≡ ByMoments order moments → IfOk result (λ played. IsRun (directed_run deal
        (map B.pending bodies.items) order moments limit) played.events played.outcome) }
{
    let mut runners = runners_of(alloc, bodies)?;
    let mut book = TurnBook::new(alloc, deal, policy, limit)?; // served with no lock
    serve_by_caller(rt, &mut book, runners.as_mut_slice(), gate);
    Ok(played_of(book))
}

/// The same run, each body in a thread of its own.
pub fn run_threads<R: Threads + Wait + Sync, P: Policy, B: Body, G: Gate>(
    rt: &R,
    alloc: Global,
    deal: Deal,
    policy: P,
    limit: u32,
    bodies: Vec<B>,
    gate: &G,
) -> Result<Played, NoMemory>
    requires some_steps { 1 ≤ limit }
    requires few_steps { limit ≤ MAX_STEPS }
    requires stands { P.stands policy [] }
    requires speaks { SpeaksOf (P.plan policy) deal.threads }
    requires bodies { length bodies.items ≡ deal.threads }
    requires in_range { AreInRange (sizes_of_deal deal) (map B.pending bodies.items) }
    ensures played { IfOk result (λ played. IsPlayed (P.plan policy) deal
        (map B.pending bodies.items) limit played.events played.outcome) }
    ensures run { (order points : List ℕ)
        → P.plan policy ≡ ByPoints order points → IfOk result (λ played. IsRun (run deal
        (map B.pending bodies.items) order points limit) played.events played.outcome) }
    ensures directed { (order : List ℕ) (moments : List Moment)
        → P.plan policy ≡ ByMoments order moments → IfOk result (λ played. IsRun (directed_run deal
        (map B.pending bodies.items) order moments limit) played.events played.outcome) }
{
    let limit = Limit::new(limit);
    let (lock, mut seat) = new_lock(alloc, deal, policy, limit, Sequence::new(alloc))?;
    run_on(rt, alloc, &lock, &mut seat, bodies, gate)?;
    Ok(finish(lock, seat))
}
