// Whole runs: by an order of the threads, with change points or with moments in their place. A
// verdict ends each of them.
ghost use Rattle.std.specs.Prelude.{◌≡◌, length, map, IfOk, Some};
ghost use Rattle.pct_ask.specs.declared.verdict.Outcome.{Outcome};
ghost use Rattle.pct_ask.specs.declared.verdict.Verdict.{Verdict};
ghost use Rattle.pct_ask.specs.Objects.{sizes_of_deal};
ghost use Rattle.pct_ask.specs.Bodies.{AreInRange};
ghost use Rattle.policy_pick.specs.Plan.{ByPoints, ByMoments};
ghost use Rattle.worker_run.specs.Run.{run, directed_run};
ghost use Rattle.worker_run.specs.Played.{IsPlayed};

use crate::played::{Played, verdict_of};
use crate::run::run_threads;
use pct_ask::{Body, Deal, EventList, Limit, Outcome, Verdict};
use pct_gate::Gate;
use policy_pick::{DirectedPolicy, DirectedPriorities, Pct, Priorities};
use std::alloc::{AllocError as NoMemory, Global};
use std::sync::Wait;
use std::thread::Threads;

/// A whole run: its steps, and the verdict by which it ended.
#[derive(Debug, Drop)]
pub struct WholeRun {
    pub events: EventList,
    pub verdict: Verdict,
}

impl Played {
    /// The run, where a verdict ended it, as it ends each run by an order.
    pub fn into_whole(self) -> WholeRun
        requires { (verdict : Verdict) × (self.outcome ≡ Outcome.Verdict verdict) }
        ensures events { result.events ≡ self.events }
        ensures verdict { self.outcome ≡ Outcome.Verdict result.verdict }
    {
        let verdict = verdict_of(&self.outcome);
        WholeRun {
            events: self.events,
            verdict,
        }
    }
}

impl From<WholeRun> for Played {
    ghost from_gives = { λ whole played. (played.events ≡ whole.events)
        × (played.outcome ≡ Outcome.Verdict whole.verdict) };

    fn from(whole: WholeRun) -> Played {
        Played {
            events: whole.events,
            outcome: Outcome::Verdict(whole.verdict),
        }
    }
}

/// The run of bodies under an order of their threads, the highest first, and change points, which
/// are numbers of steps from 1. It has at most `limit` steps. Each body is in a thread of its own.
/// The gate is passed before each post.
pub fn run_by_points<R: Threads + Wait + Sync, B: Body, G: Gate>(
    rt: &R,
    alloc: Global,
    deal: Deal,
    priorities: &Priorities<'_>,
    limit: Limit,
    bodies: Vec<B>,
    gate: &G,
) -> Result<WholeRun, NoMemory>
    requires whole { length priorities.now.order.now ≡ deal.threads }
    requires bodies { length bodies.items ≡ deal.threads }
    requires in_range { AreInRange (sizes_of_deal deal) (map B.pending bodies.items) }
    ensures run { IfOk result (λ whole.
        run deal (map B.pending bodies.items) priorities.now.order.now priorities.now.points.now
        limit ≡ Some (whole.events, whole.verdict)) }
    // The same, as the run that is played by these priorities.
    ensures played { IfOk result (λ whole.
        IsPlayed (ByPoints priorities.now.order.now priorities.now.points.now) deal
        (map B.pending bodies.items) limit whole.events (Outcome.Verdict whole.verdict)) }
{
    let policy = Pct::of_priorities(alloc, priorities, None)?;
    let played = run_threads(rt, alloc, deal, policy, limit.steps(), bodies, gate)?;
    Ok(played.into_whole())
}

/// The same with moments in the place of change points: a thread is lowered after its own step of a
/// number, from 1.
pub fn run_by_moments<R: Threads + Wait + Sync, B: Body, G: Gate>(
    rt: &R,
    alloc: Global,
    deal: Deal,
    priorities: &DirectedPriorities<'_>,
    limit: Limit,
    bodies: Vec<B>,
    gate: &G,
) -> Result<WholeRun, NoMemory>
    requires whole { length priorities.now.order.now ≡ deal.threads }
    requires bodies { length bodies.items ≡ deal.threads }
    requires in_range { AreInRange (sizes_of_deal deal) (map B.pending bodies.items) }
    ensures directed { IfOk result (λ whole.
        directed_run deal (map B.pending bodies.items) priorities.now.order.now
        priorities.now.moments.now limit ≡ Some (whole.events, whole.verdict)) }
    // The same, as the run that is played by these priorities.
    ensures played { IfOk result (λ whole.
        IsPlayed (ByMoments priorities.now.order.now priorities.now.moments.now) deal
        (map B.pending bodies.items) limit whole.events (Outcome.Verdict whole.verdict)) }
{
    let policy = DirectedPolicy::of_priorities(alloc, priorities, None)?;
    let played = run_threads(rt, alloc, deal, policy, limit.steps(), bodies, gate)?;
    Ok(played.into_whole())
}
