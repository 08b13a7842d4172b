ghost use Rattle.std.specs.Prelude.{◌≡◌, ◌<◌, ◌≤◌, ◌^◌, ◌↔◌, ℕ, Some, length, map, IfOk};
ghost use Rattle.pct_ask.specs.declared.verdict.Outcome.TheVariants.{Verdict as Ends};
ghost use Rattle.pct_ask.specs.Objects.{sizes_of_deal};
ghost use Rattle.pct_ask.specs.Bodies.{AreInRange};
ghost use Rattle.policy_pick.specs.Plan.{ByPoints};
ghost use Rattle.worker_run.specs.Run.{run};
ghost use Rattle.worker_run.specs.Played.{IsPlayed};
ghost use Rattle.body_kit.specs.Refusals.{IsWrongCount, IsWrongOrder};
ghost use Rattle.pct_ask.specs.declared.limits.TheConstants.{MAX_POINTS, MAX_STEPS};

use crate::boxed::as_bodies;
use crate::counts::pct_of;
use crate::error::KitError;
use pct_ask::{Body, Deal};
use pct_gate::Gate;
use std::alloc::Global;
use std::sync::Wait;
use std::thread::Threads;
use worker_run::run_threads;

/// The run of a test: its steps, and its verdict.
pub use worker_run::WholeRun as BoxedRun;

/// Runs the bodies of a test, one for each thread, each in a thread of its own, by an order of the
/// threads, the highest first, and change points, and stops after `limit` steps. The gate is passed
/// before each post.
pub fn run_boxed<R: Threads + Wait + Sync, G: Gate>(
    rt: &R,
    alloc: Global,
    deal: Deal,
    order: &[u32],
    points: &[u32],
    limit: u32,
    bodies: Vec<Box<dyn Body + Send>>,
    gate: &G,
) -> Result<BoxedRun, KitError>
    requires some_steps { 1 ≤ limit }
    requires few_steps { limit ≤ MAX_STEPS }
    requires few_points { length points.now ≤ MAX_POINTS }
    requires few_bodies { length bodies.items < 2 ^ 32 }
    requires few_names { length order.now < 2 ^ 32 }
    requires in_range { AreInRange (sizes_of_deal deal) (map pending bodies.items) }
    ensures run { IfOk result (λ r.
        run deal (map pending bodies.items) order.now points.now limit
        ≡ Some (r.events, r.verdict)) }
    ensures played { IfOk result (λ r.
        IsPlayed (ByPoints order.now points.now) deal (map pending bodies.items) limit r.events
        (Ends r.verdict)) }

    // Each refusal comes exactly where this holds.
    ensures wrong_count { (had named : ℕ)
        → (result ≡ Err (KitError.WrongCount had named))
        ↔ IsWrongCount deal.threads (length bodies.items) order.now had named }
    ensures not_an_order { (at : ℕ)
        → (result ≡ Err (KitError.NotAnOrder at))
        ↔ IsWrongOrder deal.threads (length bodies.items) order.now at }
{
    let pct = pct_of(alloc, deal.threads, bodies.len() as u32, order, points)?;
    let bodies = as_bodies(alloc, bodies)?;
    let played = run_threads(rt, alloc, deal, pct, limit, bodies, gate)?;
    Ok(played.into_whole())
}
