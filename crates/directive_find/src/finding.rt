//! A short directive for a failing run.

ghost use Rattle.std.specs.Prelude.{◌≡◌, ◌≤◌, length, IfOk, All};
ghost use Rattle.rank_now.specs.Order.{IsOrder};
ghost use Rattle.script_tree.specs.ScriptText.{ScriptText};
ghost use Rattle.script_code.specs.Listing.{listing};
ghost use Rattle.script_body.specs.Bodies.{bodies_of, AreOf};
ghost use Rattle.directive_find.specs.Found.{Finds};
ghost use Rattle.pct_ask.specs.declared.limits.TheConstants.{MAX_POINTS, MAX_STEPS};

use crate::reducing::reduce;
use crate::short::Short;
use choices::moments_of;
use pct_ask::{Deal, Limit, Verdict};
use pct_gate::Gate;
use policy_pick::{MomentList, Priorities};
use script_code::Code;
use script_run::ReadyScript;
use std::alloc::{AllocError as NoMemory, Global};
use std::sync::Wait;
use std::thread::Threads;
use worker_run::Serve;

/// What a run by an order and change points comes to.
#[derive(Debug, Drop)]
pub enum FoundOut {
    /// These moments lead the order to the run's verdict, each of them is needed, and their
    /// directed run has this number of steps.
    Events {
        events: MomentList,
        verdict: Verdict,
        steps: u32,
    },
    /// The run passes, after this number of steps.
    Passes {
        steps: u32,
    },
}

/// Runs a script by an order of its threads, the highest first, and change points, which are
/// numbers of steps from 1. Where the run doesn't pass, finds few moments by which the order has
/// the same verdict. There are at most 29 runs.
pub fn find<R: Threads + Wait + Sync, G: Gate>(
    rt: &R,
    alloc: Global,
    code: &Code,
    deal: &Deal,
    order: &[u32],
    points: &[u32],
    limit: u32,
    gate: &G,
) -> Result<FoundOut, NoMemory>
    requires script { (script : ScriptText) × AreOf script (listing code.now) deal.now }
    requires order { IsOrder order.now }
    requires whole { length order.now ≡ deal.now.threads }
    requires few_points { length points.now ≤ MAX_POINTS }
    requires points { All (λ point. 1 ≤ point) points.now }
    requires some_steps { 1 ≤ limit }
    requires few_steps { limit ≤ MAX_STEPS }
    ensures { (script : ScriptText) → AreOf script (listing code.now) deal.now
        → IfOk result (Finds deal.now (bodies_of script) order.now points.now limit) }
{
    let ready = ReadyScript { code, deal };
    let limit = Limit::new(limit);
    let priorities = Priorities { order, points };
    let whole = ready.run_by_points(rt, alloc, &priorities, limit, Serve::Threads, gate)?;
    let steps = whole.events.len() as u32;
    let verdict = whole.verdict;
    if verdict.is(&Verdict::Passed) {
        return Ok(FoundOut::Passes { steps });
    }
    let moments = moments_of(alloc, whole.events.as_slice(), points)?;
    let whole = Short { moments, steps };
    let short = reduce(rt, alloc, &ready, &priorities, whole, &verdict, limit, gate)?;
    Ok(FoundOut::Events {
        events: short.moments,
        verdict,
        steps: short.steps,
    })
}
