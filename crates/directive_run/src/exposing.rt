//! The run of an order and change points that a directive stands for.

ghost use Rattle.std.specs.Prelude.{◌≡◌, ◌≤◌, length, IfOk};
ghost use Rattle.rank_now.specs.Order.{IsOrder};
ghost use Rattle.script_tree.specs.ScriptText.{ScriptText};
ghost use Rattle.script_code.specs.Listing.{listing};
ghost use Rattle.script_body.specs.Bodies.{bodies_of, AreOf};
ghost use Rattle.directive_run.specs.Exposing.{Exposes};
ghost use Rattle.pct_ask.specs.declared.limits.TheConstants.{MAX_STEPS};

use crate::answers::Exposed;
use choices::points_of;
use directive::Directive;
use pct_ask::{Deal, Limit};
use pct_gate::Gate;
use policy_pick::DirectedPriorities;
use script_code::Code;
use script_run::ReadyScript;
use std::alloc::{AllocError as NoMemory, Global};
use std::sync::Wait;
use std::thread::Threads;
use worker_run::Serve;

/// Runs a script under an order and a directive's moments, and gives the change points, each from 1
/// to `steps`, by which the order leads to the same run. The order names the highest thread first.
/// The directive's own thread plays no part.
pub fn expose<R: Threads + Wait + Sync, G: Gate>(
    rt: &R,
    alloc: Global,
    code: &Code,
    deal: &Deal,
    order: &[u32],
    directive: &Directive,
    steps: u32,
    limit: u32,
    gate: &G,
) -> Result<Exposed, NoMemory>
    requires script { (script : ScriptText) × AreOf script (listing code.now) deal.now }
    requires order { IsOrder order.now }
    requires whole { length order.now ≡ deal.now.threads }
    requires some_steps { 1 ≤ steps }
    requires few_steps { steps ≤ MAX_STEPS }
    requires some_limit { 1 ≤ limit }
    requires small_limit { limit ≤ MAX_STEPS }
    ensures { (script : ScriptText) → AreOf script (listing code.now) deal.now
        → IfOk result (Exposes deal.now (bodies_of script) order.now
        directive.now.events steps limit) }
{
    let moments = directive.events.as_slice();
    let ready = ReadyScript { code, deal };
    let limit = Limit::new(limit);
    let priorities = DirectedPriorities { order, moments };
    let whole = ready.run_by_moments(rt, alloc, &priorities, limit, Serve::Threads, gate)?;
    let many = whole.events.len() as u32;
    if many > steps {
        return Ok(Exposed::TooLong { steps: many });
    }
    let points = points_of(alloc, whole.events.as_slice(), steps, moments)?;
    Ok(Exposed::Points {
        points,
        played: whole.into(),
    })
}
