//! Moments without those that a verdict doesn't need.

ghost use Rattle.std.specs.Prelude.{◌≡◌, ◌<◌, length, IfOk, IfSome};
ghost use Rattle.script_code.specs.Listing.{listing};
ghost use Rattle.script_run.specs.Ready.{bodies_of_code};
ghost use Rattle.directive_find.specs.Reduced.{LeadsTo, Leaves, IsReduced};

use crate::short::Short;
use choices::without_moment;
use pct_ask::{Limit, Verdict};
use pct_gate::Gate;
use policy_pick::{DirectedPriorities, Priorities};
use script_run::ReadyScript;
use std::alloc::{AllocError as NoMemory, Global};
use std::sync::Wait;
use std::thread::Threads;
use worker_run::{Serve, count_steps};

/// Leaves out the first moment without which the directed run still has the verdict. `None` where
/// each is needed.
fn leave_out<R: Threads + Wait + Sync, G: Gate>(
    rt: &R,
    alloc: Global,
    ready: &ReadyScript<'_>,
    priorities: &DirectedPriorities<'_>,
    verdict: &Verdict,
    limit: Limit,
    gate: &G,
) -> Result<Option<Short>, NoMemory>
    requires { length priorities.now.order.now ≡ ready.now.deal.now.threads }
    ensures leaves { IfOk result (Leaves ready.now.deal.now
        (bodies_of_code (listing ready.now.code.now)) priorities.now.order.now limit verdict.now
        priorities.now.moments.now) }
    ensures fewer { IfOk result (λ left.
        IfSome left (λ short. length short.moments < length priorities.now.moments.now)) }
{
    let DirectedPriorities { order, moments, .. } = *priorities;
    for place in 0..moments.len() {
        let rest = without_moment(alloc, moments, place)?;
        let left = DirectedPriorities {
            order,
            moments: rest.as_slice(),
        };
        let whole = ready.run_by_moments(rt, alloc, &left, limit, Serve::Threads, gate)?;
        if whole.verdict.is(verdict) {
            let steps = count_steps(whole.events.as_slice(), limit);
            return Ok(Some(Short {
                moments: rest,
                steps,
            }));
        }
    }
    Ok(None)
}

/// Leaves out single moments, each time the first that the verdict doesn't need, until each is
/// needed. The moments stand in the place of the points of these priorities.
pub fn reduce<R: Threads + Wait + Sync, G: Gate>(
    rt: &R,
    alloc: Global,
    ready: &ReadyScript<'_>,
    priorities: &Priorities<'_>,
    whole: Short,
    verdict: &Verdict,
    limit: Limit,
    gate: &G,
) -> Result<Short, NoMemory>
    requires whole { length priorities.now.order.now ≡ ready.now.deal.now.threads }
    requires leads { LeadsTo ready.now.deal.now (bodies_of_code (listing ready.now.code.now))
        priorities.now.order.now limit verdict.now whole.moments whole.steps }
    ensures { IfOk result (IsReduced ready.now.deal.now
        (bodies_of_code (listing ready.now.code.now)) priorities.now.order.now limit verdict.now
        whole.moments) }
{
    let order = priorities.order;
    let mut short = whole;
    'rounds: while let Some(shorter) = leave_out(
        rt,
        alloc,
        ready,
        &DirectedPriorities {
            order,
            moments: short.moments.as_slice(),
        },
        verdict,
        limit,
        gate,
    )? {
        short = shorter;
    }
    Ok(short)
}
