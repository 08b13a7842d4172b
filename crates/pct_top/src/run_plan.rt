//! What a run is made by.

ghost use Rattle.std.specs.Prelude.{◌≡◌, ◌≤◌, None, IfOk, length};
ghost use Rattle.script_tree.specs.ScriptSeen.{plain_script};
ghost use Rattle.priority_draw.specs.Drawing.{draw_of_seed};
ghost use Rattle.rank_now.specs.Order.{IsOrder};
ghost use Rattle.pct_top.specs.Settings.{AreChangePoints};
ghost use Rattle.pct_top.specs.Runs.{DrawsFrom};
ghost use Rattle.pct_ask.specs.declared.limits.TheConstants.{MAX_THREADS};

use crate::playing::play;
use crate::test::ReadyTest;
use pct_ask::{Depth, Limit, OrderList, PointList};
use pct_outside::Gate;
use priority_draw::{Words, declared_order};
use std::alloc::{AllocError as NoMemory, Global};
use std::sync::Wait;
use std::thread::Threads;
use worker_run::Serve;

/// What a run is made by: an order of the threads, the highest priority first, change points, and
/// at how many steps it is cut.
#[derive(Debug, Drop)]
pub struct RunPlan {
    pub order: OrderList,
    pub points: PointList,
    pub limit: Limit,
    ghost is_order: { ∥ IsOrder order ∥₁ },
    ghost points_fit: { AreChangePoints points },
}

/// How many steps the run in declared order has, without points, and at least one.
fn declared_length<R: Threads + Wait + Sync, G: Gate>(
    rt: &R,
    alloc: Global,
    test: &ReadyTest,
    limit: Limit,
    serve: Serve,
    gate: &G,
) -> Result<Limit, NoMemory>
    ensures { IfOk result
        (DrawsFrom (plain_script test.now.script) test.now.deal limit None) }
{
    let order = OrderList::from_vec(declared_order(alloc, test.deal.threads)?);
    let points = PointList::new(alloc);
    let plan = RunPlan {
        order,
        points,
        limit,
    };
    let run = play(rt, alloc, test, &plan, serve, gate)?;
    Ok(Limit::new((run.events.len() as u32).max(1)))
}

/// From how many steps points are drawn.
pub fn steps_of<R: Threads + Wait + Sync, G: Gate>(
    rt: &R,
    alloc: Global,
    test: &ReadyTest,
    steps: Option<Limit>,
    limit: Limit,
    serve: Serve,
    gate: &G,
) -> Result<Limit, NoMemory>
    ensures { IfOk result
        (DrawsFrom (plain_script test.now.script) test.now.deal limit steps) }
{
    match steps {
        Some(steps) => Ok(steps),
        None => declared_length(rt, alloc, test, limit, serve, gate),
    }
}

/// The order and the points of a seed, for a run of at most `limit` steps.
pub fn drawn(
    alloc: Global,
    threads: u32,
    seed: u64,
    steps: Limit,
    depth: Depth,
    limit: Limit,
) -> Result<RunPlan, NoMemory>
    requires some_thread { 1 ≤ threads }
    requires few_threads { threads ≤ MAX_THREADS }
    ensures order { IfOk result (λ own. own.order ≡ (draw_of_seed seed threads steps depth).order) }
    ensures points { IfOk result
        (λ own. own.points ≡ (draw_of_seed seed threads steps depth).points) }
    ensures limit { IfOk result (λ own. own.limit ≡ limit) }
    ensures whole { IfOk result (λ own. length own.order ≡ threads) }
{
    let mut words = Words::of_seed(seed);
    let order = words.draw_order(alloc, threads)?;
    let points = words.draw_points(alloc, steps.steps(), depth.points())?;
    Ok(RunPlan {
        order,
        points,
        limit,
    })
}
