ghost use Rattle.std.specs.Prelude.{◌≡◌, ◌≤◌, map, Some, IfOk};
ghost use Rattle.script_tree.specs.ScriptText.{ScriptText};
ghost use Rattle.script_code.specs.Listing.{listing};
ghost use Rattle.script_body.specs.Bodies.{bodies_of, AreOf};
ghost use Rattle.campaign.specs.Rows.{rows_of};
ghost use Rattle.pct_ask.specs.declared.limits.TheConstants.{MAX_DEPTH, MAX_RUNS, MAX_STEPS};

use crate::common::Campaign;
use pct_ask::{Deal, Depth, Limit, RowList};
use pct_gate::Gate;
use script_code::Code;
use script_run::{ReadyScript, run_batches};
use std::alloc::{AllocError as NoMemory, Global};
use std::sync::Wait;
use std::thread::Threads;
use worker_run::{RUNS_AT_ONCE, Serve};

/// A campaign as `campaign` gives it, whose bodies are served by threads or by the caller. Where a
/// thread couldn't be started, or there was no memory for threads, the caller serves the rest.
pub fn campaign_by<R: Threads + Wait + Sync, G: Gate>(
    rt: &R,
    alloc: Global,
    code: &Code,
    deal: &Deal,
    first: u64,
    count: u32,
    depth: Depth,
    steps: Limit,
    limit: Limit,
    serve: Serve,
    gate: &G,
) -> Result<RowList, NoMemory>
    requires script { (script : ScriptText) × AreOf script (listing code.now) deal.now }
    requires some_seeds { 1 ≤ count }
    requires few_seeds { count ≤ MAX_RUNS }
    // Row by row it is the run of the row's seed.
    ensures { (script : ScriptText) → AreOf script (listing code.now) deal.now
        → IfOk result (λ rows. map Some rows ≡ rows_of (record {
          deal = deal.now;
          bodies = bodies_of script;
          depth = depth;
          steps = steps;
          limit = limit;
        }) first count) }
{
    let campaign = Campaign {
        script: ReadyScript { code, deal },
        first,
        count,
        depth,
        steps,
        limit,
    };
    let mut rows = Vec::with_capacity(alloc, count as usize)?;
    let first_batch = RUNS_AT_ONCE;
    run_batches(
        rt,
        alloc,
        &campaign,
        &mut rows,
        count,
        first_batch,
        serve,
        gate,
    )?;
    Ok(RowList::from_vec(rows))
}

/// Runs a script's code once for each of `count` seeds from `first` on, in real threads; after the
/// last seed, 2^64 - 1, comes 0. Threads are started once for a batch of seeds, whose runs may
/// overlap in time. Each run goes by the order and the change points that its seed gives, points
/// drawn from 1 to `steps` and one fewer than the depth, and has at most `limit` steps. The room
/// for all rows is taken before the first run. The gate is passed before each post.
pub fn campaign<R: Threads + Wait + Sync, G: Gate>(
    rt: &R,
    alloc: Global,
    code: &Code,
    deal: &Deal,
    first: u64,
    count: u32,
    depth: u32,
    steps: u32,
    limit: u32,
    gate: &G,
) -> Result<RowList, NoMemory>
    requires script { (script : ScriptText) × AreOf script (listing code.now) deal.now }
    requires some_seeds { 1 ≤ count }
    requires few_seeds { count ≤ MAX_RUNS }
    requires some_depth { 1 ≤ depth }
    requires little_depth { depth ≤ MAX_DEPTH }
    requires some_steps { 1 ≤ steps }
    requires few_steps { steps ≤ MAX_STEPS }
    requires some_limit { 1 ≤ limit }
    requires low_limit { limit ≤ MAX_STEPS }
    // Row by row it is the run of the row's seed.
    ensures { (script : ScriptText) → AreOf script (listing code.now) deal.now
        → IfOk result (λ rows. map Some rows ≡ rows_of (record {
          deal = deal.now;
          bodies = bodies_of script;
          depth = depth;
          steps = steps;
          limit = limit;
        }) first count) }
{
    let depth = Depth::new(depth);
    let steps = Limit::new(steps);
    let limit = Limit::new(limit);
    let serve = Serve::Threads;
    campaign_by(
        rt, alloc, code, deal, first, count, depth, steps, limit, serve, gate,
    )
}
