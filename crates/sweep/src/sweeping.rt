ghost use Rattle.std.specs.Prelude.{◌≤◌, ◌-◌, IfOk};
ghost use Rattle.script_tree.specs.ScriptText.{ScriptText};
ghost use Rattle.script_code.specs.Listing.{listing};
ghost use Rattle.script_body.specs.Bodies.{bodies_of, AreOf};
ghost use Rattle.sweep.specs.Swept.{Sweeps};

use crate::batches::count_ahead;
use crate::choice::choice_count;
use crate::common::Sweep;
use crate::next::Counts;
use failure_rank::Groups;
use pct_ask::{Deal, Depth, Limit};
use pct_gate::Gate;
use script_code::Code;
use script_run::ReadyScript;
use std::alloc::{AllocError as NoMemory, Global};
use std::sync::Wait;
use std::thread::Threads;
use worker_run::{RUNS_AT_ONCE, Serve, Serving};

/// What all choices of an order and change points lead to.
#[derive(Debug, Drop)]
pub struct Swept {
    /// How many choices there are.
    pub choices: u32,
    /// How many of them pass.
    pub passed: u32,
    /// The verdicts of the others. A group's `first` is the place of its first choice, from 0.
    pub groups: Groups,
}

/// What is told of all choices.
#[derive(Debug, Drop)]
pub enum Answer {
    /// What each leads to, counted.
    Whole(Swept),
    /// There are more than 100,000,000.
    TooMany,
}

/// How many choices the next batch has. Behind a run that is longer than all before it other
/// choices come next, so that a batch begins with one again and grows.
fn next_size(size: u32, most: u32, is_longer: bool) -> u32
    requires { 1 ≤ most }
    ensures { 1 ≤ result }
{
    if is_longer {
        1
    } else {
        size.saturating_mul(2).clamp(1, most)
    }
}

/// Runs a script's code under each choice of an order of its threads and of `depth - 1` change
/// points, each from 1 to `steps`, and counts how the runs end. The bodies are served by threads or
/// by the caller. A run has at most `limit` steps. Where a point isn't below the length of a run,
/// all greater points repeat the run, which is made once and counted for each. Threads are started
/// once for a batch of choices, whose runs may overlap in time; where one couldn't be started, or
/// there was no memory for threads, the caller serves the rest. The gate is passed before each
/// post.
pub fn sweep<R: Threads + Wait + Sync, G: Gate>(
    rt: &R,
    alloc: Global,
    code: &Code,
    deal: &Deal,
    depth: Depth,
    steps: Limit,
    limit: Limit,
    serve: Serve,
    gate: &G,
) -> Result<Answer, NoMemory>
    requires { (script : ScriptText) × AreOf script (listing code.now) deal.now }
    ensures { (script : ScriptText) → AreOf script (listing code.now) deal.now
        → IfOk result (Sweeps (record {
          deal = deal.now;
          bodies = bodies_of script;
          many = depth - 1;
          steps = steps;
          limit = limit;
        })) }
{
    let points = depth.points();
    let steps = steps.steps();
    let Some(choices) = choice_count(deal.threads, steps, points) else {
        return Ok(Answer::TooMany);
    };
    let sweep = Sweep {
        script: ReadyScript { code, deal },
        points,
        steps,
        limit,
        choices,
    };
    let mut serving = Serving::new(alloc, serve);
    let mut counts = Counts::new(alloc);
    let mut size = 1;
    'batches: while counts.reach.place < choices {
        let longest = counts.reach.longest;
        count_ahead(rt, alloc, &sweep, &mut counts, size, &mut serving, gate)?;
        size = next_size(size, RUNS_AT_ONCE, counts.reach.longest > longest);
    }
    let tally = counts.tally;
    let passed = tally.passed();
    let groups = tally.into_groups(alloc)?;
    Ok(Answer::Whole(Swept {
        choices,
        passed,
        groups,
    }))
}
