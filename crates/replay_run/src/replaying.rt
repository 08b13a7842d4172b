ghost use Rattle.std.specs.Prelude.{◌≡◌, ◌<◌, List, ℕ, length, All, IfOk, Some};
ghost use Rattle.pct_ask.specs.declared.event.Event.{Event};
ghost use Rattle.pct_ask.specs.Limits.{IsStepCount};
ghost use Rattle.script_tree.specs.ScriptText.{ScriptText};
ghost use Rattle.script_code.specs.Listing.{listing};
ghost use Rattle.script_body.specs.Bodies.{bodies_of, AreOf};
ghost use Rattle.turn_book.specs.Posts.{schedule_of};
ghost use Rattle.worker_run.specs.Run.{run};
ghost use Rattle.replay_run.specs.declared.answer.Replayed.{Replayed};
ghost use Rattle.replay_run.specs.Replay.{IsReplay};

use crate::answer::Replayed;
use crate::compare::compare;
use pct_ask::{Deal, Event};
use pct_gate::Gate;
use policy_pick::Listed;
use script_body::bodies_of;
use script_code::Code;
use std::alloc::{AllocError as NoMemory, Global};
use std::sync::Wait;
use std::thread::Threads;
use trace_text::TraceFile;
use worker_run::run_threads;

/// The threads of some steps, in their order.
fn threads_of(alloc: Global, events: &[Event]) -> Result<Vec<u32>, NoMemory>
    ensures { IfOk result (λ threads. threads.items ≡ schedule_of events.now) }
{
    let mut threads = Vec::new(alloc);
    for event in events {
        threads.push(event.thread)?;
    }
    Ok(threads)
}

/// Runs a trace's list of threads over a script's bodies, under the trace's limit, and tells
/// whether that run has the trace's steps and verdict, or else where the two differ first.
pub fn replay<R: Threads + Wait + Sync, G: Gate>(
    rt: &R,
    alloc: Global,
    code: &Code,
    deal: &Deal,
    file: &TraceFile,
    gate: &G,
) -> Result<Replayed, NoMemory>
    requires script { (script : ScriptText) × AreOf script (listing code.now) deal.now }
    requires limit { IsStepCount file.now.header.limit }
    requires threads { All (λ (e : Event). e.thread < deal.now.threads) file.now.events }
    ensures replay { (script : ScriptText) → AreOf script (listing code.now) deal.now
        → IfOk result (IsReplay deal.now (bodies_of script) file.now) }

    // A run by an order and change points is confirmed.
    ensures run { (script : ScriptText) (order points : List ℕ)
        → AreOf script (listing code.now) deal.now → deal.now.threads ≡ length order
        → run deal.now (bodies_of script) order points file.now.header.limit
        ≡ Some (file.now.events, file.now.verdict)
        → IfOk result (λ replayed. replayed ≡ Replayed.Confirmed file.now.verdict) }
{
    let threads = threads_of(alloc, file.events.as_slice())?;
    let policy = Listed::new(alloc, threads.as_slice())?;
    let bodies = bodies_of(alloc, code)?;
    let own = deal.copy(alloc)?;
    let played = run_threads(rt, alloc, own, policy, file.header.limit, bodies, gate)?;
    Ok(compare(&played, file))
}
