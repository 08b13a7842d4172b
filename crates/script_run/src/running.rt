//! Whole runs of a script, by an order of its threads, with change points or with moments in their
//! place.

ghost use Rattle.std.specs.Prelude.{◌≡◌, ◌≤◌, length, IfOk, Some};
ghost use Rattle.pct_ask.specs.declared.verdict.Outcome.{Outcome};
ghost use Rattle.policy_pick.specs.Plan.{ByPoints};
ghost use Rattle.script_tree.specs.ScriptText.{ScriptText};
ghost use Rattle.script_code.specs.Listing.{listing};
ghost use Rattle.script_body.specs.Bodies.{bodies_of, AreOf};
ghost use Rattle.worker_run.specs.Run.{run, directed_run};
ghost use Rattle.worker_run.specs.Played.{IsPlayed};
ghost use Rattle.worker_run.specs.Tests.{IsTest, IsRunOf};
ghost use Rattle.script_run.specs.Ready.{bodies_of_code};

use crate::ready::ReadyScript;
use pct_ask::{Body, Limit};
use pct_gate::Gate;
use policy_pick::{DirectedPolicy, DirectedPriorities, Pct, Policy, Priorities};
use std::alloc::{AllocError as NoMemory, Global};
use std::sync::Wait;
use std::thread::Threads;
use worker_run::{Played, Serve, Test, WholeRun, run_here, run_threads};

/// The run of a test, whose bodies are served by threads or by the caller.
fn run_test<R: Threads + Wait + Sync, P: Policy, B: Body, G: Gate>(
    rt: &R,
    alloc: Global,
    test: Test<P, B>,
    serve: Serve,
    gate: &G,
) -> Result<Played, NoMemory>
    requires test { IsTest B.pending P.plan P.stands test }
    ensures { IfOk result (IsRunOf B.pending P.plan test) }
{
    let Test {
        deal,
        policy,
        limit,
        bodies,
    } = test;
    let steps = limit.steps();
    match serve {
        Serve::Threads => run_threads(rt, alloc, deal, policy, steps, bodies, gate),
        Serve::Caller => run_here(rt, alloc, deal, policy, steps, bodies, gate),
    }
}

impl ReadyScript<'_> {
    /// The run under an order of the threads, the highest first, and change points, which are
    /// numbers of steps from 1. It has at most `limit` steps. The bodies are served by threads, one
    /// for each, or by the caller. The gate is passed before each post.
    pub fn run_by_points<R: Threads + Wait + Sync, G: Gate>(
        &self,
        rt: &R,
        alloc: Global,
        priorities: &Priorities<'_>,
        limit: Limit,
        serve: Serve,
        gate: &G,
    ) -> Result<WholeRun, NoMemory>
        requires whole { length priorities.now.order.now ≡ self.now.deal.now.threads }
        ensures code { IfOk result (λ whole. run self.now.deal.now
            (bodies_of_code (listing self.now.code.now)) priorities.now.order.now
            priorities.now.points.now limit ≡ Some (whole.events, whole.verdict)) }
        ensures run { (script : ScriptText)
            → AreOf script (listing self.now.code.now) self.now.deal.now
            → IfOk result (λ whole. run self.now.deal.now (bodies_of script)
            priorities.now.order.now priorities.now.points.now limit
            ≡ Some (whole.events, whole.verdict)) }
        // The same, as the run that is played by these priorities.
        ensures played { (script : ScriptText)
            → AreOf script (listing self.now.code.now) self.now.deal.now
            → IfOk result (λ whole.
            IsPlayed (ByPoints priorities.now.order.now priorities.now.points.now)
            self.now.deal.now (bodies_of script) limit whole.events
            (Outcome.Verdict whole.verdict)) }
        ensures few { IfOk result (λ whole. length whole.events ≤ limit) }
    {
        let policy = Pct::of_priorities(alloc, priorities, None)?;
        let test = self.test(alloc, policy, limit)?;
        let played = run_test(rt, alloc, test, serve, gate)?;
        Ok(played.into_whole())
    }

    /// The same with moments in the place of change points: a thread is lowered after its own step
    /// of a number, from 1.
    pub fn run_by_moments<R: Threads + Wait + Sync, G: Gate>(
        &self,
        rt: &R,
        alloc: Global,
        priorities: &DirectedPriorities<'_>,
        limit: Limit,
        serve: Serve,
        gate: &G,
    ) -> Result<WholeRun, NoMemory>
        requires whole { length priorities.now.order.now ≡ self.now.deal.now.threads }
        ensures code { IfOk result (λ whole. directed_run self.now.deal.now
            (bodies_of_code (listing self.now.code.now)) priorities.now.order.now
            priorities.now.moments.now limit ≡ Some (whole.events, whole.verdict)) }
        ensures directed { (script : ScriptText)
            → AreOf script (listing self.now.code.now) self.now.deal.now
            → IfOk result (λ whole. directed_run self.now.deal.now (bodies_of script)
            priorities.now.order.now priorities.now.moments.now limit
            ≡ Some (whole.events, whole.verdict)) }
        ensures few { IfOk result (λ whole. length whole.events ≤ limit) }
    {
        let policy = DirectedPolicy::of_priorities(alloc, priorities, None)?;
        let test = self.test(alloc, policy, limit)?;
        let played = run_test(rt, alloc, test, serve, gate)?;
        Ok(played.into_whole())
    }
}
