//! Runs of a script that is ready: whole ones, and those of a batch.
ghost use Rattle.std.specs.Prelude.{◌≡◌, ◌-◌, ◌<◌, [], ◌∷◌, IfOk};
ghost use Rattle.policy_pick.specs.Kept.{points_plan, PointsStand};
ghost use Rattle.script_run.specs.Batches.{IsPlanOf};
ghost use Rattle.script_code.specs.Listing.{listing};
ghost use Rattle.script_run.specs.Ready.{bodies_of_code};
ghost use Rattle.worker_run.specs.Run.{run};
ghost use Rattle.worker_run.specs.Played.{IsRun};

use crate::scripts::{ADDERS, FAILED, FIRST_OF_A, code_and_deal};
use pct_ask::{Event, Limit, Outcome, Verdict};
use pct_gate::OpenGate;
use policy_pick::{DirectedPriorities, Pct, Priorities};
use script_run::{Batch, ReadyScript, run_batch};
use std::alloc::{AllocError as NoMemory, Global};
use std::process::Abort;
use std::sync::Wait;
use std::test::Fail;
use std::thread::Threads;
use worker_run::{Serve, Serving, verdict_of};

/// The adders, with one change point, a step from the fourth down to the first. Only the first
/// fails.
#[derive(Clone, Copy)]
struct Adders<'a> {
    ready: ReadyScript<'a>,
    ghost three: { ready.deal.now.threads ≡ 3 },
}

impl Batch for Adders<'_> {
    type Policy = Pct;

    type Kept = u32;

    type Answer = Verdict;

    ghost size = { λ adders. 4 };

    ghost common = { λ adders. record {
      code = listing adders.ready.code.now;
      deal = adders.ready.deal.now;
      limit = 100;
    } };

    ghost is_run = { λ adders place played. IsRun (run adders.ready.deal.now
        (bodies_of_code (listing adders.ready.code.now)) (0 ∷ 1 ∷ 2 ∷ []) ((4 - place) ∷ []) 100)
        played.events played.outcome };

    ghost stands = { λ adders taken place. taken ≡ place };

    ghost answers = { λ adders taken verdict. Unit {0} };

    fn script(&self) -> ReadyScript<'_> {
        self.ready
    }

    fn limit(&self) -> Limit {
        Limit::new(100)
    }

    fn policy(&self, alloc: Global, place: u32, spare: Option<Pct>) -> Result<Pct, NoMemory>
        requires place { place < 4 }
        ensures stands { IfOk result (λ policy. PointsStand policy []) }
        ensures plan { IfOk result (λ policy. IsPlanOf (record {
          code = listing self.now.ready.code.now;
          deal = self.now.ready.deal.now;
          limit = 100;
        }) (λ played. IsRun (run self.now.ready.deal.now
            (bodies_of_code (listing self.now.ready.code.now)) (0 ∷ 1 ∷ 2 ∷ [])
            ((4 - place) ∷ []) 100) played.events played.outcome) (points_plan policy)) }
    {
        let priorities = Priorities {
            order: &[0, 1, 2],
            points: &[4 - place],
        };
        Pct::of_priorities(alloc, &priorities, spare)
    }

    fn take(
        &self,
        _alloc: Global,
        taken: &mut u32,
        place: u32,
        _events: &[Event],
        outcome: &Outcome,
    ) -> Result<Option<Verdict>, NoMemory> {
        *taken = place + 1;
        let verdict = verdict_of(outcome);
        Ok(if verdict.is(&Verdict::Passed) {
            None
        } else {
            Some(verdict)
        })
    }
}

/// That only the last run of the batch fails.
fn expect_last<R: Threads + Wait + Abort + Sync>(
    rt: &R,
    alloc: Global,
    adders: &Adders<'_>,
    serve: Serve,
) -> Result<(), Fail> {
    let gate = OpenGate::new();
    let mut serving = Serving::new(alloc, serve);
    let mut taken = 0;
    let passing = run_batch(rt, alloc, adders, &mut taken, 0, 3, &mut serving, &gate)?;
    assert!(rt; passing.is_none());
    let failing = run_batch(rt, alloc, adders, &mut taken, 3, 4, &mut serving, &gate)?;
    assert_eq!(rt; failing, Some(FAILED));
    Ok(())
}

/// That the first step of the first thread, as a point or as a moment, makes the third fail.
fn expect_failed<R: Threads + Wait + Abort + Sync>(
    rt: &R,
    alloc: Global,
    adders: &Adders<'_>,
    serve: Serve,
) -> Result<(), Fail> {
    let gate = OpenGate::new();
    let ready = adders.ready;
    let priorities = Priorities {
        order: &[0, 1, 2],
        points: &[1],
    };
    let limit = Limit::new(100);
    let run = ready.run_by_points(rt, alloc, &priorities, limit, serve, &gate)?;
    assert_eq!(rt; run.verdict, FAILED);
    assert_eq!(rt; run.events.len(), 8);
    let priorities = DirectedPriorities {
        order: &[0, 1, 2],
        moments: &[FIRST_OF_A],
    };
    let directed = ready.run_by_moments(rt, alloc, &priorities, limit, serve, &gate)?;
    assert_eq!(rt; directed.verdict, FAILED);
    assert_eq!(rt; directed.events.as_slice(), run.events.as_slice());
    Ok(())
}

/// Threads and the caller make the same runs.
#[test]
fn runs_of_the_adders(rt: HostRuntime) -> Result<(), Fail> {
    let alloc = rt.alloc();
    let (code, deal) = code_and_deal(alloc, ADDERS)?;
    assert!(rt; deal.threads == 3);
    let ready = ReadyScript {
        code: &code,
        deal: &deal,
    };
    let adders = Adders { ready };
    for serve in [Serve::Threads, Serve::Caller] {
        expect_failed(&rt, alloc, &adders, serve)?;
        expect_last(&rt, alloc, &adders, serve)?;
    }
    Ok(())
}
