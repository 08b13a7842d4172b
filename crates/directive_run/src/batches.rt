// The run of each order that places a directive's thread last, and its row, or the answer.
ghost use Rattle.std.specs.Prelude.{◌-◌, ◌<◌, [], IfOk};
ghost use Rattle.policy_pick.specs.Kept.{moments_plan, MomentsStand};
ghost use Rattle.script_run.specs.Batches.{IsPlanOf};
ghost use Rattle.choices.specs.Orders.{factorial};
ghost use Rattle.directive_run.specs.Certifying.{Certifies};
ghost use Rattle.directive_run.specs.Tested.{common_of_claim, directed_setup, IsRunAt};
ghost use Rattle.directive_run.specs.Tested.{HasRowsBefore};

use crate::answers::{Certified, CertifyRow, CertifyRows};
use crate::claim::Claim;
use crate::judging::{Tested, test_run};
use choices::low_order_at;
use pct_ask::{Event, Limit, Outcome};
use policy_pick::{DirectedPolicy, DirectedPriorities};
use script_run::{Batch, ReadyScript};
use std::alloc::{AllocError as NoMemory, Global};

impl Batch for Claim<'_, '_> {
    type Policy = DirectedPolicy;

    type Kept = CertifyRows;

    type Answer = Certified;

    ghost size = { λ claim. factorial (claim.script.deal.now.threads - 1) };

    ghost common = { common_of_claim };

    ghost is_run = { λ claim. IsRunAt (directed_setup claim) };

    ghost stands = { λ claim. HasRowsBefore (directed_setup claim) };

    ghost answers = { λ claim rows certified. Certifies claim.script.deal.now
        (directed_setup claim).bodies claim.directive.now claim.steps claim.limit certified };

    fn script(&self) -> ReadyScript<'_> {
        self.script
    }

    fn limit(&self) -> Limit {
        self.limit
    }

    fn policy(
        &self,
        alloc: Global,
        place: u32,
        spare: Option<DirectedPolicy>,
    ) -> Result<DirectedPolicy, NoMemory>
        requires place { place < factorial (self.now.script.deal.now.threads - 1) }
        ensures stands { IfOk result (λ policy. MomentsStand policy []) }
        ensures plan { IfOk result (λ policy. IsPlanOf (common_of_claim self.now)
            (IsRunAt (directed_setup self.now) place) (moments_plan policy)) }
    {
        let order = low_order_at(alloc, self.script.deal.threads, self.directive.low, place)?;
        let (order, moments) = (order.as_slice(), self.directive.events.as_slice());
        DirectedPolicy::of_priorities(alloc, &DirectedPriorities { order, moments }, spare)
    }

    fn take(
        &self,
        alloc: Global,
        rows: &mut CertifyRows,
        place: u32,
        events: &[Event],
        outcome: &Outcome,
    ) -> Result<Option<Certified>, NoMemory> {
        let order = low_order_at(alloc, self.script.deal.threads, self.directive.low, place)?;
        match test_run(alloc, self, events, outcome)? {
            Tested::Led(points) => rows.try_push(CertifyRow { order, points })?,
            Tested::Other(verdict) => return Ok(Some(Certified::Refuted { order, verdict })),
            Tested::TooLong(steps) => return Ok(Some(Certified::TooLong { order, steps })),
        }
        Ok(None)
    }
}
