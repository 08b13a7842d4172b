// The run of each seed, and its row.
ghost use Rattle.std.specs.Prelude.{◌<◌, [], IfOk};
ghost use Rattle.policy_pick.specs.Kept.{points_plan, PointsStand};
ghost use Rattle.script_run.specs.Batches.{IsPlanOf};
ghost use Rattle.campaign.specs.Rows.{seed_at};
ghost use Rattle.campaign.specs.Batches.{common_of_campaign, setup_of_campaign, IsSeedRun};
ghost use Rattle.campaign.specs.Batches.{HasRowsBefore};

use crate::common::Campaign;
use pct_ask::{Event, Limit, Outcome, Row};
use policy_pick::{Pct, Priorities};
use priority_draw::Words;
use script_run::{Batch, ReadyScript};
use std::alloc::{AllocError as NoMemory, Global};
use worker_run::{count_steps, verdict_of};

impl Batch for Campaign<'_> {
    type Policy = Pct;

    type Kept = Vec<Row>;

    type Answer = ();

    ghost size = { λ campaign. campaign.count };

    ghost common = { common_of_campaign };

    ghost is_run = { λ campaign place played.
        IsSeedRun (setup_of_campaign campaign) (seed_at campaign.first place) played };

    ghost stands = { λ campaign.
        HasRowsBefore (setup_of_campaign campaign) campaign.first campaign.count };

    ghost answers = { λ campaign rows answer. ⊥ };

    fn script(&self) -> ReadyScript<'_> {
        self.script
    }

    fn limit(&self) -> Limit {
        self.limit
    }

    fn policy(&self, alloc: Global, place: u32, spare: Option<Pct>) -> Result<Pct, NoMemory>
        requires place { place < self.now.count }
        ensures stands { IfOk result (λ policy. PointsStand policy []) }
        ensures plan { IfOk result (λ policy. IsPlanOf (common_of_campaign self.now)
            (IsSeedRun (setup_of_campaign self.now) (seed_at self.now.first place))
            (points_plan policy)) }
    {
        let mut words = Words::of_seed(self.seed_at(place));
        let order = words.draw_order(alloc, self.script.deal.threads)?;
        let points = words.draw_points(alloc, self.steps.steps(), self.depth.points())?;
        let (order, points) = (order.as_slice(), points.as_slice());
        Pct::of_priorities(alloc, &Priorities { order, points }, spare)
    }

    fn take(
        &self,
        _alloc: Global,
        rows: &mut Vec<Row>,
        place: u32,
        events: &[Event],
        outcome: &Outcome,
    ) -> Result<Option<()>, NoMemory> {
        rows.push_reserved(Row {
            seed: self.seed_at(place),
            steps: count_steps(events, self.limit),
            verdict: verdict_of(outcome),
        });
        Ok(None)
    }
}
