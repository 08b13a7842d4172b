// Tests that are run with others under an order of their threads.
ghost use Rattle.std.specs.Prelude.{◌≡◌, length, map, IfOk};
ghost use Rattle.pct_ask.specs.Objects.{sizes_of_deal};
ghost use Rattle.pct_ask.specs.Bodies.{AreInRange};
ghost use Rattle.policy_pick.specs.Plan.{ByPoints};
ghost use Rattle.policy_pick.specs.Kept.{points_plan, PointsStand};
ghost use Rattle.worker_run.specs.Tests.{IsTest};

use crate::batch::Test;
use pct_ask::{Body, Deal, Limit};
use policy_pick::{Pct, Priorities};
use std::alloc::{AllocError as NoMemory, Global};

impl<B: Body> Test<Pct, B> {
    /// A test that is run under an order of its threads and change points.
    pub fn by_points(
        alloc: Global,
        deal: Deal,
        priorities: &Priorities<'_>,
        limit: Limit,
        bodies: Vec<B>,
    ) -> Result<Test<Pct, B>, NoMemory>
        requires whole { length priorities.now.order.now ≡ deal.threads }
        requires bodies { length bodies.items ≡ deal.threads }
        requires in_range { AreInRange (sizes_of_deal deal) (map B.pending bodies.items) }
        ensures asked { IfOk result (λ test. IsTest B.pending points_plan PointsStand test) }
        ensures plan { IfOk result (λ test.
            points_plan test.policy ≡ ByPoints priorities.now.order.now priorities.now.points.now) }
        ensures deal { IfOk result (λ test. test.deal ≡ deal) }
        ensures limit { IfOk result (λ test. test.limit ≡ limit) }
        ensures bodies { IfOk result (λ test. test.bodies ≡ bodies) }
    {
        let policy = Pct::of_priorities(alloc, priorities, None)?;
        Ok(Test {
            deal,
            policy,
            limit,
            bodies,
        })
    }
}
