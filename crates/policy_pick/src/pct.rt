ghost use Rattle.std.specs.Prelude.{◌≡◌, ℕ, ◌≤◌, [], length, IfOk, ◌↔◌};
ghost use Rattle.rank_now.specs.Order.{IsFirstWrong};
ghost use Rattle.rank_now.specs.Rank.{index_of_point};
ghost use Rattle.policy_pick.specs.Plan.{ByPoints};
ghost use Rattle.policy_pick.specs.Kept.{points_plan, PointsStand};
ghost use Rattle.pct_ask.specs.declared.limits.TheConstants.{MAX_POINTS, MAX_THREADS};

use crate::chance::{Chance, Pick};
use crate::policy::Policy;
use crate::priorities::Priorities;
use crate::walk::pick_by_rank;
use rank_now::{RankError, Ranks, first_wrong};
use std::alloc::{AllocError as NoMemory, Global};
use std::marker::Model;

/// The scheduler of PCT: the highest thread goes, and at each change point the one that took the
/// step is lowered.
#[derive(Debug, Drop)]
pub struct Pct {
    points: Vec<u32>,
    ranks: Ranks,
    taken: u32,
}

impl Model for Pct {
    ghost use Rattle.std.specs.Prelude.{length};
    ghost use Rattle.policy_pick.specs.Kept.{PointsKept, FitsOrder};

    ghost Value = { PointsKept };

    ghost view = { λ p. record {
      order = p.ranks.order;
      points = p.points.items;
      taken = p.taken;
      values = p.ranks.values;
    } };

    ghost invariant = { λ p.
        FitsOrder p.ranks.order p.ranks.values p.ranks.count (length p.points.items) };
}

impl Pct {
    /// The order names the highest thread first. The change points are numbers of steps of the run,
    /// from 1.
    pub fn new(alloc: Global, order: &[u32], points: &[u32]) -> Result<Pct, RankError>
        requires few_threads { length order.now ≤ MAX_THREADS }
        requires few_points { length points.now ≤ MAX_POINTS }
        ensures plan { IfOk result (λ p. points_plan p ≡ ByPoints order.now points.now) }
        ensures stands { IfOk result (λ p. PointsStand p []) }
        ensures not_an_order { (at : ℕ)
            → (result ≡ Err (RankError.NotAnOrder at)) ↔ IsFirstWrong order.now at }
    {
        match first_wrong(order) {
            Some(at) => Err(RankError::NotAnOrder { at }),
            None => Ok(Pct::of_priorities(alloc, &Priorities { order, points }, None)?),
        }
    }

    /// The policy of priorities, in the memory of another policy, where there is one, which nobody
    /// needs any more. Memory is taken only where that is too small.
    pub fn of_priorities(
        alloc: Global,
        priorities: &Priorities<'_>,
        spare: Option<Pct>,
    ) -> Result<Pct, NoMemory>
        requires few_threads { length priorities.now.order.now ≤ MAX_THREADS }
        ensures plan { IfOk result (λ p.
            points_plan p ≡ ByPoints priorities.now.order.now priorities.now.points.now) }
        ensures stands { IfOk result (λ p. PointsStand p []) }
    {
        let (spare, mut points) = match spare {
            Some(policy) => (Some(policy.ranks), policy.points),
            None => (None, Vec::new(alloc)),
        };
        let count = priorities.points.len() as u32;
        let ranks = Ranks::of_order(alloc, priorities.order, count, spare)?;
        points.clear();
        points.extend_from_slice(priorities.points)?;
        Ok(Pct {
            points,
            ranks,
            taken: 0,
        })
    }
}

impl Policy for Pct {
    ghost use Rattle.policy_pick.specs.Kept.{points_plan, PointsStand};
    ghost use Rattle.policy_pick.specs.Laws.{choice-keeps, choice-sound};

    ghost plan = { points_plan };

    ghost stands = { PointsStand };

    fn pick(&self, chances: &[Chance]) -> Pick {
        pick_by_rank(&self.ranks, chances)
    }

    fn took(&mut self, thread: u32) {
        self.took_and_kept(thread);
    }

    fn took_and_kept(&mut self, thread: u32) -> bool {
        self.taken += 1;
        let index = index_of_point(&self.points, self.taken);
        if index > 0 {
            self.ranks.lower(thread, index);
            false
        } else {
            true
        }
    }

    fn goes_by_rank(&self) -> bool {
        true
    }

    fn outranks(&self, thread: u32, others: u64) -> bool {
        self.ranks.outranks(thread, others)
    }

    ghost keeps = { λ policy schedule earlier later speaks known waits.
        choice-keeps (points_plan policy) schedule earlier later known waits };

    ghost sound = { λ policy schedule chances speaks targets.
        choice-sound (points_plan policy) schedule chances speaks targets };
}

/// The greatest index, from 1, of a point that is the step, and 0 where none is.
fn index_of_point(points: &[u32], step: u32) -> u32
    requires { length points.now ≤ MAX_POINTS }
    ensures { result ≡ index_of_point points.now step }
{
    let mut index = 0;
    for (place, point) in points.iter().enumerate() {
        if *point == step {
            index = place as u32 + 1;
        }
    }
    index
}
