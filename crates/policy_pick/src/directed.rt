ghost use Rattle.std.specs.Prelude.{◌≡◌, ℕ, ◌≤◌, ◌==◌, ◌&&◌, [], length, IfOk, ◌↔◌};
ghost use Rattle.rank_now.specs.Order.{IsFirstWrong};
ghost use Rattle.rank_now.specs.Positions.{last_position};
ghost use Rattle.policy_pick.specs.Plan.{ByMoments};
ghost use Rattle.policy_pick.specs.Kept.{moments_plan, MomentsStand};
ghost use Rattle.pct_ask.specs.declared.limits.TheConstants.{MAX_POINTS, MAX_THREADS};

use crate::chance::{Chance, Pick};
use crate::policy::Policy;
use crate::priorities::DirectedPriorities;
use crate::walk::pick_by_rank;
use rank_now::{Moment, RankError, Ranks, first_wrong};
use std::alloc::{AllocError as NoMemory, Global};
use std::marker::Model;

/// The scheduler of PCT with moments in the place of change points: a thread is lowered after its
/// own step of a number.
#[derive(Debug, Drop)]
pub struct DirectedPolicy {
    moments: Vec<Moment>,
    ranks: Ranks,
    own: Vec<u32>,
}

impl Model for DirectedPolicy {
    ghost use Rattle.std.specs.Prelude.{length};
    ghost use Rattle.policy_pick.specs.Kept.{MomentsKept, FitsOrder};

    ghost Value = { MomentsKept };

    ghost view = { λ p. record {
      order = p.ranks.order;
      moments = p.moments.items;
      values = p.ranks.values;
      own = p.own.items;
    } };

    ghost invariant = { λ p.
        FitsOrder p.ranks.order p.ranks.values p.ranks.count (length p.moments.items) };
}

impl DirectedPolicy {
    /// The order names the highest thread first.
    pub fn new(alloc: Global, order: &[u32], events: &[Moment]) -> Result<DirectedPolicy, RankError>
        requires few_threads { length order.now ≤ MAX_THREADS }
        requires few_moments { length events.now ≤ MAX_POINTS }
        ensures plan { IfOk result (λ p. moments_plan p ≡ ByMoments order.now events.now) }
        ensures stands { IfOk result (λ p. MomentsStand p []) }
        ensures not_an_order { (at : ℕ)
            → (result ≡ Err (RankError.NotAnOrder at)) ↔ IsFirstWrong order.now at }
    {
        match first_wrong(order) {
            Some(at) => Err(RankError::NotAnOrder { at }),
            None => {
                let priorities = DirectedPriorities {
                    order,
                    moments: events,
                };
                Ok(DirectedPolicy::of_priorities(alloc, &priorities, None)?)
            }
        }
    }

    /// The policy of priorities, in the memory of another policy, where there is one, which nobody
    /// needs any more. Memory is taken only where that is too small.
    pub fn of_priorities(
        alloc: Global,
        priorities: &DirectedPriorities<'_>,
        spare: Option<DirectedPolicy>,
    ) -> Result<DirectedPolicy, NoMemory>
        requires few_threads { length priorities.now.order.now ≤ MAX_THREADS }
        ensures plan { IfOk result (λ p.
            moments_plan p ≡ ByMoments priorities.now.order.now priorities.now.moments.now) }
        ensures stands { IfOk result (λ p. MomentsStand p []) }
    {
        let (spare, mut moments, mut own) = match spare {
            Some(policy) => (Some(policy.ranks), policy.moments, policy.own),
            None => (None, Vec::new(alloc), Vec::new(alloc)),
        };
        let count = priorities.moments.len() as u32;
        let ranks = Ranks::of_order(alloc, priorities.order, count, spare)?;
        moments.clear();
        moments.extend_from_slice(priorities.moments)?;
        own.clear();
        own.resize(priorities.order.len(), 0)?;
        Ok(DirectedPolicy {
            moments,
            ranks,
            own,
        })
    }
}

impl Policy for DirectedPolicy {
    ghost use Rattle.policy_pick.specs.Kept.{moments_plan, MomentsStand};
    ghost use Rattle.policy_pick.specs.Laws.{choice-keeps, choice-sound};

    ghost plan = { moments_plan };

    ghost stands = { MomentsStand };

    fn pick(&self, chances: &[Chance]) -> Pick {
        pick_by_rank(&self.ranks, chances)
    }

    fn took(&mut self, thread: u32) {
        self.took_and_kept(thread);
    }

    fn took_and_kept(&mut self, thread: u32) -> bool {
        let number = self.own[thread as usize] + 1;
        self.own[thread as usize] = number;
        let index = index_of_moment(&self.moments, thread, number);
        if index > 0 {
            self.ranks.lower(thread, index);
            false
        } else {
            true
        }
    }

    fn goes_by_rank(&self) -> bool {
        true
    }

    fn outranks(&self, thread: u32, others: u64) -> bool {
        self.ranks.outranks(thread, others)
    }

    ghost keeps = { λ policy schedule earlier later speaks known waits.
        choice-keeps (moments_plan policy) schedule earlier later known waits };

    ghost sound = { λ policy schedule chances speaks targets.
        choice-sound (moments_plan policy) schedule chances speaks targets };
}

/// The greatest index, from 1, of the moment that is this own step of the thread, and 0 where none
/// is.
fn index_of_moment(moments: &[Moment], thread: u32, number: u32) -> u32
    requires { length moments.now ≤ MAX_POINTS }
    ensures { result ≡ last_position
        (λ moment. moment.thread == thread && moment.number == number) moments.now }
{
    let mut index = 0;
    for (place, moment) in moments.iter().enumerate() {
        if moment.thread == thread && moment.number == number {
            index = place as u32 + 1;
        }
    }
    index
}
