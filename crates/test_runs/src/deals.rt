//! What the threads of the tests share.
ghost use Rattle.std.specs.Prelude.{◌≡◌, ◌≤◌, [], length, All, IfOk, IsTrue};
ghost use Rattle.pct_ask.specs.Objects.{sizes_of_deal, EventIsInRange};
ghost use Rattle.policy_pick.specs.Plan.{SpeaksOf};
ghost use Rattle.policy_pick.specs.Kept.{points_plan, PointsStand};

use pct_ask::{Deal, Event, Sequence};
use policy_pick::Pct;
use std::alloc::{AllocError as NoMemory, Global};
use std::test::Fail;

/// So many threads, with a variable, a mutex, and a semaphore of no units.
pub(crate) fn deal_of(alloc: Global, threads: u32) -> Result<Deal, NoMemory>
    requires some { 1 ≤ threads }
    requires few { threads ≤ 64 }
    ensures threads { IfOk result (λ deal. deal.threads ≡ threads) }
    ensures vars { IfOk result (λ deal. length deal.vars ≡ 1) }
    ensures sems { IfOk result (λ deal. length deal.sems ≡ 1) }
{
    Ok(Deal {
        threads,
        vars: Sequence::from_vec(vec![in alloc; 0]?),
        mutexes: 1,
        conds: 0,
        sems: Sequence::from_vec(vec![in alloc; 0]?),
        barriers: Sequence::new(alloc),
        rwlocks: 0,
    })
}

/// The deal, and the policy by which its threads take turns: the order's first goes first.
pub(crate) fn with_order(alloc: Global, deal: Deal, order: &[u32]) -> Result<(Deal, Pct), Fail>
    requires whole { deal.threads ≡ length order.now }
    ensures deal { IfOk result (λ made. made.0 ≡ deal) }
    ensures stands { IfOk result (λ made. PointsStand made.1 []) }
    ensures speaks { IfOk result (λ made. SpeaksOf (points_plan made.1) made.0.threads) }
{
    match Pct::new(alloc, order, &[]) {
        Ok(policy) => Ok((deal, policy)),
        Err(error) => {
            drop(deal);
            Err(Fail::from(error))
        }
    }
}

/// As many threads as the order names, and the policy by which they take turns.
pub(crate) fn ordered(alloc: Global, order: &[u32]) -> Result<(Deal, Pct), Fail>
    requires some { 1 ≤ length order.now }
    requires few { length order.now ≤ 64 }
    ensures threads { IfOk result (λ made. made.0.threads ≡ length order.now) }
    ensures vars { IfOk result (λ made. length made.0.vars ≡ 1) }
    ensures sems { IfOk result (λ made. length made.0.sems ≡ 1) }
    ensures stands { IfOk result (λ made. PointsStand made.1 []) }
    ensures speaks { IfOk result (λ made. SpeaksOf (points_plan made.1) made.0.threads) }
{
    let deal = deal_of(alloc, order.len() as u32)?;
    with_order(alloc, deal, order)
}

fn is_in_range(deal: &Deal, event: &Event) -> bool
    ensures { IsTrue result → EventIsInRange (sizes_of_deal deal.now) event.now }
{
    event.thread < deal.threads && deal.has_objects_of(&event.ask)
}

/// Whether each step is by one of the threads, and asks for what there is.
pub(crate) fn are_in_range(deal: &Deal, events: &[Event]) -> bool
    ensures { IsTrue result → All (EventIsInRange (sizes_of_deal deal.now)) events.now }
{
    events.iter().all(|event| is_in_range(deal, event))
}
