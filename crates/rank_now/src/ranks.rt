ghost use Rattle.std.specs.Prelude.{◌≡◌, ◌≢◌, ℕ, ◌+◌, ◌-◌, ◌<◌, ◌≤◌, ◌↔◌, [], ◌∷◌, ◌++◌, List};
ghost use Rattle.std.specs.Prelude.{length, map, slice_set, slice_index, IfOk, OnOk, IfSome};
ghost use Rattle.std.specs.Prelude.{IsNone, IsTrue};
ghost use Rattle.std.specs.Int.{bit_at};
ghost use Rattle.rank_now.specs.Rank.{place_in_order, threads_of, ranks, ranks_by_moments};
ghost use Rattle.rank_now.specs.Rank.{index_of_point, index_of_moment};
ghost use Rattle.rank_now.specs.Order.{IsOrder, IsFirstWrong};
ghost use Rattle.rank_now.specs.Ranking.{Ranking, IsFirstRanking, AreDistinctValues, HasValue};
ghost use Rattle.rank_now.specs.Ranking.{IsAtPlace};
ghost use Rattle.rank_now.specs.declared.moment.Moment.{Moment};
ghost use Rattle.pct_ask.specs.declared.limits.TheConstants.{MAX_POINTS, MAX_THREADS};

use crate::above::{compare_again, first_above};
use crate::order::{RankError, first_wrong};
use std::alloc::{AllocError, Global};
use std::marker::Model;

/// The order of the threads, the value of each one, who was lowered to each value, from 1 up, and
/// of each thread which ones have a greater value, as the bits of a word.
#[derive(Debug, Drop)]
pub struct Ranks {
    order: Vec<u32>,
    values: Vec<u32>,
    lowered: Vec<Option<u32>>,
    above: Vec<u64>,
}

impl Model for Ranks {
    ghost use Rattle.std.specs.Prelude.{length};
    ghost use Rattle.rank_now.specs.Ranking.{Ranking, AreLowered, AreAbove};

    ghost Value = { Ranking };

    ghost view = { λ r. record {
      order = r.order.items;
      count = length r.lowered.items;
      values = r.values.items;
    } };

    ghost invariant = { λ r.
        AreLowered r.order.items r.values.items r.lowered.items
        × AreAbove r.values.items r.above.items };
}

impl Ranks {
    /// The ranks before the first step. The order names the highest thread first, and `count`
    /// values, from 1 up, lie below those that the threads have now.
    pub fn new(alloc: Global, order: &[u32], count: u32) -> Result<Ranks, RankError>
        requires few_threads { length order.now ≤ MAX_THREADS }
        requires few_points { count ≤ MAX_POINTS }
        ensures first { IfOk result (IsFirstRanking order.now count) }
        ensures is_order { OnOk result (IsOrder order.now) }
        ensures not_an_order { (at : ℕ)
            → (result ≡ Err (RankError.NotAnOrder at)) ↔ IsFirstWrong order.now at }
    {
        match first_wrong(order) {
            Some(at) => Err(RankError::NotAnOrder { at }),
            None => Ok(Ranks::of_order(alloc, order, count, None)?),
        }
    }

    /// The ranks before the first step of a list that is an order, in the memory of other ranks,
    /// where there are some, which nobody needs any more. Memory is taken only where that is too
    /// small.
    pub fn of_order(
        alloc: Global,
        order: &[u32],
        count: u32,
        spare: Option<Ranks>,
    ) -> Result<Ranks, AllocError>
        requires order { IsOrder order.now }
        requires few_threads { length order.now ≤ MAX_THREADS }
        requires few_points { count ≤ MAX_POINTS }
        ensures { IfOk result (IsFirstRanking order.now count) }
    {
        let spare = match spare {
            Some(ranks) => ranks,
            None => Ranks {
                order: Vec::new(alloc),
                values: Vec::new(alloc),
                lowered: Vec::new(alloc),
                above: Vec::new(alloc),
            },
        };
        let values = first_values(spare.values, order, count)?;
        let above = first_above(spare.above, order)?;
        let mut lowered = spare.lowered;
        lowered.clear();
        lowered.resize(count as usize, None)?;
        let mut threads = spare.order;
        threads.clear();
        threads.extend_from_slice(order)?;
        Ok(Ranks {
            order: threads,
            values,
            lowered,
            above,
        })
    }

    /// Gives the thread a value that no thread has.
    pub fn lower(&mut self, thread: u32, value: u32)
        requires thread { thread < length self.old.values }
        requires positive { 1 ≤ value }
        requires low { value ≤ self.old.count }
        requires free { (other : ℕ) → other < length self.old.values
            → slice_index self.old.values other ≢ value }
        ensures order { self.new.order ≡ self.old.order }
        ensures count { self.new.count ≡ self.old.count }
        ensures values { self.new.values ≡ slice_set self.old.values thread value }
        ensures distinct { AreDistinctValues self.new.values }

        // Ranks stay ranks where the thread has just taken the step that gives this value.
        ensures by_points { (order points schedule : List ℕ)
            → self.old.values ≡ ranks order points schedule
            → value ≡ index_of_point points (length schedule + 1)
            → self.new.values ≡ ranks order points (schedule ++ thread ∷ []) }
        ensures by_moments { (order : List ℕ) (moments : List Moment) (schedule : List ℕ)
            → self.old.values ≡ ranks_by_moments order moments schedule
            → value ≡ index_of_moment moments (schedule ++ thread ∷ []) (length schedule + 1)
            → self.new.values ≡ ranks_by_moments order moments (schedule ++ thread ∷ []) }
    {
        free(&mut self.lowered, self.values[thread as usize]);
        self.values[thread as usize] = value;
        self.lowered[value as usize - 1] = Some(thread);
        compare_again(&mut self.above, &self.values, thread);
    }

    pub fn value(&self, thread: u32) -> u32
        requires { thread < length self.now.values }
        ensures { result ≡ slice_index self.now.values thread }
    {
        self.values[thread as usize]
    }

    /// Whether none of the threads of the bits, the lowest for thread 0, has a greater value.
    pub fn outranks(&self, thread: u32, others: u64) -> bool
        requires { thread < length self.now.values }
        ensures outranks { IsTrue result
            ↔ ((other : ℕ) → other < length self.now.values → bit_at others other ≡ 1
            → slice_index self.now.values other ≤ slice_index self.now.values thread) }
        ensures distinct { AreDistinctValues self.now.values }
    {
        self.above[thread as usize] & others == 0
    }

    /// The greatest value that a thread may have.
    pub fn greatest(&self) -> u32
        ensures value { result ≡ self.now.count + length self.now.values }
        ensures positive { (thread : ℕ) → thread < length self.now.values
            → 1 ≤ slice_index self.now.values thread }
        ensures bound { (thread : ℕ) → thread < length self.now.values
            → slice_index self.now.values thread ≤ result }
    {
        (self.lowered.len() + self.order.len()) as u32
    }

    /// The thread that has a value: one that was lowered to it, or the one that the order gave it,
    /// where that one has not been lowered.
    pub fn holder(&self, value: u32) -> Option<u32>
        requires positive { 1 ≤ value }
        requires within { value ≤ self.now.count + length self.now.values }
        ensures some { IfSome result (HasValue self.now.values value) }
        ensures none { IsNone result → (thread : ℕ) → ¬ HasValue self.now.values value thread }
        ensures distinct { AreDistinctValues self.now.values }
    {
        let low = self.lowered.len() as u32;
        if value <= low {
            return self.lowered[value as usize - 1];
        }
        let thread = self.order[(self.greatest() - value) as usize];
        (self.values[thread as usize] == value).then_some(thread)
    }

    /// The thread at a place, from 0, of the threads by falling value.
    pub fn walk(&self, place: u32) -> u32
        requires { place < length self.now.values }
        ensures at_place { IsAtPlace self.now.values place result }
        ensures only { (other : ℕ) → IsAtPlace self.now.values place other → other ≡ result }
    {
        let greatest = self.greatest();
        let mut passed = 0;
        for below in 0..greatest {
            if let Some(thread) = self.holder(greatest - below) {
                if passed == place {
                    return thread;
                }
                passed += 1;
            }
        }
        unreachable!()
    }
}

/// Nobody holds the value any more, where it is one of those to give.
fn free(lowered: &mut [Option<u32>], value: u32)
    requires { 1 ≤ value }
    ensures low { value ≤ length lowered.old
        → lowered.new ≡ slice_set lowered.old (value - 1) None }
    ensures high { length lowered.old < value → lowered.new ≡ lowered.old }
{
    if value as usize <= lowered.len() {
        lowered[value as usize - 1] = None;
    }
}

/// The thread at place p of n has the value count + n - p. They are written into the vector that is
/// given.
fn first_values(mut values: Vec<u32>, order: &[u32], count: u32) -> Result<Vec<u32>, AllocError>
    requires order { IsOrder order.now }
    requires few_threads { length order.now ≤ MAX_THREADS }
    requires few_points { count ≤ MAX_POINTS }
    ensures { IfOk result (λ v.
        v.items
        ≡ map (λ t. count + length order.now - place_in_order order.now t) (threads_of order.now)) }
{
    values.resize(order.len(), 0)?;
    for (place, thread) in order.iter().enumerate() {
        values[*thread as usize] = count + (order.len() - place) as u32;
    }
    Ok(values)
}
