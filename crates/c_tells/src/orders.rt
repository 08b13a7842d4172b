//! The orders that place a thread last, and the bound of a certified directive.

ghost use Rattle.std.specs.Prelude.{◌≡◌, ◌↔◌, ◌<◌, ◌*◌, ◌^◌, ℕ, length, IsTrue, MatchOption};
ghost use Rattle.choices.specs.Orders.{low_orders};
ghost use Rattle.c_values.specs.Told.{Answers};
ghost use Rattle.c_tells.specs.Orders.{AreFew, MayBound, IsOrderTold};

use c_values::Refused;
use choices::{bound_of, low_order_at, order_count};
use pct_ask::{MAX_CERTIFIED_THREADS, MAX_POINTS, MAX_STEPS, OrderList};
use std::alloc::Global;

fn are_few(threads: u32) -> bool
    ensures { IsTrue result ↔ AreFew threads }
{
    1 <= threads && threads <= MAX_CERTIFIED_THREADS
}

/// How many orders of 1 to 7 threads place a given one last.
pub fn order_count_told(threads: u32) -> Option<u32>
    ensures { MatchOption result (¬ AreFew threads)
        (λ count. AreFew threads × ((low : ℕ) → low < threads
        → count ≡ length (low_orders threads low))) }
{
    if are_few(threads) {
        Some(order_count(threads - 1))
    } else {
        None
    }
}

/// The order at a place among those that place `low` last. There is room for just the threads.
pub fn order_told(
    alloc: Global,
    threads: u32,
    low: u32,
    place: u32,
    room: usize,
) -> Result<OrderList, Refused>
    ensures { Answers (IsOrderTold threads low place room) result }
{
    if !are_few(threads) || low >= threads || place >= order_count(threads - 1) {
        return Err(Refused::Bad);
    }
    if room != threads as usize {
        return Err(Refused::Bad);
    }
    Ok(low_order_at(alloc, threads, low, place)?)
}

/// In how many choices of an order of 1 to 7 threads and of at most 7 points in 1..steps, of at
/// most 100,000 steps, a certified directive gives its verdict at least once.
pub fn bound_told(threads: u32, steps: u32, points: u32) -> Option<u128>
    ensures { MatchOption result (¬ MayBound threads steps points)
        (λ bound. MayBound threads steps points × (bound ≡ threads * steps ^ points)) }
{
    if !are_few(threads) || steps == 0 || steps > MAX_STEPS || points > MAX_POINTS as u32 {
        return None;
    }
    Some(bound_of(threads, steps, points as usize))
}
