//! The orders of some threads, each by its place among them.

ghost use Rattle.std.specs.Prelude.{◌≡◌, ◌≤◌, ◌<◌, ◌-◌, Some, IfOk, length, slice_get, remove};
ghost use Rattle.turn_book.specs.Chances.{threads_below};
ghost use Rattle.choices.specs.Orders.{factorial, orders, low_orders};

use pct_ask::OrderList;
use std::alloc::{AllocError as NoMemory, Global};

/// In how many orders `threads` threads can stand.
pub fn order_count(threads: u32) -> u32
    requires { threads ≤ 12 }
    ensures { result ≡ factorial threads }
{
    let mut count = 1;
    for fewer in 0..threads {
        count *= fewer + 1;
    }
    count
}

/// The threads by rising number.
fn all_threads(alloc: Global, threads: u32) -> Result<Vec<u32>, NoMemory>
    ensures { IfOk result (λ all. all.items ≡ threads_below threads) }
{
    let mut all = Vec::new(alloc);
    for thread in 0..threads {
        all.push(thread)?;
    }
    Ok(all)
}

/// The order at a place among those of the threads of a list.
fn arrange(alloc: Global, threads: Vec<u32>, place: u32) -> Result<Vec<u32>, NoMemory>
    requires few { length threads.items ≤ 12 }
    requires place { place < factorial (length threads.items) }
    ensures { IfOk result (λ order. slice_get (orders threads.items) place ≡ Some order.items) }
{
    let mut left = threads;
    let mut order = Vec::new(alloc);
    let mut rest = place;
    'threads: while !left.is_empty() {
        let others = left.len() - 1;
        let block = order_count(others as u32);
        let thread = left.remove(others - (rest / block) as usize);
        order.push(thread)?;
        rest %= block;
    }
    order.reverse();
    Ok(order)
}

/// The order at a place, from 0, among those of `threads` threads.
pub fn order_at(alloc: Global, threads: u32, place: u32) -> Result<OrderList, NoMemory>
    requires few { threads ≤ 12 }
    requires place { place < factorial threads }
    ensures { IfOk result (λ order.
        slice_get (orders (threads_below threads)) place ≡ Some order) }
{
    let all = all_threads(alloc, threads)?;
    let order = arrange(alloc, all, place)?;
    Ok(OrderList::from_vec(order))
}

/// The order at a place, from 0, among those of `threads` threads that place `low` last.
pub fn low_order_at(
    alloc: Global,
    threads: u32,
    low: u32,
    place: u32,
) -> Result<OrderList, NoMemory>
    requires few { threads ≤ 12 }
    requires low { low < threads }
    requires place { place < factorial (threads - 1) }
    ensures { IfOk result (λ order. slice_get (low_orders threads low) place ≡ Some order) }
{
    let mut others = all_threads(alloc, threads)?;
    others.remove(low as usize);
    let mut order = arrange(alloc, others, place)?;
    order.push(low)?;
    Ok(OrderList::from_vec(order))
}
