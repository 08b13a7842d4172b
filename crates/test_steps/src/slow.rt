//! Plain, slow programs, written from the definitions. That they are the definitions isn't proved:
//! they stand beside what is.
ghost use Rattle.std.specs.Prelude.{◌≡◌, ◌<◌, ◌≤◌, length};
ghost use Rattle.std.specs.List.{All};

use policy_pick::{Chance, Pick};
use rank_now::Moment;
use std::alloc::{AllocError, Global};

/// The greatest index, from 1, of a point that is the step, and 0 where none is: the last point's,
/// or else that of the points before it.
fn slow_point(points: &[u32], step: u32) -> u32
    requires { length points.now ≤ 7 }
{
    match points.split_last() {
        None => 0,
        Some((last, _)) if *last == step => points.len() as u32,
        Some((_, earlier)) => slow_point(earlier, step),
    }
}

/// How many of the steps up to this place the thread took.
fn slow_own(schedule: &[u32], thread: u32, place: usize) -> u32 {
    let mut own = 0u32;
    for (earlier, taker) in schedule.iter().enumerate() {
        if earlier <= place && *taker == thread {
            own = own.saturating_add(1);
        }
    }
    own
}

/// The greatest index, from 1, of a moment that is this one, and 0 where none is.
fn slow_moment(moments: &[Moment], moment: Moment) -> u32
    requires { length moments.now ≤ 7 }
{
    match moments.split_last() {
        None => 0,
        Some((last, _)) if *last == moment => moments.len() as u32,
        Some((_, earlier)) => slow_moment(earlier, moment),
    }
}

/// The moment that the step at a place is.
fn slow_step(schedule: &[u32], place: usize) -> Moment
    requires { place < length schedule.now }
{
    let thread = schedule[place];
    let number = slow_own(schedule, thread, place);
    Moment { thread, number }
}

fn slow_place(order: &[u32], thread: u32) -> u32
    requires { length order.now ≤ 64 }
    ensures { result ≤ length order.now }
{
    for (place, other) in order.iter().enumerate() {
        if *other == thread {
            return place as u32;
        }
    }
    order.len() as u32
}

/// The rank by its definition, from the indices that the steps give: the one that the thread was
/// given last, or else the one by its place in the order.
fn slow_rank(given: &[u32], count: u32, order: &[u32], schedule: &[u32], thread: u32) -> u32
    requires few_threads { length order.now ≤ 64 }
    requires few_changes { count ≤ 7 }
{
    let mut rank = count + order.len() as u32 - slow_place(order, thread);
    for (taker, index) in schedule.iter().zip(given) {
        if *taker == thread && *index > 0 {
            rank = *index;
        }
    }
    rank
}

/// The ranks of all threads.
pub fn slow_ranks(
    alloc: Global,
    given: &[u32],
    count: u32,
    order: &[u32],
    schedule: &[u32],
) -> Result<Vec<u32>, AllocError>
    requires few_threads { length order.now ≤ 64 }
    requires few_changes { count ≤ 7 }
{
    let mut values = Vec::new(alloc);
    for thread in 0..order.len() as u32 {
        values.push(slow_rank(given, count, order, schedule, thread))?;
    }
    Ok(values)
}

/// The index that each step gives by change points, and 0 where it gives none.
pub fn slow_indices(alloc: Global, points: &[u32], schedule: &[u32]) -> Result<Vec<u32>, AllocError>
    requires short { length schedule.now ≤ 100 }
    requires few_points { length points.now ≤ 7 }
{
    let mut given = Vec::new(alloc);
    for place in 0..schedule.len() {
        given.push(slow_point(points, place as u32 + 1))?;
    }
    Ok(given)
}

/// The ranks by change points.
pub fn slow_by_points(
    alloc: Global,
    order: &[u32],
    points: &[u32],
    schedule: &[u32],
) -> Result<Vec<u32>, AllocError>
    requires short { length schedule.now ≤ 100 }
    requires few_threads { length order.now ≤ 64 }
    requires few_points { length points.now ≤ 7 }
{
    let given = slow_indices(alloc, points, schedule)?;
    slow_ranks(alloc, &given, points.len() as u32, order, schedule)
}

/// The ranks by moments.
pub fn slow_by_moments(
    alloc: Global,
    order: &[u32],
    moments: &[Moment],
    schedule: &[u32],
) -> Result<Vec<u32>, AllocError>
    requires few_threads { length order.now ≤ 64 }
    requires few_moments { length moments.now ≤ 7 }
{
    let mut given = Vec::new(alloc);
    for place in 0..schedule.len() {
        given.push(slow_moment(moments, slow_step(schedule, place)))?;
    }
    slow_ranks(alloc, &given, moments.len() as u32, order, schedule)
}

/// Whether a walk over the threads stops here.
fn is_open(chance: Chance) -> bool {
    !matches!(chance, Chance::Blocked | Chance::Ended)
}

/// What is picked at a thread, and `ready` where it is Ready.
fn pick_at(ready: Pick, thread: u32, chance: Chance) -> Pick {
    match chance {
        Chance::Ready => ready,
        Chance::Away => Pick::Waits(thread),
        Chance::Unknown { target } => Pick::Waits(target),
        Chance::Blocked | Chance::Ended => Pick::Departs(thread),
    }
}

/// Whether the thread is open, and no open thread has a greater rank.
fn slow_is_highest(ranks: &[u32], chances: &[Chance], thread: usize) -> bool
    requires as_many { length ranks.now ≡ length chances.now }
    requires within { thread < length chances.now }
{
    if !is_open(chances[thread]) {
        return false;
    }
    for (other, chance) in chances.iter().enumerate() {
        if is_open(*chance) && ranks[other] > ranks[thread] {
            return false;
        }
    }
    true
}

/// The choice by rank, by its definition.
pub fn slow_choice(ranks: &[u32], chances: &[Chance]) -> Pick
    requires as_many { length ranks.now ≡ length chances.now }
    requires few_threads { length chances.now ≤ 64 }
{
    for (thread, chance) in chances.iter().enumerate() {
        if slow_is_highest(ranks, chances, thread) {
            return pick_at(Pick::Thread(thread as u32), thread as u32, *chance);
        }
    }
    Pick::Nobody
}

/// The choice by number, by its definition: the open thread of least number.
fn slow_by_number(chances: &[Chance]) -> Pick
    requires { length chances.now ≤ 64 }
{
    for (thread, chance) in chances.iter().enumerate() {
        if is_open(*chance) {
            return pick_at(Pick::Departs(thread as u32), thread as u32, *chance);
        }
    }
    Pick::Nobody
}

/// The choice by a list, by its definition.
pub fn slow_by_list(listed: &[u32], taken: usize, chances: &[Chance]) -> Pick
    requires few_threads { length chances.now ≤ 64 }
    requires threads { All (λ thread. thread < length chances.now) listed.now }
{
    match listed.get(taken).copied() {
        Some(thread) => pick_at(Pick::Thread(thread), thread, chances[thread as usize]),
        None => slow_by_number(chances),
    }
}
