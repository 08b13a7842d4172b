//! The choices of an order and change points, each by its place among all.

ghost use Rattle.std.specs.Prelude.{◌≡◌, ◌≤◌, ◌<◌, ◌*◌, ◌^◌, Some, IfOk, IfSome, slice_get};
ghost use Rattle.std.specs.Prelude.{ℕ, List};
ghost use Rattle.choices.specs.PointLists.{pointlists};
ghost use Rattle.choices.specs.Orders.{factorial};
ghost use Rattle.sweep.specs.Choices as listed;
ghost use Rattle.sweep.specs.Choices.{most_choices, IsCountWithin};
ghost use Rattle.sweep.specs.Weights as weights;
ghost use Rattle.sweep.specs.Weights.{weight};

use choices::order_at;
use pct_ask::{OrderList, PointList};
use std::alloc::{AllocError as NoMemory, Global};

/// An order of the threads, the highest first, and change points, which are numbers of steps
/// from 1.
#[derive(Debug, Drop)]
pub struct Choice {
    pub order: OrderList,
    pub points: PointList,
}

/// So many choices are swept at most.
const MOST_CHOICES: u32 = 100_000_000;

/// A number times a factor, where that isn't more than the most.
fn times(number: u32, factor: u32) -> Option<u32>
    ensures { IsCountWithin (number * factor) result }
{
    match number.checked_mul(factor) {
        Some(count) if count <= MOST_CHOICES => Some(count),
        _ => None,
    }
}

/// In how many orders so many threads can stand, where these aren't more than the most.
fn few_orders(threads: u32) -> Option<u32>
    ensures { IsCountWithin (factorial threads) result }
{
    let mut count = 1;
    for fewer in 0..threads {
        count = times(count, fewer + 1)?;
    }
    Some(count)
}

/// How many choices there are of an order of so many threads and of so many change points, each
/// one of the first `steps` steps. `None` where they are more than 100,000,000.
pub fn choice_count(threads: u32, steps: u32, points: u32) -> Option<u32>
    requires { 1 ≤ steps }
    ensures { IsCountWithin (listed.choice_count threads steps points) result }
{
    let mut count = few_orders(threads)?;
    for _point in 0..points {
        count = times(count, steps)?;
    }
    Some(count)
}

/// How many lists there are of so many change points.
pub fn list_count(steps: u32, points: u32) -> u32
    requires some { 1 ≤ steps }
    requires few { steps ^ points ≤ most_choices }
    ensures { result ≡ steps ^ points }
{
    let mut count = 1;
    for _point in 0..points {
        count *= steps;
    }
    count
}

/// How many points lead to the run of a point, which has `length` steps: from that number on all
/// points do, of which the first stands for all.
fn point_weight(steps: u32, length: u32, point: u32) -> u32
    requires within { point ≤ steps }
    requires few { steps ≤ most_choices }
    ensures { result ≡ weights.point_weight steps length point }
{
    if point < length {
        1
    } else if point == length {
        steps + 1 - length
    } else {
        0
    }
}

/// For how many lists the list of change points at a place, from 0, stands, where its run has
/// `length` steps: for those that are the same below that number; for none where a point is above.
pub fn weight_at(steps: u32, points: u32, length: u32, place: u32) -> u32
    requires some { 1 ≤ steps }
    requires few { steps ^ points ≤ most_choices }
    requires place { place < steps ^ points }
    ensures { (list : List ℕ) → slice_get (pointlists steps points) place ≡ Some list
        → result ≡ weight steps length list }
{
    let mut weight = 1;
    let mut block = list_count(steps, points);
    let mut rest = place;
    for _point in 0..points {
        block /= steps;
        weight *= point_weight(steps, length, rest / block + 1);
        rest %= block;
    }
    weight
}

/// The list of change points at a place, from 0, among all lists of so many.
fn points_at(alloc: Global, steps: u32, points: u32, place: u32) -> Result<PointList, NoMemory>
    requires some { 1 ≤ steps }
    requires few { steps ^ points ≤ most_choices }
    requires place { place < steps ^ points }
    ensures { IfOk result (λ list. slice_get (pointlists steps points) place ≡ Some list) }
{
    let mut list = PointList::new(alloc);
    let mut block = list_count(steps, points);
    let mut rest = place;
    for _point in 0..points {
        block /= steps;
        list.try_push(rest / block + 1)?;
        rest %= block;
    }
    Ok(list)
}

/// The order and the change points at a place, from 0, among all choices of an order of so many
/// threads and so many points from 1 to `steps`.
pub fn choice_at(
    alloc: Global,
    threads: u32,
    steps: u32,
    points: u32,
    place: u32,
) -> Result<Choice, NoMemory>
    requires some { 1 ≤ steps }
    requires few { listed.choice_count threads steps points ≤ most_choices }
    requires place { place < listed.choice_count threads steps points }
    ensures { IfOk result (λ choice.
        slice_get (listed.choices threads steps points) place ≡ Some choice) }
{
    let lists = list_count(steps, points);
    let order = order_at(alloc, threads, place / lists)?;
    let points = points_at(alloc, steps, points, place % lists)?;
    Ok(Choice { order, points })
}
