//! The call of C that draws from a seed.

ghost use Rattle.std.specs.Prelude.{◌≡◌, ◌≢◌, ◌⊎◌, ◌↔◌, ◌-◌, IfOk, IsTrue, length};
ghost use Rattle.priority_draw.specs.Drawing.{draw_of_seed};
ghost use Rattle.pct_c.specs.Drawn.{MayDraw};

use crate::status::{BAD, DONE, NO_MEMORY};
use pct_ask::{MAX_STEPS, MAX_THREADS, OrderList, PointList};
use priority_draw::Words;
use std::alloc::{AllocError as NoMemory, Global};

fn may_draw(threads: u32, steps: u32, depth: u32, orders: usize, points: usize) -> bool
    ensures { IsTrue result ↔ MayDraw threads steps depth orders points }
{
    1 <= threads
        && threads as usize <= MAX_THREADS
        && 1 <= steps
        && steps <= MAX_STEPS
        && 1 <= depth
        && depth <= 8
        && orders == threads as usize
        && points == depth as usize - 1
}

/// What a seed draws.
fn drawn(
    alloc: Global,
    seed: u64,
    threads: u32,
    steps: u32,
    depth: u32,
) -> Result<(OrderList, PointList), NoMemory>
    requires { MayDraw threads steps depth threads (depth - 1) }
    ensures order { IfOk result (λ drawn.
        drawn.0 ≡ (draw_of_seed seed threads steps depth).order) }
    ensures points { IfOk result (λ drawn.
        drawn.1 ≡ (draw_of_seed seed threads steps depth).points) }
    ensures orders { IfOk result (λ drawn. length drawn.0 ≡ threads) }
    ensures count { IfOk result (λ drawn. length drawn.1 ≡ depth - 1) }
{
    let mut words = Words::of_seed(seed);
    let order = words.draw_order(alloc, threads)?;
    let points = words.draw_points(alloc, steps, depth - 1)?;
    Ok((order, points))
}

/// Draws the order and the change points of a seed.
#[unsafe(no_mangle)]
pub extern "C" fn pct_draw(
    alloc: Global,
    seed: u64,
    threads: u32,
    steps: u32,
    depth: u32,
    order: &mut [u32],
    points: &mut [u32],
) -> u32
    ensures order { result ≡ 0 → order.new ≡ (draw_of_seed seed threads steps depth).order }
    ensures points { result ≡ 0 → points.new ≡ (draw_of_seed seed threads steps depth).points }
    ensures bad { result ≡ 5
        → ¬ MayDraw threads steps depth (length order.old) (length points.old) }
    ensures may { result ≡ 0 → MayDraw threads steps depth (length order.old) (length points.old) }
    ensures statuses { (result ≡ 0) ⊎ ((result ≡ 5) ⊎ (result ≡ 6)) }
    ensures unwritten { result ≢ 0 → (order.new ≡ order.old) × (points.new ≡ points.old) }
{
    if !may_draw(threads, steps, depth, order.len(), points.len()) {
        return BAD;
    }
    match drawn(alloc, seed, threads, steps, depth) {
        Ok((own_order, own_points)) => {
            order.copy_from_slice(own_order.as_slice());
            points.copy_from_slice(own_points.as_slice());
            DONE
        }
        Err(_) => NO_MEMORY,
    }
}
