// The order of a test, and when it is refused.
ghost use Rattle.std.specs.Prelude.{◌≡◌, ◌<◌, ◌≤◌, ◌^◌, ◌↔◌, ℕ, [], length, IfOk};
ghost use Rattle.policy_pick.specs.Plan.{ByPoints};
ghost use Rattle.policy_pick.specs.Kept.{points_plan, PointsStand};
ghost use Rattle.body_kit.specs.Refusals.{CountsFit, IsWrongCount, IsWrongOrder};
ghost use Rattle.pct_ask.specs.declared.limits.TheConstants.{MAX_POINTS, MAX_THREADS};

use crate::error::KitError;
use policy_pick::Pct;
use std::alloc::Global;

/// The scheduler of a test with `threads` threads and `bodies` bodies.
pub fn pct_of(
    alloc: Global,
    threads: u32,
    bodies: u32,
    order: &[u32],
    points: &[u32],
) -> Result<Pct, KitError>
    requires few_threads { threads ≤ MAX_THREADS }
    requires few_names { length order.now < 2 ^ 32 }
    requires few_points { length points.now ≤ MAX_POINTS }
    ensures plan { IfOk result (λ p. points_plan p ≡ ByPoints order.now points.now) }
    ensures stands { IfOk result (λ p. PointsStand p []) }
    ensures fits { IfOk result (λ p. CountsFit threads bodies order.now) }
    ensures wrong_count { (had named : ℕ)
        → (result ≡ Err (KitError.WrongCount had named))
        ↔ IsWrongCount threads bodies order.now had named }
    ensures not_an_order { (at : ℕ)
        → (result ≡ Err (KitError.NotAnOrder at)) ↔ IsWrongOrder threads bodies order.now at }
{
    if bodies != threads || order.len() != threads as usize {
        return Err(KitError::WrongCount {
            bodies,
            order: order.len() as u32,
        });
    }
    Ok(Pct::new(alloc, order, points)?)
}
