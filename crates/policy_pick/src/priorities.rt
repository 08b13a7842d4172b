//! By what threads go first in a run: their order, and where they are lowered.

ghost use Rattle.std.specs.Prelude.{◌≤◌, length};
ghost use Rattle.rank_now.specs.Order.{IsOrder};
ghost use Rattle.pct_ask.specs.declared.limits.TheConstants.{MAX_POINTS};

use rank_now::Moment;

/// An order of threads, the highest first, and change points, which are numbers of steps from 1:
/// what one run of PCT draws.
#[derive(Clone, Copy, Debug)]
pub struct Priorities<'p> {
    pub order: &'p [u32],
    pub points: &'p [u32],
    pub ghost is_order: { ∥ IsOrder order.now ∥₁ },
    pub ghost few_points: { length points.now ≤ MAX_POINTS },
}

/// An order of threads, the highest first, and moments in the place of change points.
#[derive(Clone, Copy, Debug)]
pub struct DirectedPriorities<'p> {
    pub order: &'p [u32],
    pub moments: &'p [Moment],
    pub ghost is_order: { ∥ IsOrder order.now ∥₁ },
    pub ghost few_moments: { length moments.now ≤ MAX_POINTS },
}
