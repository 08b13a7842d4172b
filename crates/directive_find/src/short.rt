//! Few moments.

ghost use Rattle.std.specs.Prelude.{◌≤◌, length};
ghost use Rattle.pct_ask.specs.declared.limits.TheConstants.{MAX_POINTS};

use policy_pick::MomentList;

/// Few moments, and the number of steps of their directed run.
#[derive(Debug, Drop)]
pub struct Short {
    pub moments: MomentList,
    pub steps: u32,
    pub ghost few: { length moments ≤ MAX_POINTS },
}
