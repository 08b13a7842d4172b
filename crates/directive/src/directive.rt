//! A directive as a value.

ghost use Rattle.std.specs.Prelude.{◌≤◌, length};
ghost use Rattle.pct_ask.specs.declared.limits.TheConstants.{MAX_POINTS};

use pct_ask::Verdict;
use policy_pick::MomentList;

/// Which verdict comes where one thread is lowest and others are lowered at some moments.
#[derive(Debug, Drop)]
pub struct Directive {
    /// The thread of the lowest priority.
    pub low: u32,
    /// After the i-th of these moments its thread gets the priority i, from 1.
    pub events: MomentList,
    pub verdict: Verdict,
    ghost few: { length events ≤ MAX_POINTS },
}
