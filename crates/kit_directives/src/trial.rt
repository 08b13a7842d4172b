// What several runs have in common.
ghost use Rattle.std.specs.Prelude.{◌≤◌, ◌<◌, ◌^◌, length};
ghost use Rattle.pct_ask.specs.declared.limits.TheConstants.{MAX_STEPS};

use pct_ask::Deal;

/// What the runs of a program by various moments have in common: what its threads share, their
/// order, the highest first, and how many steps a run has at most.
#[derive(Clone, Copy)]
pub struct Trial<'a> {
    pub deal: &'a Deal,
    pub order: &'a [u32],
    pub limit: u32,
    ghost some_steps: { 1 ≤ limit },
    ghost few_steps: { limit ≤ MAX_STEPS },
    ghost few_names: { length order.now < 2 ^ 32 },
}
