// What the runs of a campaign have in common.
ghost use Rattle.std.specs.Prelude.{◌≡◌};
ghost use Rattle.campaign.specs.Rows.{seed_at};

use pct_ask::{Depth, Limit};
use script_run::ReadyScript;

/// What the runs of a campaign have in common: a script, the first seed, how many there are, the
/// depth, from how many steps points are drawn, and how many steps a run may have.
#[derive(Clone, Copy)]
pub struct Campaign<'a> {
    pub script: ReadyScript<'a>,
    pub first: u64,
    pub count: u32,
    pub depth: Depth,
    pub steps: Limit,
    pub limit: Limit,
}

impl Campaign<'_> {
    /// The seed at a place, from 0. After the last seed, 2^64 - 1, comes 0.
    pub fn seed_at(&self, place: u32) -> u64
        ensures { result ≡ seed_at self.now.first place }
    {
        self.first.wrapping_add(u64::from(place))
    }
}
