ghost use Rattle.std.specs.Prelude.{◌≡◌, ◌≤◌};
ghost use Rattle.kit_runs.specs.Seeding.{seed_at};
ghost use Rattle.pct_ask.specs.declared.limits.TheConstants.{MAX_DEPTH, MAX_RUNS, MAX_STEPS};

/// Which runs a campaign has.
#[derive(Clone, Copy, Debug, PartialEq, Eq)]
pub struct Seeds {
    /// The first seed. After the last one, 2^64 - 1, comes 0.
    pub first: u64,
    /// How many seeds, in 1..=100,000.
    pub count: u32,
    /// One more than a run's change points, in 1..=8.
    pub depth: u32,
    /// From how many steps the points are drawn, in 1..=100,000: about as many as a run has.
    pub steps: u32,
    /// How many steps a run may have, in 1..=100,000.
    pub limit: u32,
    ghost some_seeds: { 1 ≤ count },
    ghost few_seeds: { count ≤ MAX_RUNS },
    ghost some_depth: { 1 ≤ depth },
    ghost little_depth: { depth ≤ MAX_DEPTH },
    ghost some_steps: { 1 ≤ steps },
    ghost few_steps: { steps ≤ MAX_STEPS },
    ghost some_limit: { 1 ≤ limit },
    ghost low_limit: { limit ≤ MAX_STEPS },
}

impl Seeds {
    /// The seeds from 0 on, with runs of at most 10,000 steps.
    pub fn from_zero(count: u32, depth: u32, steps: u32) -> Seeds
        requires some_seeds { 1 ≤ count }
        requires few_seeds { count ≤ MAX_RUNS }
        requires some_depth { 1 ≤ depth }
        requires little_depth { depth ≤ MAX_DEPTH }
        requires some_steps { 1 ≤ steps }
        requires few_steps { steps ≤ MAX_STEPS }
        ensures first { result.first ≡ 0 }
        ensures count { result.count ≡ count }
        ensures depth { result.depth ≡ depth }
        ensures steps { result.steps ≡ steps }
        ensures limit { result.limit ≡ 10000 }
    {
        Seeds {
            first: 0,
            count,
            depth,
            steps,
            limit: 10_000,
        }
    }

    /// The seed at a place, from 0.
    pub fn at(&self, place: u32) -> u64
        ensures { result ≡ seed_at self.now.first place }
    {
        self.first.wrapping_add(u64::from(place))
    }
}
