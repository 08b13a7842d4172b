//! How large a test and its runs may be.

ghost use Rattle.std.specs.Prelude.{◌≡◌, ◌≤◌, ◌-◌};
ghost use Rattle.pct_ask.specs.Limits.{IsStepCount, IsDepth};

use std::marker::Model;

/// How many threads a test has at most.
pub const MAX_THREADS: usize = 64;

/// How many objects of one kind a test has at most.
pub const MAX_OBJECTS: usize = 64;

/// How many lines a test has at most.
pub const MAX_LINES: u32 = 4096;

/// How many steps a run has at most.
pub const MAX_STEPS: u32 = 100_000;

/// How many change points, or moments in their place, a run has at most.
pub const MAX_POINTS: usize = 7;

/// The greatest depth of a bug: one more than the change points.
pub const MAX_DEPTH: u32 = 8;

/// How many runs a campaign has at most.
pub const MAX_RUNS: u32 = 100_000;

/// How many threads a test has at most of which directives are certified, over all their orders.
pub const MAX_CERTIFIED_THREADS: u32 = 7;

/// A number of steps, from 1 to `MAX_STEPS`: at how many a run is cut. Contracts see the number.
#[derive(Clone, Copy, Debug)]
pub struct Limit {
    steps: u32,
}

impl Model for Limit {
    ghost use Rattle.std.specs.Prelude.{ℕ};
    ghost use Rattle.pct_ask.specs.Limits.{IsStepCount};

    ghost Value = { ℕ };

    ghost view = { λ l. l.steps };

    ghost invariant = { λ l. IsStepCount l.steps };

    ghost inverse = { λ steps. record { steps = steps } };

    ghost inverse_ok = { λ l known i. l };
}

impl Limit {
    /// The limit of so many steps.
    pub fn new(steps: u32) -> Limit
        requires { IsStepCount steps }
        ensures { result ≡ steps }
    {
        Limit { steps }
    }

    /// How many steps they are.
    pub fn steps(self) -> u32
        ensures number { result ≡ self }
        ensures fits { IsStepCount result }
    {
        self.steps
    }
}

/// The depth of the bugs that runs look for, from 1 to `MAX_DEPTH`: one more than the change points
/// of a run. Contracts see the number.
#[derive(Clone, Copy, Debug)]
pub struct Depth {
    depth: u32,
}

impl Model for Depth {
    ghost use Rattle.std.specs.Prelude.{ℕ};
    ghost use Rattle.pct_ask.specs.Limits.{IsDepth};

    ghost Value = { ℕ };

    ghost view = { λ d. d.depth };

    ghost invariant = { λ d. IsDepth d.depth };

    ghost inverse = { λ depth. record { depth = depth } };

    ghost inverse_ok = { λ d known i. d };
}

impl Depth {
    /// The depth of this number.
    pub fn new(depth: u32) -> Depth
        requires { IsDepth depth }
        ensures { result ≡ depth }
    {
        Depth { depth }
    }

    /// The number of the depth.
    pub fn number(self) -> u32
        ensures number { result ≡ self }
        ensures fits { IsDepth result }
    {
        self.depth
    }

    /// How many change points a run of this depth has.
    pub fn points(self) -> u32
        ensures number { result ≡ self - 1 }
        ensures few { result ≤ MAX_POINTS }
    {
        self.depth - 1
    }
}
