ghost use Rattle.std.specs.Prelude.{◌≡◌, ◌+◌, ◌<◌, ◌^◌};
ghost use Rattle.failure_rank.specs.Growing.{group_of, with_row};

use pct_ask::{Row, Sequence, Verdict};

/// A failure of a campaign.
#[derive(Clone, Copy, Debug, PartialEq, Eq, Hash)]
pub struct Group {
    pub verdict: Verdict,
    /// How many rows have it, at least 1.
    pub count: u32,
    /// The least number of steps among them.
    pub steps: u32,
    /// The seed of the earliest of them.
    pub first: u64,
}

/// The failures of a campaign, in the order in which they are told.
pub type Groups = Sequence<Group>;

impl Group {
    pub(crate) fn of(row: &Row) -> Self
        ensures { result ≡ group_of row.now }
    {
        Group {
            verdict: row.verdict,
            count: 1,
            steps: row.steps,
            first: row.seed,
        }
    }

    /// The group with one later row.
    pub(crate) fn with(self, row: &Row) -> Self
        requires { self.count + 1 < 2 ^ 32 }
        ensures { result ≡ with_row self row.now }
    {
        Group {
            count: self.count + 1,
            steps: self.steps.min(row.steps),
            ..self
        }
    }
}
