// What is counted of a sweep, and the choices that come next.
ghost use Rattle.std.specs.Prelude.{◌≤◌, ◌<◌, All};

use crate::ahead::Ahead;
use crate::common::{Reach, Sweep};
use failure_rank::Tally;
use std::alloc::Global;

/// The rows that are counted, and how far the sweep has come.
#[derive(Drop)]
pub struct Counts {
    pub tally: Tally,
    pub reach: Reach,
}

impl Counts {
    ghost use Rattle.std.specs.Prelude.{◌≡◌, []};
    ghost use Rattle.failure_rank.specs.Growing.{IsTally};

    /// Before the first choice.
    pub fn new(alloc: Global) -> Counts
        ensures tally { IsTally [] result.tally }
        ensures place { result.reach.place ≡ 0 }
        ensures longest { result.reach.longest ≡ 1 }
    {
        let reach = Reach {
            place: 0,
            longest: 1,
        };
        Counts {
            tally: Tally::new(alloc),
            reach,
        }
    }
}

/// The choices whose runs come next, and how far the sweep has come before them.
#[derive(Clone, Copy)]
pub struct NextRuns<'n> {
    pub sweep: &'n Sweep<'n>,
    pub ahead: &'n Ahead,
    pub before: Reach,
    ghost within: { All (λ place. place < sweep.now.choices) ahead.now.places.items },
    ghost end: { ahead.now.end ≤ sweep.now.choices },
}
