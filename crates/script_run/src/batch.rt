//! What runs that are made in batches have in common.

ghost use Rattle.std.specs.Prelude.{◌≡◌, ◌+◌, ◌<◌, ℕ, [], IfOk};
ghost use Rattle.script_code.specs.Listing.{listing};
ghost use Rattle.worker_run.specs.declared.played.Played.{Played};
ghost use Rattle.script_run.specs.Batches.{Common, IsPlanOf, Decides};

use crate::ready::ReadyScript;
use pct_ask::{Event, Limit, Outcome};
use policy_pick::Policy;
use std::alloc::{AllocError as NoMemory, Global};

/// Runs of one script that are made in batches, each by the policy of its place, and taken one
/// after another in the order of their places.
pub trait Batch {
    type Policy: Policy;
    /// What is kept of the runs that were taken.
    type Kept;
    /// What a run may come to that makes all later ones needless.
    type Answer: Drop;

    // the places are those below
    ghost size: { Self → ℕ };

    // what the runs have in common
    ghost common: { Self → Common };

    // the run is the one at a place
    ghost is_run: { Self → ℕ → Played → Type 0 };

    // this is what is kept of the runs before a place
    ghost stands: { Self → Self.Kept → ℕ → Type 0 };

    // this is what is kept with an answer
    ghost answers: { Self → Self.Kept → Self.Answer → Type 0 };

    /// The script whose runs they are.
    fn script(&self) -> ReadyScript<'_>
        ensures code { listing result.code.now ≡ (common self.now).code }
        ensures deal { result.deal.now ≡ (common self.now).deal };

    /// How many steps a run may have.
    fn limit(&self) -> Limit
        ensures { result ≡ (common self.now).limit };

    /// The policy of the run at a place, in the memory of one that nobody needs any more, where
    /// there is one.
    fn policy(
        &self,
        alloc: Global,
        place: u32,
        spare: Option<Self::Policy>,
    ) -> Result<Self::Policy, NoMemory>
        requires place { place < size self.now }
        ensures stands { IfOk result (λ policy. Self.Policy.stands policy []) }
        ensures plan { IfOk result (λ policy.
            IsPlanOf (common self.now) (is_run self.now place) (Self.Policy.plan policy)) };

    /// Takes the run at a place. Gives the answer, where it comes to one.
    fn take(
        &self,
        alloc: Global,
        kept: &mut Self::Kept,
        place: u32,
        events: &[Event],
        outcome: &Outcome,
    ) -> Result<Option<Self::Answer>, NoMemory>
        requires place { place < size self.now }
        requires stands { stands self.now kept.old place }
        requires run { is_run self.now place
            (record { events = events.now; outcome = outcome.now }) }
        ensures { IfOk result
            (Decides (stands self.now) (answers self.now) kept.new (place + 1)) };
}
