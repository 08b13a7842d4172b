//! Who goes next: policies over what is known of each thread, by order and change points (`Pct`),
//! by order and moments (`DirectedPolicy`), or by a list (`Listed`).
//!
//! What is proved, by call and clause; in parentheses the definitions:
//!
//! - Each pick is the choice of its plan after the steps so far; a picked thread is ready, one that
//!   is waited for is away, and where nobody is picked nobody can go on: `Policy::pick`: `choice`,
//!   `sound` (`IsSoundPick`).
//! - A step counts as one: `Policy::took`: `plan`, `stands`; `Policy::took_and_kept`: `plan`,
//!   `stands`, and where it answers true the step changes no choice: `same` (`KeepsChoices`).
//! - Made of plain lists: `Pct::new`: `plan`, `stands`, `not_an_order`; `DirectedPolicy::new`:
//!   `plan`, `stands`, `not_an_order`; `Listed::new`: `plan`, `stands`. Made of an order that is
//!   one and of few points (`Priorities`) or moments (`DirectedPriorities`), in the memory of
//!   another policy, where there is one: `Pct::of_priorities`: `plan`, `stands`;
//!   `DirectedPolicy::of_priorities`: `plan`, `stands`.
//! - Where it answers that it goes by ranks, the open thread of greatest rank is the one that goes,
//!   or that is waited for: `Policy::goes_by_rank`, its clause (`GoesByRank`); where it answers
//!   that a thread outranks others, each of them but itself has a lower rank: `Policy::outranks`,
//!   its clause (`Outranks`).
//! - A choice that waits for nobody stays as more becomes known: `Policy`: `keeps`.
//! - Whether a walk over the threads stops at one with this chance: `is_open`, its clause.
#![tactic(auto)]

mod chance;
mod directed;
mod listed;
mod pct;
mod policy;
mod priorities;
mod walk;

pub use chance::{Chance, Pick, is_open};
pub use directed::DirectedPolicy;
pub use listed::Listed;
pub use pct::Pct;
use pct_ask::Sequence;
pub use policy::Policy;
pub use priorities::{DirectedPriorities, Priorities};
pub use rank_now::Moment;

/// Moments, the one of lowest value first.
pub type MomentList = Sequence<Moment>;
