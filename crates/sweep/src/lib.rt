//! Sweeps: a script run once under each choice of an order of its threads and change points.
//!
//! What is proved, by call and clause; in parentheses the definitions:
//!
//! - A row for each of the n! k^(d-1) choices, each with its own run's verdict and length, ranked
//!   as a campaign's; TooMany exactly where there are more than 100,000,000: `sweep`, its clause
//!   (`Sweeps`, `IsSweep.rows`, `IsSweep.are`, `IsSweep.ranked`).
//! - Each group's count is the number of choices with its verdict; counts and passed add up to n!
//!   k^(d-1); its steps are the shortest's, its first choice the first in the list; each verdict
//!   but passed that some choice has has a group; there is none exactly where for every order and
//!   all points the run passes: the law `sweeps_are_counted` (`IsFailure.count`,
//!   `IsFailure.reached`, `IsFailure.least`, `IsFailure.first`, `IsFailure.none_before`,
//!   `IsCounted.every`, `IsCounted.passed`, `IsCounted.whole`, `IsCounted.none`, `AllPass`).
//! - The choice at a place and how many there are: `choice_at`, its clause (`choices`);
//!   `choice_count`, its clause (`IsCountWithin`).
#![tactic(auto)]

mod ahead;
mod batches;
mod choice;
mod common;
mod counted;
mod next;
mod sweeping;

pub use choice::{Choice, choice_at, choice_count};
pub use counted::sweeps_are_counted;
pub use sweeping::{Answer, Swept, sweep};
