//! The data races of a run: accesses of one variable that nothing orders.
//!
//! What is proved, by call and clause; in parentheses the definitions:
//!
//! - One entry for each variable on which steps race: the least later step, and the greatest
//!   earlier one that races with it; one list for a run: `races`, its clause (`AreRaces`,
//!   `IsReported`, `HappensBefore`); the law `one_list_of_races`: `races`.
//! - Happens-before is transitive, has a run's edges, and is the least among the relations which do
//!   that are tests of two steps: `one_list_of_races`: `edges`, `least`.
#![tactic(auto)]

mod access;
mod clock;
mod history;
mod object;
mod order;
mod race;
mod report;

pub use order::one_list_of_races;
pub use race::{Race, RaceList};
pub use report::races;
