//! The failures of a campaign: how often each came, and which to look at first.
//!
//! What is proved, by call and clause; in parentheses the definitions:
//!
//! - The rows that don't pass are grouped by their whole verdict, each group with its count, its
//!   least steps and its first seed, in the one order that is defined; `Tally` counts row by row,
//!   those that passed too: `rank`: `ranking`, `only`; `Tally::new`, its clause (`IsTally`);
//!   `Tally::add`, its clause; `Tally::passed`, its clause; `Tally::into_groups`: `ranking`,
//!   `only`.
#![tactic(auto)]

mod group;
mod ranking;
mod tally;

pub use group::{Group, Groups};
pub use ranking::rank;
pub use tally::Tally;
