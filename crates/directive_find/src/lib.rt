//! A short directive from a failing run: the moments of the run by an order and change points,
//! without those that its verdict doesn't need.
//!
//! What is proved, by call and clause; in parentheses the definitions:
//!
//! - `find` says that the run passes exactly where it does; else it gives the run's moments
//!   reduced, whose directed run has the verdict, and without any single one another; one thing is
//!   found: `find`, its clause (`Finds`, `IsFinding.same_run`, `IsFinding.fails`,
//!   `IsFinding.reduced`, `IsFinding.leads`, `IsFinding.needed`, `IsPass.same_run`,
//!   `IsPass.is_run`); the law `one_finding` (`EachHasOneFinding`).
#![tactic(auto)]

mod finding;
mod found;
mod reducing;
mod short;

pub use finding::{FoundOut, find};
pub use found::one_finding;
