//! Directives of programs whose threads ask through ports: one is found of a failing run, and
//! certified over all orders with its thread last.
//!
//! What is proved, by call and clause; in parentheses the definitions:
//!
//! - A run by moments is one by points, which stand for the moments in that very run:
//!   `run_directed`: `run`, `short` (`IsDirectedFile`).
//! - `find` says that the run passes where it does; else its directive's moments are left of the
//!   run's, lead to its verdict, and without any one of them a run has another verdict: `find`, its
//!   clause (`Finds`, `IsFoundDirective.left`, `IsFoundDirective.leads`,
//!   `IsFoundDirective.needed`, `IsPass.passes`).
//! - `certify` says yes where each order with the directive's thread last was run, and led to its
//!   verdict in at most k steps, with a row for each and the bound n k^m; else the first order that
//!   isn't: `certify`, its clause (`Certifies`, `IsCertified.rows_are`, `IsCertified.bound_is`,
//!   `IsLedRow`, `IsFirstOther`). What `ShownCertificate` displays no clause says.
#![tactic(auto)]

mod certifying;
mod directed;
mod finding;
mod judging;
mod reducing;
mod texts;
mod trial;

pub use certifying::certify;
pub use directed::run_directed;
pub use directive_run::{Certified, CertifyRow, CertifyRows};
pub use finding::{Finding, find};
pub use texts::ShownCertificate;
