//! Directives over a script: the change points that stand for a directive's moments under one
//! order, and whether every order with its thread last leads to its verdict.
//!
//! What is proved, by call and clause; in parentheses the definitions:
//!
//! - Where the directed run has at most k steps, `expose` gives a point in 1..k for each moment, by
//!   which the run of the order is the directed run step by step; else TooLong, with its number of
//!   steps: `expose`, its clause (`Exposes`, `IsExposed.points_are`, `IsExposed.within`,
//!   `IsExposed.is_run`, `IsExposed.short`, `RunsTooLong`).
//! - `certify` says yes exactly where there are at most seven threads and every order with the
//!   directive's thread last leads to its verdict in at most k steps: with a row for each such
//!   order and its points, and the count; else the first order that doesn't, whoever serves:
//!   `certify`, its clause; `certify_by`, its clause
//!   (`Certifies`, `IsCertified.guarantees`, `IsCertified.rows_are`, `IsCertified.bound_is`,
//!   `IsCertified.counted`, `IsFirstOther`, `IsRefuted`, `IsTooLongUnder`).
//! - There is one certificate, and one exposure: the law `one_certificate`: `guaranteed`,
//!   `certified`, `exposed`.
#![tactic(auto)]

mod answers;
mod batches;
mod certificate;
mod certifying;
mod claim;
mod exposing;
mod judging;

pub use answers::{Certified, CertifyRow, CertifyRows, Exposed};
pub use certificate::one_certificate;
pub use certifying::{certify, certify_by};
pub use exposing::expose;
