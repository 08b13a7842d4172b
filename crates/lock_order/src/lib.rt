//! Whether the mutexes of a run were always taken in one order: an order that every nesting keeps,
//! or a cycle of nestings, and a check of such reports.
//!
//! What is proved, by call and clause; in parentheses the definitions:
//!
//! - `lock_order` gives the one chosen report, which is good: an order of all mutexes in which what
//!   is held stands before what is taken, or a cycle of nestings. A cycle comes exactly where no
//!   order is good: `lock_order`: `chosen`, `only`, `good`, `apart`, `cycle`. `check_report` is
//!   true exactly of good reports: `check_report`, its clause (`IsGood`).
#![tactic(auto)]

mod check;
mod chosen;
mod held;
mod mutex_set;
mod nested;
mod nesting;
mod report;

pub use check::check_report;
pub use chosen::lock_order;
pub use nesting::{Nesting, NestingList};
pub use report::{IdList, LockReport};
