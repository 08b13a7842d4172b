//! What the steps of runs say, from numbers to numbers.
//!
//! What is proved, by call and clause; in parentheses the definitions:
//!
//! - Moments, points and orders as in `choices`, races as in `hb_race`, locks as in `lock_order`,
//!   groups as in `failure_rank`; these are `moments_told`; `points_told`; `order_count_told`;
//!   `order_told`; `bound_told`; `races_told`; `locks_told`; `groups_told`.
#![tactic(auto)]

mod groups;
mod locks;
mod moments;
mod orders;
mod points;
mod races;
mod run;

pub use groups::{PctGroup, groups_told};
pub use locks::{LocksTold, PctNesting, locks_told};
pub use moments::moments_told;
pub use orders::{bound_told, order_count_told, order_told};
pub use points::points_told;
pub use races::{PctRace, races_told};
