//! What the scheduler may draw: orders of threads and lists of points, each by its place.
//!
//! What is proved, by call and clause; in parentheses the definitions:
//!
//! - For at most 12 threads, the order at a place of the list of all, or of those with one thread
//!   last; there are n!: `order_at`, its clause (`orders`); `low_order_at`, its clause
//!   (`low_orders`); `order_count`, its clause (`factorial`).
//! - The points of moments over some steps (that of a moment that doesn't come is k), the moments
//!   of a run's points, and the bound n k^m: `points_of`, its clause (`points_of`); `moments_of`,
//!   its clause (`moments_of`); `bound_of`, its clause. The moments but one: `without_moment`, its
//!   clause.
//! - Each order of n threads stands at exactly one place among n!, each list of m points in 1..k at
//!   exactly one among k^m, and nothing else stands there: the law `each_choice_once`
//!   (`EachChoiceOnce`, `HasEachOnce`).
#![tactic(auto)]

mod bound;
mod law;
mod moments;
mod orders;
mod points;

pub use bound::bound_of;
pub use law::each_choice_once;
pub use moments::{moments_of, without_moment};
pub use orders::{low_order_at, order_at, order_count};
pub use points::points_of;

#[cfg(test)]
mod tests;
