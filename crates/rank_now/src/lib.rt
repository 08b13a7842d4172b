//! The priorities of a run: `Ranks` keeps a distinct value for each thread, which a change point or
//! a moment (`Moment`) lowers.
//!
//! What is proved, by call and clause; in parentheses the definitions:
//!
//! - The values are PCT's ranks of the whole schedule, stay distinct, and the order stays: a
//!   lowered thread keeps its place below all that weren't lowered: `Ranks::new`: `first`,
//!   `is_order`; `Ranks::of_order`, its clause, also in the memory of others (`IsFirstRanking`);
//!   `Ranks::lower`: `order`, `values`, `distinct`, `by_points`, `by_moments` (`rank`,
//!   `lowered-below`); `Ranks::value`; `Ranks::greatest`: `value`, `bound`.
//! - `holder` gives the thread with a value, or says that none has it; `walk` the one with that
//!   many above it: `Ranks::holder`: `some`, `none`; `Ranks::walk`: `at_place`, `only`.
//! - A thread outranks others exactly where none of them has a greater value: `Ranks::outranks`:
//!   `outranks`, `distinct`; the words that it reads say so, also where a thread was lowered
//!   (`AreAbove`).
//! - A list that is no order is refused exactly at the first place whose thread isn't there or was
//!   named before: `Ranks::new`: `not_an_order`; `first_wrong`: `found`, `none`, `order`;
//!   `is_order` (`IsOrder`).
#![tactic(auto)]

mod above;
mod moment;
mod order;
mod ranks;

pub use moment::Moment;
pub use order::{RankError, first_wrong, is_order};
pub use ranks::Ranks;
