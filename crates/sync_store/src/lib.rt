//! The objects that threads share: when an ask is enabled, and what its step does. `Store` is their
//! state.
//!
//! What is proved, by call and clause; in parentheses the definitions:
//!
//! - The first store is that of its deal, also where a store of such sizes is used again in place;
//!   whether a thread was started: `Store::new`: `first`, `sizes`; `Store::restart`: `first`,
//!   `sizes`; `Store::is_started`.
//! - `ready` says whether an ask is enabled, and Unknown exactly for a join of a thread whose next
//!   post isn't known: `Store::ready`: `unknown`, `ready`.
//! - `apply` makes exactly the defined step and answer, and where it ends the run (Failed, Misuse,
//!   Fault) leaves the store as it was; `take_step` makes the same step, without the verdict:
//!   `Store::apply`: `store`, `applied`, `unchanged` (`effect`); `Store::take_step`: `store`,
//!   `applied`; `Stepped::applied`.
//! - Another thread's ask that doesn't name the touched object is as enabled afterwards as before:
//!   `Store::apply`: `others` (`KeepsOthers`); `Store::touched`.
#![tactic(auto)]

mod applied;
mod barriers;
mod conditions;
mod enabled;
mod mutexes;
mod ready;
mod release_list;
mod rwlocks;
mod semaphores;
mod steps;
mod store;
mod thread_list;
mod touched;
mod variables;

pub use applied::{Applied, Stepped};
pub use ready::Ready;
pub use store::Store;
pub use touched::Touched;
