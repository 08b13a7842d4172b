//! Replay of traces: a trace's list of threads is run again, and the run is compared with the
//! trace.
//!
//! What is proved, by call and clause; in parentheses the definitions:
//!
//! - A replay says the first difference between the trace and the run of its own list of threads
//!   under its limit, and is confirmed exactly where there is none; a trace with the steps and
//!   verdict of a run is confirmed, and a trace has one reply: `replay`: `replay`, `run`
//!   (`IsReplay.tells`, `IsDeparture`); the law `one_reply` (`EachHasOneReply`).
#![tactic(auto)]

mod answer;
mod compare;
mod replaying;
mod reply;

pub use answer::{Found, Replayed, Written};
pub use replaying::replay;
pub use reply::one_reply;
