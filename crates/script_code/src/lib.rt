//! A script's statements as flat code (`Code`): lists of operations that name the next by their
//! places.
//!
//! What is proved, by call and clause; in parentheses the definitions:
//!
//! - For each thread and every list of answers the code posts what the script's thread posts, with
//!   the same count of moves; it begins with waiting to be started where the thread does: `compile`
//!   (`IsCodeOf.posts`, `IsCodeOf.begins`).
//! - A list for each thread, every place that an operation names is in it, and none holds a block:
//!   `Code::threads`; `Code::flat`: `flat`, `placed`; `Code::end`: `place`, `end`.
#![tactic(auto)]

mod code;
mod compiler;
mod copying;
mod counting;
mod emit;
mod flat;
mod held;

pub use code::Code;
pub use compiler::compile;
pub use flat::Flat;
