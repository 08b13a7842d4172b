//! `ScriptBody`, the body of a script's thread: its flat code over sixteen registers.
//!
//! What is proved, by call and clause; in parentheses the definitions:
//!
//! - It posts what the script's thread posts after every list of answers, and names only what the
//!   script has: `ScriptBody::new`: `script`, `named`; `bodies_of`: `script`, `one_each`,
//!   `in_range`.
#![tactic(auto)]

mod answer;
mod ask;
mod bodies;
mod body;
mod moving;
mod settling;
mod state;
mod turn;
mod value;

pub use bodies::bodies_of;
pub use body::ScriptBody;
