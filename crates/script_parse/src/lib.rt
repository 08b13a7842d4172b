//! From a text to a `Script`.
//!
//! What is proved, by call and clause; in parentheses the definitions:
//!
//! - `parse` gives exactly the script that the text spells, and else exactly the first fault of its
//!   first faulty line: `parse`: `found`, `only`, `fault`. Each text has one of the two, and a
//!   printed script is read as that script: the laws `one_answer`, `print_is_read`.
#![tactic(auto)]

mod ahead;
mod begin;
mod blocks;
mod declaration;
mod expression;
mod fault;
mod form;
mod number;
mod parsing;
mod range;
mod reader;
mod spelling;
mod statement;
mod token;

pub use fault::ScriptError;
pub use parsing::{SCRIPT_BYTES, one_answer, parse, print_is_read};
pub use script_tree::ScriptFault;
