//! The script language: statements, `Script`, the grammar and its faults, what threads ask, and the
//! canonical layout.
//!
//! What is proved, by call and clause; in parentheses the definitions:
//!
//! - A script keeps its limits; its names are its own; its deal counts them and has its first
//!   values: `Script`: `sound` (`IsScript`); `Script::names`; `Script::deal` (`IsDealOf`).
//! - `print_script` gives the canonical layout, which within the limits spells the same script with
//!   the lines of the print: `print_script`: `layout`, `spelled`.
#![tactic(auto)]

mod expr;
mod fault;
mod printing;
mod printing_statements;
mod printing_words;
mod script;
mod stmt;

pub use expr::{Expr, Op};
pub use fault::ScriptFault;
pub use printing::print_script;
pub use script::Script;
pub use stmt::{Block, Stmt, ThreadText};
