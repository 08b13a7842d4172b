//! The script of `pct big`.
//!
//! What is proved, by call and clause; in parentheses the definitions:
//!
//! - The script of that many pieces, its text, and its number of lines: `large_script`;
//!   `print_large`: `layout`, `spelled`; `line_count`.
#![tactic(auto)]

mod large;

pub use large::{large_script, line_count, print_large};
