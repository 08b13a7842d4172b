//! The order and the change points that a seed gives. `Words` is a seed with a place in its stream.
//!
//! What is proved, by call and clause; in parentheses the definitions:
//!
//! - Draws are as defined, over the words of ChaCha8: `Words::of_seed`; `Words::below`: `value`,
//!   `words`; `scale`: `value`; `Words::draw_order`: `value`, `words`, `of_seed`;
//!   `Words::draw_points`: `value`, `words`, `of_seed`. Out of memory takes no word:
//!   `Words::draw_order`: `no_memory`; `Words::draw_points`: `no_memory`.
//! - Each list of places in bounds gives an order, and each order is given by exactly one:
//!   `Words::draw_order`: `each_list`, `each_order` (`AreOnlyPlaces`).
//! - Before any draw threads stand as declared: `declared_order`.
#![tactic(auto)]

mod words;

pub use words::{Words, declared_order, scale};
