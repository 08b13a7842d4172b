//! Directive files (`Directive`).
//!
//! What is proved, by call and clause; in parentheses the definitions:
//!
//! - Written as defined, read exactly by their grammar, or their first fault: `write_directive`:
//!   `text`, `directive`; `read_directive`: `answer`, `directive`, `fault`; the law `one_answer`.
//! - Whether moments may be written: `are_known_moments`, its clause (`IsMoment`).
#![tactic(auto)]

mod directive;
mod fault;
mod known;
mod reading;
mod row;
mod writing;

pub use directive::Directive;
pub use fault::{DirectiveError, DirectiveFault};
pub use known::are_known_moments;
pub use reading::{one_answer, read_directive};
pub use writing::write_directive;
