//! Runs, verdicts, directives and reports as texts, from numbers.
//!
//! What is proved, by call and clause; in parentheses the definitions:
//!
//! - Each is the text of what the numbers say, or its length, or that there is none:
//!   `trace_text_told`; `verdict_text_told`; `directive_text_told`; `numbers_of_directive`
//!   (`TellsDirective`); `report_told`; `report_json_told` (`SaysReport`).
#![tactic(auto)]

mod directives;
mod known;
mod report;
mod traces;
mod verdict;

pub use directives::{PctDirective, directive_text_told, numbers_of_directive};
pub use report::{PctFrame, report_json_told, report_told};
pub use traces::trace_text_told;
pub use verdict::verdict_text_told;
