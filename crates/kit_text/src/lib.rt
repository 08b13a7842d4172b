//! What tests in Rattle tell: a verdict and a campaign's groups are displayed, a run's trace, a
//! report and a directive are written.
//!
//! What is proved, by call and clause; in parentheses the definitions:
//!
//! - A trace and a report are written, without conditions, exactly where there are names and lines
//!   for all of it, and are the texts that the program writes: `show_run`: `text`, `known`,
//!   `unknown` (`IsShowable`); `show_report`: `text`, `known`, `unknown` (`IsReportable`);
//!   `show_directive`: `text`, `known`, `unknown` (`IsWritableDirective`). What `ShownThread`,
//!   `ShownVerdict` and `ShownGroups` display no clause says.
#![tactic(auto)]

mod directives;
mod known;
mod shown;
mod texts;

pub use directives::show_directive;
pub use shown::{ShownGroups, ShownThread, ShownVerdict};
pub use texts::{TextError, show_report, show_run};
