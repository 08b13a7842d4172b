//! What is told of a campaign, its rows and its groups, and of a sweep, its groups and how many
//! choices pass: as a text and as JSON.
//!
//! What is proved, by call and clause; in parentheses the definitions:
//!
//! - The reports of a campaign and of a sweep are the defined bytes, and `serde_json`'s reader
//!   reads the JSON line as the defined value: `text_report` (`text_of`); `json_report`: `text`,
//!   `read` (`json_of`, `report_data`, `ReadsBack`); `sweep_text`, its clause (`sweep_text_of`);
//!   `sweep_json`: `text`, `read`.
#![tactic(auto)]

mod as_json;
mod as_text;
mod frame;
mod sweep_as_json;
mod sweep_as_text;
mod swept;

pub use as_json::json_report;
pub use as_text::text_report;
pub use frame::Frame;
pub use sweep_as_json::sweep_json;
pub use sweep_as_text::sweep_text;
pub use swept::SweptGroup;
