//! `pct`, the program's call.
//!
//! What is proved, by call and clause; in parentheses the definitions:
//!
//! - What the call writes, and how it ends, is what the definitions say of its words and files:
//!   `pct` (`IsCall.ends`, `IsCall.exact`, `IsCall.complete`, `IsCall.refused`, `IsCall.shelf`,
//!   `IsCall.unread`, `Output`, `OfCommand`, `OfOrdered`, `OfSeed`, `OfDrawn`, `OfCampaign`,
//!   `OfReplay`, `OfBig`, `OfExpose`, `OfCertify`, `OfSweep`, `OfReport`, `PrintsRaces`,
//!   `PrintsLocks`, `PrintsFound`).
//! - Words are read as defined and keep their ranges; a Word names exactly the first that isn't
//!   taken: `read_words`: `settings`, `lawful`; `Text::copy_of`; `Text::as_str`.
//! - A refusal has its status and its line: `Refusal::status` (`status_of_refusal`); `say`
//!   (`SaysLine`, `refusal_line`).
//! - Laws: `runs_are_confirmed`, `exposed_are_confirmed`, `certified_are_counted`,
//!   `swept_are_cleared`, `certified_are_swept`, `found_are_taken_up`, `one_failed_read`.
#![tactic(auto)]

mod cleared;
mod command;
mod command_output;
mod commands;
mod confirmed;
mod dispatch;
mod files;
mod job;
mod lines;
mod options;
mod order;
mod plan;
mod playing;
mod printing;
mod refusal;
mod reports;
mod run_plan;
mod settings;
mod status;
mod test;
mod text;
mod top;
mod traces;
mod values;
mod words;

pub use cleared::{certified_are_swept, swept_are_cleared};
pub use confirmed::{
    certified_are_counted, exposed_are_confirmed, found_are_taken_up, one_failed_read,
    runs_are_confirmed,
};
pub use printing::say;
pub use refusal::Refusal;
pub use settings::{Report, Settings, WordsError};
pub use status::Status;
pub use text::{Text, TextList};
pub use top::pct;
pub use words::read_words;
