//! Trace files (`TraceFile`).
//!
//! What is proved, by call and clause; in parentheses the definitions:
//!
//! - A trace's text is written as defined, is a trace no longer than one may be, and is read back;
//!   a refused line changes nothing: `write_trace`: `text`, `trace`, `read_back` (`IsTrace.small`);
//!   `write_step`: `unchanged`.
//! - `read_trace` gives exactly the file of a text that is a trace, and else exactly its first
//!   fault; each text has one of the two: `read_trace`: `answer`, `trace`, `fault`; the law
//!   `one_answer`.
//! - What a trace may tell is tested part by part: `is_plain_head`, its clause (`IsPlainHead`);
//!   `are_known_steps`, its clause (`NamesKnown`); `is_known_place`, its clause (`IsKnownPlace`);
//!   `is_of_version`, its clause (`IsOfVersion`).
//! - In how many steps two lists agree: `agreed`, its clause (`IsAgreed`).
#![tactic(auto)]

mod asks;
mod compared;
mod fault;
mod file;
mod head;
mod known;
mod number;
mod reading;
mod row;
mod writing;

pub use compared::agreed;
pub use fault::{TraceError, TraceFault};
pub use file::{Header, TraceFile};
pub use known::{are_known_steps, is_known_place, is_of_version, is_plain_head};
pub use reading::{one_answer, read_trace};
pub use writing::{write_step, write_trace};
