//! Asks, steps, outcomes, deals, names and moments as the numbers that C takes and gives.
//!
//! What is proved, by call and clause; in parentheses the definitions:
//!
//! - Numbers say an ask, a step, a moment or a verdict, or nothing; an ask, a step, a moment or an
//!   outcome is said by the numbers that are written of it: `ask_of`; `numbers_of_ask`
//!   (`ask_said`); `event_of`; `events_of`; `steps_of`; `numbers_of_event` (`event_said`);
//!   `moments_said`; `numbers_of_moment` (`moment_said`); `verdict_said` (`verdict_said`);
//!   `numbers_of_verdict`; `numbers_of_outcome` (`outcome_numbers`); `rows_of`.
//! - A deal has the counts and first values that the numbers say, and names those of a text's
//!   lines; none exactly where some are out of range or may not stand beside the others: `deal_of`:
//!   `deal`, `lawful` (`SaysDeal`, `AreLawfulCounts`); `deal_said`; `deal_of_names`; `names_of`;
//!   `names_said` (`names_of_text`).
#![tactic(auto)]

mod ask;
mod deal;
mod event;
mod moment;
mod names;
mod outcome;
mod refused;
mod row;

pub use ask::{PctAsk, ask_of, numbers_of_ask};
pub use deal::{PctDeal, deal_of, deal_of_names, deal_said};
pub use event::{PctEvent, event_of, events_of, numbers_of_event, steps_of};
pub use moment::{PctMoment, moments_said, numbers_of_moment};
pub use names::{names_of, names_said};
pub use outcome::{PctOutcome, numbers_of_outcome, numbers_of_verdict, verdict_said};
pub use refused::Refused;
pub use row::{PctRow, rows_of};
