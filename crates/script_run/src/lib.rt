//! A script that is ready to run, `ReadyScript`: its code, and what its threads share. Its whole
//! runs, and its runs in batches, which are made and taken by one trait, `Batch`.
//!
//! What is proved, by call and clause; in parentheses the definitions:
//!
//! - A script's run by an order and points is the run of its threads, and by an order and moments
//!   the directed run, whoever serves: `ReadyScript::run_by_points`: `run`, `played`, `few`;
//!   `ReadyScript::run_by_moments`: `directed`, `few` (`run`, `directed_run`, `AreOf`); said of its
//!   code in both: `code` (`bodies_of_code`).
//! - The run of its test by a policy is what the policy makes of its threads: `ReadyScript::test`:
//!   `run`, `asked` (`Tries`, `IsRunBy`).
//! - The runs of a batch are taken in their order, each once, as the run that its place has, up to
//!   the first that comes to an answer, whoever serves: of one batch `run_batch`, of batch after
//!   batch `run_batches`, their clauses (`Decides`), over what is asked of `Batch::script`: `code`,
//!   `deal`; `Batch::limit`, its clause; `Batch::policy`: `stands`, `plan` (`IsPlanOf`);
//!   `Batch::take`, its clause.
#![tactic(auto)]

mod alone;
mod batch;
mod batches;
mod ready;
mod running;

pub use batch::Batch;
pub use batches::{run_batch, run_batches};
pub use ready::ReadyScript;
