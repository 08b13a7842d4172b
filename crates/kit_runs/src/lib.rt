//! Runs of programs whose threads ask through ports: one run, the runs of seeds, and the replay of
//! a trace (`Program`; `BodyProgram` makes one of bodies).
//!
//! What is proved, by call and clause; in parentheses the definitions:
//!
//! - A run's steps obey its order and points over what the threads posted, to its limit, and its
//!   verdict is what became of them; NotAnOrder only where the order isn't one of all threads:
//!   `run_program`: `run`, `short`, `refused` (`IsFileOf`, `IsRunOfBook`, `IsWholeOrder`);
//!   `run_seed`: `run`, `short` (`IsRunOfSeed`). Where what threads post follows from answers, as
//!   bodies do, it is the run that is played over these: the law `run_of_bodies`
//!   (`EachRunIsTheirs`).
//! - A campaign has a row for each seed, the last one too, and the groups are those of its rows:
//!   `campaign`: `rows`, `frame`, `groups` (`AreRowsOf`, `IsRanking`); `Seeds::from_zero`: `first`,
//!   `count`, `depth`, `steps`, `limit`; `Seeds::at`, its clause (`seed_at`).
//! - A replay runs the trace's order, points and limit again, and confirms its steps and its
//!   verdict, or tells the first step that differs: `replay`: `replay`, `refused` (`IsReplay`,
//!   `TellsReplay`). A deal has the objects that are named: `small_deal`, its clause
//!   (`IsSmallDeal`).
#![tactic(auto)]

mod bodies;
mod campaigning;
mod deals;
mod drawing;
mod error;
mod law;
mod program;
mod replaying;
mod running;
mod seeds;

pub use bodies::{Bodies, BodyProgram};
pub use campaigning::{Findings, campaign};
pub use deals::small_deal;
pub use drawing::run_seed;
pub use error::RunError;
pub use law::run_of_bodies;
pub use program::Program;
pub use replaying::{Confirmation, replay};
pub use running::run_program;
pub use seeds::Seeds;
