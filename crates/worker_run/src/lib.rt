//! Runs of bodies under a policy, each body in a thread of its own, or all served by the caller.
//!
//! Four words say who serves what, of one test or of a batch of tests, each under its own lock:
//!
//! - A *runner* is a body and the number of answers that it has had.
//! - A *share* is what the caller has of a test: a seat of the test's lock, and the runners of the
//!   threads that this seat serves. At first that is all of them.
//! - A *task* is what is taken off a share for a worker: a seat for one thread, with its runner.
//! - A *worker* is a thread that is started for one thread number. It serves its task of the first
//!   test, then that of the second, and so on.
//!
//! The tasks of a worker that can't be started go back into the shares, which the caller serves
//! while the workers run. In the end each task's seat is joined to its share's, which has then seen
//! the whole run.
//!
//! What is proved, by call and clause; in parentheses the definitions:
//!
//! - The steps obey the policy over the bodies, and the outcome is what is settled over them; by an
//!   order and points they are the run, by an order and moments the directed run: `run_threads`:
//!   `played`, `run`, `directed`; `run_here`: `played`, `run`, `directed` (`IsPlayed`, `run`,
//!   `next_thread`, `rank`, `cut_at`); with the verdict `run_by_points`: `run`, `played`;
//!   `run_by_moments`: `directed`, `played`; `Played::into_whole`: `events`, `verdict`; its number
//!   of steps `count_steps`, its clause; its verdict `verdict_of`, its clause.
//! - `run_many` answers as many runs as tests, each what `run_threads` promises of its test:
//!   `run_many`: `runs` (`Each`, `IsRunOf`). A test by an order and points: `Test::by_points`.
//! - Batch after batch, in memory that is used again: by workers `run_many_by`: `runs`, `caller`;
//!   by the caller over a book of turns and runners `serve_by_caller`: `run`, `outcome`, `making`
//!   (`IsRunBy`, `AreNewRunners`), a runner made by `Runner::new`. None depends on what `Serving`
//!   holds, of which clauses say only who serves: `Serving::new`; `Serving::is_by_caller`;
//!   `Serving::leave_to_caller`; `Serving::next_trace`; `Serving::take_back`;
//!   `Serving::take_all_back`.
//! - After Ok of `run_on` the lent seat serves all threads again and has seen that run with its
//!   outcome, also where a thread can't be started; out of memory leaves it as it was: `run_on`:
//!   `of`, `all`, `played`, `no_memory` (`HasPlayed`).
#![tactic(auto)]

mod alone;
mod batch;
mod by_caller;
mod by_order;
mod lent;
mod many;
mod ordered;
mod played;
mod run;
mod runner;
mod serving;
mod share;
mod start;
mod task_lists;
mod tasks;
mod workers;

pub use batch::Test;
pub use by_caller::serve_by_caller;
pub use by_order::{WholeRun, run_by_moments, run_by_points};
pub use lent::run_on;
pub use many::{RUNS_AT_ONCE, run_many, run_many_by};
pub use played::{Played, count_steps, verdict_of};
pub use run::{run_here, run_threads};
pub use runner::Runner;
pub use serving::{Serve, Serving};
