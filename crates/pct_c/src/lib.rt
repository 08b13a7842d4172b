//! The library for C: an export for each call of include/pct.h, over a handle. No export has a
//! `requires`; each tests its arguments, and its clause says when each status comes and what stays.
//!
//! What is proved, by call and clause; in parentheses the definitions:
//!
//! - A seed's order and points are those of `priority_draw`; done exactly where all counts are in
//!   range: `pct_draw`: `order`, `points`, `bad`, `may`, `statuses`, `unwritten` (`MayDraw`).
//! - A book is made of the deal that the numbers say; bad exactly where it may not be made, and
//!   then, and out of memory, the handle has what it had: `pct_book_by_points`;
//!   `pct_book_by_moments`; `pct_book_by_list` (`Makes`, `MayOrder`, `MayList`, `IsMade`).
//! - A post, a step and both at once are those of the held book; a refused call leaves it as it
//!   was; whose turn it is then is its choice: `pct_book_post` (`Posts`); `pct_book_take`
//!   (`TakesTurn`); `pct_book_step` (`PostsAndSteps`); `pct_book_next` (`TellsTurn`, `SaysChoice`).
//! - Steps and outcome are the book's, and with an outcome the steps are the run: `pct_book_length`
//!   (`TellsLength`); `pct_book_steps`: `told`, `unwritten` (`TellsSteps`); `pct_book_outcome`:
//!   `told`, `unwritten` (`TellsOutcome`, `AreTheRun`). A freed handle has nothing:
//!   `pct_book_free`; `pct_text_trace_free`.
//! - A text stands at the buffer's front where there is room, else its length is given and nothing
//!   written: `pct_text_trace` (`IsTraceText`); `pct_text_verdict` (`SaysVerdictText`);
//!   `pct_text_directive` (`IsDirectiveText`); `pct_text_report` (`IsReportText`);
//!   `pct_text_report_json` (`IsReportJson`), each by `Puts`.
//! - A trace and a directive are read exactly by their grammar, or their first fault with its line:
//!   `pct_text_read_trace` (`ReadsTrace`); `pct_text_read_directive` (`ReadsDirective`). Of a trace
//!   that was read: `pct_text_trace_head`: `told`, `stays` (`TellsHead`); `pct_text_trace_order`:
//!   `told`, `order`, `points`, `stays` (`TellsOrder`); `pct_text_trace_steps`: `told`,
//!   `unwritten`, `stays` (`TellsTraceSteps`); `pct_text_trace_verdict`: `told`, `unwritten`,
//!   `stays` (`SaysFileVerdict`).
//! - Moments, points, orders and the bound as in `choices`, races, locks and groups as in their
//!   crates: `pct_tell_moments` (`AreMomentsOf`); `pct_tell_points` (`ArePointsOf`, `Fills`);
//!   `pct_tell_order_count` (`CountsOrders`); `pct_tell_order` (`IsOrderTold`); `pct_tell_bound`
//!   (`SaysBound`); `pct_tell_races` (`AreRacesOf`); `pct_tell_lock_order` (`TellsLocks`);
//!   `pct_tell_groups` (`AreGroupsOf`). The version is 1: `pct_tell_version`.
#![tactic(auto)]

mod book;
mod books;
mod buffers;
mod drawing;
mod handle;
mod held;
mod kept;
mod loose;
mod reading;
mod reads;
mod status;
mod tells;
mod texts;
mod trace_handle;
mod traces;
mod turn;
mod turns;
