//! The book of turns: threads post what they ask, the policy says whose turn it is.
//!
//! What is proved, by call and clause; in parentheses the definitions:
//!
//! - In whatever order threads post and take, the steps obey the policy over the posts, and the
//!   outcome is exactly what is settled (Passed or Stuck where nobody can go on, Cut at the limit):
//!   `TurnBook::new`: `made`, `lawful`; `TurnBook::post`: `posted`, `over`, `lawful`;
//!   `TurnBook::take`: `answered`, `unchanged`, `lawful`; `TurnBook::outcome`: `outcome`, `lawful`
//!   (`outcome_after`, `rest_verdict`).
//! - A book in the memory of a trace that nobody needs any more, or of the run before, is as a new
//!   one, and the policy of before is given back: `TurnBook::new_in`: `made`, `lawful`;
//!   `TurnBook::restart`: `made`, `lawful`, `plan`, `stands`.
//! - The steps begin each whole run over these posts and any more, and are it once an outcome
//!   stands: `TurnBook::trace`: `lawful`, `prefix`, `whole` (`IsRunOver`, `IsLawful.obeys`,
//!   `IsLawful.outcome`).
//! - Each answer comes exactly by the choice: Over where an outcome stood before, NotYet where the
//!   choice is another thread's or waits; nobody is granted where an outcome stands or the choice
//!   is no thread: `TurnBook::take`: `over`, `answer`, `turn`, `away`; `TurnBook::granted`;
//!   `TurnBook::awaited`.
//! - A post and the step that it asks are one call where the choice waited for the thread, and
//!   nothing else would be needed to know that it goes: `TurnBook::post_and_take`: `answer`,
//!   `none`, `lawful`.
//! - What is known of a thread's next post, the deal and the parts are the book's; `take_turn` and
//!   `is_over` answer in brief: `TurnBook::standing`; `TurnBook::deal`; `TurnBook::is_over`;
//!   `TurnBook::into_parts`: `events`, `outcome`, `lawful`; `TurnBook::take_turn`: `over`,
//!   `answer`, `not_yet`.
#![tactic(auto)]

mod board;
mod book;
mod known;
mod posts;
mod settle;
mod taken;

pub use book::TurnBook;
pub use taken::{Because, Reply, Taken};
