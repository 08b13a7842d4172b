//! One book for many threads, by single atomic steps. A `Seat` serves some of the lock's threads,
//! and has seen the book as it last gave it back.
//!
//! What is proved, by call and clause; in parentheses the definitions:
//!
//! - Each answer of a call is that of a step on the one book, over every schedule of calls by any
//!   seats: `TurnLock::try_turn`: `gives`, `obeys`; `TurnLock::post_wait`: `turn`, `obeys`;
//!   `TurnLock::turn_any`: `turn`, `obeys`, `tells`; in brief `TurnLock::post_brief`: `turn`;
//!   `TurnLock::turn_brief`: `turn` (`GivesOnce`, `TookAtLast`, `TookTurn.turn`, `TurnsTo`,
//!   `InBrief`).
//! - At each answer but `Busy` the call took the lock, `try_turn` exactly once, and the seat has
//!   seen the book that it took last, with its post and step; what it had seen before begins that
//!   (`TookAtLast.takes`, `TookOnce.takes`, `TookTurn.book`, `TookTurn.grown`).
//! - `Answer(a)`: the last step is the thread's own ask with the answer a, and its one new pair
//!   (`TookTurn.pairs`, `GainsPair`, `IsAnswered`). `Over(o)`: the run is settled with o
//!   (`TurnsTo.lawful`). `NotYet`: the choice is another thread, or waits for one that is away, at
//!   this length (`IsBecause`). `Ended`: the thread has ended and the run isn't settled; of
//!   `turn_any`, all of the seat's, and it is the lowest (`TellsEnd`). `Busy`: the seat's list of
//!   holders gained exactly this one, which it doesn't serve, and nothing else changed (`IsBusy`).
//!   `post_wait` and `turn_any` are never `Busy`, `turn_any` never `NotYet` (`Row`).
//! - A post is taken, but after `Busy` and where an outcome stood before; no other thread's pairs
//!   or posts change; the list of holders only grows, and `try_turn` changes it at `Busy` alone
//!   (`TookTurn.posts`, `TookTurn.late`, `TookTurn.others`, `TookOnce.turned`,
//!   `TookAtLast.turned`).
//! - The first seat serves all threads of the book: `TurnLock::new`: `made`, `of`, `view`, `obeys`.
//!   `split` gives one thread to a new seat: `TurnLock::split`: `of`, `left`, `right`
//!   (`seat_without`, `seat_of_one`). `join` gives the other's threads back; the seat has then seen
//!   the longer trace and each thread's longer list of posts: `TurnLock::join`: `of`, `view`,
//!   `seen`, `own`, `theirs`, `obeys` (`joined_seat`, `seen_together`). `close` gives the book,
//!   whose posts and steps are, thread by thread, the seat's: `TurnLock::close`: `making`,
//!   `lawful`, `seen`, `own`.
//! - Between two calls a seat doesn't hold the lock; which threads it serves, and which owe a post:
//!   `Seat`: `live`, `idle`, `none`; `Seat::serves`; `Seat::owes`.
//! - On a book that the caller has for itself, with no lock: a thread's turn, `answer`: `row`,
//!   `lawful` (`Row`); a post and then the turn: `post_and_turn`, its clause (`TurnsTo`).
//! - A board keeps what was noted last, and nothing exactly where nothing was: `WaitBoard::new`;
//!   `WaitBoard::note`; `WaitBoard::word_of`.
//! - All this rests on a rule of the lock's table between any two atomic steps (`KeepsRule`, in
//!   `specs/Rule.antt`), which no public clause cites: the lock word is 0, or one more than a
//!   thread of the one seat that holds the lock (`KeepsRule.holds`); each thread is served by at
//!   most one seat (`KeepsRule.apart`); the slot, as it last came home, has the book
//!   (`KeepsRule.lawful`); each seat has seen how that book begins, and of its own threads all
//!   (`KeepsRule.ties`). Of the turn words' values nothing is said (`KeepsRule.words`).
#![tactic(auto)]

mod board;
mod brief;
mod flags;
mod held;
mod keep;
mod round;
mod rule;
mod seat;
mod slot;
mod steps;
mod turn;
mod turning;
mod view;
mod work;

pub use board::WaitBoard;
pub use brief::Brief;
pub use held::TurnLock;
pub use seat::Seat;
pub use turn::Turn;
pub use turning::{answer, post_and_turn};
