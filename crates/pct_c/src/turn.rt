//! Whose turn it is, as numbers.

ghost use Rattle.std.specs.Prelude.{◌≡◌, pos};
ghost use Rattle.turn_book.specs.Told.{IsLawful};
ghost use Rattle.pct_c.specs.Books.{state_of};
ghost use Rattle.pct_c.specs.Turns.{SaysChoice};

use crate::book::Book;
use crate::status::NO_BOOK;

/// What a call on a book answers: its status, whose turn it is after it, and the answer of a step.
#[repr(C)]
#[derive(Clone, Copy, Debug, PartialEq, Eq)]
pub struct PctTurn {
    pub status: u32,
    pub choice: u32,
    pub thread: u32,
    pub answer: i64,
}

const TURN: u32 = 1;

const WAITS: u32 = 2;

const OVER: u32 = 3;

fn turn(status: u32, answer: i64, choice: u32, thread: u32) -> PctTurn
    ensures status { result.status ≡ status }
    ensures answer { result.answer ≡ answer }
    ensures choice { result.choice ≡ choice }
    ensures thread { result.thread ≡ thread }
{
    PctTurn {
        status,
        choice,
        thread,
        answer,
    }
}

/// There is no book.
pub fn no_book() -> PctTurn
    ensures status { result.status ≡ 7 }
    ensures choice { result.choice ≡ 0 }
    ensures answer { result.answer ≡ pos 0 }
{
    turn(NO_BOOK, 0, 0, 0)
}

/// A status and an answer, with whose turn it is in a book.
pub fn turn_on(book: &Book, status: u32, answer: i64) -> PctTurn
    ensures status { result.status ≡ status }
    ensures answer { result.answer ≡ answer }
    ensures choice { SaysChoice (state_of book.now) result }
    ensures lawful { IsLawful (state_of book.now) }
{
    // What it keeps is told with its steps.
    let _steps = book.trace();
    if book.is_over() {
        return turn(status, answer, OVER, 0);
    }
    if let Some(thread) = book.granted() {
        return turn(status, answer, TURN, thread);
    }
    match book.awaited() {
        Some(thread) => turn(status, answer, WAITS, thread),
        None => turn(status, answer, 0, 0),
    }
}
