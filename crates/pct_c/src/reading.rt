//! The calls of C that read a book.

ghost use Rattle.std.specs.Prelude.{◌≡◌, ◌≢◌, ◌≤◌, ◌+◌, length, take, drop};
ghost use Rattle.c_values.specs.Events.{SayEvents};
ghost use Rattle.pct_c.specs.Books.{state_of, OnKept, OnHeld};
ghost use Rattle.pct_c.specs.Reading.{TellsLength, TellsSteps, TellsOutcome};

use crate::book::Book;
use crate::buffers::counted;
use crate::handle::PctBook;
use crate::kept::Kept;
use crate::status::{BAD, DONE, NO_BOOK, NOT_YET, PctCount};
use c_values::{PctEvent, PctOutcome, numbers_of_event, numbers_of_outcome};
use pct_ask::Event;
use std::alloc::Global;
use std::mem;

fn length_kept(kept: &Kept) -> PctCount
    ensures { OnKept (TellsLength result) result.status kept.now kept.now }
{
    match kept {
        Kept::Book(book) => counted(DONE, book.trace().len()),
        Kept::Trace(_) => counted(NO_BOOK, 0),
    }
}

/// The number of steps so far.
#[unsafe(no_mangle)]
pub extern "C" fn pct_book_length(alloc: Global, book: &mut PctBook) -> PctCount
    ensures { OnHeld (TellsLength result) result.status
        book.old.held.value book.new.held.value }
{
    match mem::replace(book, PctBook::empty(alloc)).into_box() {
        None => counted(NO_BOOK, 0),
        Some(own) => {
            let length = length_kept(&own);
            *book = PctBook::of(own);
            length
        }
    }
}

/// Writes the numbers of as many steps.
pub(crate) fn write_steps(events: &[Event], numbers: &mut [PctEvent])
    requires { length numbers.old ≡ length events.now }
    ensures { SayEvents numbers.new events.now }
{
    for (place, event) in events.iter().enumerate() {
        numbers[place] = numbers_of_event(event);
    }
}

fn steps_on(book: &Book, from: u32, steps: &mut [PctEvent]) -> u32
    ensures { TellsSteps from result steps.old steps.new (state_of book.now) (state_of book.now) }
{
    let events = book.trace();
    let first = from as usize;
    if first > events.len() || steps.len() > events.len() - first {
        return BAD;
    }
    let last = first + steps.len();
    write_steps(&events[first..last], steps);
    DONE
}

fn steps_kept(kept: &Kept, from: u32, steps: &mut [PctEvent]) -> u32
    ensures told { OnKept (TellsSteps from result steps.old steps.new) result kept.now kept.now }
    ensures unwritten { result ≢ 0 → steps.new ≡ steps.old }
{
    match kept {
        Kept::Book(book) => steps_on(book, from, steps),
        Kept::Trace(_) => NO_BOOK,
    }
}

/// The steps after the first `from` ones, as many as there is room for.
#[unsafe(no_mangle)]
pub extern "C" fn pct_book_steps(
    alloc: Global,
    book: &mut PctBook,
    from: u32,
    steps: &mut [PctEvent],
) -> u32
    ensures told { OnHeld (TellsSteps from result steps.old steps.new) result
        book.old.held.value book.new.held.value }
    ensures unwritten { result ≢ 0 → steps.new ≡ steps.old }
{
    match mem::replace(book, PctBook::empty(alloc)).into_box() {
        None => NO_BOOK,
        Some(own) => {
            let status = steps_kept(&own, from, steps);
            *book = PctBook::of(own);
            status
        }
    }
}

fn outcome_on(book: &Book, outcome: &mut PctOutcome) -> u32
    ensures { TellsOutcome result outcome.old outcome.new
        (state_of book.now) (state_of book.now) }
{
    match book.outcome() {
        Some(found) => {
            // Once an outcome stands, the steps are the run.
            let _steps = book.trace();
            *outcome = numbers_of_outcome(&found);
            DONE
        }
        None => NOT_YET,
    }
}

fn outcome_kept(kept: &Kept, outcome: &mut PctOutcome) -> u32
    ensures told { OnKept (TellsOutcome result outcome.old outcome.new) result kept.now kept.now }
    ensures unwritten { result ≢ 0 → outcome.new ≡ outcome.old }
{
    match kept {
        Kept::Book(book) => outcome_on(book, outcome),
        Kept::Trace(_) => NO_BOOK,
    }
}

/// What became of the run, where that is settled.
#[unsafe(no_mangle)]
pub extern "C" fn pct_book_outcome(
    alloc: Global,
    book: &mut PctBook,
    outcome: &mut PctOutcome,
) -> u32
    ensures told { OnHeld (TellsOutcome result outcome.old outcome.new) result
        book.old.held.value book.new.held.value }
    ensures unwritten { result ≢ 0 → outcome.new ≡ outcome.old }
{
    match mem::replace(book, PctBook::empty(alloc)).into_box() {
        None => NO_BOOK,
        Some(own) => {
            let status = outcome_kept(&own, outcome);
            *book = PctBook::of(own);
            status
        }
    }
}
