//! The calls of C on the turns of a book.

ghost use Rattle.std.specs.Prelude.{◌≡◌, ◌↔◌, ◌⊎◌, IsTrue, IfSome, IsSome, Option, None};
ghost use Rattle.turn_book.specs.Told.{IsLawful};
ghost use Rattle.pct_ask.specs.declared.ask.Ask.{Ask};
ghost use Rattle.pct_ask.specs.Objects.{sizes_of_deal, PostIsInRange};
ghost use Rattle.pct_c.specs.Books.{state_of, OnKept, OnHeld};
ghost use Rattle.pct_c.specs.Turns.{MayPost, MayTake, HasTurn, SaysChoice, Posts, TakesTurn};
ghost use Rattle.pct_c.specs.Turns.{PostsAndSteps, TellsTurn};

use crate::book::Book;
use crate::handle::PctBook;
use crate::kept::Kept;
use crate::status::{BAD, DONE, ENDED, NOT_YET, OVER, POSTED};
use crate::turn::{PctTurn, no_book, turn_on};
use c_values::{PctAsk, ask_of};
use pct_ask::{Ask, Post, Standing};
use std::alloc::Global;
use std::mem;
use turn_book::Reply;

/// Whether the ask of a post names only what there is.
fn is_in_range(book: &Book, ask: Option<Ask>) -> bool
    ensures { IsTrue result
        ↔ PostIsInRange (sizes_of_deal (state_of book.now).deal) ask }
{
    match ask {
        None => true,
        Some(ask) => book.deal().has_objects_of(&ask),
    }
}

/// The ask of a post that the thread may make.
fn post_of(book: &Book, thread: u32, numbers: &PctAsk) -> Option<Option<Ask>>
    ensures may { IfSome result (λ ask. MayPost (state_of book.now) thread numbers.now ask) }
    ensures may_not { result ≡ None
        → (ask : Option Ask) → ¬ MayPost (state_of book.now) thread numbers.now ask }
{
    if thread >= book.deal().threads || book.standing(thread) != Standing::Away {
        return None;
    }
    let ask = ask_of(numbers)?;
    if is_in_range(book, ask) {
        Some(ask)
    } else {
        None
    }
}

fn post_on(book: &mut Book, thread: u32, line: u32, numbers: &PctAsk) -> PctTurn
    ensures { Posts thread line numbers.now result (state_of book.old) (state_of book.new) }
{
    if book.is_over() {
        return turn_on(book, OVER, 0);
    }
    match post_of(book, thread, numbers) {
        Some(ask) => {
            book.post(thread, Post { ask, line });
            turn_on(book, DONE, 0)
        }
        None => turn_on(book, BAD, 0),
    }
}

fn post_kept(kept: &mut Kept, thread: u32, line: u32, numbers: &PctAsk) -> PctTurn
    ensures { OnKept (Posts thread line numbers.now result) result.status kept.old kept.new }
{
    match kept {
        Kept::Book(book) => post_on(book, thread, line, numbers),
        Kept::Trace(_) => no_book(),
    }
}

/// A thread that isn't in the middle of a post posts what it asks next.
#[unsafe(no_mangle)]
pub extern "C" fn pct_book_post(
    alloc: Global,
    book: &mut PctBook,
    thread: u32,
    line: u32,
    ask: &PctAsk,
) -> PctTurn
    ensures { OnHeld (Posts thread line ask.now result) result.status
        book.old.held.value book.new.held.value }
{
    match mem::replace(book, PctBook::empty(alloc)).into_box() {
        None => no_book(),
        Some(mut own) => {
            let turn = post_kept(&mut own, thread, line, ask);
            *book = PctBook::of(own);
            turn
        }
    }
}

/// Whether a thread asks.
fn may_take(book: &Book, thread: u32) -> bool
    ensures { IsTrue result ↔ MayTake (state_of book.now) thread }
{
    if thread >= book.deal().threads {
        return false;
    }
    matches!(book.standing(thread), Standing::Asks)
}

/// What is answered of a step that was taken: whether it ended the run.
fn turn_taken(book: &Book, answer: i64) -> PctTurn
    ensures status { ((result.status ≡ 0) × ((state_of book.now).outcome ≡ None))
        ⊎ ((result.status ≡ 1) × IsSome (state_of book.now).outcome) }
    ensures answer { result.answer ≡ answer }
    ensures choice { SaysChoice (state_of book.now) result }
    ensures lawful { IsLawful (state_of book.now) }
{
    if book.is_over() {
        turn_on(book, ENDED, answer)
    } else {
        turn_on(book, DONE, answer)
    }
}

fn take_on(book: &mut Book, thread: u32) -> PctTurn
    ensures { TakesTurn thread result (state_of book.old) (state_of book.new) }
{
    if book.is_over() {
        return turn_on(book, OVER, 0);
    }
    if !may_take(book, thread) {
        return turn_on(book, BAD, 0);
    }
    match book.take_turn(thread) {
        Reply::Answer(answer) => turn_taken(book, answer),
        Reply::NotYet { .. } => turn_on(book, NOT_YET, 0),
        Reply::Over => turn_on(book, OVER, 0),
    }
}

fn take_kept(kept: &mut Kept, thread: u32) -> PctTurn
    ensures { OnKept (TakesTurn thread result) result.status kept.old kept.new }
{
    match kept {
        Kept::Book(book) => take_on(book, thread),
        Kept::Trace(_) => no_book(),
    }
}

/// A thread that has posted takes its step where the turn is its own.
#[unsafe(no_mangle)]
pub extern "C" fn pct_book_take(alloc: Global, book: &mut PctBook, thread: u32) -> PctTurn
    ensures { OnHeld (TakesTurn thread result) result.status
        book.old.held.value book.new.held.value }
{
    match mem::replace(book, PctBook::empty(alloc)).into_box() {
        None => no_book(),
        Some(mut own) => {
            let turn = take_kept(&mut own, thread);
            *book = PctBook::of(own);
            turn
        }
    }
}

/// Whether it is a thread's turn.
fn has_turn(book: &Book, thread: u32) -> bool
    ensures { IsTrue result ↔ HasTurn (state_of book.now) thread }
{
    match book.granted() {
        Some(granted) => granted == thread,
        None => false,
    }
}

/// Whether a thread asks, and its turn has come.
fn may_step(book: &Book, thread: u32) -> bool
    ensures { IsTrue result
        ↔ (HasTurn (state_of book.now) thread × MayTake (state_of book.now) thread) }
{
    has_turn(book, thread) && may_take(book, thread)
}

fn step_on(book: &mut Book, thread: u32, line: u32, numbers: &PctAsk) -> PctTurn
    ensures { PostsAndSteps thread line numbers.now result (state_of book.old) (state_of book.new) }
{
    let posted = post_on(book, thread, line, numbers);
    if posted.status != DONE {
        return posted;
    }
    if may_step(book, thread) {
        take_on(book, thread)
    } else {
        turn_on(book, POSTED, 0)
    }
}

fn step_kept(kept: &mut Kept, thread: u32, line: u32, numbers: &PctAsk) -> PctTurn
    ensures { OnKept (PostsAndSteps thread line numbers.now result)
        result.status kept.old kept.new }
{
    match kept {
        Kept::Book(book) => step_on(book, thread, line, numbers),
        Kept::Trace(_) => no_book(),
    }
}

/// A thread posts, and takes its step where the turn is its own then.
#[unsafe(no_mangle)]
pub extern "C" fn pct_book_step(
    alloc: Global,
    book: &mut PctBook,
    thread: u32,
    line: u32,
    ask: &PctAsk,
) -> PctTurn
    ensures { OnHeld (PostsAndSteps thread line ask.now result) result.status
        book.old.held.value book.new.held.value }
{
    match mem::replace(book, PctBook::empty(alloc)).into_box() {
        None => no_book(),
        Some(mut own) => {
            let turn = step_kept(&mut own, thread, line, ask);
            *book = PctBook::of(own);
            turn
        }
    }
}

fn next_kept(kept: &mut Kept) -> PctTurn
    ensures { OnKept (TellsTurn result) result.status kept.old kept.new }
{
    match kept {
        Kept::Book(book) => turn_on(book, DONE, 0),
        Kept::Trace(_) => no_book(),
    }
}

/// Whose turn it is.
#[unsafe(no_mangle)]
pub extern "C" fn pct_book_next(alloc: Global, book: &mut PctBook) -> PctTurn
    ensures { OnHeld (TellsTurn result) result.status book.old.held.value book.new.held.value }
{
    match mem::replace(book, PctBook::empty(alloc)).into_box() {
        None => no_book(),
        Some(mut own) => {
            let turn = next_kept(&mut own);
            *book = PctBook::of(own);
            turn
        }
    }
}
