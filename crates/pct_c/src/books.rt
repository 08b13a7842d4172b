//! The calls of C that make a book, and the one that frees it.

ghost use Rattle.std.specs.Prelude.{◌≡◌, ◌≢◌, ◌⊎◌, ◌↔◌, ℕ, Ok, Err, Some, None, IfOk, IsTrue};
ghost use Rattle.std.specs.Prelude.{MatchOption, length, map};
ghost use Rattle.rank_now.specs.declared.order.RankError.{RankError};
ghost use Rattle.policy_pick.specs.Plan.{ByPoints, ByMoments, ByList};
ghost use Rattle.c_values.specs.Moments.{moment_said};
ghost use Rattle.pct_c.specs.declared.book.Book.{Book};
ghost use Rattle.pct_c.specs.declared.kept.Kept.{Kept};
ghost use Rattle.pct_c.specs.Makers.{IsLimit, MayOrder, MayList, IsMade, Makes};

use crate::book::Book;
use crate::handle::PctBook;
use crate::kept::Kept;
use crate::status::{BAD, DONE, NO_MEMORY};
use c_values::{PctDeal, PctMoment, deal_of, moments_said};
use pct_ask::{MAX_POINTS, MAX_STEPS};
use rank_now::RankError;
use std::alloc::{AllocError as NoMemory, Global};

fn is_limit(limit: u32) -> bool
    ensures { IsTrue result ↔ IsLimit limit }
{
    1 <= limit && limit <= MAX_STEPS
}

/// A book where the order is one. `None` where it isn't.
fn of_order(made: Result<Book, RankError>) -> Result<Option<Book>, NoMemory>
    ensures made { (book : Book) → result ≡ Ok (Some book) → made ≡ Ok book }
    ensures bad { result ≡ Ok None → (at : ℕ) × (made ≡ Err (RankError.NotAnOrder at)) }
{
    match made {
        Ok(book) => Ok(Some(book)),
        Err(RankError::NotAnOrder { .. }) => Ok(None),
        Err(RankError::NoMemory) => Err(NoMemory),
    }
}

/// Puts a book that was made into the handle, in place of what it had.
fn keep(alloc: Global, handle: &mut PctBook, made: Result<Option<Book>, NoMemory>) -> u32
    ensures done { result ≡ 0 → (book : Book) × (made ≡ Ok (Some book))
        × (handle.new.held.value ≡ Some (Kept.Book book)) }
    ensures bad { result ≡ 5 → made ≡ Ok None }
    ensures statuses { (result ≡ 0) ⊎ ((result ≡ 5) ⊎ (result ≡ 6)) }
    ensures stays { result ≢ 0 → handle.new.held.value ≡ handle.old.held.value }
{
    match made {
        Ok(Some(book)) => match Box::new(alloc, Kept::Book(book)) {
            Ok(kept) => {
                *handle = PctBook::of(kept);
                DONE
            }
            Err(_) => NO_MEMORY,
        },
        Ok(None) => BAD,
        Err(_) => NO_MEMORY,
    }
}

fn made_by_points(
    alloc: Global,
    counts: &PctDeal,
    vars: &[i64],
    sems: &[i64],
    barriers: &[i64],
    order: &[u32],
    points: &[u32],
    limit: u32,
) -> Result<Option<Book>, NoMemory>
    ensures { IfOk result (λ made. MatchOption made
        (¬ MayOrder counts.now vars.now sems.now barriers.now order.now (length points.now) limit)
        (IsMade counts.now vars.now sems.now barriers.now limit (ByPoints order.now points.now))) }
{
    if !is_limit(limit) || points.len() > MAX_POINTS {
        return Ok(None);
    }
    match deal_of(alloc, counts, vars, sems, barriers)? {
        Some(deal) => {
            if order.len() != deal.threads as usize {
                return Ok(None);
            }
            of_order(Book::by_points(alloc, deal, order, points, limit))
        }
        None => Ok(None),
    }
}

/// Makes a book of an order and of change points.
#[unsafe(no_mangle)]
pub extern "C" fn pct_book_by_points(
    alloc: Global,
    book: &mut PctBook,
    deal: &PctDeal,
    variables: &[i64],
    semaphores: &[i64],
    barriers: &[i64],
    order: &[u32],
    points: &[u32],
    limit: u32,
) -> u32
    ensures { Makes
        (MayOrder deal.now variables.now semaphores.now barriers.now order.now
        (length points.now) limit)
        (IsMade deal.now variables.now semaphores.now barriers.now limit
        (ByPoints order.now points.now))
        result book.old.held.value book.new.held.value }
{
    let made = made_by_points(
        alloc, deal, variables, semaphores, barriers, order, points, limit,
    );
    keep(alloc, book, made)
}

fn made_by_moments(
    alloc: Global,
    counts: &PctDeal,
    vars: &[i64],
    sems: &[i64],
    barriers: &[i64],
    order: &[u32],
    moments: &[PctMoment],
    limit: u32,
) -> Result<Option<Book>, NoMemory>
    ensures { IfOk result (λ made. MatchOption made
        (¬ MayOrder counts.now vars.now sems.now barriers.now order.now (length moments.now) limit)
        (IsMade counts.now vars.now sems.now barriers.now limit
        (ByMoments order.now (map moment_said moments.now)))) }
{
    if !is_limit(limit) || moments.len() > MAX_POINTS {
        return Ok(None);
    }
    match deal_of(alloc, counts, vars, sems, barriers)? {
        Some(deal) => {
            if order.len() != deal.threads as usize {
                return Ok(None);
            }
            let own = moments_said(alloc, moments)?;
            let made = Book::by_moments(alloc, deal, order, own.as_slice(), limit);
            of_order(made)
        }
        None => Ok(None),
    }
}

/// Makes a book of an order and of moments.
#[unsafe(no_mangle)]
pub extern "C" fn pct_book_by_moments(
    alloc: Global,
    book: &mut PctBook,
    deal: &PctDeal,
    variables: &[i64],
    semaphores: &[i64],
    barriers: &[i64],
    order: &[u32],
    moments: &[PctMoment],
    limit: u32,
) -> u32
    ensures { Makes
        (MayOrder deal.now variables.now semaphores.now barriers.now order.now
        (length moments.now) limit)
        (IsMade deal.now variables.now semaphores.now barriers.now limit
        (ByMoments order.now (map moment_said moments.now)))
        result book.old.held.value book.new.held.value }
{
    let made = made_by_moments(
        alloc, deal, variables, semaphores, barriers, order, moments, limit,
    );
    keep(alloc, book, made)
}

fn made_by_list(
    alloc: Global,
    counts: &PctDeal,
    vars: &[i64],
    sems: &[i64],
    barriers: &[i64],
    threads: &[u32],
    limit: u32,
) -> Result<Option<Book>, NoMemory>
    ensures { IfOk result (λ made. MatchOption made
        (¬ MayList counts.now vars.now sems.now barriers.now threads.now limit)
        (IsMade counts.now vars.now sems.now barriers.now limit (ByList threads.now))) }
{
    let count = counts.threads;
    if !is_limit(limit) || !threads.iter().all(|thread| *thread < count) {
        return Ok(None);
    }
    match deal_of(alloc, counts, vars, sems, barriers)? {
        Some(deal) => Ok(Some(Book::by_list(alloc, deal, threads, limit)?)),
        None => Ok(None),
    }
}

/// Makes a book of a list of threads.
#[unsafe(no_mangle)]
pub extern "C" fn pct_book_by_list(
    alloc: Global,
    book: &mut PctBook,
    deal: &PctDeal,
    variables: &[i64],
    semaphores: &[i64],
    barriers: &[i64],
    threads: &[u32],
    limit: u32,
) -> u32
    ensures { Makes
        (MayList deal.now variables.now semaphores.now barriers.now threads.now limit)
        (IsMade deal.now variables.now semaphores.now barriers.now limit (ByList threads.now))
        result book.old.held.value book.new.held.value }
{
    let made = made_by_list(alloc, deal, variables, semaphores, barriers, threads, limit);
    keep(alloc, book, made)
}

/// Frees what the handle has, if it has something.
#[unsafe(no_mangle)]
pub extern "C" fn pct_book_free(alloc: Global, book: &mut PctBook)
    ensures { book.new.held.value ≡ None }
{
    *book = PctBook::empty(alloc);
}
