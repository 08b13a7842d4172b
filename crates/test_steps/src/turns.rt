ghost use Rattle.std.specs.Prelude.{◌≤◌, length};

use crate::samples::deal_of;
use pct_ask::{Ask, Blocked, Event, MisuseKind, Outcome, Post, Standing, Verdict};
use policy_pick::{Pct, Policy};
use std::alloc::Global;
use std::process::Abort;
use std::test::Fail;
use turn_book::{Because, Taken, TurnBook};

/// A thread, a line of its test, what it asks there, and the answer.
type Row = (u32, u32, Ask, i64);

fn post<P: Policy>(rt: &impl Abort, book: &mut TurnBook<P>, thread: u32, post: Post) {
    assert!(rt; thread < book.deal().threads);
    assert_eq!(rt; book.standing(thread), Standing::Away);
    match post.ask {
        Some(ask) => {
            assert!(rt; book.deal().has_objects_of(&ask));
            book.post(thread, post);
        }
        None => book.post(thread, post),
    }
}

fn ask<P: Policy>(rt: &impl Abort, book: &mut TurnBook<P>, thread: u32, line: u32, ask: Ask) {
    post(
        rt,
        book,
        thread,
        Post {
            ask: Some(ask),
            line,
        },
    );
}

fn ask_and_take<P: Policy>(
    rt: &impl Abort,
    book: &mut TurnBook<P>,
    thread: u32,
    line: u32,
    ask: Ask,
) -> Option<i64> {
    assert!(rt; thread < book.deal().threads);
    assert_eq!(rt; book.standing(thread), Standing::Away);
    assert!(rt; book.deal().has_objects_of(&ask));
    book.post_and_take(
        thread,
        Post {
            ask: Some(ask),
            line,
        },
    )
}

fn take<P: Policy>(rt: &impl Abort, book: &mut TurnBook<P>, thread: u32) -> Taken {
    if book.outcome().is_some() {
        return book.take(thread);
    }
    assert!(rt; thread < book.deal().threads);
    assert_eq!(rt; book.standing(thread), Standing::Asks);
    book.take(thread)
}

/// The order names every thread once.
fn book_of(alloc: Global, order: &[u32], points: &[u32], limit: u32) -> Result<TurnBook<Pct>, Fail>
    requires some { 1 ≤ length order.now }
    requires few_threads { length order.now ≤ 64 }
    requires few_points { length points.now ≤ 7 }
    requires some_steps { 1 ≤ limit }
    requires few_steps { limit ≤ 100000 }
{
    let deal = deal_of(alloc, order.len() as u32, 0)?;
    match Pct::new(alloc, order, points) {
        Ok(policy) => Ok(TurnBook::new(alloc, deal, policy, limit)?),
        Err(error) => {
            drop(deal);
            Err(error)?
        }
    }
}

const READ: Ask = Ask::Read { var: 0 };

const WRITE: Ask = Ask::Write { var: 0, value: 1 };

const JOIN_A: Ask = Ask::Join { thread: 0 };

const JOIN_B: Ask = Ask::Join { thread: 1 };

/// What is done with a book, and what it answers.
#[derive(Clone, Copy)]
enum Move {
    /// A thread asks, on a line of its test.
    Asks(u32, u32, Ask),
    /// A thread asks for its turn.
    Takes(u32, Taken),
    /// A thread asks, on a line of its test, and takes its step at once, or nothing happens.
    AsksAndTakes(u32, u32, Ask, Option<i64>),
    /// Whose turn it is, where that is known.
    Granted(Option<u32>),
    /// For whose post the book waits, if it does.
    Awaited(Option<u32>),
}

macro_rules! not_yet {
    ($at:literal, $because:expr) => {
        Taken::NotYet {
            at: $at,
            because: $because,
        }
    };
}

fn expect_move(rt: &impl Abort, book: &mut TurnBook<Pct>, made: &Move) {
    match *made {
        Move::Asks(thread, line, asked) => ask(rt, book, thread, line, asked),
        Move::Takes(thread, want) => assert_eq!(rt; take(rt, book, thread), want, "{thread}"),
        Move::AsksAndTakes(thread, line, asked, want) => {
            assert_eq!(rt;
                ask_and_take(rt, book, thread, line, asked),
                want,
                "{thread}"
            )
        }
        Move::Granted(want) => assert_eq!(rt; book.granted(), want),
        Move::Awaited(want) => assert_eq!(rt; book.awaited(), want),
    }
}

/// What a book of three threads answers, whose run is not over then.
fn expect_moves(
    rt: &impl Abort,
    alloc: Global,
    order: &[u32; 3],
    moves: &[Move],
) -> Result<(), Fail> {
    let mut book = book_of(alloc, order, &[], 10_000)?;
    for made in moves {
        expect_move(rt, &mut book, made);
    }
    let (_, found) = book.into_parts();
    assert_eq!(rt; found, None);
    Ok(())
}

const ANSWERS: [Move; 7] = [
    Move::Asks(2, 12, JOIN_A),
    Move::Takes(2, not_yet!(0, Because::Away(0))),
    Move::Asks(0, 4, READ),
    Move::Takes(0, Taken::Answer(0)),
    Move::Takes(2, not_yet!(1, Because::Away(0))),
    Move::Asks(0, 5, WRITE),
    Move::Takes(2, not_yet!(1, Because::Turn(0))),
];

/// Whether a join may be done depends on what its thread posts.
const ANSWERS_BY_A_JOIN: [Move; 3] = [
    Move::Asks(2, 12, JOIN_A),
    Move::Asks(1, 8, READ),
    Move::Takes(1, not_yet!(0, Because::Away(0))),
];

/// A thread is told whose turn it is, or who has to post first.
#[test]
fn answers_of_a_book(rt: HostRuntime) -> Result<(), Fail> {
    expect_moves(&rt, rt.alloc(), &[0, 1, 2], &ANSWERS)?;
    expect_moves(&rt, rt.alloc(), &[2, 1, 0], &ANSWERS_BY_A_JOIN)
}

const GRANTS: [Move; 12] = [
    Move::Asks(2, 12, JOIN_A),
    Move::Asks(0, 4, READ),
    Move::Asks(1, 8, READ),
    Move::Takes(2, not_yet!(0, Because::Turn(0))),
    Move::Takes(0, Taken::Answer(0)),
    Move::Granted(None),
    Move::Awaited(Some(0)),
    Move::Takes(2, not_yet!(1, Because::Away(0))),
    Move::Asks(0, 5, WRITE),
    Move::Granted(Some(0)),
    Move::Awaited(None),
    Move::Takes(2, not_yet!(1, Because::Turn(0))),
];

/// Whose turn it is, where that is known, and else for whose post the book waits.
#[test]
fn grants_of_a_book(rt: HostRuntime) -> Result<(), Fail> {
    expect_moves(&rt, rt.alloc(), &[0, 1, 2], &GRANTS)
}

/// First nobody waits for the thread that asks, and at last another one joins it.
const AT_ONCE: [Move; 7] = [
    Move::AsksAndTakes(2, 12, JOIN_A, None),
    Move::AsksAndTakes(0, 4, READ, Some(0)),
    Move::Awaited(Some(0)),
    Move::Asks(2, 12, JOIN_A),
    Move::AsksAndTakes(0, 5, WRITE, None),
    Move::Asks(0, 5, WRITE),
    Move::Granted(Some(0)),
];

/// Where the book waits for a thread, its post and its step are one call.
#[test]
fn posts_taken_at_once(rt: HostRuntime) -> Result<(), Fail> {
    expect_moves(&rt, rt.alloc(), &[0, 1, 2], &AT_ONCE)
}

/// What a thread asks at its step of a number, from 0, by the rows; behind its last row it has
/// ended.
fn post_of(rows: &[Row], thread: u32, number: usize) -> Post {
    let mut left = number;
    for row in rows {
        if row.0 == thread {
            if left == 0 {
                return Post {
                    ask: Some(row.2),
                    line: row.1,
                };
            }
            left -= 1;
        }
    }
    Post {
        ask: None,
        line: 90,
    }
}

/// A thread posts what the rows say, if its next post isn't known. Each thread's posts are counted.
fn post_next<P: Policy>(
    rt: &impl Abort,
    book: &mut TurnBook<P>,
    rows: &[Row],
    thread: u32,
    posted: &mut [usize; 3],
) {
    assert!(rt; thread < book.deal().threads);
    assert!(rt; thread < 3);
    if book.outcome().is_none() && book.standing(thread) == Standing::Away {
        let number = posted[thread as usize];
        posted[thread as usize] = number.saturating_add(1);
        post(rt, book, thread, post_of(rows, thread, number));
    }
}

/// The threads post in this order, again and again, and whoever is granted takes a step.
fn drive<P: Policy>(rt: &impl Abort, book: &mut TurnBook<P>, rows: &[Row], order: &[u32]) {
    let mut posted = [0; 3];
    for _ in 0..10 {
        for thread in order {
            post_next(rt, book, rows, *thread, &mut posted);
            if let Some(next) = book.granted() {
                assert!(rt; matches!(take(rt, book, next), Taken::Answer(_)));
            }
        }
    }
}

/// A run of a test: its order and change points, its rows, of which the first `made` are its steps,
/// and how it ends.
#[derive(Clone, Copy)]
struct Run<'a> {
    threads: &'a [u32],
    points: &'a [u32],
    rows: &'a [Row],
    made: usize,
    outcome: Verdict,
}

/// The events are so many rows, the first ones.
fn expect_rows(rt: &impl Abort, events: &[Event], rows: &[Row], made: usize) {
    assert_eq!(rt; events.len(), made);
    for (event, row) in events.iter().zip(rows) {
        assert_eq!(rt; (event.thread, event.line, event.ask, event.answer), *row);
    }
}

/// The run is made where the threads post in this order.
fn expect_order(rt: &impl Abort, alloc: Global, run: &Run<'_>, order: &[u32]) -> Result<(), Fail> {
    let many = run.threads.len();
    assert!(rt; 1 <= many && many <= 64);
    assert!(rt; run.points.len() <= 7);
    let mut book = book_of(alloc, run.threads, run.points, 10_000)?;
    drive(rt, &mut book, run.rows, order);
    expect_rows(rt, book.trace(), run.rows, run.made);
    let (events, found) = book.into_parts();
    expect_rows(rt, events.as_slice(), run.rows, run.made);
    drop(events);
    assert_eq!(rt; found, Some(Outcome::Verdict(run.outcome)));
    Ok(())
}

/// The same in a book of a run before, by another policy.
fn expect_again(rt: &impl Abort, alloc: Global, run: &Run<'_>, order: &[u32]) -> Result<(), Fail> {
    let many = run.threads.len();
    assert!(rt; 1 <= many && many <= 64);
    assert!(rt; run.points.len() <= 7);
    let policy = Pct::new(alloc, run.threads, run.points)?;
    let mut book = book_of(alloc, run.threads, &[], 10_000)?;
    drive(rt, &mut book, run.rows, order);
    assert_eq!(rt; book.deal().threads as usize, many);
    drop(book.restart(policy));
    assert_eq!(rt; (book.trace().len(), book.outcome()), (0, None));
    drive(rt, &mut book, run.rows, order);
    expect_rows(rt, book.trace(), run.rows, run.made);
    assert_eq!(rt; book.outcome(), Some(Outcome::Verdict(run.outcome)));
    Ok(())
}

/// The first thread reads and is lowered, so one of two increments is lost.
const LOST_UPDATE: [Row; 8] = [
    (0, 4, READ, 0),
    (1, 8, READ, 0),
    (1, 9, WRITE, 0),
    (0, 5, WRITE, 0),
    (2, 12, JOIN_A, 0),
    (2, 13, JOIN_B, 0),
    (2, 14, READ, 1),
    (2, 15, Ask::Check { holds: false }, 0),
];

/// Each of two threads has the mutex that the other one wants. The last two asks are never
/// answered.
const DEADLOCK: [Row; 4] = [
    (0, 5, Ask::Lock { mutex: 0 }, 0),
    (1, 11, Ask::Lock { mutex: 1 }, 0),
    (0, 6, Ask::Lock { mutex: 1 }, 0),
    (1, 12, Ask::Lock { mutex: 0 }, 0),
];

/// Two threads meet twice at a barrier.
const BARRIER: [Row; 8] = [
    (0, 4, Ask::Arrive { barrier: 2 }, 0),
    (1, 8, Ask::Arrive { barrier: 2 }, 0),
    (0, 4, Ask::Leave { barrier: 2 }, 0),
    (0, 5, Ask::Arrive { barrier: 2 }, 0),
    (1, 8, Ask::Leave { barrier: 2 }, 1),
    (1, 9, Ask::Arrive { barrier: 2 }, 0),
    (0, 5, Ask::Leave { barrier: 2 }, 0),
    (1, 9, Ask::Leave { barrier: 2 }, 1),
];

/// A reader that is lowered goes on before a writer that it blocks.
const READ_WRITE_LOCK: [Row; 6] = [
    (0, 5, Ask::RdLock { rwlock: 0 }, 0),
    (0, 6, READ, 0),
    (0, 7, Ask::RwUnlock { rwlock: 0 }, 0),
    (1, 10, Ask::WrLock { rwlock: 0 }, 0),
    (1, 11, WRITE, 0),
    (1, 12, Ask::RwUnlock { rwlock: 0 }, 0),
];

#[test]
fn lost_update(rt: HostRuntime) -> Result<(), Fail> {
    let run = Run {
        threads: &[0, 1, 2],
        points: &[1],
        rows: &LOST_UPDATE,
        made: 8,
        outcome: Verdict::Failed {
            thread: 2,
            line: 15,
        },
    };
    for order in [[0, 1, 2], [2, 1, 0]] {
        expect_order(&rt, rt.alloc(), &run, &order)?;
        expect_again(&rt, rt.alloc(), &run, &order)?;
    }
    Ok(())
}

/// The run of two threads, in both orders of their posts.
fn expect_two(
    rt: &impl Abort,
    alloc: Global,
    points: &[u32],
    rows: &[Row],
    made: usize,
    outcome: Verdict,
) -> Result<(), Fail> {
    let run = Run {
        threads: &[0, 1],
        points,
        rows,
        made,
        outcome,
    };
    for order in [[0, 1], [1, 0]] {
        expect_order(rt, alloc, &run, &order)?;
        expect_again(rt, alloc, &run, &order)?;
    }
    Ok(())
}

/// A deadlock, a barrier and a read-write lock.
#[test]
fn two_threads(rt: HostRuntime) -> Result<(), Fail> {
    let alloc = rt.alloc();
    let mut blocked = Blocked::new();
    blocked.push(0, 6);
    blocked.push(1, 12);
    expect_two(&rt, alloc, &[1], &DEADLOCK, 2, Verdict::Stuck { blocked })?;
    expect_two(&rt, alloc, &[], &BARRIER, 8, Verdict::Passed)?;
    expect_two(&rt, alloc, &[1], &READ_WRITE_LOCK, 6, Verdict::Passed)
}

/// The second thread waits to be started by the first one, which ends, joins it or starts it twice.
const IDLE: [Row; 2] = [(0, 6, Ask::Yield, 0), (1, 8, Ask::Begin, 0)];

const IDLE_JOINED: [Row; 2] = [(0, 6, JOIN_B, 0), (1, 8, Ask::Begin, 0)];

const STARTED_TWICE: [Row; 3] = [
    (0, 4, Ask::Start { thread: 1 }, 0),
    (0, 6, Ask::Start { thread: 1 }, 0),
    (1, 8, Ask::Begin, 0),
];

#[test]
fn idle_threads(rt: HostRuntime) -> Result<(), Fail> {
    let alloc = rt.alloc();
    expect_two(&rt, alloc, &[], &IDLE, 1, Verdict::Passed)?;
    let mut blocked = Blocked::new();
    blocked.push(0, 6);
    let stuck = Verdict::Stuck { blocked };
    expect_two(&rt, alloc, &[], &IDLE_JOINED, 0, stuck)?;
    let misuse = Verdict::Misuse {
        thread: 0,
        line: 6,
        kind: MisuseKind::AlreadyStarted,
    };
    expect_two(&rt, alloc, &[], &STARTED_TWICE, 2, misuse)
}
