//! One lock for the threads of a test, each by a seat of its own or some by one seat.
ghost use Rattle.std.specs.Prelude.{◌≡◌, ◌<◌, ◌≤◌, ℕ, true, IsTrue, IfOk, length};
ghost use Rattle.std.specs.Thread.{IsSync};
ghost use Rattle.pct_ask.specs.Objects.{sizes_of_deal, PostIsInRange};
ghost use Rattle.turn_lock.specs.Rule.{Serves};
ghost use Rattle.turn_lock.specs.Calls.{first_book, WaitsForTurn};
ghost use Rattle.turn_lock.specs.Views.{view, HasSeat};

mod scripts;

use crate::deals::{deal_of, with_order};
use crate::steps::{ENDS_EARLY, FAILS, IN_ORDER, ONE_MUTEX, WRITES};
use pct_ask::{Deal, Event, Outcome, Post, Verdict};
use policy_pick::Pct;
use scripts::{Script, post_of};
use std::alloc::Global;
use std::process::Abort;
use std::sync::Wait;
use std::test::Fail;
use std::thread::{Threads, join};
use turn_book::{Because, TurnBook};
use turn_lock::{Seat, Turn, TurnLock, WaitBoard};

/// Whether a post names only what there is.
fn post_fits(deal: &Deal, post: Post) -> bool
    ensures { IsTrue result → PostIsInRange (sizes_of_deal deal.now) post.ask }
{
    match post.ask {
        None => true,
        Some(ask) => deal.has_objects_of(&ask),
    }
}

/// A lock over a book of these threads, the highest first, with the seat that serves all of them.
struct Bench {
    lock: TurnLock<Pct>,
    seat: Seat<Pct>,
    deal: Deal,
    ghost of: { HasSeat lock seat },
    ghost made: { (first_book lock).deal ≡ deal },
}

/// A lock over a book of a deal, and its first seat.
fn lock_of(alloc: Global, deal: &Deal, order: &[u32]) -> Result<(TurnLock<Pct>, Seat<Pct>), Fail>
    requires whole { deal.now.threads ≡ length order.now }
    ensures of { IfOk result (λ made. HasSeat made.0 made.1) }
    ensures made { IfOk result (λ made. (first_book made.0).deal ≡ deal.now) }
{
    let copy = deal.copy(alloc)?;
    let (copy, policy) = with_order(alloc, copy, order)?;
    let book = TurnBook::new(alloc, copy, policy, 10_000)?;
    Ok(TurnLock::new(alloc, book)?)
}

fn make_bench(alloc: Global, order: &[u32]) -> Result<Bench, Fail>
    requires some { 1 ≤ length order.now }
    requires few { length order.now ≤ 64 }
{
    let deal = deal_of(alloc, order.len() as u32)?;
    match lock_of(alloc, &deal, order) {
        Ok((lock, seat)) => Ok(Bench { lock, seat, deal }),
        Err(error) => {
            drop(deal);
            Err(error)
        }
    }
}

/// The seat serves a thread, and owes no post.
fn waits(seat: &Seat<Pct>) -> bool
    ensures { result ≡ true → WaitsForTurn (view seat.now) }
{
    let mut some = false;
    for thread in 0..64u32 {
        if seat.serves(thread) {
            if seat.owes(thread) {
                return false;
            }
            some = true;
        }
    }
    some
}

/// How many answers each of the first eight threads has had, and the last.
#[derive(Clone, Copy)]
struct Had {
    counts: [u32; 8],
    last: [i64; 8],
}

impl Had {
    fn new() -> Had {
        Had {
            counts: [0; 8],
            last: [0; 8],
        }
    }

    fn note(&mut self, thread: u32, answer: i64) {
        let place = thread as usize % 8;
        self.counts[place] = self.counts[place].wrapping_add(1);
        self.last[place] = answer;
    }

    fn next(&self, script: Script, thread: u32) -> Post {
        let place = thread as usize % 8;
        post_of(script, thread, self.counts[place], self.last[place])
    }
}

/// Posts for a thread that owes a post. It is false where the run is over.
fn say<R: Wait>(
    rt: &R,
    lock: &TurnLock<Pct>,
    deal: &Deal,
    seat: &mut Seat<Pct>,
    post: Post,
    thread: u32,
    had: &mut Had,
) -> bool
    requires of { HasSeat lock.now seat.old }
    requires made { (first_book lock.now).deal ≡ deal.now }
    ensures of { HasSeat lock.now seat.new }
{
    if !seat.serves(thread) || !seat.owes(thread) {
        return true;
    }
    if !post_fits(deal, post) {
        return false;
    }
    match lock.post_wait(rt, seat, thread, post) {
        Turn::Answer(answer) => {
            had.note(thread, answer);
            true
        }
        turn => !matches!(turn, Turn::Over(_)),
    }
}

/// Posts for each thread of the seat that owes a post. It is false where the run is over.
fn say_all<R: Wait>(
    rt: &R,
    lock: &TurnLock<Pct>,
    deal: &Deal,
    seat: &mut Seat<Pct>,
    script: Script,
    had: &mut Had,
) -> bool
    requires of { HasSeat lock.now seat.old }
    requires made { (first_book lock.now).deal ≡ deal.now }
    ensures of { HasSeat lock.now seat.new }
{
    for thread in 0..64u32 {
        let post = had.next(script, thread);
        if !say(rt, lock, deal, seat, post, thread, had) {
            return false;
        }
    }
    true
}

/// Plays the threads of a seat until they have ended or the run is over.
fn play<R: Wait>(
    rt: &R,
    lock: &TurnLock<Pct>,
    deal: &Deal,
    script: Script,
    mut seat: Seat<Pct>,
) -> Seat<Pct>
    requires of { HasSeat lock.now seat }
    requires made { (first_book lock.now).deal ≡ deal.now }
    ensures of { HasSeat lock.now result }
{
    let mut had = Had::new();
    for _ in rt.forever() {
        if !say_all(rt, lock, deal, &mut seat, script, &mut had) {
            return seat;
        }
        if waits(&seat) {
            match lock.turn_any(rt, &mut seat) {
                (thread, Turn::Answer(answer)) => had.note(thread, answer),
                _ => return seat,
            }
        }
    }
    unreachable!()
}

/// Each thread from this one on in a thread of its own, with a seat of its own. Then the seats are
/// one again.
#[cycle(team)]
fn play_all<R: Threads + Wait + Sync>(
    rt: &R,
    lock: &TurnLock<Pct>,
    deal: &Deal,
    script: Script,
    mut seat: Seat<Pct>,
    thread: u32,
) -> Seat<Pct>
    requires of { HasSeat lock.now seat }
    requires made { (first_book lock.now).deal ≡ deal.now }
    ensures of { HasSeat lock.now result }
{
    if thread >= 64 || !seat.serves(thread) {
        return seat;
    }
    let mine = lock.split(&mut seat, thread);
    let (mine, mut rest) = join(
        rt,
        move || -> Seat<Pct>
            requires { IsSync R.row × HasSeat lock.now mine
                × (first_book lock.now).deal ≡ deal.now }
            ensures { HasSeat lock.entry.now result }
        { play(rt, lock, deal, script, mine) },
        move || -> Seat<Pct>
            requires { IsSync R.row × HasSeat lock.now seat × (first_book lock.now).deal ≡ deal.now
                × (thread < 64) }
            ensures { HasSeat lock.entry.now result }
        { play_all(rt, lock, deal, script, seat, thread + 1) },
    );
    lock.join(&mut rest, mine);
    rest
}

/// The seat serves the first so many threads.
fn serves_all(seat: &Seat<Pct>, threads: u32) -> bool
    ensures { result ≡ true → (t : ℕ) → t < threads → Serves (view seat.now) t }
{
    for thread in 0..threads {
        if !seat.serves(thread) {
            return false;
        }
    }
    true
}

/// Closes the lock. Its book has these steps and this verdict.
fn expect_closed(
    rt: &impl Abort,
    lock: TurnLock<Pct>,
    seat: Seat<Pct>,
    deal: &Deal,
    steps: &[Event],
    verdict: Verdict,
)
    requires of { HasSeat lock seat }
    requires made { (first_book lock).deal ≡ deal.now }
{
    assert!(rt; serves_all(&seat, deal.threads));
    let (events, found) = lock.close(seat).into_parts();
    assert_eq!(rt; events.as_slice(), steps);
    assert_eq!(rt; found, Some(Outcome::Verdict(verdict)));
}

/// Each thread of the order runs by itself, with a seat of its own.
fn expect_apart<R: Threads + Wait + Sync + Abort>(
    rt: &R,
    alloc: Global,
    order: &[u32],
    script: Script,
    steps: &[Event],
    verdict: Verdict,
) -> Result<(), Fail>
    requires some { 1 ≤ length order.now }
    requires few { length order.now ≤ 64 }
{
    let Bench { lock, seat, deal } = make_bench(alloc, order)?;
    let seat = play_all(rt, &lock, &deal, script, seat, 0);
    expect_closed(rt, lock, seat, &deal, steps, verdict);
    drop(deal);
    Ok(())
}

/// Posts and asks for the turn, by a seat that nobody stands in the way of.
fn turn(
    rt: &impl Abort,
    lock: &TurnLock<Pct>,
    deal: &Deal,
    seat: &mut Seat<Pct>,
    thread: u32,
    post: Post,
) -> Turn
    requires of { HasSeat lock.now seat.old }
    requires made { (first_book lock.now).deal ≡ deal.now }
    ensures of { HasSeat lock.now seat.new }
{
    assert!(rt; seat.serves(thread));
    assert!(rt; seat.owes(thread));
    assert!(rt; post_fits(deal, post));
    lock.try_turn(seat, thread, Some(post))
}

/// What a thread's first post gets.
fn expect_turn(
    rt: &impl Abort,
    lock: &TurnLock<Pct>,
    deal: &Deal,
    seat: &mut Seat<Pct>,
    thread: u32,
    want: Turn,
)
    requires of { HasSeat lock.now seat.old }
    requires made { (first_book lock.now).deal ≡ deal.now }
    ensures of { HasSeat lock.now seat.new }
{
    let post = post_of(Script::Sums, thread, 0, 0);
    assert_eq!(rt; turn(rt, lock, deal, seat, thread, post), want, "{thread}");
}

/// The first thread has not posted yet.
macro_rules! away {
    ($at:literal) => {
        Turn::NotYet {
            at: $at,
            because: Because::Away(0),
        }
    };
}

/// One seat for all threads is told whose turn it is.
#[test]
fn turns_of_one_seat(rt: HostRuntime) -> Result<(), Fail> {
    let Bench {
        lock,
        mut seat,
        deal,
    } = make_bench(rt.alloc(), &[0, 1, 2])?;
    expect_turn(&rt, &lock, &deal, &mut seat, 2, away!(0));
    expect_turn(&rt, &lock, &deal, &mut seat, 0, Turn::Answer(0));
    assert!(rt; seat.serves(0));
    assert!(rt; seat.owes(0));
    expect_turn(&rt, &lock, &deal, &mut seat, 1, away!(1));
    drop(lock);
    drop(seat);
    drop(deal);
    Ok(())
}

/// Two threads with a seat each, of which one fails by what the other wrote.
#[test]
fn two_callers(rt: HostRuntime) -> Result<(), Fail> {
    let failed = Verdict::Failed { thread: 1, line: 9 };
    expect_apart(&rt, rt.alloc(), &[0, 1], Script::Writes, &WRITES, failed)
}

/// A board says what was noted last.
#[test]
fn board(rt: HostRuntime) -> Result<(), Fail> {
    let mut board = WaitBoard::new();
    let unnoted = board.word_of(3);
    board.note(3, 0);
    let first = board.word_of(3);
    board.note(3, 2);
    let found = [unnoted, first, board.word_of(3), board.word_of(2)];
    assert_eq!(rt; found, [None, Some(0), Some(2), None]);
    Ok(())
}

/// However three threads meet, they make one trace.
#[test]
fn three_threads(rt: HostRuntime) -> Result<(), Fail> {
    for _ in 0..200 {
        expect_apart(
            &rt,
            rt.alloc(),
            &[0, 1, 2],
            Script::Sums,
            &IN_ORDER,
            Verdict::Passed,
        )?;
    }
    Ok(())
}

/// Eight threads want one mutex.
#[test]
fn eight_threads(rt: HostRuntime) -> Result<(), Fail> {
    for _ in 0..20 {
        expect_apart(
            &rt,
            rt.alloc(),
            &[0, 1, 2, 3, 4, 5, 6, 7],
            Script::OneMutex,
            &ONE_MUTEX,
            Verdict::Passed,
        )?;
    }
    Ok(())
}

/// Threads end while another waits for them.
#[test]
fn ends_while_others_wait(rt: HostRuntime) -> Result<(), Fail> {
    for _ in 0..50 {
        expect_apart(
            &rt,
            rt.alloc(),
            &[2, 1, 0],
            Script::EndsEarly,
            &ENDS_EARLY,
            Verdict::Passed,
        )?;
    }
    Ok(())
}

/// The run ends while the other threads sleep.
#[test]
fn outcome_while_others_wait(rt: HostRuntime) -> Result<(), Fail> {
    for _ in 0..50 {
        let failed = Verdict::Failed { thread: 0, line: 6 };
        expect_apart(&rt, rt.alloc(), &[1, 2, 0], Script::Fails, &FAILS, failed)?;
    }
    Ok(())
}

/// A seat that serves two threads, beside a seat that serves one.
fn two_and_one<R: Threads + Wait + Sync + Abort>(rt: &R, alloc: Global) -> Result<(), Fail> {
    let Bench {
        lock: owned,
        mut seat,
        deal: counts,
    } = make_bench(alloc, &[0, 1, 2])?;
    assert!(rt; seat.serves(2));
    let lock = &owned;
    let deal = &counts;
    let mine = lock.split(&mut seat, 2);
    let (mine, mut both) = join(
        rt,
        move || -> Seat<Pct>
            requires { IsSync R.row × HasSeat lock.now mine
                × (first_book lock.now).deal ≡ deal.now }
            ensures { HasSeat lock.entry.now result }
        { play(rt, lock, deal, Script::Sums, mine) },
        move || -> Seat<Pct>
            requires { IsSync R.row × HasSeat lock.now seat
                × (first_book lock.now).deal ≡ deal.now }
            ensures { HasSeat lock.entry.now result }
        { play(rt, lock, deal, Script::Sums, seat) },
    );
    lock.join(&mut both, mine);
    expect_closed(rt, owned, both, &counts, &IN_ORDER, Verdict::Passed);
    drop(counts);
    Ok(())
}

#[test]
fn two_threads_by_one_seat(rt: HostRuntime) -> Result<(), Fail> {
    for _ in 0..50 {
        two_and_one(&rt, rt.alloc())?;
    }
    Ok(())
}

/// One caller plays all threads.
#[test]
fn all_threads_by_one_seat(rt: HostRuntime) -> Result<(), Fail> {
    let Bench { lock, seat, deal } = make_bench(rt.alloc(), &[0, 1, 2])?;
    let seat = play(&rt, &lock, &deal, Script::Sums, seat);
    expect_closed(&rt, lock, seat, &deal, &IN_ORDER, Verdict::Passed);
    drop(deal);
    Ok(())
}
