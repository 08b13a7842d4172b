//! Threads of a test's own, each with a port.
ghost use Rattle.std.specs.Prelude.{◌≡◌, ◌≤◌, ℕ, true, length};
ghost use Rattle.std.specs.Thread.{IsSync};
ghost use Rattle.turn_lock.specs.Seen.{owes_of};
ghost use Rattle.turn_lock.specs.Rule.{Serves};
ghost use Rattle.turn_lock.specs.Calls.{ServesAll};
ghost use Rattle.turn_lock.specs.Views.{view, HasSeat};
ghost use Rattle.body_kit.specs.Ports.{home_of};
ghost use Rattle.test_runs.specs.Seats.{IsReadyFor, IsBackFrom};

use crate::deals::deal_of;
use crate::steps::{IN_ORDER, READ};
use body_kit::{Kit, KitError, Over, Port};
use pct_ask::{Ask, EventList, Outcome, Verdict};
use policy_pick::Pct;
use std::alloc::{AllocError as NoMemory, Global};
use std::process::Abort;
use std::sync::Wait;
use std::test::Fail;
use std::thread::{Threads, join};
use turn_lock::Seat;

/// A thread reads a number, and writes the next.
fn count_up<R: Wait>(rt: &R, port: &mut Port<'_>, line: u32) -> Result<(), Over>
    requires line { line ≤ 8 }
    requires vars { 1 ≤ length (home_of port.old).deal.vars }
    ensures { home_of port.new ≡ home_of port.old }
{
    let seen = port.ask(rt, READ, line)?;
    let value = seen.wrapping_add(1);
    port.ask(rt, Ask::Write { var: 0, value }, line + 1)?;
    Ok(())
}

/// A thread waits for both counters, and checks the number.
fn check_sum<R: Wait>(rt: &R, port: &mut Port<'_>) -> Result<(), Over>
    requires vars { 1 ≤ length (home_of port.old).deal.vars }
    requires threads { 2 ≤ (home_of port.old).deal.threads }
    ensures { home_of port.new ≡ home_of port.old }
{
    port.ask(rt, Ask::Join { thread: 0 }, 12)?;
    port.ask(rt, Ask::Join { thread: 1 }, 13)?;
    let holds = port.ask(rt, READ, 14)? == 2;
    port.ask(rt, Ask::Check { holds }, 15)?;
    Ok(())
}

/// A counter's part, and its end.
fn count<R: Wait>(rt: &R, kit: &Kit, mut seat: Seat<Pct>, thread: u32, line: u32) -> Seat<Pct>
    requires of { HasSeat kit.now seat }
    requires serves { Serves (view seat) thread }
    requires owes { owes_of (view seat).seen thread ≡ true }
    requires line { line ≤ 8 }
    requires vars { 1 ≤ length (view seat).seen.deal.vars }
    ensures of { HasSeat kit.now result }
    ensures serves { Serves (view result) thread }
{
    let mut port = kit.port(&mut seat, thread);
    drop(seat);
    let _ = count_up(rt, &mut port, line);
    port.end(rt, line + 2)
}

/// The part of the thread that checks, and its end.
fn check<R: Wait>(rt: &R, kit: &Kit, mut seat: Seat<Pct>) -> Seat<Pct>
    requires of { HasSeat kit.now seat }
    requires serves { Serves (view seat) 2 }
    requires owes { owes_of (view seat).seen 2 ≡ true }
    requires vars { 1 ≤ length (view seat).seen.deal.vars }
    requires threads { 2 ≤ (view seat).seen.deal.threads }
    ensures of { HasSeat kit.now result }
    ensures serves { Serves (view result) 2 }
{
    let mut port = kit.port(&mut seat, 2);
    drop(seat);
    let _ = check_sum(rt, &mut port);
    port.end(rt, 16)
}

/// The second counter runs, and the thread that checks.
fn run_two<R: Threads + Wait + Sync>(
    rt: &R,
    kit: &Kit,
    other: Seat<Pct>,
    last: Seat<Pct>,
) -> (Seat<Pct>, Seat<Pct>)
    requires counter { IsReadyFor kit.now other 1 }
    requires checker { IsReadyFor kit.now last 2 × (2 ≤ (view last).seen.deal.threads) }
    ensures { IsBackFrom kit.now result.0 1 × IsBackFrom kit.now result.1 2 }
{
    join(
        rt,
        move || -> Seat<Pct>
            requires { IsReadyFor kit.now other 1 }
            ensures { IsBackFrom kit.entry.now result 1 }
        { count(rt, kit, other, 1, 8) },
        move || -> Seat<Pct>
            requires { IsReadyFor kit.now last 2 × (2 ≤ (view last).seen.deal.threads) }
            ensures { IsBackFrom kit.entry.now result 2 }
        { check(rt, kit, last) },
    )
}

/// The three threads run, and their seats are joined.
fn run_all<R: Threads + Wait + Sync>(
    rt: &R,
    owned: Kit,
    mut seat: Seat<Pct>,
) -> (EventList, Option<Outcome>)
    requires of { HasSeat owned seat }
    requires all { ServesAll (view seat) }
    requires owe { (t : ℕ) → owes_of (view seat).seen t ≡ true }
    requires threads { (view seat).seen.deal.threads ≡ 3 }
    requires vars { length (view seat).seen.deal.vars ≡ 1 }
{
    let kit = &owned;
    let one = kit.split(&mut seat, 0);
    let other = kit.split(&mut seat, 1);
    let last = kit.split(&mut seat, 2);
    let (one, (other, last)) = join(
        rt,
        move || -> Seat<Pct>
            requires { IsReadyFor kit.now one 0 }
            ensures { IsBackFrom kit.entry.now result 0 }
        { count(rt, kit, one, 0, 4) },
        move || -> (Seat<Pct>, Seat<Pct>)
            requires { IsSync R.row
                × IsReadyFor kit.now other 1
                × IsReadyFor kit.now last 2
                × (2 ≤ (view last).seen.deal.threads) }
            ensures { IsBackFrom kit.entry.now result.0 1 × IsBackFrom kit.entry.now result.1 2 }
        { run_two(rt, kit, other, last) },
    );
    owned.join(&mut seat, one);
    owned.join(&mut seat, other);
    owned.join(&mut seat, last);
    owned.close(seat).into_parts()
}

#[test]
fn counts_in_order(rt: HostRuntime) -> Result<(), Fail> {
    let deal = deal_of(rt.alloc(), 3)?;
    let (kit, seat) = Kit::open(rt.alloc(), deal, &[0, 1, 2], &[], 10_000)?;
    let (events, outcome) = run_all(&rt, kit, seat);
    assert_eq!(rt; events.as_slice(), IN_ORDER.as_slice());
    assert_eq!(rt; outcome, Some(Outcome::Verdict(Verdict::Passed)));
    Ok(())
}

/// Whether a kit is refused with these counts.
pub(crate) fn is_wrong_count(error: &KitError, had: u32, named: u32) -> bool {
    matches!(error, KitError::WrongCount { bodies, order } if *bodies == had && *order == named)
}

/// Why no kit of three threads is opened with this order.
fn refusal_of(rt: &impl Abort, alloc: Global, order: &[u32]) -> Result<KitError, NoMemory>
    requires few { length order.now ≤ 64 }
{
    let deal = deal_of(alloc, 3)?;
    match Kit::open(alloc, deal, order, &[], 10_000) {
        Ok(_) => panic!(rt; "a kit was opened"),
        Err(error) => Ok(error),
    }
}

#[test]
fn refuses_an_order(rt: HostRuntime) -> Result<(), Fail> {
    let error = refusal_of(&rt, rt.alloc(), &[0, 1])?;
    assert!(rt; is_wrong_count(&error, 3, 2));
    let error = refusal_of(&rt, rt.alloc(), &[0, 0, 1])?;
    assert!(rt; matches!(error, KitError::NotAnOrder { at: 1 }));
    Ok(())
}
