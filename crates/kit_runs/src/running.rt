// One run of a program.
ghost use Rattle.std.specs.Prelude.{◌≡◌, ◌≢◌, ◌<◌, ◌≤◌, ◌^◌, ℕ, length, IfOk, IfSome, Some, Err};
ghost use Rattle.std.specs.Thread.{IsSync};
ghost use Rattle.turn_book.specs.Told.{BookState, SameMaking};
ghost use Rattle.turn_lock.specs.Calls.{first_book};
ghost use Rattle.turn_lock.specs.Rule.{Serves};
ghost use Rattle.turn_lock.specs.Views.{view, HasSeat};
ghost use Rattle.trace_text.specs.Trace.{head_of};
ghost use Rattle.kit_runs.specs.Errors.{IsWholeOrder};
ghost use Rattle.kit_runs.specs.Runs.{IsFileOf, IsRunOfBook, head_with, version_of};
ghost use Rattle.kit_runs.specs.Seats.{HasYetToPost};
ghost use Rattle.pct_ask.specs.declared.limits.TheConstants.{MAX_POINTS, MAX_STEPS};

use crate::error::RunError;
use crate::program::Program;
use body_kit::{Kit, KitError};
use pct_ask::{Deal, OrderList, Outcome, PointList, Verdict};
use policy_pick::Pct;
use std::alloc::{AllocError as NoMemory, Global};
use std::sync::Wait;
use std::thread::{Threads, join};
use trace_text::{Header, TraceFile};
use turn_book::TurnBook;
use turn_lock::Seat;
use worker_run::WholeRun;

/// The line on which a thread ends that has done its part. No step is taken on it.
const END_LINE: u32 = 1;

/// A thread does its part, and ends.
fn run_thread<R: Wait, T: Program>(
    rt: &R,
    kit: &Kit,
    program: &T,
    mut seat: Seat<Pct>,
    thread: u32,
) -> Seat<Pct>
    requires of { HasSeat kit.now seat }
    requires ready { HasYetToPost (view seat) thread }
    requires fits { T.fits program.now (view seat).seen.deal }
    ensures of { HasSeat kit.now result }
    ensures serves { Serves (view result) thread }
{
    let mut port = kit.port(&mut seat, thread);
    drop(seat);
    let _ = program.run(rt, &mut port, thread);
    port.end(rt, END_LINE)
}

/// The first threads of the seat do their parts, each in a thread of its own, and their seats are
/// joined again.
fn run_first<R: Threads + Wait + Sync, T: Program + Sync>(
    rt: &R,
    kit: &Kit,
    program: &T,
    mut seat: Seat<Pct>,
    count: u32,
) -> Seat<Pct>
    requires some { 1 ≤ count }
    requires of { HasSeat kit.now seat }
    requires ready { (t : ℕ) → t < count → HasYetToPost (view seat) t }
    requires fits { T.fits program.now (view seat).seen.deal }
    ensures of { HasSeat kit.now result }
    ensures serves { (t : ℕ) → t < count → Serves (view result) t }
{
    let last = count - 1;
    if last == 0 {
        return run_thread(rt, kit, program, seat, last);
    }
    let own = kit.split(&mut seat, last);
    let (mut first, own) = join(
        rt,
        move || -> Seat<Pct>
            requires { IsSync R.row × IsSync T.row × (1 ≤ last) × HasSeat kit.now seat
                × ((t : ℕ) → t < last → HasYetToPost (view seat) t)
                × T.fits program.now (view seat).seen.deal }
            ensures { HasSeat kit.entry.now result × ((t : ℕ) → t < last → Serves (view result) t) }
        { run_first(rt, kit, program, seat, last) },
        move || -> Seat<Pct>
            requires { HasSeat kit.now own × HasYetToPost (view own) last
                × T.fits program.now (view own).seen.deal }
            ensures { HasSeat kit.entry.now result × Serves (view result) last }
        { run_thread(rt, kit, program, own, last) },
    );
    kit.join(&mut first, own);
    first
}

/// The version of a trace that tells of a test: the second one, where it has read-write locks.
fn version_of(deal: &Deal) -> u32
    ensures { result ≡ version_of deal.now }
{
    if deal.rwlocks > 0 { 2 } else { 1 }
}

/// What a run is made by.
fn header_of(
    alloc: Global,
    version: u32,
    order: &[u32],
    points: &[u32],
    limit: u32,
) -> Result<Header, NoMemory>
    ensures { IfOk result (λ header.
        head_of header ≡ head_with version order.now points.now limit) }
{
    Ok(Header {
        version,
        order: OrderList::from_vec(Vec::from_slice(alloc, order)?),
        points: PointList::from_vec(Vec::from_slice(alloc, points)?),
        limit,
    })
}

/// The verdict of a run that one ended.
fn verdict_in(outcome: Option<Outcome>) -> Option<Verdict>
    ensures { IfSome result (λ verdict. outcome ≡ Some (Outcome.Verdict verdict)) }
{
    match outcome {
        Some(Outcome::Verdict(verdict)) => Some(verdict),
        Some(Outcome::Departed { .. }) | None => None,
    }
}

/// The run of a book, where a verdict ended it.
fn whole_of(book: TurnBook<Pct>) -> Option<WholeRun>
    ensures { (first : BookState) → SameMaking first book
        → IfSome result (λ whole. IsRunOfBook first whole.events whole.verdict) }
{
    let (events, outcome) = book.into_parts();
    match verdict_in(outcome) {
        Some(verdict) => Some(WholeRun { events, verdict }),
        None => None,
    }
}

/// The threads of a kit do their parts. There is no run where it isn't over.
fn play<R: Threads + Wait + Sync, T: Program + Sync>(
    rt: &R,
    kit: Kit,
    seat: Seat<Pct>,
    threads: u32,
    program: &T,
) -> Option<WholeRun>
    requires of { HasSeat kit seat }
    requires some { 1 ≤ threads }
    requires threads { (first_book kit).deal.threads ≡ threads }
    requires ready { (t : ℕ) → t < threads → HasYetToPost (view seat) t }
    requires fits { T.fits program.now (view seat).seen.deal }
    ensures { IfSome result (λ whole.
        IsRunOfBook (first_book kit) whole.events whole.verdict) }
{
    let seat = run_first(rt, &kit, program, seat, threads);
    whole_of(kit.close(seat))
}

/// The run of a kit that is opened, with the header that says by what it is made.
fn run_kit<R: Threads + Wait + Sync, T: Program + Sync>(
    rt: &R,
    opened: (Kit, Seat<Pct>),
    threads: u32,
    header: Header,
    program: &T,
) -> Result<TraceFile, RunError>
    requires of { HasSeat opened.0 opened.1 }
    requires some { 1 ≤ threads }
    requires threads { (first_book opened.0).deal.threads ≡ threads }
    requires ready { (t : ℕ) → t < threads → HasYetToPost (view opened.1) t }
    requires fits { T.fits program.now (view opened.1).seen.deal }
    ensures run { IfOk result (λ file.
        IsRunOfBook (first_book opened.0) file.events file.verdict × (file.header ≡ header)) }
    ensures other { result ≢ Err RunError.NotAnOrder }
{
    let (kit, seat) = opened;
    match play(rt, kit, seat, threads, program) {
        Some(whole) => Ok(TraceFile {
            header,
            events: whole.events,
            verdict: whole.verdict,
        }),
        None => Err(RunError::NoVerdict),
    }
}

/// Runs a program once, each of its threads in one of its own, by an order of the threads, the
/// highest first, and change points, which are numbers of steps from 1, and stops after `limit`
/// steps. It returns where every thread comes to its end once the run is over.
pub fn run_program<R: Threads + Wait + Sync, T: Program + Sync>(
    rt: &R,
    alloc: Global,
    deal: Deal,
    order: &[u32],
    points: &[u32],
    limit: u32,
    program: &T,
) -> Result<TraceFile, RunError>
    requires some_steps { 1 ≤ limit }
    requires few_steps { limit ≤ MAX_STEPS }
    requires few_points { length points.now ≤ MAX_POINTS }
    requires few_names { length order.now < 2 ^ 32 }
    requires fits { T.fits program.now deal }
    ensures run { IfOk result (IsFileOf deal order.now points.now limit) }
    ensures short { IfOk result (λ file. length file.events ≤ limit) }
    ensures refused { result ≡ Err RunError.NotAnOrder → ¬ IsWholeOrder deal.threads order.now }
{
    let threads = deal.threads;
    let version = version_of(&deal);
    let header = header_of(alloc, version, order, points, limit)?;
    match Kit::open(alloc, deal, order, points, limit) {
        Ok(opened) => run_kit(rt, opened, threads, header, program),
        Err(KitError::WrongCount { .. }) => Err(RunError::NotAnOrder),
        Err(KitError::NotAnOrder { .. }) => Err(RunError::NotAnOrder),
        Err(KitError::NoMemory) => Err(RunError::NoMemory),
    }
}
