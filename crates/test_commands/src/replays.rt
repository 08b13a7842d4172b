//! Replays of traces.
ghost use Rattle.std.specs.Prelude.{◌≡◌, ◌≤◌, IfOk};

use crate::scripts::{ADDERS, FAILED, code_and_deal};
use pct_ask::{Ask, Event, EventList, Sequence, Verdict};
use pct_gate::OpenGate;
use replay_run::{Found, Replayed, Written, replay};
use std::alloc::{AllocError as NoMemory, Global};
use std::process::Abort;
use std::sync::Wait;
use std::test::Fail;
use std::thread::Threads;
use trace_text::{Header, TraceFile};

macro_rules! step {
    ($thread:literal, $line:literal, $ask:expr, $answer:literal) => {
        Event {
            thread: $thread,
            line: $line,
            ask: $ask,
            answer: $answer,
        }
    };
}

const READ: Ask = Ask::Read { var: 0 };

const A_READS: Event = step!(0, 4, READ, 0);

const B_READS: Event = step!(1, 8, READ, 0);

const B_WRITES: Event = step!(1, 9, Ask::Write { var: 0, value: 1 }, 0);

const A_WRITES: Event = step!(0, 5, Ask::Write { var: 0, value: 1 }, 0);

const C_JOINS_A: Event = step!(2, 12, Ask::Join { thread: 0 }, 0);

const C_JOINS_B: Event = step!(2, 13, Ask::Join { thread: 1 }, 0);

const C_READS: Event = step!(2, 14, READ, 1);

const C_CHECKS: Event = step!(2, 15, Ask::Check { holds: false }, 0);

/// Both adders read 0.
const LOST_UPDATE: [Event; 8] = [
    A_READS, B_READS, B_WRITES, A_WRITES, C_JOINS_A, C_JOINS_B, C_READS, C_CHECKS,
];

/// A write is answered 7, and so is a later join.
const OTHER_ANSWERS: [Event; 8] = [
    A_READS,
    B_READS,
    B_WRITES,
    A_WRITES_7,
    C_JOINS_A_7,
    C_JOINS_B,
    C_READS,
    C_CHECKS,
];

const A_WRITES_7: Event = step!(0, 5, Ask::Write { var: 0, value: 1 }, 7);

const C_JOINS_A_7: Event = step!(2, 12, Ask::Join { thread: 0 }, 7);

/// The third thread joins the first one before it has ended.
const EARLY_JOIN: [Event; 8] = [
    C_JOINS_A, B_READS, B_WRITES, A_WRITES, C_JOINS_A, C_JOINS_B, C_READS, C_CHECKS,
];

/// A step after the failed check.
const STEP_MORE: [Event; 9] = [
    A_READS, B_READS, B_WRITES, A_WRITES, C_JOINS_A, C_JOINS_B, C_READS, C_CHECKS, C_READS,
];

/// A trace of these steps.
fn trace(
    alloc: Global,
    events: &[Event],
    limit: u32,
    verdict: Verdict,
) -> Result<TraceFile, NoMemory>
    ensures events { IfOk result (λ file. file.events ≡ events.now) }
    ensures limit { IfOk result (λ file. file.header.limit ≡ limit) }
{
    let header = Header {
        version: 1,
        order: Sequence::new(alloc),
        points: Sequence::new(alloc),
        limit,
    };
    Ok(TraceFile {
        header,
        events: EventList::from_vec(Vec::from_slice(alloc, events)?),
        verdict,
    })
}

/// What a replay of these steps, which are by threads of the adders, tells.
fn replayed<R: Threads + Wait + Abort + Sync>(
    rt: &R,
    alloc: Global,
    events: &[Event],
    limit: u32,
    verdict: Verdict,
) -> Result<Replayed, Fail>
    requires some_steps { 1 ≤ limit }
    requires few_steps { limit ≤ 100000 }
{
    let (code, deal) = code_and_deal(alloc, ADDERS)?;
    assert!(rt; deal.threads == 3);
    assert!(rt; events.iter().all(|event| event.thread < 3));
    let file = trace(alloc, events, limit, verdict)?;
    Ok(replay(rt, alloc, &code, &deal, &file, &OpenGate::new())?)
}

/// That the run departs from the trace at this step.
fn departs(step: u32, found: Found, written: Written) -> Replayed {
    Replayed::Departs {
        step,
        found,
        written,
    }
}

#[test]
fn compares_the_verdict(rt: HostRuntime) -> Result<(), Fail> {
    let alloc = rt.alloc();
    let told = replayed(&rt, alloc, &LOST_UPDATE, 10_000, FAILED)?;
    assert_eq!(rt; told, Replayed::Confirmed(FAILED));
    let told = replayed(&rt, alloc, &LOST_UPDATE, 10_000, Verdict::Passed)?;
    let found = Found::Over(FAILED);
    assert_eq!(rt; told, departs(9, found, Written::Verdict(Verdict::Passed)));
    Ok(())
}

// The run goes on where the trace ends, unless it may have no more steps.
#[test]
fn departs_at_the_end(rt: HostRuntime) -> Result<(), Fail> {
    let alloc = rt.alloc();
    let told = replayed(&rt, alloc, &LOST_UPDATE[..7], 10_000, FAILED)?;
    let found = Found::Goes { thread: 2 };
    assert_eq!(rt; told, departs(8, found, Written::Verdict(FAILED)));
    let told = replayed(&rt, alloc, &LOST_UPDATE[..2], 3, Verdict::Cut)?;
    let found = Found::Goes { thread: 0 };
    assert_eq!(rt; told, departs(3, found, Written::Verdict(Verdict::Cut)));
    let told = replayed(&rt, alloc, &LOST_UPDATE[..2], 2, Verdict::Cut)?;
    assert_eq!(rt; told, Replayed::Confirmed(Verdict::Cut));
    Ok(())
}

#[test]
fn departs_at_a_step(rt: HostRuntime) -> Result<(), Fail> {
    let alloc = rt.alloc();
    let told = replayed(&rt, alloc, &OTHER_ANSWERS, 10_000, FAILED)?;
    let found = Found::Event(A_WRITES);
    assert_eq!(rt; told, departs(4, found, Written::Event(A_WRITES_7)));
    let told = replayed(&rt, alloc, &EARLY_JOIN, 10_000, FAILED)?;
    let found = Found::NotEnabled { thread: 2 };
    assert_eq!(rt; told, departs(1, found, Written::Event(C_JOINS_A)));
    let told = replayed(&rt, alloc, &STEP_MORE, 10_000, FAILED)?;
    assert_eq!(rt;
        told,
        departs(9, Found::Over(FAILED), Written::Event(C_READS))
    );
    Ok(())
}
