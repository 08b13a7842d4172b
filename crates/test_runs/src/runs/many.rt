//! As many threads as there may be.
ghost use Rattle.std.specs.Prelude.{◌≡◌, length, pos, IfOk};
ghost use Rattle.pct_ask.specs.declared.ask.Ask.{Ask};
ghost use Rattle.test_runs.specs.OneStep.{once_pending};

use crate::deals::ordered;
use crate::steps::ADD;
use pct_ask::{Body, Event, Outcome, Post, Verdict};
use pct_outside::OpenGate;
use std::alloc::{AllocError as NoMemory, Global};
use std::test::Fail;
use worker_run::run_threads;

/// A thread that adds one to the variable, and ends.
#[derive(Drop)]
struct Adder {
    line: u32,
    added: bool,
}

impl Body for Adder {
    ghost pending = { λ b. once_pending (Ask.Add 0 (pos 1)) b.line b.added };

    fn post(&self) -> Post {
        Post {
            ask: if self.added { None } else { Some(ADD) },
            line: self.line,
        }
    }

    fn answer(&mut self, _value: i64) {
        self.added = true;
    }
}

/// Each on a line of its own.
fn adders(alloc: Global) -> Result<Vec<Adder>, NoMemory>
    ensures { IfOk result (λ bodies. length bodies.items ≡ 64) }
{
    (1..65u32)
        .map(|line| Adder { line, added: false })
        .collect(alloc)
}

/// The step after so many others: the highest thread goes first, and each answer is the number
/// before.
fn step_after(steps: u32) -> Event {
    Event {
        thread: 63u32.saturating_sub(steps),
        line: 64u32.saturating_sub(steps),
        ask: ADD,
        answer: steps as i64,
    }
}

#[test]
fn runs_64_threads(rt: HostRuntime) -> Result<(), Fail> {
    let mut order = [0; 64];
    for place in 0..64u32 {
        order[place as usize] = 63 - place;
    }
    let bodies = adders(rt.alloc())?;
    let (deal, pct) = ordered(rt.alloc(), &order)?;
    let played = run_threads(&rt, rt.alloc(), deal, pct, 10_000, bodies, &OpenGate::new())?;
    let events = played.events.as_slice();
    assert_eq!(rt; events.len(), 64);
    for (steps, event) in (0..64u32).zip(events) {
        assert_eq!(rt; *event, step_after(steps));
    }
    assert_eq!(rt; played.outcome, Outcome::Verdict(Verdict::Passed));
    Ok(())
}
