//! Threads that are bodies: each adds one to a variable, twice.
ghost use Rattle.std.specs.Prelude.{◌≡◌, ◌≤◌, length, IfOk};
ghost use Rattle.pct_ask.specs.declared.deal.Deal.{Deal};

use kit_runs::{Bodies, BodyProgram, RunError, run_program, small_deal};
use pct_ask::{Ask, Body, Post};
use std::alloc::Global;
use std::sync::Wait;
use std::test::Fail;
use std::thread::Threads;
use trace_text::TraceFile;

/// A thread that adds so many times still.
#[derive(Drop)]
struct Adder {
    left: u32,
}

impl Body for Adder {
    ghost use Rattle.test_kit.specs.Adders.{adder_pending};

    ghost pending = { λ adder answers. adder_pending adder.left answers };

    fn post(&self) -> Post {
        let ask = if self.left > 0 {
            Some(Ask::Add { var: 0, value: 1 })
        } else {
            None
        };
        Post { ask, line: 1 }
    }

    fn answer(&mut self, _value: i64) {
        self.left = self.left.saturating_sub(1);
    }
}

#[derive(Drop)]
struct Adders;

impl Bodies for Adders {
    type Body = Adder;

    ghost fits = { λ _ deal. 1 ≤ length deal.vars };

    fn body(&self, _thread: u32) -> Adder {
        Adder { left: 2 }
    }
}

fn added<R: Threads + Wait + Sync>(rt: &R, alloc: Global) -> Result<TraceFile, RunError> {
    let deal = small_deal(alloc, 2, &[0], 0, 0)?;
    let program = BodyProgram { bodies: Adders };
    run_program(rt, alloc, deal, &[1, 0], &[1], 100, &program)
}

/// Whether a step is by the thread, and has the answer.
fn is_step(file: &TraceFile, place: usize, thread: u32, answer: i64) -> bool {
    match file.events.get(place) {
        Some(event) => event.thread == thread && event.answer == answer,
        None => false,
    }
}

fn are_steps(file: &TraceFile) -> bool {
    let is_begun = is_step(file, 0, 1, 0) && is_step(file, 1, 0, 1);
    let is_ended = is_step(file, 2, 0, 2) && is_step(file, 3, 1, 3);
    is_begun && is_ended && file.events.len() == 4
}

#[test]
fn runs_bodies(rt: HostRuntime) -> Result<(), Fail> {
    let alloc = rt.alloc();
    let file = added(&rt, alloc)?;
    let are_right = are_steps(&file);
    drop(file);
    assert!(rt; are_right);
    Ok(())
}
