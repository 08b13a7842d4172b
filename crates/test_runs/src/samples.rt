//! A small test: two threads count up, and the third waits for both and checks the count.
ghost use Rattle.std.specs.Prelude.{◌≡◌, ◌≤◌, length, pos, IfOk};

use crate::steps::{READ, asks, ends};
use pct_ask::{Ask, Body, Post};
use std::alloc::{AllocError as NoMemory, Global};

/// A thread of the test.
#[derive(Drop)]
pub(crate) struct Sample {
    pub(crate) thread: u32,
    /// How many answers it has had, and the last of them.
    pub(crate) steps: u32,
    pub(crate) seen: i64,
}

impl Sample {
    ghost use Rattle.worker_run.specs.Samples.{counter_post, checker_post};

    /// It has had no answer.
    pub(crate) fn new(thread: u32) -> Sample
        ensures { result ≡ record { thread = thread; steps = 0; seen = pos 0 } }
    {
        Sample {
            thread,
            steps: 0,
            seen: 0,
        }
    }

    fn count(&self, line: u32) -> Post
        requires { line ≤ 8 }
        ensures { result ≡ counter_post line self.now.steps self.now.seen }
    {
        match self.steps {
            0 => asks(line, READ),
            1 => {
                let value = if self.seen == 0 { 1 } else { 2 };
                asks(line + 1, Ask::Write { var: 0, value })
            }
            _ => ends(line + 2),
        }
    }

    fn check(&self) -> Post
        ensures { result ≡ checker_post self.now.steps self.now.seen }
    {
        match self.steps {
            0 => asks(12, Ask::Join { thread: 0 }),
            1 => asks(13, Ask::Join { thread: 1 }),
            2 => asks(14, READ),
            3 => {
                let holds = self.seen == 2;
                asks(15, Ask::Check { holds })
            }
            _ => ends(16),
        }
    }
}

impl Body for Sample {
    ghost use Rattle.worker_run.specs.Samples.{sample_pending};

    ghost pending = { λ s. sample_pending s.thread s.steps s.seen };

    fn post(&self) -> Post {
        match self.thread {
            0 => self.count(4),
            1 => self.count(8),
            _ => self.check(),
        }
    }

    fn answer(&mut self, value: i64) {
        self.steps += 1;
        self.seen = value;
    }
}

/// The three threads of the test.
pub(crate) fn samples(alloc: Global) -> Result<Vec<Sample>, NoMemory>
    ensures { IfOk result (λ bodies. length bodies.items ≡ 3) }
{
    Ok(vec![in alloc; Sample::new(0), Sample::new(1), Sample::new(2)]?)
}
