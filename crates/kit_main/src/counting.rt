// The threads of the test.
ghost use Rattle.std.specs.Prelude.{◌≡◌, ◌≤◌, pos, Some, None};

use pct_ask::{Ask, Body, Post};

const READ: Ask = Ask::Read { var: 0 };

fn asks(ask: Ask, line: u32) -> Post
    ensures { result ≡ record { ask = Some ask; line = line } }
{
    Post {
        ask: Some(ask),
        line,
    }
}

fn ends(line: u32) -> Post
    ensures { result ≡ record { ask = None; line = line } }
{
    Post { ask: None, line }
}

/// A thread of the test: two count up, and the third waits for both and checks the count.
#[derive(Drop)]
pub struct Sample {
    thread: u32,
    /// How many answers it has had, and the last of them.
    steps: u32,
    seen: i64,
}

impl Sample {
    ghost use Rattle.worker_run.specs.Samples.{counter_post, checker_post};

    pub fn new(thread: u32) -> Sample
        ensures { result ≡ record { thread = thread; steps = 0; seen = pos 0 } }
    {
        Sample {
            thread,
            steps: 0,
            seen: 0,
        }
    }

    fn count(&self, line: u32) -> Post
        requires { line ≤ 8 }
        ensures { result ≡ counter_post line self.now.steps self.now.seen }
    {
        match self.steps {
            0 => asks(READ, line),
            1 => {
                let value = if self.seen == 0 { 1 } else { 2 };
                asks(Ask::Write { var: 0, value }, line + 1)
            }
            _ => ends(line + 2),
        }
    }

    fn check(&self) -> Post
        ensures { result ≡ checker_post self.now.steps self.now.seen }
    {
        match self.steps {
            0 => asks(Ask::Join { thread: 0 }, 12),
            1 => asks(Ask::Join { thread: 1 }, 13),
            2 => asks(READ, 14),
            3 => {
                let holds = self.seen == 2;
                asks(Ask::Check { holds }, 15)
            }
            _ => ends(16),
        }
    }
}

impl Body for Sample {
    ghost use Rattle.worker_run.specs.Samples.{sample_pending};

    ghost pending = { λ s. sample_pending s.thread s.steps s.seen };

    fn post(&self) -> Post {
        match self.thread {
            0 => self.count(4),
            1 => self.count(8),
            _ => self.check(),
        }
    }

    fn answer(&mut self, value: i64) {
        self.steps += 1;
        self.seen = value;
    }
}
