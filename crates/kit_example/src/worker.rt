// The threads of the queue, as bodies.
ghost use Rattle.std.specs.Prelude.{◌≡◌};

use pct_ask::{Ask, Body, Post};

/// What a worker does next.
#[derive(Clone, Copy)]
pub enum Step {
    Lock,
    Look,
    Release,
    Regain,
    Change,
    Tell,
    Unlock,
    End,
}

/// A thread that puts into a queue of one place, or takes out of it.
#[derive(Clone, Copy)]
pub struct Worker {
    /// What it makes of the place: 1 is full, and 0 is empty.
    sets: i64,
    /// How many items it has still to put or take.
    left: u32,
    at: Step,
    /// The condition on which it waits, and the one that it signals.
    waits: u32,
    tells: u32,
}

impl Worker {
    ghost use Rattle.kit_example.specs.Queue.{taker, putter, ask_at, line_of_step, step_after};
    ghost use Rattle.kit_example.specs.Queue.{left_after};

    /// Takes one item.
    pub fn taker(filled: u32, emptied: u32) -> Worker
        ensures { result ≡ taker filled emptied }
    {
        Worker {
            sets: 0,
            left: 1,
            at: Step::Lock,
            waits: filled,
            tells: emptied,
        }
    }

    /// Puts two items.
    pub fn putter(filled: u32, emptied: u32) -> Worker
        ensures { result ≡ putter filled emptied }
    {
        Worker {
            sets: 1,
            left: 2,
            at: Step::Lock,
            waits: emptied,
            tells: filled,
        }
    }

    fn ask(&self) -> Option<Ask>
        ensures { result ≡ ask_at self.now self.now.at }
    {
        match self.at {
            Step::Lock => Some(Ask::Lock { mutex: 0 }),
            Step::Look => Some(Ask::Read { var: 0 }),
            Step::Release => Some(Ask::Release {
                cond: self.waits,
                mutex: 0,
            }),
            Step::Regain => Some(Ask::Regain {
                cond: self.waits,
                mutex: 0,
            }),
            Step::Change => Some(Ask::Write {
                var: 0,
                value: self.sets,
            }),
            Step::Tell => Some(Ask::Signal { cond: self.tells }),
            Step::Unlock => Some(Ask::Unlock { mutex: 0 }),
            Step::End => None,
        }
    }

    fn line(&self) -> u32
        ensures { result ≡ line_of_step self.now.at }
    {
        match self.at {
            Step::Lock => 1,
            Step::Look => 2,
            Step::Release | Step::Regain => 3,
            Step::Change => 4,
            Step::Tell => 5,
            Step::Unlock => 6,
            Step::End => 7,
        }
    }

    fn next_step(&self, value: i64) -> Step
        ensures { result ≡ step_after self.now value self.now.at }
    {
        match self.at {
            Step::Lock | Step::Regain => Step::Look,
            Step::Look if value == self.sets => Step::Release,
            Step::Look => Step::Change,
            Step::Release => Step::Regain,
            Step::Change => Step::Tell,
            Step::Tell => Step::Unlock,
            Step::Unlock if self.left > 1 => Step::Lock,
            Step::Unlock | Step::End => Step::End,
        }
    }

    fn next_left(&self) -> u32
        ensures { result ≡ left_after self.now self.now.at }
    {
        match self.at {
            Step::Unlock => self.left.saturating_sub(1),
            _ => self.left,
        }
    }
}

impl Body for Worker {
    ghost use Rattle.kit_example.specs.Queue.{worker_pending};

    ghost pending = { worker_pending };

    fn post(&self) -> Post {
        Post {
            ask: self.ask(),
            line: self.line(),
        }
    }

    fn answer(&mut self, value: i64) {
        let at = self.next_step(value);
        let left = self.next_left();
        self.at = at;
        self.left = left;
    }
}
