//! Where threads can be held up before each of their posts.

ghost use Rattle.std.specs.Prelude.{◌≡◌, ◌≢◌, ◌<◌, IsTrue};

use crate::meeting::Meeting;
use std::marker::Model;

/// What a worker passes before each post, with its thread and the number of answers that it has
/// had. An implementation may keep the caller waiting; no clause says what it does.
pub trait Gate: Sync {
    /// The thread's arrival with this turn, its number of answers so far.
    fn arrive(&self, thread: u32, turn: u64);
}

/// A gate that holds nobody.
#[derive(Clone, Copy, Debug, Default)]
pub struct OpenGate;

impl OpenGate {
    pub fn new() -> OpenGate {
        OpenGate
    }
}

impl Gate for OpenGate {
    fn arrive(&self, _thread: u32, _turn: u64) {}
}

/// A gate that holds the first arrival of each of two threads until that of the other has begun, or
/// it has looked for it a number of times. It holds no other arrival.
#[derive(Debug, Drop)]
pub struct PairGate {
    threads: (u32, u32),
    meeting: Meeting,
}

/// Contracts see what the gate was made for. Who has come and who has seen whom, other threads
/// change at any time.
impl Model for PairGate {
    ghost use Rattle.pct_gate.specs.GateState.{GateState};

    ghost Value = { GateState };

    ghost view = { λ g. record {
      one = g.threads.0;
      other = g.threads.1;
      turns = g.meeting.looks;
    } };
}

impl PairGate {
    /// A gate for two threads, which each look `turns` times.
    pub fn new(one: u32, other: u32, turns: u64) -> PairGate
        requires { one ≢ other }
        ensures { result ≡ record { one = one; other = other; turns = turns } }
    {
        PairGate {
            threads: (one, other),
            meeting: Meeting::new(turns),
        }
    }

    /// Whether each of the two has seen the other. Threads that look no times never have.
    pub fn met(&self) -> bool
        ensures { IsTrue result → 0 < self.now.turns }
    {
        self.meeting.is_complete()
    }
}

impl Gate for PairGate {
    fn arrive(&self, thread: u32, turn: u64) {
        if turn != 0 {
            return;
        }
        if thread == self.threads.0 {
            self.meeting.bring_one();
        } else if thread == self.threads.1 {
            self.meeting.bring_other();
        }
    }
}
