//! Posts, and the steps that runs of the tests have.
ghost use Rattle.std.specs.Prelude.{◌≡◌, Some, None};

use pct_ask::{Ask, Event, Post, Verdict};

macro_rules! step {
    ($thread:literal, $line:literal, $ask:expr, $answer:literal) => {
        Event {
            thread: $thread,
            line: $line,
            ask: $ask,
            answer: $answer,
        }
    };
}

pub(crate) const READ: Ask = Ask::Read { var: 0 };

pub(crate) const ADD: Ask = Ask::Add { var: 0, value: 1 };

const WRITE_1: Ask = Ask::Write { var: 0, value: 1 };

const WRITE_2: Ask = Ask::Write { var: 0, value: 2 };

const LOCK: Ask = Ask::Lock { mutex: 0 };

const UNLOCK: Ask = Ask::Unlock { mutex: 0 };

const JOIN_A: Ask = Ask::Join { thread: 0 };

const JOIN_B: Ask = Ask::Join { thread: 1 };

/// Each of two counters adds its one, and the third thread finds 2.
pub(crate) const IN_ORDER: [Event; 8] = [
    step!(0, 4, READ, 0),
    step!(0, 5, WRITE_1, 0),
    step!(1, 8, READ, 1),
    step!(1, 9, WRITE_2, 0),
    step!(2, 12, JOIN_A, 0),
    step!(2, 13, JOIN_B, 0),
    step!(2, 14, READ, 2),
    step!(2, 15, Ask::Check { holds: true }, 0),
];

/// Both counters read 0.
pub(crate) const LOST_UPDATE: [Event; 8] = [
    step!(0, 4, READ, 0),
    step!(1, 8, READ, 0),
    step!(1, 9, WRITE_1, 0),
    step!(0, 5, WRITE_1, 0),
    step!(2, 12, JOIN_A, 0),
    step!(2, 13, JOIN_B, 0),
    step!(2, 14, READ, 1),
    step!(2, 15, Ask::Check { holds: false }, 0),
];

/// What becomes of the lost update.
pub(crate) const FAILED: Verdict = Verdict::Failed {
    thread: 2,
    line: 15,
};

/// One thread reads and writes, the other finds that it doesn't read 0.
pub(crate) const WRITES: [Event; 4] = [
    step!(0, 4, READ, 0),
    step!(0, 5, WRITE_1, 0),
    step!(1, 8, READ, 1),
    step!(1, 9, Ask::Check { holds: false }, 0),
];

/// Each of eight threads takes one mutex and lets it go.
pub(crate) const ONE_MUTEX: [Event; 16] = [
    step!(0, 10, LOCK, 0),
    step!(0, 11, UNLOCK, 0),
    step!(1, 10, LOCK, 0),
    step!(1, 11, UNLOCK, 0),
    step!(2, 10, LOCK, 0),
    step!(2, 11, UNLOCK, 0),
    step!(3, 10, LOCK, 0),
    step!(3, 11, UNLOCK, 0),
    step!(4, 10, LOCK, 0),
    step!(4, 11, UNLOCK, 0),
    step!(5, 10, LOCK, 0),
    step!(5, 11, UNLOCK, 0),
    step!(6, 10, LOCK, 0),
    step!(6, 11, UNLOCK, 0),
    step!(7, 10, LOCK, 0),
    step!(7, 11, UNLOCK, 0),
];

/// The first two threads end after one step, and the third joins them.
pub(crate) const ENDS_EARLY: [Event; 4] = [
    step!(1, 3, Ask::Yield, 0),
    step!(0, 3, Ask::Yield, 0),
    step!(2, 12, JOIN_A, 0),
    step!(2, 13, JOIN_B, 0),
];

/// The first thread fails at its fourth step.
pub(crate) const FAILS: [Event; 4] = [
    step!(0, 5, Ask::Yield, 0),
    step!(0, 5, Ask::Yield, 0),
    step!(0, 5, Ask::Yield, 0),
    step!(0, 6, Ask::Check { holds: false }, 0),
];

/// A thread that asks, on a line of its test.
pub(crate) fn asks(line: u32, ask: Ask) -> Post
    ensures { result ≡ record { ask = Some ask; line = line } }
{
    Post {
        ask: Some(ask),
        line,
    }
}

/// A thread that has ended.
pub(crate) fn ends(line: u32) -> Post
    ensures { result ≡ record { ask = None; line = line } }
{
    Post { ask: None, line }
}
