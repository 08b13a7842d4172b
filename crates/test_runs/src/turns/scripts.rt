//! What the threads of tests post.
use crate::steps::{READ, asks, ends};
use pct_ask::{Ask, Post};

/// What the threads of a test do.
#[derive(Clone, Copy)]
pub enum Script {
    /// Two threads add one to a variable, each by a read and a write. The third joins both and
    /// checks that it is two.
    Sums,
    /// One thread reads and writes, the other reads and checks that it read 0.
    Writes,
    /// Each thread takes one mutex and lets it go.
    OneMutex,
    /// The third thread joins the others, which end after one step.
    EndsEarly,
    /// The first thread fails at its fourth step. The others join it.
    Fails,
}

fn adds(line: u32, number: u32, last: i64) -> Post {
    match number {
        0 => asks(line, READ),
        1 => asks(
            line.wrapping_add(1),
            Ask::Write {
                var: 0,
                value: last.wrapping_add(1),
            },
        ),
        _ => ends(line.wrapping_add(2)),
    }
}

fn checks_sum(number: u32, last: i64) -> Post {
    match number {
        0 => asks(12, Ask::Join { thread: 0 }),
        1 => asks(13, Ask::Join { thread: 1 }),
        2 => asks(14, READ),
        3 => asks(15, Ask::Check { holds: last == 2 }),
        _ => ends(16),
    }
}

fn sums(thread: u32, number: u32, last: i64) -> Post {
    match thread {
        0 => adds(4, number, last),
        1 => adds(8, number, last),
        _ => checks_sum(number, last),
    }
}

fn writes(thread: u32, number: u32, last: i64) -> Post {
    match (thread, number) {
        (0, 0) => asks(4, READ),
        (0, 1) => asks(5, Ask::Write { var: 0, value: 1 }),
        (0, _) => ends(6),
        (_, 0) => asks(8, READ),
        (_, 1) => asks(9, Ask::Check { holds: last == 0 }),
        _ => ends(10),
    }
}

fn one_mutex(number: u32) -> Post {
    match number {
        0 => asks(10, Ask::Lock { mutex: 0 }),
        1 => asks(11, Ask::Unlock { mutex: 0 }),
        _ => ends(12),
    }
}

fn ends_early(thread: u32, number: u32) -> Post {
    match (thread, number) {
        (2, 0) => asks(12, Ask::Join { thread: 0 }),
        (2, 1) => asks(13, Ask::Join { thread: 1 }),
        (2, _) => ends(14),
        (_, 0) => asks(3, Ask::Yield),
        _ => ends(4),
    }
}

fn fails(thread: u32, number: u32) -> Post {
    match (thread, number) {
        (0, 3) => asks(6, Ask::Check { holds: false }),
        (0, _) => asks(5, Ask::Yield),
        (_, 0) => asks(12, Ask::Join { thread: 0 }),
        _ => ends(13),
    }
}

/// What a thread posts after so many answers, of which this is the last.
pub fn post_of(script: Script, thread: u32, number: u32, last: i64) -> Post {
    match script {
        Script::Sums => sums(thread, number, last),
        Script::Writes => writes(thread, number, last),
        Script::OneMutex => one_mutex(number),
        Script::EndsEarly => ends_early(thread, number),
        Script::Fails => fails(thread, number),
    }
}
