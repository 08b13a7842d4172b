//! Bodies that look, while they post, whether their arrival was made: the gate is passed before the
//! post.
ghost use Rattle.std.specs.Prelude.{◌≡◌, pos, length, IfOk};
ghost use Rattle.pct_ask.specs.declared.ask.Ask.{Ask};
ghost use Rattle.test_runs.specs.OneStep.{once_pending};

use crate::deals::ordered;
use crate::steps::ADD;
use pct_ask::{Body, Outcome, Post, Verdict};
use pct_outside::Gate;
use std::alloc::{AllocError as NoMemory, Global};
use std::sync::atomic::{AtomicU64, Ordering};
use std::test::Fail;
use worker_run::{run_here, run_threads};

/// Counts the arrivals of each of two threads, and the posts that were made before their arrival.
#[derive(Drop)]
struct ArrivalGate {
    first: AtomicU64,
    second: AtomicU64,
    posts: AtomicU64,
    early: AtomicU64,
}

impl ArrivalGate {
    fn new() -> ArrivalGate {
        ArrivalGate {
            first: AtomicU64::new(0),
            second: AtomicU64::new(0),
            posts: AtomicU64::new(0),
            early: AtomicU64::new(0),
        }
    }

    fn arrivals_of(&self, thread: u32) -> &AtomicU64 {
        if thread == 0 {
            &self.first
        } else {
            &self.second
        }
    }

    /// A post of a thread that has had so many answers: one more arrival was made.
    fn posts(&self, thread: u32, answers: u64) {
        self.posts.fetch_add(1, Ordering::SeqCst);
        if self.arrivals_of(thread).load(Ordering::SeqCst) <= answers {
            self.early.fetch_add(1, Ordering::SeqCst);
        }
    }
}

impl Gate for ArrivalGate {
    fn arrive(&self, thread: u32, _turn: u64) {
        self.arrivals_of(thread).fetch_add(1, Ordering::SeqCst);
    }
}

/// A thread that adds one to the variable, ends, and tells the gate of each post.
#[derive(Drop)]
struct Watcher<'g> {
    thread: u32,
    added: bool,
    gate: &'g ArrivalGate,
}

impl<'g> Body for Watcher<'g> {
    ghost pending = { λ b. once_pending (Ask.Add 0 (pos 1)) 7 b.added };

    fn post(&self) -> Post {
        self.gate.posts(self.thread, u64::from(self.added));
        Post {
            ask: if self.added { None } else { Some(ADD) },
            line: 7,
        }
    }

    fn answer(&mut self, _value: i64) {
        self.added = true;
    }
}

fn watchers<'g>(alloc: Global, gate: &'g ArrivalGate) -> Result<Vec<Watcher<'g>>, NoMemory>
    ensures { IfOk result (λ bodies. length bodies.items ≡ 2) }
{
    let first = Watcher {
        thread: 0,
        added: false,
        gate,
    };
    let second = Watcher {
        thread: 1,
        added: false,
        gate,
    };
    Ok(vec![in alloc; first, second]?)
}

/// Each of two threads posts twice, and each time after its arrival.
#[test]
fn arrives_before_it_posts(rt: HostRuntime) -> Result<(), Fail> {
    let gate = ArrivalGate::new();
    let bodies = watchers(rt.alloc(), &gate)?;
    let (deal, pct) = ordered(rt.alloc(), &[0, 1])?;
    let played = run_threads(&rt, rt.alloc(), deal, pct, 10_000, bodies, &gate)?;
    assert_eq!(rt; played.outcome, Outcome::Verdict(Verdict::Passed));
    assert_eq!(rt; gate.posts.load(Ordering::SeqCst), 4);
    assert_eq!(rt; gate.early.load(Ordering::SeqCst), 0);
    Ok(())
}

/// The same where the caller serves both.
#[test]
fn arrives_before_it_posts_here(rt: HostRuntime) -> Result<(), Fail> {
    let gate = ArrivalGate::new();
    let bodies = watchers(rt.alloc(), &gate)?;
    let (deal, pct) = ordered(rt.alloc(), &[0, 1])?;
    let played = run_here(&rt, rt.alloc(), deal, pct, 10_000, bodies, &gate)?;
    assert_eq!(rt; played.outcome, Outcome::Verdict(Verdict::Passed));
    assert_eq!(rt; gate.posts.load(Ordering::SeqCst), 4);
    assert_eq!(rt; gate.early.load(Ordering::SeqCst), 0);
    Ok(())
}
