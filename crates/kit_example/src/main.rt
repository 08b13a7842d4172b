//! Tests of one's own, by both ways of the kit: a queue of one place is tried with one condition,
//! by which it may get stuck, and with two.
#![tactic(auto)]

mod ports;
mod tally;
mod trial;
mod worker;

use body_kit::{BoxedRun, KitError};
use kit_runs::RunError;
use pct_ask::Verdict;
use ports::gets_stuck;
use std::io;
use tally::SeedTally;
use trial::run_seed;
use worker::Worker;

/// How many seeds are tried.
const SEEDS: u64 = 100;

/// Whether a run came to an end where nobody could go on.
fn is_stuck(run: &Result<BoxedRun, KitError>) -> bool {
    match run {
        Ok(run) => matches!(run.verdict, Verdict::Stuck { .. }),
        Err(_) => false,
    }
}

/// Whether that was found, as far as there was memory for the run.
fn is_found(found: &Result<bool, RunError>) -> bool {
    match found {
        Ok(found) => *found,
        Err(_) => false,
    }
}

fn main(rt: HostRuntime) -> io::Result<()> {
    let alloc = rt.alloc();
    let mut faulty = SeedTally::default();
    let mut mended = SeedTally::default();
    let mut by_ports = SeedTally::default();
    for seed in 0..SEEDS {
        let one = Box::new(alloc, Worker::taker(0, 0))?;
        let other = Box::new(alloc, Worker::taker(0, 0))?;
        let last = Box::new(alloc, Worker::putter(0, 0))?;
        let run = run_seed(&rt, alloc, seed, 0, 0, one, other, last);
        faulty.note(seed, is_stuck(&run));
        let one = Box::new(alloc, Worker::taker(0, 1))?;
        let other = Box::new(alloc, Worker::taker(0, 1))?;
        let last = Box::new(alloc, Worker::putter(0, 1))?;
        let run = run_seed(&rt, alloc, seed, 0, 1, one, other, last);
        mended.note(seed, is_stuck(&run));
        by_ports.note(seed, is_found(&gets_stuck(&rt, alloc, seed, 0, 0)));
    }
    println!(rt; "stuck with one condition: {faulty}")?;
    println!(rt; "stuck with two conditions: {mended}")?;
    println!(rt; "stuck with one condition, by ports: {by_ports}")?;
    Ok(())
}
