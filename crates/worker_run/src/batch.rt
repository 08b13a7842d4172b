//! Tests that run at once, each under a lock of its own, and who serves what of them.
use crate::runner::Runner;
use pct_ask::{Body, Deal, Limit};
use policy_pick::Policy;
use std::snapshot::Snapshot;
use turn_lock::{Seat, TurnLock};

/// A test to run: what its threads share, the policy by which they take turns, the most steps that
/// it may have, and a body for each thread.
#[derive(Drop)]
pub struct Test<P: Policy, B: Body> {
    pub deal: Deal,
    pub policy: P,
    pub limit: Limit,
    pub bodies: Vec<B>,
}

/// A test that runs: its lock, and the runners of its threads as they were at first.
#[derive(Drop)]
pub struct RunningTest<'l, P: Policy, B: Body> {
    pub lock: &'l TurnLock<P>,
    pub runners: Snapshot<Vec<Option<Runner<B>>>>,
}

/// The caller's share of a test: a seat, and the runners of the threads that it serves.
#[derive(Drop)]
pub struct Share<P: Policy, B: Body> {
    pub seat: Seat<P>,
    pub runners: Vec<Option<Runner<B>>>,
}

/// What a worker is given of a test: a seat for its thread alone, and that thread's runner.
#[derive(Drop)]
pub enum Task<P: Policy, B: Body> {
    /// The test has no such thread.
    Absent,
    /// The body is to be served by the seat.
    Waiting(Seat<P>, Runner<B>),
    /// It was served.
    Served(Seat<P>),
}
