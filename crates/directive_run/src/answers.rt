//! What exposing and certifying a directive answers.

use pct_ask::{OrderList, PointList, Sequence, Verdict};
use worker_run::Played;

/// What a directive is under one order.
#[derive(Debug, Drop)]
pub enum Exposed {
    /// The points that stand for its moments, and its directed run, which is the run of the order
    /// and these points.
    Points { points: PointList, played: Played },
    /// The directed run has this number of steps, more than there may be.
    TooLong { steps: u32 },
}

/// An order that places a directive's thread last, and the points by which it leads to the verdict.
#[derive(Debug, Drop)]
pub struct CertifyRow {
    pub order: OrderList,
    pub points: PointList,
}

pub type CertifyRows = Sequence<CertifyRow>;

/// Whether every order that places a directive's thread last leads to its verdict.
#[derive(Debug, Drop)]
pub enum Certified {
    /// It does: at least one in `bound` choices of an order and points leads to the verdict. There
    /// is a row for each order.
    Yes { bound: u128, rows: CertifyRows },
    /// This order leads to another verdict. Those before it lead to the directive's.
    Refuted { order: OrderList, verdict: Verdict },
    /// Under this order the directed run has this number of steps, more than there may be.
    TooLong { order: OrderList, steps: u32 },
    /// There are more threads than 7.
    TooManyThreads { threads: u32 },
}
