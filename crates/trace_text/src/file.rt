//! A trace as a value.

use pct_ask::{EventList, OrderList, PointList, Verdict};

/// What a run was made by.
#[derive(Debug, Drop)]
pub struct Header {
    /// The version of the trace's format, 1 or 2. The second one has read-write locks.
    pub version: u32,
    /// Every thread, the highest priority first.
    pub order: OrderList,
    /// The change points of the priorities.
    pub points: PointList,
    /// How many steps the run may have.
    pub limit: u32,
}

/// A run as its trace tells it.
#[derive(Debug, Drop)]
pub struct TraceFile {
    pub header: Header,
    /// The steps, in order.
    pub events: EventList,
    pub verdict: Verdict,
}
