use pct_ask::{OrderList, PointList, Verdict};

/// A verdict that some choices of an order and change points lead to.
#[derive(Debug, Drop)]
pub struct SweptGroup {
    /// How many choices lead to it.
    pub count: u32,
    /// The least number of steps of their runs.
    pub steps: u32,
    /// The order of the first of them.
    pub order: OrderList,
    /// The change points of the first of them.
    pub points: PointList,
    pub verdict: Verdict,
}
