use crate::nesting::NestingList;
use pct_ask::Sequence;

/// Objects of one kind, by their places.
pub type IdList = Sequence<u32>;

/// What a run says of the order in which mutexes are taken.
#[derive(Debug, Drop)]
pub enum LockReport {
    /// Every nesting takes its mutexes in this order.
    Order { mutexes: IdList },
    /// No order does: each nesting takes what the next one holds, and the last what the first one
    /// holds.
    Cycle { nestings: NestingList },
}
