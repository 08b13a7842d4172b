use pct_ask::Sequence;
use script_tree::{Expr, Stmt};

/// An operation of a thread. `next` and `otherwise` are places of operations in its thread's list,
/// from 0.
#[derive(Debug, Drop)]
pub enum Flat {
    /// A statement other than `if` and `while`.
    Do {
        stmt: Stmt,
        next: u32,
    },
    /// The test of an `if` or a `while`: `next` where it isn't 0, and `otherwise` where it is.
    Test {
        line: u32,
        test: Expr,
        next: u32,
        otherwise: u32,
    },
    /// The end of the thread.
    End {
        line: u32,
    },
    /// The first operation of a thread that another one starts.
    Begin {
        line: u32,
        next: u32,
    },
}

/// The operations of a thread.
pub(crate) type FlatList = Sequence<Flat>;
