use crate::expr::Expr;

/// The text of a thread.
#[derive(Debug, Drop)]
pub struct ThreadText {
    /// The line of its `thread NAME`.
    pub line: u32,
    pub body: Block,
}

/// Statements in order.
#[cycle(statements)]
#[derive(Debug, Drop)]
pub struct Block {
    pub stmts: Vec<Stmt>,
    /// The line of the `end` or `else` that closes it.
    pub end_line: u32,
}

/// A statement with its line, from 1. Objects, threads and registers go by their places, from 0.
#[cycle(statements)]
#[derive(Debug, Drop)]
pub enum Stmt {
    Read {
        line: u32,
        reg: u32,
        var: u32,
    },
    Write {
        line: u32,
        var: u32,
        value: Expr,
    },
    Add {
        line: u32,
        reg: u32,
        var: u32,
        value: Expr,
    },
    Cas {
        line: u32,
        reg: u32,
        var: u32,
        old: Expr,
        new: Expr,
    },
    Lock {
        line: u32,
        mutex: u32,
    },
    TryLock {
        line: u32,
        reg: u32,
        mutex: u32,
    },
    Unlock {
        line: u32,
        mutex: u32,
    },
    Wait {
        line: u32,
        cond: u32,
        mutex: u32,
    },
    Signal {
        line: u32,
        cond: u32,
    },
    Broadcast {
        line: u32,
        cond: u32,
    },
    Down {
        line: u32,
        sem: u32,
    },
    TryDown {
        line: u32,
        reg: u32,
        sem: u32,
    },
    Up {
        line: u32,
        sem: u32,
    },
    Arrive {
        line: u32,
        reg: u32,
        barrier: u32,
    },
    Join {
        line: u32,
        thread: u32,
    },
    Yield {
        line: u32,
    },
    Assert {
        line: u32,
        test: Expr,
    },
    Set {
        line: u32,
        reg: u32,
        value: Expr,
    },
    If {
        line: u32,
        test: Expr,
        then: Block,
        otherwise: Option<Block>,
    },
    While {
        line: u32,
        test: Expr,
        body: Block,
    },
    Start {
        line: u32,
        thread: u32,
    },
    RdLock {
        line: u32,
        rwlock: u32,
    },
    WrLock {
        line: u32,
        rwlock: u32,
    },
    TryRdLock {
        line: u32,
        reg: u32,
        rwlock: u32,
    },
    TryWrLock {
        line: u32,
        reg: u32,
        rwlock: u32,
    },
    RwUnlock {
        line: u32,
        rwlock: u32,
    },
}
