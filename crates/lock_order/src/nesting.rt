use pct_ask::Sequence;

/// A thread takes a mutex while it holds another.
#[derive(Clone, Copy, Debug, PartialEq, Eq, Hash)]
pub struct Nesting {
    /// The step at which it takes the second one, from 1.
    pub step: u32,
    pub thread: u32,
    pub held: u32,
    pub taken: u32,
}

/// Nestings in the order of a cycle.
pub type NestingList = Sequence<Nesting>;
