ghost use Rattle.std.specs.Prelude.{◌≡◌, ◌↔◌, IsTrue};

use crate::ask::Ask;
use crate::sequence::Sequence;
use crate::verdict::Verdict;

/// One step of a run: a thread's ask and the answer that it was given.
#[derive(Clone, Copy, Debug, PartialEq, Eq, Hash)]
pub struct Event {
    pub thread: u32,
    /// The line of the test that asked, from 1.
    pub line: u32,
    pub ask: Ask,
    pub answer: i64,
}

impl Event {
    /// Whether two steps are the same: thread, line, ask and answer. So is `==`.
    pub fn is(&self, other: &Event) -> bool
        ensures { IsTrue result ↔ (self.now ≡ other.now) }
    {
        self == other
    }
}

/// What is known of a thread's next post.
#[derive(Clone, Copy, Debug, PartialEq, Eq, Hash)]
pub enum Standing {
    /// It hasn't posted since its last answer.
    Away,
    Asks,
    Ended,
}

/// The run of one seed: how many steps it took and how it ended.
#[derive(Clone, Copy, Debug, PartialEq, Eq, Hash)]
pub struct Row {
    pub seed: u64,
    pub steps: u32,
    pub verdict: Verdict,
}

/// The steps of a run, in order.
pub type EventList = Sequence<Event>;

/// The runs of a campaign, in the order of their seeds.
pub type RowList = Sequence<Row>;
