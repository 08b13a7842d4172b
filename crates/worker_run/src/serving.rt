//! Who serves tests that are run batch after batch, and the memory that they use again.
ghost use Rattle.std.specs.Prelude.{◌≡◌, true, ◌↔◌};

use crate::played::Played;
use pct_ask::{EventList, Sequence};
use std::alloc::Global;

/// Who serves the bodies of tests.
#[derive(Clone, Copy, Debug, PartialEq, Eq)]
pub enum Serve {
    /// Workers: one for each thread number up to the largest.
    Threads,
    /// The calling thread, one test after another.
    Caller,
}

/// Who serves tests that are run batch after batch, and traces that nobody needs any more: further
/// runs write theirs in that memory. What a run is depends on neither.
#[derive(Drop)]
pub struct Serving {
    pub by: Serve,
    traces: Vec<EventList>,
}

impl Serving {
    /// Before the first run.
    pub fn new(alloc: Global, by: Serve) -> Serving
        ensures { result.by ≡ by }
    {
        Serving {
            by,
            traces: Vec::new(alloc),
        }
    }

    /// Whether the caller serves what comes next.
    pub fn is_by_caller(&self) -> bool
        ensures { (result ≡ true) ↔ (self.now.by ≡ Serve.Caller) }
    {
        matches!(self.by, Serve::Caller)
    }

    /// From now on the caller serves, since there were no threads, or no memory for them.
    pub fn leave_to_caller(&mut self)
        ensures { self.new.by ≡ Serve.Caller }
    {
        self.by = Serve::Caller;
        self.traces.clear();
    }

    /// A trace whose memory a run may use. It is empty where there is none.
    pub fn next_trace(&mut self, alloc: Global) -> EventList
        ensures { self.new.by ≡ self.old.by }
    {
        match self.traces.pop() {
            Some(trace) => trace,
            None => Sequence::new(alloc),
        }
    }

    /// Takes the trace of a run that was read, for further runs. Where there is no memory to keep
    /// it, it is dropped.
    pub fn take_back(&mut self, trace: EventList)
        ensures { self.new.by ≡ self.old.by }
    {
        let _dropped = self.traces.push(trace);
    }

    /// Takes the traces of runs that were read, for further runs.
    pub fn take_all_back(&mut self, runs: Vec<Played>)
        ensures { self.new.by ≡ self.old.by }
    {
        for played in runs {
            self.take_back(played.events);
        }
    }
}
