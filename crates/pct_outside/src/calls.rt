//! Calls that are counted, and of which chosen ones fail.
ghost use Rattle.std.specs.Prelude.{◌≡◌};
ghost use Rattle.pct_outside.specs.Counter.{is_next, one_more};

/// The numbers of the calls that fail, counted from 1, and how many calls there were. All calls
/// past the number 2^64 - 1 have that number.
#[derive(Drop)]
pub(crate) struct Calls {
    pub(crate) fails: Vec<u64>,
    pub(crate) count: u64,
}

impl Calls {
    /// Before the first call.
    pub(crate) fn new(fails: Vec<u64>) -> Calls
        ensures { result ≡ record { fails = fails; count = 0 } }
    {
        Calls { fails, count: 0 }
    }

    /// Counts a call, and tells whether it fails.
    pub(crate) fn next_fails(&mut self) -> bool
        ensures fails { result ≡ is_next self.old.fails.items self.old.count }
        ensures counted { self.new ≡ record self.old { count = one_more self.old.count } }
    {
        self.count = self.count.saturating_add(1);
        self.fails.contains(&self.count)
    }
}
