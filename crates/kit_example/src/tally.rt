use std::fmt;
use std::fmt::{Display, Formatter, Write};

/// The seeds at which something was found.
#[derive(Clone, Copy, Debug, Default)]
pub struct SeedTally {
    tried: u32,
    found: u32,
    first: Option<u64>,
}

impl SeedTally {
    pub fn note(&mut self, seed: u64, found: bool) {
        self.tried = self.tried.saturating_add(1);
        if found {
            self.found = self.found.saturating_add(1);
            self.first = self.first.or(Some(seed));
        }
    }
}

impl Display for SeedTally {
    fn fmt<W: Write>(&self, f: &mut Formatter<W>) -> fmt::Result {
        match self.first {
            Some(seed) => write!(
                f,
                "{} of {} seeds, the first is {seed}",
                self.found, self.tried
            ),
            None => write!(f, "none of {} seeds", self.tried),
        }
    }
}
