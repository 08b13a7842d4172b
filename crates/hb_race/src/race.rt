use pct_ask::Sequence;

/// Two steps that race on a variable. Steps are numbered from 1, variables by their places, from 0.
#[derive(Clone, Copy, Debug, PartialEq, Eq, Hash)]
pub struct Race {
    pub var: u32,
    /// The earlier step.
    pub first: u32,
    /// The later step.
    pub second: u32,
}

/// Races, in the order of their variables.
pub type RaceList = Sequence<Race>;
