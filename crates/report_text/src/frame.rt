/// What a campaign was run with.
#[derive(Clone, Copy, Debug, PartialEq, Eq, Hash)]
pub struct Frame {
    pub threads: u32,
    /// The number of steps from which the change points are drawn.
    pub steps: u32,
    /// One more than a run's change points.
    pub depth: u32,
    /// How many steps a run may have.
    pub limit: u32,
}
