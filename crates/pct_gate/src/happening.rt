//! The happenings of a meeting.

/// What happens at a meeting. Contracts alone speak of happenings: the code makes none.
pub enum Happening {
    /// It is opened, for guests who look this number of times.
    Opened(u64),
    /// A guest comes: 0 is the one, and 1 the other.
    Came(u64),
    /// This guest has seen the other.
    Saw(u64),
}
