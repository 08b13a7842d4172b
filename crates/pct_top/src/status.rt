//! How a call of the program ends.

/// The program's exit status.
#[derive(Clone, Copy, Debug, PartialEq, Eq)]
pub enum Status {
    /// All output was written, and nothing was found.
    Done = 0,
    /// All output was written, and something was found.
    Found = 1,
    /// A word isn't taken, or the order doesn't name each thread once.
    Usage = 2,
    /// The script's file isn't in the language.
    BadScript = 3,
    /// The trace's file isn't in its format.
    BadTrace = 4,
    /// The directive's file isn't in its format.
    BadDirective = 5,
    /// A file couldn't be read.
    ReadFault = 6,
    /// The output couldn't be written.
    WriteFault = 7,
    /// Memory ran out.
    NoMemory = 8,
}
