/// How the program ends: the number is its status.
#[derive(Clone, Copy, Debug, PartialEq, Eq)]
pub enum Shown {
    /// The run passed, and its trace was written.
    Done = 0,
    /// The run ended otherwise, and its trace was written.
    Found = 1,
    WriteFault = 7,
    NoMemory = 8,
}
