//! What became of a call, as C has it.

/// It did what it says.
pub const DONE: u32 = 0;

/// The step was taken, and the run is over with it.
pub const ENDED: u32 = 1;

/// The post stands, and no step was taken.
pub const POSTED: u32 = 2;

/// It isn't this thread's turn, or no outcome stands.
pub const NOT_YET: u32 = 3;

/// The run was over before.
pub const OVER: u32 = 4;

/// An argument is out of range.
pub const BAD: u32 = 5;

/// There was no memory.
pub const NO_MEMORY: u32 = 6;

/// The handle has nothing.
pub const NO_BOOK: u32 = 7;

/// The buffer is too small.
pub const NO_ROOM: u32 = 8;

/// A status and a number.
#[repr(C)]
#[derive(Clone, Copy, Debug, PartialEq, Eq)]
pub struct PctCount {
    pub status: u32,
    pub count: u64,
}
