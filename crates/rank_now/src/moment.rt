/// A moment of a run, named by a thread and the number of its own step, counted from 1.
#[derive(Clone, Copy, Debug, PartialEq, Eq)]
pub struct Moment {
    pub thread: u32,
    pub number: u32,
}
