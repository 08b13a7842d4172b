use turn_book::Because;

/// What a call answers, in brief: without the outcome of a run that is over, which has room for
/// 64 threads.
#[derive(Clone, Copy, Debug, PartialEq, Eq)]
pub enum Brief {
    Answer(i64),
    Ended,
    NotYet { at: u32, because: Because },
    Busy { holder: u32 },
    Over,
}
