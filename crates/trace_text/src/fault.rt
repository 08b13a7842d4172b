//! Why a text is no trace.

ghost use Rattle.std.specs.Prelude.{◌≡◌};
ghost use Rattle.trace_text.specs.declared.fault.TraceError.TheVariants.{NoMemory as no_memory};

use std::alloc::AllocError;
use thiserror::Error;

/// What is wrong with a line. Of several faults of one line the first in this order is told.
#[derive(Clone, Copy, Debug, PartialEq, Eq)]
pub enum TraceFault {
    /// The file has too many bytes, which is told of line 1, or a step's number is above the limit.
    TooLong,
    /// One of the first four lines is missing, lacks its LF or isn't of its form.
    BadHeader,
    /// A later line is neither a step nor a verdict by its form, or lacks its LF.
    BadLine,
    /// A name isn't declared with the kind that its place needs.
    UnknownName,
    /// A step's number isn't one more than that of the step before.
    OutOfOrder,
    /// The file ends before its verdict. The line is the one that is missing.
    NoVerdict,
    /// Something stands after the verdict's line. The line is the one after it.
    MoreAfterVerdict,
}

/// Why a text gives no trace file.
#[derive(Debug, Drop, Error)]
pub enum TraceError {
    /// The first faulty line, from 1, and what is wrong with it.
    #[error("line {line}: {kind:?}")]
    Bad { line: u32, kind: TraceFault },
    #[error("no memory")]
    NoMemory,
}

impl From<AllocError> for TraceError {
    ghost from_gives = { λ _ e. e ≡ no_memory };

    fn from(_error: AllocError) -> TraceError {
        TraceError::NoMemory
    }
}
