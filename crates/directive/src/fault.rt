//! Why a text is no directive.

ghost use Rattle.std.specs.Prelude.{◌≡◌};
ghost use Rattle.directive.specs.declared.fault.DirectiveError.TheVariants.{NoMemory as no_memory};

use std::alloc::AllocError;
use thiserror::Error;

/// What is wrong with a line. Of several faults of one line the first in this order is told.
#[derive(Clone, Copy, Debug, PartialEq, Eq)]
pub enum DirectiveFault {
    /// The file has too many bytes, which is told of line 1, or it has an eighth moment.
    TooLong,
    /// One of the first two lines is missing, lacks its LF or isn't of its form.
    BadHeader,
    /// A later line is neither a moment's nor a verdict's by its form, or lacks its LF.
    BadLine,
    /// A name is no thread's.
    UnknownName,
    /// The file ends before its verdict. The line is the one that is missing.
    NoVerdict,
    /// Something stands after the verdict's line. The line is the one after it.
    MoreAfterVerdict,
}

/// Why a text gives no directive.
#[derive(Debug, Drop, Error)]
pub enum DirectiveError {
    /// The first faulty line, from 1, and what is wrong with it.
    #[error("line {line}: {kind:?}")]
    Bad { line: u32, kind: DirectiveFault },
    #[error("no memory")]
    NoMemory,
}

impl From<AllocError> for DirectiveError {
    ghost from_gives = { λ _ e. e ≡ no_memory };

    fn from(_error: AllocError) -> DirectiveError {
        DirectiveError::NoMemory
    }
}
