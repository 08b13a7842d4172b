//! Why a call gives no output.

ghost use Rattle.std.specs.Prelude.{◌≡◌};
ghost use Rattle.pct_top.specs.Refusing.{IsOfScript, IsOfTrace, IsOfDirective, IsOfShelf, IsOfSink};
ghost use Rattle.pct_top.specs.Refusing.{IsOfWords};
ghost use Rattle.pct_top.specs.declared.refusal.Refusal.TheVariants as refusals;

use crate::settings::WordsError;
use crate::status::Status;
use directive::{DirectiveError, DirectiveFault};
use pct_outside::{ShelfError, SinkError};
use script_parse::{ScriptError, ScriptFault};
use std::alloc::AllocError;
use trace_text::{TraceError, TraceFault};

/// Why a call gives no output, or not all of it.
#[derive(Debug, Drop)]
pub enum Refusal {
    /// The number of the word that isn't taken, from 1.
    Usage { word: u32 },
    /// The first line of the script that is faulty, from 1, and its fault.
    Script { line: u32, kind: ScriptFault },
    /// The first line of the trace that is faulty, from 1, and its fault.
    Trace { line: u32, kind: TraceFault },
    /// The first line of the directive that is faulty, from 1, and its fault.
    Directive { line: u32, kind: DirectiveFault },
    Read,
    Write,
    Memory,
}

impl From<AllocError> for Refusal {
    ghost from_gives = { λ _ r. r ≡ refusals.Memory };

    fn from(_error: AllocError) -> Refusal {
        Refusal::Memory
    }
}

impl From<WordsError> for Refusal {
    ghost from_gives = { IsOfWords };

    fn from(error: WordsError) -> Refusal {
        match error {
            WordsError::Word(word) => Refusal::Usage { word },
            WordsError::NoMemory => Refusal::Memory,
        }
    }
}

impl From<ScriptError> for Refusal {
    ghost from_gives = { IsOfScript };

    fn from(error: ScriptError) -> Refusal {
        match error {
            ScriptError::Bad { line, kind } => Refusal::Script { line, kind },
            ScriptError::NoMemory => Refusal::Memory,
        }
    }
}

impl From<TraceError> for Refusal {
    ghost from_gives = { IsOfTrace };

    fn from(error: TraceError) -> Refusal {
        match error {
            TraceError::Bad { line, kind } => Refusal::Trace { line, kind },
            TraceError::NoMemory => Refusal::Memory,
        }
    }
}

impl From<DirectiveError> for Refusal {
    ghost from_gives = { IsOfDirective };

    fn from(error: DirectiveError) -> Refusal {
        match error {
            DirectiveError::Bad { line, kind } => Refusal::Directive { line, kind },
            DirectiveError::NoMemory => Refusal::Memory,
        }
    }
}

impl From<ShelfError> for Refusal {
    ghost from_gives = { IsOfShelf };

    fn from(error: ShelfError) -> Refusal {
        match error {
            ShelfError::Failed => Refusal::Read,
            ShelfError::NoMemory => Refusal::Memory,
        }
    }
}

impl From<SinkError> for Refusal {
    ghost from_gives = { IsOfSink };

    fn from(error: SinkError) -> Refusal {
        match error {
            SinkError::Failed => Refusal::Write,
            SinkError::NoMemory => Refusal::Memory,
        }
    }
}

impl Refusal {
    ghost use Rattle.pct_top.specs.Refusing.{status_of_refusal};

    pub fn status(&self) -> Status
        ensures { result ≡ status_of_refusal self.now }
    {
        match self {
            Refusal::Usage { .. } => Status::Usage,
            Refusal::Script { .. } => Status::BadScript,
            Refusal::Trace { .. } => Status::BadTrace,
            Refusal::Directive { .. } => Status::BadDirective,
            Refusal::Read => Status::ReadFault,
            Refusal::Write => Status::WriteFault,
            Refusal::Memory => Status::NoMemory,
        }
    }
}
