//! Why a text gives no script.

ghost use Rattle.std.specs.Prelude.{◌≡◌};
ghost use Rattle.script_parse.specs.declared.fault.ScriptError.TheVariants.{NoMemory as no_memory};

use script_tree::ScriptFault;
use std::alloc::AllocError;
use thiserror::Error;

/// Why a text gives no script.
#[derive(Debug, Drop, Error)]
pub enum ScriptError {
    /// The first faulty line, from 1, and the first fault that it has.
    #[error("line {line}: {kind:?}")]
    Bad { line: u32, kind: ScriptFault },
    #[error("no memory")]
    NoMemory,
}

impl From<AllocError> for ScriptError {
    ghost from_gives = { λ _ e. e ≡ no_memory };

    fn from(_error: AllocError) -> ScriptError {
        ScriptError::NoMemory
    }
}
