use std::alloc::AllocError as NoMemory;
use thiserror::Error;

/// Why there is no run.
#[derive(Clone, Copy, Debug, PartialEq, Eq, Error)]
pub enum RunError {
    /// The list isn't one of all threads of the deal, each once.
    #[error("this is no order of the threads")]
    NotAnOrder,
    /// All threads have ended, and the run has no verdict. No test has shown this.
    #[error("the run has no verdict")]
    NoVerdict,
    /// What a thread asks doesn't follow from what it was answered: the same order and points made
    /// another run.
    #[error("the threads don't do the same again")]
    Unsteady,
    #[error("no memory")]
    NoMemory,
}

impl From<NoMemory> for RunError {
    ghost use Rattle.std.specs.Prelude.{◌≡◌};
    ghost use Rattle.kit_runs.specs.declared.error.RunError.TheVariants.{NoMemory};

    ghost from_gives = { λ _ e. e ≡ NoMemory };

    fn from(_e: NoMemory) -> RunError {
        RunError::NoMemory
    }
}
