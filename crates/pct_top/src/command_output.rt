//! What a command writes.

use crate::status::Status;

/// What a command writes, and whether it is done. Else something is found.
#[derive(Debug, Drop)]
pub struct CommandOutput {
    pub text: Vec<u8>,
    pub done: bool,
}

impl CommandOutput {
    ghost use Rattle.std.specs.Prelude.{◌≡◌};
    ghost use Rattle.pct_top.specs.CommandOutput.{printed_of};

    pub fn status(&self) -> Status
        ensures { result ≡ (printed_of self.now).status }
    {
        if self.done {
            Status::Done
        } else {
            Status::Found
        }
    }
}
