ghost use Rattle.std.specs.Prelude.{◌≡◌, if◌then◌else◌};

/// Whether an ask may take its step.
#[derive(Clone, Copy, Debug, PartialEq, Eq, Hash)]
pub enum Ready {
    Yes,
    No,
    /// It joins a thread whose next post isn't known yet.
    Unknown { target: u32 },
}

impl Ready {
    pub(crate) fn of(enabled: bool) -> Self
        ensures { result ≡ (if enabled then Ready.Yes else Ready.No) }
    {
        if enabled { Ready::Yes } else { Ready::No }
    }
}
