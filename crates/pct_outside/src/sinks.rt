//! Where bytes are written to.
ghost use Rattle.std.specs.Prelude.{◌≡◌, ◌≤◌, [], ◌↔◌, OnOk, OnErr};
ghost use Rattle.std.specs.IoError.{error_kind};
ghost use Rattle.std.specs.declared.io.ErrorKind.TheVariants.{OutOfMemory};
ghost use Rattle.pct_outside.specs.Counter.{Rose};
ghost use Rattle.pct_outside.specs.Puts.{IsPut, IsWritten, IsPartWritten, IsPutWhole, IsPutInPart};
ghost use Rattle.pct_outside.specs.Told.{StreamTold};
ghost use Rattle.pct_outside.specs.declared.sinks.SinkError.TheVariants.{NoMemory};

use std::io;
use std::io::ErrorKind;

/// Why a piece was not put whole.
#[derive(Clone, Copy, Debug, PartialEq, Eq)]
pub enum SinkError {
    /// The stream took no more.
    Failed,
    /// There was no memory for the piece.
    NoMemory,
}

/// Want of memory is told apart from all other errors of the host.
impl From<io::Error> for SinkError {
    ghost from_gives = { λ e s. (s ≡ NoMemory) ↔ (error_kind e ≡ OutOfMemory) };

    fn from(error: io::Error) -> SinkError {
        match error.kind() {
            ErrorKind::OutOfMemory => SinkError::NoMemory,
            _ => SinkError::Failed,
        }
    }
}

/// A stream that bytes are put on, piece by piece. It may gather pieces and write them later.
pub trait Sink {
    /// What the stream tells of itself: the bytes that are written, those that are gathered, how
    /// many calls the stream refused, and how many found no memory. Each count ends at its last
    /// value, 2^64 - 1.
    ghost told: { Self → StreamTold };

    /// Puts a piece behind what was put before.
    fn put(&mut self, piece: &[u8]) -> Result<(), SinkError>
        ensures whole { OnOk result (IsPut piece.now (told self.old) (told self.new)) }
        ensures part { OnErr result (IsPartWritten piece.now (told self.old) (told self.new)) }

        // Each error has its count, which rose in this call.
        ensures failed { result ≡ Err SinkError.Failed
            → Rose (told self.old).faults (told self.new).faults }
        ensures short { result ≡ Err SinkError.NoMemory
            → Rose (told self.old).shorts (told self.new).shorts }
        ensures faults { (told self.old).faults ≤ (told self.new).faults }
        ensures shorts { (told self.old).shorts ≤ (told self.new).shorts };

    /// Writes what is gathered. Where that fails the rest is lost.
    fn finish(&mut self) -> Result<(), SinkError>
        ensures whole { OnOk result (IsWritten [] (told self.old) (told self.new)) }
        ensures part { OnErr result (IsPartWritten [] (told self.old) (told self.new)) }

        // The counts, as of a put.
        ensures failed { result ≡ Err SinkError.Failed
            → Rose (told self.old).faults (told self.new).faults }
        ensures short { result ≡ Err SinkError.NoMemory
            → Rose (told self.old).shorts (told self.new).shorts }
        ensures faults { (told self.old).faults ≤ (told self.new).faults }
        ensures shorts { (told self.old).shorts ≤ (told self.new).shorts };
}

/// Puts a piece, and writes it with all that is gathered.
pub fn put_whole<S: Sink>(sink: &mut S, piece: &[u8]) -> Result<(), SinkError>
    ensures whole { OnOk result (IsPutWhole piece.now (S.told sink.old) (S.told sink.new)) }
    ensures part { OnErr result (IsPutInPart piece.now (S.told sink.old) (S.told sink.new)) }
    ensures failed { result ≡ Err SinkError.Failed
        → Rose (S.told sink.old).faults (S.told sink.new).faults }
    ensures short { result ≡ Err SinkError.NoMemory
        → Rose (S.told sink.old).shorts (S.told sink.new).shorts }
{
    match sink.put(piece) {
        Ok(()) => sink.finish(),
        Err(error) => Err(error),
    }
}
