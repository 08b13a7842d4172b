//! The host's streams. No clause tells their bytes: what the host does with the bytes that it takes
//! is trusted, and that it is handed each piece whole is proved. Pieces are gathered, so that the
//! host is called once for many of them.
ghost use Rattle.std.specs.Prelude.{◌≡◌, ◌≤◌, [], ◌++◌, OnOk, OnErr};
ghost use Rattle.std.specs.Io.KnownBytes.{Appends};
ghost use Rattle.pct_outside.specs.Piece.{AppendsPart};
ghost use Rattle.pct_outside.specs.Puts.{GathersOn, WritesOn, WritesPartOn};
ghost use Rattle.pct_outside.specs.SinkState.{faults_after, shorts_after};

use crate::sinks::{Sink, SinkError};
use std::alloc::Global;
use std::io::{ErrorKind, Stderr, Stdout, Write};
use std::marker::Model;

/// How many bytes are gathered at most.
const BLOCK: usize = 65_536;

/// A stream of the host. What it gathers is lost if it goes without a `finish`.
#[derive(Drop)]
pub struct HostSink<W: Write + Drop> {
    stream: W,
    gathered: Vec<u8>,
    faults: u64,
    shorts: u64,
}

impl<W: Write + Drop> Model for HostSink<W> {
    ghost use Rattle.pct_outside.specs.SinkState.{StreamState};

    ghost Value = { StreamState W };

    ghost view = { λ s. record {
      stream = s.stream;
      gathered = s.gathered.items;
      faults = s.faults;
      shorts = s.shorts;
    } };
}

impl HostSink<Stdout> {
    /// The standard output.
    pub fn output(alloc: Global, stream: Stdout) -> HostSink<Stdout>
        ensures { result ≡ record { stream = stream; gathered = []; faults = 0; shorts = 0 } }
    {
        HostSink::new(alloc, stream)
    }
}

impl HostSink<Stderr> {
    /// The standard error.
    pub fn errors(alloc: Global, stream: Stderr) -> HostSink<Stderr>
        ensures { result ≡ record { stream = stream; gathered = []; faults = 0; shorts = 0 } }
    {
        HostSink::new(alloc, stream)
    }
}

impl<W: Write + Drop> HostSink<W> {
    pub(crate) fn new(alloc: Global, stream: W) -> HostSink<W>
        ensures { result ≡ record { stream = stream; gathered = []; faults = 0; shorts = 0 } }
    {
        HostSink {
            stream,
            gathered: Vec::new(alloc),
            faults: 0,
            shorts: 0,
        }
    }

    /// Writes what is gathered, and then the piece. Each error is counted once.
    fn write_out(&mut self, piece: &[u8]) -> Result<(), SinkError>
        ensures whole { OnOk result (WritesOn W.contents piece.now self.old self.new) }
        ensures part { OnErr result (WritesPartOn W.contents piece.now self.old self.new) }
        ensures counted { self.new.faults ≡ faults_after self.old.faults result }
        ensures counted_short { self.new.shorts ≡ shorts_after self.old.shorts result }
        ensures faults { self.old.faults ≤ self.new.faults }
        ensures shorts { self.old.shorts ≤ self.new.shorts }
    {
        let written = write_both(&mut self.stream, &self.gathered, piece);
        self.gathered.clear();
        match written {
            Ok(()) => {}
            Err(SinkError::Failed) => self.faults = self.faults.saturating_add(1),
            Err(SinkError::NoMemory) => self.shorts = self.shorts.saturating_add(1),
        }
        written
    }
}

impl<W: Write + Drop> Sink for HostSink<W> {
    ghost use Rattle.std.specs.Prelude.{None};

    ghost told = { λ s. record {
      written = None;
      gathered = s.gathered;
      faults = s.faults;
      shorts = s.shorts;
    } };

    /// A piece that finds no room, or no memory, among what is gathered is written at once.
    fn put(&mut self, piece: &[u8]) -> Result<(), SinkError>
        // What the stream holds, where it is one that tells it.
        ensures gathers { OnOk result (GathersOn W.contents piece.now self.old self.new) }
        ensures writes_part { OnErr result (WritesPartOn W.contents piece.now self.old self.new) }

        // Each error is counted once.
        ensures counted { self.new.faults ≡ faults_after self.old.faults result }
        ensures counted_short { self.new.shorts ≡ shorts_after self.old.shorts result }

        // As of every sink.
        ensures faults { self.old.faults ≤ self.new.faults }
        ensures shorts { self.old.shorts ≤ self.new.shorts }
    {
        let room = BLOCK.saturating_sub(self.gathered.len());
        if piece.len() <= room && self.gathered.extend_from_slice(piece).is_ok() {
            return Ok(());
        }
        self.write_out(piece)
    }

    fn finish(&mut self) -> Result<(), SinkError>
        ensures writes { OnOk result (WritesOn W.contents [] self.old self.new) }
        ensures writes_part { OnErr result (WritesPartOn W.contents [] self.old self.new) }
        ensures counted { self.new.faults ≡ faults_after self.old.faults result }
        ensures counted_short { self.new.shorts ≡ shorts_after self.old.shorts result }

        // As of every sink.
        ensures faults { self.old.faults ≤ self.new.faults }
        ensures shorts { self.old.shorts ≤ self.new.shorts }
    {
        self.write_out(&[])
    }
}

/// Writes one piece after the other, each whole.
fn write_both<W: Write>(stream: &mut W, first: &[u8], second: &[u8]) -> Result<(), SinkError>
    ensures whole { OnOk result
        (Appends (W.contents stream.old) (W.contents stream.new) (first.now ++ second.now)) }
    ensures part { OnErr result
        (AppendsPart (W.contents stream.old) (W.contents stream.new) (first.now ++ second.now)) }
{
    write_whole(stream, first)?;
    write_whole(stream, second)
}

/// Writes the piece whole. A write that takes nothing of it is a fault.
fn write_whole<W: Write>(stream: &mut W, piece: &[u8]) -> Result<(), SinkError>
    ensures whole { OnOk result
        (Appends (W.contents stream.old) (W.contents stream.new) piece.now) }
    ensures part { OnErr result
        (AppendsPart (W.contents stream.old) (W.contents stream.new) piece.now) }
{
    let mut rest = piece;
    for _ in 0..u64::MAX {
        if rest.is_empty() {
            return Ok(());
        }
        match stream.write(rest) {
            Ok(0) => return Err(SinkError::Failed),
            Ok(count) => rest = &rest[count..],
            Err(error) if error.kind() == ErrorKind::Interrupted => {}
            Err(error) => return Err(SinkError::from(error)),
        }
    }
    Err(SinkError::Failed)
}
