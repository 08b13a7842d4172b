//! Sinks in memory.
ghost use Rattle.std.specs.Prelude.{◌≡◌, [], ◌≤◌, ◌≢◌};
ghost use Rattle.pct_outside.specs.Counter.{Rose, is_next};
ghost use Rattle.pct_outside.specs.SinkState.{after_put, written_after, shorts_after, FailsExactly};

use crate::calls::Calls;
use crate::sinks::{Sink, SinkError};
use std::alloc::Global;
use std::marker::Model;

/// A sink that keeps what is put, and of which chosen calls fail.
#[derive(Drop)]
pub struct MemorySink {
    bytes: Vec<u8>,
    faults: u64,
    shorts: u64,
    calls: Calls,
}

impl Model for MemorySink {
    ghost use Rattle.pct_outside.specs.SinkState.{SinkState};

    ghost Value = { SinkState };

    ghost view = { λ s. record {
      written = s.bytes.items;
      faults = s.faults;
      shorts = s.shorts;
      fails = s.calls.fails.items;
      calls = s.calls.count;
    } };
}

impl MemorySink {
    /// A sink with nothing on it. The calls of `put` with these numbers, counted from 1, fail and
    /// put nothing. All calls past the number 2^64 - 1 have that number.
    pub fn new(alloc: Global, fails: Vec<u64>) -> MemorySink
        ensures { result
            ≡ record { written = []; faults = 0; shorts = 0; fails = fails.items; calls = 0 } }
    {
        MemorySink {
            bytes: Vec::new(alloc),
            faults: 0,
            shorts: 0,
            calls: Calls::new(fails),
        }
    }

    /// What was put, in the order of the calls.
    pub fn bytes(&self) -> &[u8]
        ensures { result.now ≡ self.now.written }
    {
        self.bytes.as_slice()
    }
}

impl Sink for MemorySink {
    ghost use Rattle.std.specs.Prelude.{[], Some};

    ghost told = { λ s. record {
      written = Some s.written;
      gathered = [];
      faults = s.faults;
      shorts = s.shorts;
    } };

    fn put(&mut self, piece: &[u8]) -> Result<(), SinkError>
        ensures fails { FailsExactly (is_next self.old.fails self.old.calls) result }
        ensures after { self.new ≡ after_put self.old piece.now result }

        // As of every sink.
        ensures failed { result ≡ Err SinkError.Failed → Rose self.old.faults self.new.faults }
        ensures short { result ≡ Err SinkError.NoMemory → Rose self.old.shorts self.new.shorts }
        ensures faults { self.old.faults ≤ self.new.faults }
        ensures shorts { self.old.shorts ≤ self.new.shorts }
    {
        if self.calls.next_fails() {
            self.faults = self.faults.saturating_add(1);
            return Err(SinkError::Failed);
        }
        if self.bytes.extend_from_slice(piece).is_err() {
            self.shorts = self.shorts.saturating_add(1);
            return Err(SinkError::NoMemory);
        }
        Ok(())
    }

    /// Nothing is gathered.
    fn finish(&mut self) -> Result<(), SinkError>
        ensures done { result ≡ Ok tt }
        ensures same { self.new ≡ self.old }
    {
        Ok(())
    }
}

/// A sink that keeps what is put, and fails by want of memory alone.
#[derive(Drop)]
pub struct SureSink {
    bytes: Vec<u8>,
    shorts: u64,
}

impl Model for SureSink {
    ghost use Rattle.pct_outside.specs.SinkState.{SureSinkState};

    ghost Value = { SureSinkState };

    ghost view = { λ s. record { written = s.bytes.items; shorts = s.shorts } };
}

impl SureSink {
    /// A sink with nothing on it.
    pub fn new(alloc: Global) -> SureSink
        ensures { result ≡ record { written = []; shorts = 0 } }
    {
        SureSink {
            bytes: Vec::new(alloc),
            shorts: 0,
        }
    }

    /// What was put, in the order of the calls.
    pub fn bytes(&self) -> &[u8]
        ensures { result.now ≡ self.now.written }
    {
        self.bytes.as_slice()
    }
}

impl Sink for SureSink {
    ghost use Rattle.std.specs.Prelude.{[], Some};

    ghost told = { λ s. record {
      written = Some s.written;
      gathered = [];
      faults = 0;
      shorts = s.shorts;
    } };

    fn put(&mut self, piece: &[u8]) -> Result<(), SinkError>
        ensures written { self.new.written ≡ written_after self.old.written piece.now result }
        ensures counted { self.new.shorts ≡ shorts_after self.old.shorts result }
        ensures sure { result ≢ Err SinkError.Failed }

        // As of every sink.
        ensures short { result ≡ Err SinkError.NoMemory → Rose self.old.shorts self.new.shorts }
        ensures shorts { self.old.shorts ≤ self.new.shorts }
    {
        if self.bytes.extend_from_slice(piece).is_err() {
            self.shorts = self.shorts.saturating_add(1);
            return Err(SinkError::NoMemory);
        }
        Ok(())
    }

    /// Nothing is gathered.
    fn finish(&mut self) -> Result<(), SinkError>
        ensures done { result ≡ Ok tt }
        ensures same { self.new ≡ self.old }
    {
        Ok(())
    }
}
