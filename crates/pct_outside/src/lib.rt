//! Files, streams and gates: the traits `Shelf`, `Sink` and `Gate`, in memory and over the host.
//!
//! What is proved, by call and clause; in parentheses the definitions:
//!
//! - A read gives the first bytes of the file, as many as were asked for or as it has, and changes
//!   no file; of failed names it adds its own or none, fails only with its own, and where the shelf
//!   keeps names of failed reads alone, adds none else: `Shelf::read_up_to`: `most`, `first`,
//!   `files`, `failed`, `cause`, `alone`, `keeps` (`FirstOf`).
//! - What was gathered and the piece that is put are what is written and what is gathered then; a
//!   finish writes what is gathered; after a refusal of either a prefix is written and nothing is
//!   gathered; counts never fall, and a call that is refused raised its own (or found it at 2^64 -
//!   1): `Sink::put`, `Sink::finish`: `whole`, `part`, `failed`, `short`, `faults`, `shorts`
//!   (`IsPut`, `IsWritten`, `IsPartWritten`, `Rose`); both at once: `put_whole`.
//! - In memory a shelf holds what was added and a sink what was put; both fail at the calls that
//!   they were made to fail at, the sure ones only out of memory, and gather nothing; an `add` that
//!   is refused changes nothing: `MemoryShelf::add`: `ok`, `err`; `MemoryShelf::read_up_to`:
//!   `refused`, `after`; `SureShelf::add`: `ok`, `err`; `SureShelf::read_up_to`: `sure`, `same`,
//!   `first`; `MemorySink::put`: `fails`, `after`; `MemorySink::bytes`; `SureSink::put`: `written`,
//!   `counted`, `sure`; `SureSink::bytes`.
//! - The host's do the same and tell no bytes but those that are gathered; each failed read and
//!   each fault of a put is counted once: `HostShelf::read_up_to`: `kept`, `most`, `failed`,
//!   `cause`; `HostSink::put`: `gathers`, `writes_part`, `counted`, `counted_short`;
//!   `HostSink::finish`: `writes`.
//! - At first nothing was put, no read has failed, and all counts are 0: `MemoryShelf::new`;
//!   `SureShelf::new`; `MemorySink::new`; `SureSink::new`; `HostShelf::new`; `HostSink::output`;
//!   `HostSink::errors`.
//!
//! The gates are those of `pct_gate`, which stands alone for the crates that want no more.
#![tactic(auto)]

mod calls;
pub mod host_shelves;
pub mod host_sinks;
pub mod memory_shelves;
pub mod memory_sinks;
pub mod shelves;
pub mod sinks;

pub use host_shelves::HostShelf;
pub use host_sinks::HostSink;
pub use memory_shelves::{MemoryShelf, SureShelf};
pub use memory_sinks::{MemorySink, SureSink};
pub use pct_gate::{Gate, OpenGate, PairGate};
pub use shelves::{Shelf, ShelfError};
pub use sinks::{Sink, SinkError, put_whole};

#[cfg(test)]
mod tests;
