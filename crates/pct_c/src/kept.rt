//! What a handle of C may hold.

use crate::book::Book;
use trace_text::TraceFile;

/// A book of turns, or a trace that was read.
#[derive(Drop)]
pub enum Kept {
    Book(Book),
    Trace(TraceFile),
}
