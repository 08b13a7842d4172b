//! The calls of C on traces that are read.

ghost use Rattle.std.specs.Prelude.{◌≡◌, ◌≢◌, ◌⊎◌, ℕ, Some, None};
ghost use Rattle.pct_c.specs.declared.kept.Kept.{Kept};
ghost use Rattle.pct_c.specs.Traces.{ReadsTrace, AnswersRead, OnTrace, OnKeptTrace, TellsHead};
ghost use Rattle.pct_c.specs.Traces.{TellsOrder, TellsTraceSteps, SaysFileVerdict, fault_number};

use crate::kept::Kept;
use crate::reading::write_steps;
use crate::status::{BAD, DONE, NO_BOOK, NO_MEMORY};
use crate::trace_handle::PctTrace;
use c_values::{PctEvent, PctOutcome, names_of, numbers_of_verdict};
use std::alloc::Global;
use std::mem;
use trace_text::{TraceError, TraceFault, TraceFile, read_trace};

/// What reading a text came to. Of a faulty text the line and the fault are those of the first one.
#[repr(C)]
#[derive(Clone, Copy, Debug, PartialEq, Eq)]
pub struct PctRead {
    pub status: u32,
    pub line: u32,
    pub fault: u32,
}

fn fault_number(fault: TraceFault) -> u32
    ensures { result ≡ fault_number fault }
{
    match fault {
        TraceFault::TooLong => 1,
        TraceFault::BadHeader => 2,
        TraceFault::BadLine => 3,
        TraceFault::UnknownName => 4,
        TraceFault::OutOfOrder => 5,
        TraceFault::NoVerdict => 6,
        TraceFault::MoreAfterVerdict => 7,
    }
}

pub(crate) fn read_to(status: u32, line: u32, fault: u32) -> PctRead
    ensures status { result.status ≡ status }
    ensures line { result.line ≡ line }
    ensures fault { result.fault ≡ fault }
{
    PctRead {
        status,
        line,
        fault,
    }
}

/// The trace that a text is, under the names that another one says.
fn trace_of(alloc: Global, names: &[u8], text: &[u8]) -> Result<TraceFile, PctRead>
    ensures { AnswersRead names.now text.now result }
{
    let named = match names_of(alloc, names) {
        Ok(Some(named)) => named,
        Ok(None) => return Err(read_to(BAD, 0, 0)),
        Err(_) => return Err(read_to(NO_MEMORY, 0, 0)),
    };
    match read_trace(alloc, text, &named) {
        Ok(file) => Ok(file),
        Err(TraceError::Bad { line, kind }) => Err(read_to(BAD, line, fault_number(kind))),
        Err(TraceError::NoMemory) => Err(read_to(NO_MEMORY, 0, 0)),
    }
}

/// Reads a trace file into the handle.
#[unsafe(no_mangle)]
pub extern "C" fn pct_text_read_trace(
    alloc: Global,
    trace: &mut PctTrace,
    names: &[u8],
    text: &[u8],
) -> PctRead
    ensures { ReadsTrace names.now text.now result trace.old.held.value trace.new.held.value }
{
    match trace_of(alloc, names, text) {
        Ok(file) => match Box::new(alloc, Kept::Trace(file)) {
            Ok(kept) => {
                *trace = PctTrace::of(kept);
                read_to(DONE, 0, 0)
            }
            Err(_) => read_to(NO_MEMORY, 0, 0),
        },
        Err(read) => read,
    }
}

/// Frees what the handle has, if it has something.
#[unsafe(no_mangle)]
pub extern "C" fn pct_text_trace_free(alloc: Global, trace: &mut PctTrace)
    ensures { trace.new.held.value ≡ None }
{
    *trace = PctTrace::empty(alloc);
}

/// The head of a trace, with how many threads, change points and steps it has.
#[repr(C)]
#[derive(Clone, Copy, Debug, PartialEq, Eq)]
pub struct PctHead {
    pub status: u32,
    pub version: u32,
    pub limit: u32,
    pub threads: u64,
    pub points: u64,
    pub steps: u64,
}

fn head_of(file: &TraceFile) -> PctHead
    ensures { TellsHead file.now result }
{
    let header = &file.header;
    PctHead {
        status: DONE,
        version: header.version,
        limit: header.limit,
        threads: header.order.len() as u64,
        points: header.points.len() as u64,
        steps: file.events.len() as u64,
    }
}

fn no_head() -> PctHead
    ensures { result.status ≡ 7 }
{
    PctHead {
        status: NO_BOOK,
        version: 0,
        limit: 0,
        threads: 0,
        points: 0,
        steps: 0,
    }
}

fn head_kept(kept: &Kept) -> PctHead
    ensures { OnKeptTrace (λ file. TellsHead file result) result.status kept.now }
{
    match kept {
        Kept::Trace(file) => head_of(file),
        Kept::Book(_) => no_head(),
    }
}

/// The head of a trace.
#[unsafe(no_mangle)]
pub extern "C" fn pct_text_trace_head(alloc: Global, trace: &mut PctTrace) -> PctHead
    ensures told { OnTrace (λ file. TellsHead file result) result.status trace.old.held.value }
    ensures stays { trace.new.held.value ≡ trace.old.held.value }
{
    match mem::replace(trace, PctTrace::empty(alloc)).into_box() {
        None => no_head(),
        Some(own) => {
            let head = head_kept(&own);
            *trace = PctTrace::of(own);
            head
        }
    }
}

fn order_of(file: &TraceFile, order: &mut [u32], points: &mut [u32]) -> u32
    ensures { TellsOrder file.now result order.old order.new points.old points.new }
{
    let header = &file.header;
    if header.order.len() != order.len() || header.points.len() != points.len() {
        return BAD;
    }
    order.copy_from_slice(header.order.as_slice());
    points.copy_from_slice(header.points.as_slice());
    DONE
}

fn order_kept(kept: &Kept, order: &mut [u32], points: &mut [u32]) -> u32
    ensures told { OnKeptTrace
        (λ file. TellsOrder file result order.old order.new points.old points.new)
        result kept.now }
    ensures order { result ≢ 0 → order.new ≡ order.old }
    ensures points { result ≢ 0 → points.new ≡ points.old }
{
    match kept {
        Kept::Trace(file) => order_of(file, order, points),
        Kept::Book(_) => NO_BOOK,
    }
}

/// The order and the change points of a trace, into lists of just their lengths.
#[unsafe(no_mangle)]
pub extern "C" fn pct_text_trace_order(
    alloc: Global,
    trace: &mut PctTrace,
    order: &mut [u32],
    points: &mut [u32],
) -> u32
    ensures told { OnTrace
        (λ file. TellsOrder file result order.old order.new points.old points.new)
        result trace.old.held.value }
    ensures order { result ≢ 0 → order.new ≡ order.old }
    ensures points { result ≢ 0 → points.new ≡ points.old }
    ensures stays { trace.new.held.value ≡ trace.old.held.value }
{
    match mem::replace(trace, PctTrace::empty(alloc)).into_box() {
        None => NO_BOOK,
        Some(own) => {
            let status = order_kept(&own, order, points);
            *trace = PctTrace::of(own);
            status
        }
    }
}

fn steps_of(file: &TraceFile, from: u32, steps: &mut [PctEvent]) -> u32
    ensures { TellsTraceSteps file.now from result steps.old steps.new }
{
    let events = file.events.as_slice();
    let first = from as usize;
    if first > events.len() || steps.len() > events.len() - first {
        return BAD;
    }
    let last = first + steps.len();
    write_steps(&events[first..last], steps);
    DONE
}

fn steps_kept(kept: &Kept, from: u32, steps: &mut [PctEvent]) -> u32
    ensures told { OnKeptTrace (λ file. TellsTraceSteps file from result steps.old steps.new)
        result kept.now }
    ensures unwritten { result ≢ 0 → steps.new ≡ steps.old }
{
    match kept {
        Kept::Trace(file) => steps_of(file, from, steps),
        Kept::Book(_) => NO_BOOK,
    }
}

/// The steps of a trace after the first `from` ones, as many as there is room for.
#[unsafe(no_mangle)]
pub extern "C" fn pct_text_trace_steps(
    alloc: Global,
    trace: &mut PctTrace,
    from: u32,
    steps: &mut [PctEvent],
) -> u32
    ensures told { OnTrace (λ file. TellsTraceSteps file from result steps.old steps.new)
        result trace.old.held.value }
    ensures unwritten { result ≢ 0 → steps.new ≡ steps.old }
    ensures stays { trace.new.held.value ≡ trace.old.held.value }
{
    match mem::replace(trace, PctTrace::empty(alloc)).into_box() {
        None => NO_BOOK,
        Some(own) => {
            let status = steps_kept(&own, from, steps);
            *trace = PctTrace::of(own);
            status
        }
    }
}

fn verdict_kept(kept: &Kept, verdict: &mut PctOutcome) -> u32
    ensures told { OnKeptTrace (λ file. SaysFileVerdict file result verdict.new) result kept.now }
    ensures unwritten { result ≢ 0 → verdict.new ≡ verdict.old }
{
    match kept {
        Kept::Trace(file) => {
            *verdict = numbers_of_verdict(&file.verdict);
            DONE
        }
        Kept::Book(_) => NO_BOOK,
    }
}

/// The verdict of a trace.
#[unsafe(no_mangle)]
pub extern "C" fn pct_text_trace_verdict(
    alloc: Global,
    trace: &mut PctTrace,
    verdict: &mut PctOutcome,
) -> u32
    ensures told { OnTrace (λ file. SaysFileVerdict file result verdict.new)
        result trace.old.held.value }
    ensures unwritten { result ≢ 0 → verdict.new ≡ verdict.old }
    ensures stays { trace.new.held.value ≡ trace.old.held.value }
{
    match mem::replace(trace, PctTrace::empty(alloc)).into_box() {
        None => NO_BOOK,
        Some(own) => {
            let status = verdict_kept(&own, verdict);
            *trace = PctTrace::of(own);
            status
        }
    }
}
