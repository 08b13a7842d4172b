//! A trace, read from its first line to its last.

ghost use Rattle.std.specs.Prelude.{◌≡◌, ◌⊎◌, ℕ, ◌+◌, ◌≤◌};
ghost use Rattle.pct_ask.specs.NameLists.{AreNames};
ghost use Rattle.trace_text.specs.Answers.{AnswersTrace, EachHasOneAnswer};
ghost use Rattle.trace_text.specs.Faults.{IsTraceFault};
ghost use Rattle.pct_ask.specs.Pieces.{pieces_of};
ghost use Rattle.trace_text.specs.reader.Reading as reading;
ghost use Rattle.trace_text.specs.reader.Seen.{Gives};
ghost use Rattle.trace_text.specs.Trace.{IsTrace};
ghost use Rattle.trace_text.specs.declared.fault.TraceFault.{TraceFault};
ghost use Rattle.trace_text.specs.declared.file.TraceFile.{TraceFile};
ghost use Rattle.pct_ask.specs.declared.limits.TheConstants.{MAX_STEPS};

use crate::fault::{TraceError, TraceFault};
use crate::file::{Header, TraceFile};
use crate::head::{read_limit, read_order, read_points, read_version};
use crate::row::{SoundTraceRow, line_or_fault, read_row, unended_fault};
use pct_ask::{EventList, NameKind, Names, Verdict, cut_line};
use std::alloc::Global;

const MOST_BYTES: usize = 16_777_216;

/// The steps and the verdict.
#[derive(Drop)]
struct Body {
    events: EventList,
    verdict: Verdict,
}

/// The line of the step with a number: the head has four lines.
fn line_of(number: u32) -> u32
    requires { number ≤ 100001 }
    ensures { result ≡ number + 4 }
{
    number + 4
}

fn read_body(
    alloc: Global,
    names: &Names,
    version: u32,
    limit: u32,
    text: &[u8],
) -> Result<Body, TraceError>
    requires { limit ≤ MAX_STEPS }
    ensures { Gives (λ body. (body.events, body.verdict)) result
        (reading.body_of names.now version limit 1 (pieces_of text.now)) }
{
    let mut events = EventList::new(alloc);
    let mut next = 1;
    let mut rest = text;
    'lines: loop {
        let (text, after) = cut_line(rest);
        let row = read_row(alloc, names, version, text)?;
        let line = line_of(next);
        let Some(after) = after else {
            let kind = unended_fault(limit, row, text);
            return Err(TraceError::Bad { line, kind });
        };
        match line_or_fault(limit, next, row) {
            Err(kind) => return Err(TraceError::Bad { line, kind }),
            Ok(SoundTraceRow::Step(event)) => events.try_push(event)?,
            Ok(SoundTraceRow::Last(verdict)) => {
                if after.is_empty() {
                    return Ok(Body { events, verdict });
                }
                return Err(TraceError::Bad {
                    line: line + 1,
                    kind: TraceFault::MoreAfterVerdict,
                });
            }
        }
        next += 1;
        rest = after;
    }
}

fn read(alloc: Global, bytes: &[u8], names: &Names) -> Result<TraceFile, TraceError>
    ensures read { Gives (λ file. file) result (reading.read_as_trace names.now bytes.now) }
    ensures lawful { AreNames names.now }
{
    let _ = names.count(NameKind::Thread);
    if bytes.len() > MOST_BYTES {
        return Err(TraceError::Bad {
            line: 1,
            kind: TraceFault::TooLong,
        });
    }
    let (version, rest) = read_version(bytes)?;
    let (order, rest) = read_order(alloc, names, rest)?;
    let (points, rest) = read_points(alloc, rest)?;
    let (limit, rest) = read_limit(alloc, rest)?;
    let Body { events, verdict } = read_body(alloc, names, version, limit, rest)?;
    let header = Header {
        version,
        order,
        points,
        limit,
    };
    Ok(TraceFile {
        header,
        events,
        verdict,
    })
}

/// Reads a trace under the names of a test.
pub fn read_trace(alloc: Global, bytes: &[u8], names: &Names) -> Result<TraceFile, TraceError>
    ensures answer { AnswersTrace bytes.now names.now result }

    // A trace gives its file, and a fault itself, unless there is no memory.
    ensures trace { (file : TraceFile) → IsTrace bytes.now names.now file
        → (result ≡ Ok file) ⊎ (result ≡ Err TraceError.NoMemory) }
    ensures fault { (line : ℕ) (kind : TraceFault) → IsTraceFault bytes.now names.now line kind
        → (result ≡ Err (TraceError.Bad line kind)) ⊎ (result ≡ Err TraceError.NoMemory) }
{
    read(alloc, bytes, names)
}

/// A law of traces, and no work: each text is, under the names of a test, the trace of one file or
/// has one first fault,
/// and never both.
pub fn one_answer()
    ensures { EachHasOneAnswer }
{}
