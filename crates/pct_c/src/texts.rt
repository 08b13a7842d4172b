//! The calls of C that write texts.

ghost use Rattle.c_texts.specs.Directives.{IsDirectiveText};
ghost use Rattle.c_texts.specs.Reports.{IsReportText, IsReportJson};
ghost use Rattle.trace_text.specs.Known.{head_by};
ghost use Rattle.c_texts.specs.Traces.{IsTraceText};
ghost use Rattle.c_texts.specs.Verdicts.{SaysVerdictText};
ghost use Rattle.pct_c.specs.Buffers.{Puts};

use crate::buffers::put;
use crate::status::PctCount;
use c_texts::{
    PctDirective, PctFrame, directive_text_told, report_json_told, report_told, trace_text_told,
    verdict_text_told,
};
use c_values::{PctEvent, PctOutcome, PctRow};
use std::alloc::Global;

/// A trace file of a run by an order and change points.
#[unsafe(no_mangle)]
pub extern "C" fn pct_text_trace(
    alloc: Global,
    names: &[u8],
    version: u32,
    limit: u32,
    order: &[u32],
    points: &[u32],
    steps: &[PctEvent],
    verdict: &PctOutcome,
    text: &mut [u8],
) -> PctCount
    ensures { Puts (IsTraceText names.now (head_by version limit order.now points.now) steps.now
        verdict.now) result.status result.count text.old text.new }
{
    let told = trace_text_told(alloc, names, version, limit, order, points, steps, verdict);
    put(told, text)
}

/// A verdict, as it stands behind `verdict ` in traces and reports.
#[unsafe(no_mangle)]
pub extern "C" fn pct_text_verdict(
    alloc: Global,
    names: &[u8],
    verdict: &PctOutcome,
    text: &mut [u8],
) -> PctCount
    ensures { Puts (SaysVerdictText names.now verdict.now) result.status result.count
        text.old text.new }
{
    let told = verdict_text_told(alloc, names, verdict);
    put(told, text)
}

/// A directive file.
#[unsafe(no_mangle)]
pub extern "C" fn pct_text_directive(
    alloc: Global,
    names: &[u8],
    directive: &PctDirective,
    text: &mut [u8],
) -> PctCount
    ensures { Puts (IsDirectiveText names.now directive.now) result.status result.count
        text.old text.new }
{
    let told = directive_text_told(alloc, names, directive);
    put(told, text)
}

/// The report of a campaign as a text.
#[unsafe(no_mangle)]
pub extern "C" fn pct_text_report(
    alloc: Global,
    names: &[u8],
    frame: &PctFrame,
    rows: &[PctRow],
    text: &mut [u8],
) -> PctCount
    ensures { Puts (IsReportText names.now frame.now rows.now) result.status result.count
        text.old text.new }
{
    let told = report_told(alloc, names, frame, rows);
    put(told, text)
}

/// The report of a campaign as JSON.
#[unsafe(no_mangle)]
pub extern "C" fn pct_text_report_json(
    alloc: Global,
    names: &[u8],
    frame: &PctFrame,
    rows: &[PctRow],
    text: &mut [u8],
) -> PctCount
    ensures { Puts (IsReportJson names.now frame.now rows.now) result.status result.count
        text.old text.new }
{
    let told = report_json_told(alloc, names, frame, rows);
    put(told, text)
}
