// Runs and campaigns as texts.
ghost use Rattle.std.specs.Prelude.{◌≡◌, ◌↔◌, Err, IsTrue, IfOk, All};
ghost use Rattle.report_text.specs.Report.{IsWritable};
ghost use Rattle.report_text.specs.Text.{text_of};
ghost use Rattle.pct_ask.specs.TraceText.{trace_text};
ghost use Rattle.trace_text.specs.Trace.{head_of};
ghost use Rattle.trace_text.specs.Known.{IsPlainHead};
ghost use Rattle.kit_text.specs.Texts.{IsShowable, IsReportable};

use crate::known::{is_known, is_named};
use failure_rank::{Group, Groups};
use pct_ask::{Deal, Names, Row, RowList};
use rank_now::is_order;
use report_text::{Frame, text_report};
use std::alloc::{AllocError as NoMemory, Global};
use thiserror::Error;
use trace_text::{Header, TraceFile, are_known_steps, is_of_version, is_plain_head, write_trace};

/// Why there is no text.
#[derive(Clone, Copy, Debug, PartialEq, Eq, Error)]
pub enum TextError {
    /// A thread or an object has no name, there is a name too many, a line isn't in 1..=4096, or
    /// the order, the points or the limit are no run's.
    #[error("a name or a line isn't known")]
    Unknown,
    #[error("no memory")]
    NoMemory,
}

impl From<NoMemory> for TextError {
    ghost use Rattle.std.specs.Prelude.{◌≡◌};
    ghost use Rattle.kit_text.specs.declared.texts.TextError.TheVariants.{NoMemory};

    ghost from_gives = { λ _ e. e ≡ NoMemory };

    fn from(_e: NoMemory) -> TextError {
        TextError::NoMemory
    }
}

/// Whether all of a head but its order is that of a trace with so many threads.
fn has_plain_head(threads: u32, header: &Header) -> bool
    ensures { IsTrue result ↔ IsPlainHead threads (head_of header.now) }
{
    is_plain_head(
        threads,
        header.version,
        header.limit,
        header.order.as_slice(),
        header.points.as_slice(),
    )
}

/// The trace of a run, as `pct` writes it and reads it back.
pub fn show_run(
    alloc: Global,
    deal: &Deal,
    names: &Names,
    file: &TraceFile,
) -> Result<Vec<u8>, TextError>
    ensures text { IfOk result (λ text. text.items
        ≡ trace_text (head_of file.now.header) names.now file.now.events file.now.verdict) }
    ensures known { IfOk result (λ _. IsShowable deal.now names.now file.now) }
    ensures unknown { result ≡ Err TextError.Unknown → ¬ IsShowable deal.now names.now file.now }
{
    let header = &file.header;
    let events = file.events.as_slice();
    let verdict = &file.verdict;
    let is_plain = is_named(deal, names) && has_plain_head(deal.threads, header);
    if !is_plain || !is_order(header.order.as_slice()) {
        return Err(TextError::Unknown);
    }
    if events.len() > header.limit as usize || !are_known_steps(header.version, deal, events) {
        return Err(TextError::Unknown);
    }
    if !is_known(names, verdict) || !is_of_version(header.version, verdict) {
        return Err(TextError::Unknown);
    }
    Ok(write_trace(alloc, header, names, events, verdict)?)
}

fn are_known_rows(names: &Names, rows: &[Row]) -> bool
    ensures { IsTrue result ↔ All (λ row. IsWritable names.now row.verdict) rows.now }
{
    rows.iter().all(|row| is_known(names, &row.verdict))
}

fn are_known_groups(names: &Names, groups: &[Group]) -> bool
    ensures { IsTrue result ↔ All (λ group. IsWritable names.now group.verdict) groups.now }
{
    groups.iter().all(|group| is_known(names, &group.verdict))
}

/// The report of a campaign, as `pct` writes it.
pub fn show_report(
    alloc: Global,
    names: &Names,
    frame: &Frame,
    rows: &RowList,
    groups: &Groups,
) -> Result<Vec<u8>, TextError>
    ensures text { IfOk result (λ text.
        text.items ≡ text_of frame.now rows.now groups.now names.now) }
    ensures known { IfOk result (λ _. IsReportable names.now rows.now groups.now) }
    ensures unknown { result ≡ Err TextError.Unknown
        → ¬ IsReportable names.now rows.now groups.now }
{
    let are_known = are_known_rows(names, rows.as_slice());
    if !are_known || !are_known_groups(names, groups.as_slice()) {
        return Err(TextError::Unknown);
    }
    Ok(text_report(alloc, frame, rows, groups, names)?)
}
