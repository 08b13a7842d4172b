//! The report of a campaign.

ghost use Rattle.std.specs.Prelude.{◌≡◌, ◌↔◌, IsTrue, All};
ghost use Rattle.c_values.specs.Told.{Answers};
ghost use Rattle.c_texts.specs.Known.{IsKnown};
ghost use Rattle.c_texts.specs.Reports.{frame_said, SaysReport};
ghost use Rattle.c_texts.specs.Reports.{IsReportText, IsReportJson};

use crate::known::says_known;
use c_values::{PctRow, Refused, names_said, rows_of};
use failure_rank::{Groups, rank};
use pct_ask::{Names, RowList, Sequence};
use report_text::{Frame, json_report, text_report};
use std::alloc::Global;

/// What the runs of a campaign have in common.
#[repr(C)]
#[derive(Clone, Copy, Debug, PartialEq, Eq)]
pub struct PctFrame {
    pub threads: u32,
    pub steps: u32,
    pub depth: u32,
    pub limit: u32,
}

fn frame_of(numbers: &PctFrame) -> Frame
    ensures { result ≡ frame_said numbers.now }
{
    Frame {
        threads: numbers.threads,
        steps: numbers.steps,
        depth: numbers.depth,
        limit: numbers.limit,
    }
}

fn are_known(names: &Names, numbers: &[PctRow]) -> bool
    ensures { IsTrue result ↔ All (λ row. IsKnown names.now row.verdict) numbers.now }
{
    numbers.iter().all(|row| says_known(names, &row.verdict))
}

/// The runs of a campaign, and their failures in groups.
#[derive(Drop)]
struct Ranked {
    rows: RowList,
    groups: Groups,
}

/// The runs that the numbers say, ranked, where their verdicts may be written.
fn rank_rows(alloc: Global, names: &Names, numbers: &[PctRow]) -> Result<Ranked, Refused>
    ensures { Answers (λ told. SaysReport names.now numbers.now told.rows told.groups) result }
{
    if !are_known(names, numbers) {
        return Err(Refused::Bad);
    }
    let rows = rows_of(alloc, numbers)?;
    let groups = rank(alloc, &rows)?;
    Ok(Ranked { rows, groups })
}

/// The report of a campaign as a text.
pub fn report_told(
    alloc: Global,
    names: &[u8],
    frame: &PctFrame,
    rows: &[PctRow],
) -> Result<Sequence<u8>, Refused>
    ensures { Answers (IsReportText names.now frame.now rows.now) result }
{
    let known = names_said(alloc, names)?;
    let told = rank_rows(alloc, &known, rows)?;
    let text = text_report(alloc, &frame_of(frame), &told.rows, &told.groups, &known)?;
    Ok(Sequence::from_vec(text))
}

/// The report of a campaign as JSON.
pub fn report_json_told(
    alloc: Global,
    names: &[u8],
    frame: &PctFrame,
    rows: &[PctRow],
) -> Result<Sequence<u8>, Refused>
    ensures { Answers (IsReportJson names.now frame.now rows.now) result }
{
    let known = names_said(alloc, names)?;
    let told = rank_rows(alloc, &known, rows)?;
    let text = json_report(alloc, &frame_of(frame), &told.rows, &told.groups, &known)?;
    Ok(Sequence::from_vec(text))
}
