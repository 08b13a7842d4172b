//! The report as JSON, made as a value.

ghost use Rattle.std.specs.Prelude.{◌≡◌, All, IfOk, map};
ghost use Rattle.pct_ask.specs.VerdictText.{verdict_text};
ghost use Rattle.serde_json.specs.Data.{string};
ghost use Rattle.serde_json.specs.View.{view};
ghost use Rattle.report_text.specs.Report.{IsWritable};
ghost use Rattle.report_text.specs.Json.{json_of};
ghost use Rattle.report_text.specs.Data.{row_data, group_data, report_data, ReadsBack};

use crate::frame::Frame;
use failure_rank::{Group, Groups};
use pct_ask::{NameKind, Names, Row, RowList, Verdict, write_verdict};
use serde_json::{Value, json};
use std::alloc::{AllocError as NoMemory, Global};

/// The report of a campaign as JSON in one line.
pub fn json_report(
    alloc: Global,
    frame: &Frame,
    rows: &RowList,
    groups: &Groups,
    names: &Names,
) -> Result<Vec<u8>, NoMemory>
    requires rows { All (λ row. IsWritable names.now row.verdict) rows.now }
    requires groups { All (λ group. IsWritable names.now group.verdict) groups.now }
    ensures text { IfOk result
        (λ text. text.items ≡ json_of frame.now rows.now groups.now names.now) }
    ensures read { IfOk result
        (λ text. ReadsBack text.items (report_data frame.now rows.now groups.now names.now)) }
{
    // The names are lawful, and so no text needs an escape.
    let _ = names.count(NameKind::Thread);
    let report = report_value(alloc, frame, rows.as_slice(), groups.as_slice(), names)?;
    let mut text = report.to_vec(alloc)?;
    text.push(b'\n')?;
    Ok(text)
}

fn report_value(
    alloc: Global,
    frame: &Frame,
    rows: &[Row],
    groups: &[Group],
    names: &Names,
) -> Result<Value, NoMemory>
    requires rows { All (λ row. IsWritable names.now row.verdict) rows.now }
    requires groups { All (λ group. IsWritable names.now group.verdict) groups.now }
    ensures { IfOk result
        (λ value. view value ≡ report_data frame.now rows.now groups.now names.now) }
{
    let rows = Value::Array(row_values(alloc, rows, names)?);
    let groups = Value::Array(group_values(alloc, groups, names)?);
    json!(in alloc; {
        "depth": frame.depth,
        "groups": groups,
        "limit": frame.limit,
        "rows": rows,
        "steps": frame.steps,
        "threads": frame.threads
    })
}

fn row_values(alloc: Global, rows: &[Row], names: &Names) -> Result<Vec<Value>, NoMemory>
    requires { All (λ row. IsWritable names.now row.verdict) rows.now }
    ensures { IfOk result
        (λ values. map view values.items ≡ map (row_data names.now) rows.now) }
{
    let mut values = Vec::with_capacity(alloc, rows.len())?;
    for row in rows {
        values.push(row_value(alloc, row, names)?)?;
    }
    Ok(values)
}

fn row_value(alloc: Global, row: &Row, names: &Names) -> Result<Value, NoMemory>
    requires { IsWritable names.now row.now.verdict }
    ensures { IfOk result (λ value. view value ≡ row_data names.now row.now) }
{
    let verdict = verdict_value(alloc, &row.verdict, names)?;
    json!(in alloc; [row.seed, row.steps, verdict])
}

fn group_values(alloc: Global, groups: &[Group], names: &Names) -> Result<Vec<Value>, NoMemory>
    requires { All (λ group. IsWritable names.now group.verdict) groups.now }
    ensures { IfOk result
        (λ values. map view values.items ≡ map (group_data names.now) groups.now) }
{
    let mut values = Vec::with_capacity(alloc, groups.len())?;
    for group in groups {
        values.push(group_value(alloc, group, names)?)?;
    }
    Ok(values)
}

fn group_value(alloc: Global, group: &Group, names: &Names) -> Result<Value, NoMemory>
    requires { IsWritable names.now group.now.verdict }
    ensures { IfOk result (λ value. view value ≡ group_data names.now group.now) }
{
    let verdict = verdict_value(alloc, &group.verdict, names)?;
    json!(in alloc; {
        "count": group.count,
        "first": group.first,
        "steps": group.steps,
        "verdict": verdict
    })
}

/// A verdict's text, which is ASCII.
pub(crate) fn verdict_value(
    alloc: Global,
    verdict: &Verdict,
    names: &Names,
) -> Result<Value, NoMemory>
    requires { IsWritable names.now verdict.now }
    ensures { IfOk result (λ value. view value ≡ string (verdict_text names.now verdict.now)) }
{
    // The names are lawful, and so the text is ASCII.
    let _ = names.count(NameKind::Thread);
    let mut text = Vec::new(alloc);
    write_verdict(verdict, names, &mut text)?;
    Ok(Value::String(String::from_utf8(text).unwrap()))
}
