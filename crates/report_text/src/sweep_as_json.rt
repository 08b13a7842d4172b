//! The report of a sweep as JSON, made as a value.

ghost use Rattle.std.specs.Prelude.{◌≡◌, ◌<◌, All, IfOk, map, length};
ghost use Rattle.pct_ask.specs.VerdictText.{thread_name};
ghost use Rattle.serde_json.specs.Data.{string};
ghost use Rattle.serde_json.specs.View.{view};
ghost use Rattle.report_text.specs.Report.{IsTellable};
ghost use Rattle.report_text.specs.Data.{ReadsBack};
ghost use Rattle.report_text.specs.SweepJson.{sweep_json_of};
ghost use Rattle.report_text.specs.SweepData.{name_data, point_data, swept_data, sweep_data};

use crate::as_json::verdict_value;
use crate::frame::Frame;
use crate::swept::SweptGroup;
use pct_ask::{NameKind, Names, name_at};
use serde_json::{Value, json};
use std::alloc::{AllocError as NoMemory, Global};

/// The report of a sweep as JSON in one line.
pub fn sweep_json(
    alloc: Global,
    frame: &Frame,
    choices: u32,
    groups: &[SweptGroup],
    passed: u32,
    names: &Names,
) -> Result<Vec<u8>, NoMemory>
    requires { All (IsTellable names.now) groups.now }
    ensures text { IfOk result (λ text. text.items
        ≡ sweep_json_of frame.now choices groups.now passed names.now) }
    ensures read { IfOk result (λ text. ReadsBack text.items
        (sweep_data frame.now choices groups.now passed names.now)) }
{
    // The names are lawful, and so no text needs an escape.
    let _ = names.count(NameKind::Thread);
    let report = sweep_value(alloc, frame, choices, groups, passed, names)?;
    let mut text = report.to_vec(alloc)?;
    text.push(b'\n')?;
    Ok(text)
}

fn sweep_value(
    alloc: Global,
    frame: &Frame,
    choices: u32,
    groups: &[SweptGroup],
    passed: u32,
    names: &Names,
) -> Result<Value, NoMemory>
    requires { All (IsTellable names.now) groups.now }
    ensures { IfOk result (λ value. view value
        ≡ sweep_data frame.now choices groups.now passed names.now) }
{
    let groups = Value::Array(swept_values(alloc, groups, names)?);
    json!(in alloc; {
        "choices": choices,
        "depth": frame.depth,
        "groups": groups,
        "limit": frame.limit,
        "passed": passed,
        "steps": frame.steps,
        "threads": frame.threads
    })
}

fn swept_values(alloc: Global, groups: &[SweptGroup], names: &Names) -> Result<Vec<Value>, NoMemory>
    requires { All (IsTellable names.now) groups.now }
    ensures { IfOk result
        (λ values. map view values.items ≡ map (swept_data names.now) groups.now) }
{
    let mut values = Vec::with_capacity(alloc, groups.len())?;
    for group in groups {
        values.push(swept_value(alloc, group, names)?)?;
    }
    Ok(values)
}

fn swept_value(alloc: Global, group: &SweptGroup, names: &Names) -> Result<Value, NoMemory>
    requires { IsTellable names.now group.now }
    ensures { IfOk result (λ value. view value ≡ swept_data names.now group.now) }
{
    let order = Value::Array(name_values(alloc, names, group.order.as_slice())?);
    let points = Value::Array(point_values(alloc, group.points.as_slice())?);
    let verdict = verdict_value(alloc, &group.verdict, names)?;
    json!(in alloc; {
        "count": group.count,
        "order": order,
        "points": points,
        "steps": group.steps,
        "verdict": verdict
    })
}

/// The names of an order's threads.
fn name_values(alloc: Global, names: &Names, order: &[u32]) -> Result<Vec<Value>, NoMemory>
    requires { All (λ thread. thread < length names.now.threads) order.now }
    ensures { IfOk result (λ values. map view values.items ≡ map (name_data names.now) order.now) }
{
    let mut values = Vec::with_capacity(alloc, order.len())?;
    for thread in order {
        values.push(name_value(alloc, names, *thread)?)?;
    }
    Ok(values)
}

/// A thread's name, which is ASCII.
fn name_value(alloc: Global, names: &Names, thread: u32) -> Result<Value, NoMemory>
    requires { thread < length names.now.threads }
    ensures { IfOk result (λ value. view value ≡ string (thread_name names.now thread)) }
{
    // The names are lawful, and so they are ASCII.
    let _ = names.count(NameKind::Thread);
    let text = Vec::from_slice(alloc, name_at(names, NameKind::Thread, thread))?;
    Ok(Value::String(String::from_utf8(text).unwrap()))
}

fn point_values(alloc: Global, points: &[u32]) -> Result<Vec<Value>, NoMemory>
    ensures { IfOk result (λ values. map view values.items ≡ map point_data points.now) }
{
    let mut values = Vec::with_capacity(alloc, points.len())?;
    for point in points {
        values.push(Value::from(*point))?;
    }
    Ok(values)
}
