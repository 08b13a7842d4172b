//! The report of a sweep as a text, line by line.

ghost use Rattle.std.specs.Prelude.{◌≡◌, [], ◌∷◌, ◌++◌, All, OnOk, IfOk, map, length, decimal};
ghost use Rattle.std.specs.List.{flat_map};
ghost use Rattle.pct_ask.specs.TraceText.{line_text};
ghost use Rattle.pct_ask.specs.VerdictText.{thread_name};
ghost use Rattle.report_text.specs.Report.{IsTellable};
ghost use Rattle.report_text.specs.SweepText.{spaced, sweep_lines, swept_words, sweep_text_of};

use crate::as_text::{push_field, push_frame, push_number, push_verdict};
use crate::frame::Frame;
use crate::swept::SweptGroup;
use pct_ask::{NameKind, Names, name_at};
use std::alloc::{AllocError as NoMemory, Global};

/// The report of a sweep as a text.
pub fn sweep_text(
    alloc: Global,
    frame: &Frame,
    choices: u32,
    groups: &[SweptGroup],
    passed: u32,
    names: &Names,
) -> Result<Vec<u8>, NoMemory>
    requires { All (IsTellable names.now) groups.now }
    ensures { IfOk result (λ text. text.items
        ≡ sweep_text_of frame.now choices groups.now passed names.now) }
{
    let mut text = Vec::new(alloc);
    push_head(&mut text, frame, choices, groups.len())?;
    push_groups(&mut text, groups, names)?;
    push_field(&mut text, b"passed", u64::from(passed))?;
    Ok(text)
}

/// What the sweep was made with, and how many choices and groups there are.
fn push_head(out: &mut Vec<u8>, frame: &Frame, choices: u32, groups: usize) -> Result<(), NoMemory>
    ensures { OnOk result (out.new.items
        ≡ out.old.items ++ flat_map line_text (sweep_lines frame.now choices groups)) }
{
    push_frame(out, b"sweep", frame)?;
    push_field(out, b"choices", u64::from(choices))?;
    push_field(out, b"groups", groups as u64)
}

fn push_groups(out: &mut Vec<u8>, groups: &[SweptGroup], names: &Names) -> Result<(), NoMemory>
    requires { All (IsTellable names.now) groups.now }
    ensures { OnOk result (out.new.items
        ≡ out.old.items ++ flat_map line_text (map (swept_words names.now) groups.now)) }
{
    for group in groups {
        push_group(out, group, names)?;
    }
    Ok(())
}

fn push_group(out: &mut Vec<u8>, group: &SweptGroup, names: &Names) -> Result<(), NoMemory>
    requires { IsTellable names.now group.now }
    ensures { OnOk result (out.new.items
        ≡ out.old.items ++ line_text (swept_words names.now group.now)) }
{
    push_number(out, u64::from(group.count))?;
    push_number(out, u64::from(group.steps))?;
    push_word(out, b"order")?;
    push_names(out, names, group.order.as_slice())?;
    push_word(out, b"points")?;
    push_points(out, group.points.as_slice())?;
    push_word(out, b"verdict")?;
    push_verdict(out, &group.verdict, names)
}

/// A word and a space.
fn push_word(out: &mut Vec<u8>, word: &[u8]) -> Result<(), NoMemory>
    ensures { OnOk result (out.new.items ≡ out.old.items ++ (word.now ++ 32 ∷ [])) }
{
    out.extend_from_slice(word)?;
    out.push(b' ')?;
    Ok(())
}

/// An order's names, each with a space behind it.
fn push_names(out: &mut Vec<u8>, names: &Names, order: &[u32]) -> Result<(), NoMemory>
    ensures { OnOk result (out.new.items
        ≡ out.old.items ++ spaced (map (thread_name names.now) order.now)) }
{
    for thread in order {
        push_word(out, name_at(names, NameKind::Thread, *thread))?;
    }
    Ok(())
}

/// Points, each with a space behind it.
fn push_points(out: &mut Vec<u8>, points: &[u32]) -> Result<(), NoMemory>
    ensures { OnOk result (out.new.items
        ≡ out.old.items ++ spaced (map decimal points.now)) }
{
    for point in points {
        push_number(out, u64::from(*point))?;
    }
    Ok(())
}
