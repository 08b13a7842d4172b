//! The report as a text, line by line.

ghost use Rattle.std.specs.Prelude.{◌≡◌, [], ◌∷◌, ◌++◌, All, OnOk, IfOk, map, decimal};
ghost use Rattle.std.specs.List.{flat_map};
ghost use Rattle.pct_ask.specs.TraceText.{line_text};
ghost use Rattle.pct_ask.specs.VerdictText.{verdict_text};
ghost use Rattle.report_text.specs.Report.{IsWritable};
ghost use Rattle.report_text.specs.Text.{frame_lines, row_words, group_words, text_of};

use crate::frame::Frame;
use failure_rank::{Group, Groups};
use pct_ask::{Names, Row, RowList, Verdict, write_number, write_verdict};
use std::alloc::{AllocError as NoMemory, Global};

/// The report of a campaign as a text.
pub fn text_report(
    alloc: Global,
    frame: &Frame,
    rows: &RowList,
    groups: &Groups,
    names: &Names,
) -> Result<Vec<u8>, NoMemory>
    requires rows { All (λ row. IsWritable names.now row.verdict) rows.now }
    requires groups { All (λ group. IsWritable names.now group.verdict) groups.now }
    ensures { IfOk result (λ text. text.items ≡ text_of frame.now rows.now groups.now names.now) }
{
    let mut text = Vec::new(alloc);
    push_frame(&mut text, b"campaign", frame)?;
    push_rows(&mut text, rows.as_slice(), names)?;
    push_field(&mut text, b"groups", groups.len() as u64)?;
    push_groups(&mut text, groups.as_slice(), names)?;
    Ok(text)
}

/// What the runs had in common, below the report's word and its version.
pub(crate) fn push_frame(out: &mut Vec<u8>, word: &[u8], frame: &Frame) -> Result<(), NoMemory>
    ensures { OnOk result (out.new.items
        ≡ out.old.items ++ flat_map line_text (frame_lines word.now frame.now)) }
{
    push_field(out, word, 1)?;
    push_field(out, b"threads", u64::from(frame.threads))?;
    push_field(out, b"steps", u64::from(frame.steps))?;
    push_field(out, b"depth", u64::from(frame.depth))?;
    push_field(out, b"limit", u64::from(frame.limit))
}

/// A line of a word and its number.
pub(crate) fn push_field(out: &mut Vec<u8>, word: &[u8], number: u64) -> Result<(), NoMemory>
    ensures { OnOk result (out.new.items
        ≡ out.old.items ++ line_text (word.now ∷ decimal number ∷ [])) }
{
    out.extend_from_slice(word)?;
    out.push(b' ')?;
    write_number(i128::from(number), out)?;
    out.push(b'\n')?;
    Ok(())
}

fn push_rows(out: &mut Vec<u8>, rows: &[Row], names: &Names) -> Result<(), NoMemory>
    requires { All (λ row. IsWritable names.now row.verdict) rows.now }
    ensures { OnOk result (out.new.items
        ≡ out.old.items ++ flat_map line_text (map (row_words names.now) rows.now)) }
{
    for row in rows {
        push_row(out, row, names)?;
    }
    Ok(())
}

fn push_row(out: &mut Vec<u8>, row: &Row, names: &Names) -> Result<(), NoMemory>
    requires { IsWritable names.now row.now.verdict }
    ensures { OnOk result (out.new.items
        ≡ out.old.items ++ line_text (row_words names.now row.now)) }
{
    push_number(out, row.seed)?;
    push_number(out, u64::from(row.steps))?;
    push_verdict(out, &row.verdict, names)
}

fn push_groups(out: &mut Vec<u8>, groups: &[Group], names: &Names) -> Result<(), NoMemory>
    requires { All (λ group. IsWritable names.now group.verdict) groups.now }
    ensures { OnOk result (out.new.items
        ≡ out.old.items ++ flat_map line_text (map (group_words names.now) groups.now)) }
{
    for group in groups {
        push_group(out, group, names)?;
    }
    Ok(())
}

fn push_group(out: &mut Vec<u8>, group: &Group, names: &Names) -> Result<(), NoMemory>
    requires { IsWritable names.now group.now.verdict }
    ensures { OnOk result (out.new.items
        ≡ out.old.items ++ line_text (group_words names.now group.now)) }
{
    push_number(out, u64::from(group.count))?;
    push_number(out, u64::from(group.steps))?;
    push_number(out, group.first)?;
    push_verdict(out, &group.verdict, names)
}

/// A number and a space.
pub(crate) fn push_number(out: &mut Vec<u8>, number: u64) -> Result<(), NoMemory>
    ensures { OnOk result (out.new.items ≡ out.old.items ++ (decimal number ++ 32 ∷ [])) }
{
    write_number(i128::from(number), out)?;
    out.push(b' ')?;
    Ok(())
}

/// A verdict and the line's end.
pub(crate) fn push_verdict(
    out: &mut Vec<u8>,
    verdict: &Verdict,
    names: &Names,
) -> Result<(), NoMemory>
    requires { IsWritable names.now verdict.now }
    ensures { OnOk result (out.new.items
        ≡ out.old.items ++ (verdict_text names.now verdict.now ++ 10 ∷ [])) }
{
    write_verdict(verdict, names, out)?;
    out.push(b'\n')?;
    Ok(())
}
