//! The lines of a directive after its first.

ghost use Rattle.std.specs.Prelude.{◌≡◌, IfOk};
ghost use Rattle.std.specs.Option.{option_copied};
ghost use Rattle.pct_ask.specs.VerdictWords.{words_of, verdict_of_words};
ghost use Rattle.directive.specs.Reading as reading;
ghost use Rattle.pct_ask.specs.Pieces.{seen};

use crate::fault::DirectiveFault;
use pct_ask::{
    NameKind, Names, Verdict, VerdictRead, first_words, is_lawful_name, read_verdict, step_count,
};
use policy_pick::Moment;
use std::alloc::{AllocError as NoMemory, Global};

const LOW: &[u8] = b"low";

const AFTER: &[u8] = b"after";

const VERDICT: &[u8] = b"verdict ";

/// What a line says. Where one of its names is no thread's, there is no thread and no verdict.
#[derive(Clone, Copy)]
pub enum DirectiveRow {
    After { thread: Option<u32>, number: u32 },
    End { verdict: Option<Verdict> },
}

/// What a sound line says.
#[derive(Clone, Copy)]
pub enum SoundDirectiveRow {
    Event(Moment),
    Last(Verdict),
}

fn lawful(name: &[u8]) -> Option<&[u8]>
    ensures { option_copied result ≡ reading.lawful name.now }
{
    if is_lawful_name(1, name) {
        Some(name)
    } else {
        None
    }
}

fn low_words<'a>(words: &[&'a [u8]]) -> Option<&'a [u8]>
    ensures { option_copied result ≡ reading.low_words (seen words.now) }
{
    match words {
        [head, name] if *head == LOW => lawful(name),
        _ => None,
    }
}

/// The name on the line of the lowest thread.
#[tactic(auto, unfolding(crate::specs::Reading::low_in))]
pub fn low_in(alloc: Global, line: &[u8]) -> Result<Option<&[u8]>, NoMemory>
    ensures { IfOk result (λ name. option_copied name ≡ reading.low_in line.now) }
{
    let words = first_words(alloc, line, 3)?;
    Ok(low_words(words.as_slice()))
}

fn moment_of(names: &Names, name: &[u8], number: &[u8]) -> Option<DirectiveRow>
    ensures { result ≡ reading.moment_of names.now name.now number.now }
{
    let name = lawful(name)?;
    let number = step_count(number)?;
    let thread = names.find(NameKind::Thread, name);
    Some(DirectiveRow::After { thread, number })
}

/// The moment that the words of a line tell.
fn after_words(names: &Names, words: &[&[u8]]) -> Option<DirectiveRow>
    ensures { result ≡ reading.after_words names.now (seen words.now) }
{
    match words {
        [head, name, number] if *head == AFTER => moment_of(names, name, number),
        _ => None,
    }
}

fn read_end(names: &Names, text: &[u8]) -> Option<DirectiveRow>
    ensures { result ≡ reading.end_of (verdict_of_words names.now (words_of text.now)) }
{
    match read_verdict(text, names) {
        VerdictRead::NoForm => None,
        VerdictRead::UnknownName => Some(DirectiveRow::End { verdict: None }),
        VerdictRead::Is(verdict) => Some(DirectiveRow::End {
            verdict: Some(verdict),
        }),
    }
}

/// What a line says, where it has a form.
#[tactic(auto, unfolding(crate::specs::Reading::row_of))]
pub fn read_row(alloc: Global, names: &Names, line: &[u8]) -> Result<Option<DirectiveRow>, NoMemory>
    ensures { IfOk result (λ row. row ≡ reading.row_of names.now line.now) }
{
    match line.strip_prefix(VERDICT) {
        Some(text) => Ok(read_end(names, text)),
        None => {
            let words = first_words(alloc, line, 4)?;
            Ok(after_words(names, words.as_slice()))
        }
    }
}

/// The fault of a line with no LF.
pub fn unended_fault(line: u32, row: Option<DirectiveRow>, text: &[u8]) -> DirectiveFault
    ensures { result ≡ reading.unended_fault line row text.now }
{
    match row {
        None if text.is_empty() => DirectiveFault::NoVerdict,
        Some(DirectiveRow::After { .. }) if line > 9 => DirectiveFault::TooLong,
        _ => DirectiveFault::BadLine,
    }
}

/// What a line with its LF says, or its fault. The lines 3 to 9 are the seven that a moment may
/// have.
pub fn line_or_fault(
    line: u32,
    row: Option<DirectiveRow>,
) -> Result<SoundDirectiveRow, DirectiveFault>
    ensures { result ≡ reading.line_or_fault line row }
{
    match row {
        None => Err(DirectiveFault::BadLine),
        Some(DirectiveRow::After { .. }) if line > 9 => Err(DirectiveFault::TooLong),
        Some(DirectiveRow::After { thread, number }) => match thread {
            None => Err(DirectiveFault::UnknownName),
            Some(thread) => Ok(SoundDirectiveRow::Event(Moment { thread, number })),
        },
        Some(DirectiveRow::End { verdict: None }) => Err(DirectiveFault::UnknownName),
        Some(
            DirectiveRow::End {
                verdict: Some(verdict),
            },
        ) => Ok(SoundDirectiveRow::Last(verdict)),
    }
}
