//! The lines after the head of a trace: steps and the verdict.

ghost use Rattle.std.specs.Prelude.{◌≡◌, ℕ, IfOk, length, codes};
ghost use Rattle.std.specs.Str.{bytes_eq};
ghost use Rattle.pct_ask.specs.VerdictWords.{words_of, verdict_of_words};
ghost use Rattle.pct_ask.specs.declared.names.NameKind.TheVariants as kinds;
ghost use Rattle.trace_text.specs.reader.Asks as asks;
ghost use Rattle.trace_text.specs.reader.Numbers as numbers;
ghost use Rattle.trace_text.specs.Lawful as lawful;
ghost use Rattle.trace_text.specs.reader.StepLines as lines;
ghost use Rattle.trace_text.specs.reader.Reading as reading;
ghost use Rattle.pct_ask.specs.Pieces.{seen};

use crate::asks::{WordsRead, ask_of_words, object};
use crate::fault::TraceFault;
use crate::number::{i64_in, natural_of};
use pct_ask::{
    Ask, Event, MisuseKind, NameKind, Names, Operands, Verdict, VerdictRead, first_words,
    line_number, read_verdict,
};
use std::alloc::{AllocError as NoMemory, Global};

const VERDICT: &[u8] = b"verdict ";

const SIGN: &[u8] = b"=";

const SECOND_MISUSE: &[u8] = b" toomanyreads";

/// What a line says. Where one of its names isn't declared with the kind that its place needs,
/// there is no event and
/// no verdict.
#[derive(Clone, Copy)]
pub enum TraceRow {
    Step { number: u64, event: Option<Event> },
    End { verdict: Option<Verdict> },
}

/// What a sound line says.
#[derive(Clone, Copy)]
pub enum SoundTraceRow {
    Step(Event),
    Last(Verdict),
}

/// The words of a step line, but for those of its ask.
#[derive(Clone, Copy)]
struct Around<'a> {
    number: &'a [u8],
    thread: &'a [u8],
    line: &'a [u8],
    sign: &'a [u8],
    answer: &'a [u8],
}

fn event_of(thread: Option<u32>, line: u32, ask: Option<Ask>, answer: i64) -> Option<Event>
    ensures { result ≡ lines.event_of thread line ask answer }
{
    let thread = thread?;
    let ask = ask?;
    Some(Event {
        thread,
        line,
        ask,
        answer,
    })
}

fn is_sign(word: &[u8]) -> bool
    ensures { result ≡ bytes_eq word.now (codes "=") }
{
    word == SIGN
}

/// A step whose numbers are read, where its thread and its ask have their forms.
fn numbered_step(
    number: u64,
    thread: WordsRead<u32>,
    line: u32,
    ask: WordsRead<Ask>,
    answer: i64,
) -> Option<TraceRow>
    ensures { result ≡ lines.numbered_step number thread line ask answer }
{
    if thread.has_form() && ask.has_form() {
        Some(TraceRow::Step {
            number,
            event: event_of(thread.known_words(), line, ask.known_words(), answer),
        })
    } else {
        None
    }
}

#[tactic(auto, unfolding(crate::specs::reader::StepLines::step_in_words))]
fn step_in_words(names: &Names, around: &Around<'_>, ask: WordsRead<Ask>) -> Option<TraceRow>
    ensures { result
        ≡ lines.step_in_words names.now around.now.number.now around.now.thread.now
        around.now.line.now
        ask around.now.sign.now around.now.answer.now }
{
    let number = natural_of(around.number)?;
    let line = line_number(around.line)?;
    if !is_sign(around.sign) {
        return None;
    }
    let answer = i64_in(around.answer)?;
    let thread = object(names, NameKind::Thread, around.thread);
    numbered_step(number, thread, line, ask, answer)
}

fn bare_step(names: &Names, version: u32, words: &[&[u8]]) -> Option<TraceRow>
    ensures { length words.now ≡ 6
        → result ≡ lines.step_of_words names.now version (seen words.now) }
{
    let [number, thread, line, word, sign, answer] = words else {
        return None;
    };
    let around = Around {
        number,
        thread,
        line,
        sign,
        answer,
    };
    let ask = ask_of_words(names, version, word, Operands::Bare);
    step_in_words(names, &around, ask)
}

fn step_on_one(names: &Names, version: u32, words: &[&[u8]]) -> Option<TraceRow>
    ensures { length words.now ≡ 7
        → result ≡ lines.step_of_words names.now version (seen words.now) }
{
    let [number, thread, line, word, a, sign, answer] = words else {
        return None;
    };
    let around = Around {
        number,
        thread,
        line,
        sign,
        answer,
    };
    let ask = ask_of_words(names, version, word, Operands::One(a));
    step_in_words(names, &around, ask)
}

fn step_on_two(names: &Names, version: u32, words: &[&[u8]]) -> Option<TraceRow>
    ensures { length words.now ≡ 8
        → result ≡ lines.step_of_words names.now version (seen words.now) }
{
    let [number, thread, line, word, a, b, sign, answer] = words else {
        return None;
    };
    let around = Around {
        number,
        thread,
        line,
        sign,
        answer,
    };
    let ask = ask_of_words(names, version, word, Operands::Two(a, b));
    step_in_words(names, &around, ask)
}

fn step_on_three(names: &Names, version: u32, words: &[&[u8]]) -> Option<TraceRow>
    ensures { length words.now ≡ 9
        → result ≡ lines.step_of_words names.now version (seen words.now) }
{
    let [number, thread, line, word, a, b, c, sign, answer] = words else {
        return None;
    };
    let around = Around {
        number,
        thread,
        line,
        sign,
        answer,
    };
    let ask = ask_of_words(names, version, word, Operands::Three(a, b, c));
    step_in_words(names, &around, ask)
}

/// The step that the words of a line tell. The words of its ask are one to four.
fn read_step(names: &Names, version: u32, words: &[&[u8]]) -> Option<TraceRow>
    ensures { result ≡ lines.step_of_words names.now version (seen words.now) }
{
    if words.len() == 6 {
        bare_step(names, version, words)
    } else if words.len() == 7 {
        step_on_one(names, version, words)
    } else if words.len() == 8 {
        step_on_two(names, version, words)
    } else if words.len() == 9 {
        step_on_three(names, version, words)
    } else {
        None
    }
}

/// Whether a text is that of a verdict which comes from read-write locks alone.
fn tells_reads(text: &[u8]) -> bool
    ensures { result ≡ lines.tells_reads text.now }
{
    text.ends_with(SECOND_MISUSE)
}

fn is_of_second(verdict: &Verdict) -> bool
    ensures { result ≡ lawful.is_of_second verdict.now }
{
    matches!(
        verdict,
        Verdict::Misuse {
            kind: MisuseKind::TooManyReads,
            ..
        }
    )
}

fn read_end(names: &Names, version: u32, text: &[u8]) -> Option<TraceRow>
    ensures { result
        ≡ lines.end_of version text.now (verdict_of_words names.now (words_of text.now)) }
{
    match read_verdict(text, names) {
        VerdictRead::NoForm => None,
        VerdictRead::UnknownName => {
            if version == 1 && tells_reads(text) {
                None
            } else {
                Some(TraceRow::End { verdict: None })
            }
        }
        VerdictRead::Is(verdict) => {
            if version == 1 && is_of_second(&verdict) {
                None
            } else {
                Some(TraceRow::End {
                    verdict: Some(verdict),
                })
            }
        }
    }
}

/// What a line says, where it has a form.
#[tactic(auto, unfolding(crate::specs::reader::StepLines::row_of))]
pub fn read_row(
    alloc: Global,
    names: &Names,
    version: u32,
    line: &[u8],
) -> Result<Option<TraceRow>, NoMemory>
    ensures { IfOk result (λ row. row ≡ lines.row_of names.now version line.now) }
{
    match line.strip_prefix(VERDICT) {
        Some(text) => Ok(read_end(names, version, text)),
        None => {
            let words = first_words(alloc, line, 10)?;
            Ok(read_step(names, version, words.as_slice()))
        }
    }
}

/// The fault of a line with no LF.
pub fn unended_fault(limit: u32, row: Option<TraceRow>, text: &[u8]) -> TraceFault
    ensures { result ≡ reading.unended_fault limit row text.now }
{
    match row {
        None if text.is_empty() => TraceFault::NoVerdict,
        Some(TraceRow::Step { number, .. }) if u64::from(limit) < number => TraceFault::TooLong,
        _ => TraceFault::BadLine,
    }
}

/// What a line with its LF says, where the next step has this number, or its fault.
pub fn line_or_fault(
    limit: u32,
    next: u32,
    row: Option<TraceRow>,
) -> Result<SoundTraceRow, TraceFault>
    ensures { result ≡ reading.line_or_fault limit next row }
{
    match row {
        None => Err(TraceFault::BadLine),
        Some(TraceRow::Step { number, .. }) if u64::from(limit) < number => Err(
            TraceFault::TooLong,
        ),
        Some(TraceRow::Step { number, event }) => judged_event(next, number, event),
        Some(TraceRow::End { verdict: None }) => Err(TraceFault::UnknownName),
        Some(
            TraceRow::End {
                verdict: Some(verdict),
            },
        ) => Ok(SoundTraceRow::Last(verdict)),
    }
}

fn judged_event(next: u32, number: u64, event: Option<Event>) -> Result<SoundTraceRow, TraceFault>
    ensures { result ≡ reading.judged_event next number event }
{
    match event {
        None => Err(TraceFault::UnknownName),
        Some(event) if number == u64::from(next) => Ok(SoundTraceRow::Step(event)),
        Some(_) => Err(TraceFault::OutOfOrder),
    }
}
