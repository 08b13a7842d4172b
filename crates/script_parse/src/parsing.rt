//! A text as a script.

ghost use Rattle.std.specs.Prelude.{◌≡◌, ◌≤◌, ◌==◌, false, length, Some, Err, IfOk, IfErr};
ghost use Rattle.pct_ask.specs.Lines.{lines_of};
ghost use Rattle.script_tree.specs.Lines.{version_in};
ghost use Rattle.script_tree.specs.Faults.{are_blank};
ghost use Rattle.script_tree.specs.Grammar.{Spells};
ghost use Rattle.script_tree.specs.ScriptSeen.{plain_script};
ghost use Rattle.script_tree.specs.ScriptText.{ScriptText};
ghost use Rattle.script_parse.specs.Answers.{EachHasOneAnswer, PrintIsRead};
ghost use Rattle.script_parse.specs.Seen.{all_seen};
ghost use Rattle.script_parse.specs.Lookahead.{HasSeen, place_ahead};
ghost use Rattle.script_parse.specs.SeenForms.{seen_form};
ghost use Rattle.script_parse.specs.SeenParts.{seen_reader};
ghost use Rattle.script_parse.specs.Saying.{form_in};
ghost use Rattle.script_parse.specs.States.{seen_state, seen_step, Gives, TellsFault};
ghost use Rattle.script_parse.specs.Reading as reading;

use crate::ahead::{Lookahead, is_text, look_ahead};
use crate::expression::says;
use crate::fault::ScriptError;
use crate::form::{Form, form_of};
use crate::reader::Reader;
use crate::token::{Token, tokens};
use pct_ask::{MAX_LINES, split_lines};
use script_tree::{Script, ScriptFault};
use std::alloc::{AllocError as NoMemory, Global};

/// The most bytes that a script has.
pub const SCRIPT_BYTES: usize = 1_048_576;

/// How far a text was read.
#[derive(Drop)]
enum Progress {
    /// To no header yet.
    Above,
    Below(Reader),
}

/// What a line leads to.
#[derive(Drop)]
enum AfterLine {
    Next(Progress),
    Bad(ScriptFault),
}

/// What a line with a fault leads to: what was read before it is given up.
fn bad(_state: Progress, kind: ScriptFault) -> AfterLine
    ensures { seen_step result ≡ Err kind }
{
    AfterLine::Bad(kind)
}

/// What may be wrong with a line by its bytes and its number alone.
fn bytes_fault(number: u32, line: &[u8]) -> Option<ScriptFault>
    ensures { result ≡ reading.bytes_fault number line.now }
{
    if !is_text(line) {
        Some(ScriptFault::NotUtf8)
    } else if line.len() > 256 {
        Some(ScriptFault::LineTooLong)
    } else if number > MAX_LINES {
        Some(ScriptFault::TooManyLines)
    } else {
        None
    }
}

/// The version of the language that the tokens of a header tell.
fn version_of(tokens: &[Token<'_>]) -> Option<u32>
    ensures { result ≡ version_in (all_seen tokens.now) }
{
    let [Token::Word(word), Token::Number([digit @ b'1'..=b'3'])] = tokens else {
        return None;
    };
    if says(word, b"script") {
        Some(u32::from(*digit - b'0'))
    } else {
        None
    }
}

/// The header, or a blank line above it.
fn read_header(alloc: Global, last: bool, tokens: &[Token<'_>]) -> AfterLine
    ensures { seen_step result ≡ reading.header_taken last (Some (all_seen tokens.now)) }
{
    if tokens.is_empty() {
        return AfterLine::Next(Progress::Above);
    }
    match version_of(tokens) {
        None => AfterLine::Bad(ScriptFault::BadHeader),
        Some(_) if last => AfterLine::Bad(ScriptFault::NoThread),
        Some(version) => AfterLine::Next(Progress::Below(Reader::new(alloc, version))),
    }
}

/// A blank line below the header.
fn read_blank(reader: Reader, last: bool) -> AfterLine
    ensures { seen_step result
        ≡ reading.some_part
        (reading.after_fault (reading.blank_fault (seen_reader reader) last) (seen_reader reader)) }
{
    match reader.blank_fault(last) {
        Some(kind) => bad(Progress::Below(reader), kind),
        None => AfterLine::Next(Progress::Below(reader)),
    }
}

/// A line below the header that has a form.
fn read_form(
    alloc: Global,
    reader: Reader,
    ahead: &Lookahead<'_>,
    number: u32,
    last: bool,
    tokens: &[Token<'_>],
    form: &Form<'_>,
) -> Result<AfterLine, NoMemory>
    requires { form_in reader.version (all_seen tokens.now) ≡ Some (seen_form form.now) }
    ensures { IfOk result (λ step.
        seen_step step
        ≡ reading.some_part
        (reading.tokens_taken (seen_reader reader) (place_ahead ahead.now) number last
        (Some (all_seen tokens.now)))) }
{
    match reader.fault_of(ahead, last, tokens, form) {
        Some(kind) => Ok(bad(Progress::Below(reader), kind)),
        None => Ok(AfterLine::Next(Progress::Below(reader.take(alloc, ahead, number, form)?))),
    }
}

/// A line below the header.
fn read_below(
    alloc: Global,
    reader: Reader,
    ahead: &Lookahead<'_>,
    number: u32,
    last: bool,
    tokens: &[Token<'_>],
) -> Result<AfterLine, NoMemory>
    ensures { IfOk result (λ step.
        seen_step step
        ≡ reading.some_part
        (reading.tokens_taken (seen_reader reader) (place_ahead ahead.now) number last
        (Some (all_seen tokens.now)))) }
{
    if tokens.is_empty() {
        return Ok(read_blank(reader, last));
    }
    match form_of(alloc, reader.version(), tokens)? {
        None => Ok(bad(Progress::Below(reader), ScriptFault::BadStatement)),
        Some(form) => {
            let step = read_form(alloc, reader, ahead, number, last, tokens, &form);
            drop(form);
            step
        }
    }
}

/// The fault of a line that can't be cut into tokens.
fn uncut_fault(state: &Progress) -> ScriptFault
    ensures { result ≡ reading.uncut_fault (seen_state state.now) }
{
    match state {
        Progress::Above => ScriptFault::BadHeader,
        Progress::Below(_) => ScriptFault::BadToken,
    }
}

/// Takes the next line by its tokens.
fn read_tokens(
    alloc: Global,
    state: Progress,
    ahead: &Lookahead<'_>,
    number: u32,
    tokens: &[Token<'_>],
) -> Result<AfterLine, NoMemory>
    ensures { IfOk result (λ step.
        seen_step step ≡ reading.line_said (seen_state state) (place_ahead ahead.now) number
        (number == ahead.now.lines) (Some (all_seen tokens.now))) }
{
    let last = number == ahead.lines();
    match state {
        Progress::Above => Ok(read_header(alloc, last, tokens)),
        Progress::Below(reader) => read_below(alloc, reader, ahead, number, last, tokens),
    }
}

/// Takes the next line.
fn read_line(
    alloc: Global,
    state: Progress,
    ahead: &Lookahead<'_>,
    number: u32,
    line: &[u8],
) -> Result<AfterLine, NoMemory>
    ensures { IfOk result (λ step.
        seen_step step ≡ reading.line_taken (seen_state state) (place_ahead ahead.now) number
        (number == ahead.now.lines) line.now) }
{
    if let Some(kind) = bytes_fault(number, line) {
        return Ok(bad(state, kind));
    }
    match tokens(alloc, line)? {
        None => {
            let kind = uncut_fault(&state);
            Ok(bad(state, kind))
        }
        Some(tokens) => read_tokens(alloc, state, ahead, number, &tokens),
    }
}

fn read_lines(alloc: Global, ahead: &Lookahead<'_>, bytes: &[u8]) -> Result<Script, ScriptError>
    requires seen { HasSeen ahead.now (lines_of bytes.now) }
    requires small { length bytes.now ≤ 1048576 }
    requires says { are_blank (lines_of bytes.now) ≡ false }
    ensures { Gives result (reading.read_as_script bytes.now) }
{
    let mut state = Progress::Above;
    let mut number = 1;
    for line in split_lines(bytes) {
        match read_line(alloc, state, ahead, number, line)? {
            AfterLine::Bad(kind) => return Err(ScriptError::Bad { line: number, kind }),
            AfterLine::Next(next) => state = next,
        }
        number += 1;
    }
    match state {
        Progress::Above => Err(ScriptError::Bad {
            line: 1,
            kind: ScriptFault::BadHeader,
        }),
        Progress::Below(reader) => Ok(reader.finish()),
    }
}

/// The fault of the first line, where all lines are blank.
fn blank_text_fault(bytes: &[u8]) -> ScriptFault
    ensures { result ≡ reading.blank_text_fault (lines_of bytes.now) }
{
    match split_lines(bytes).next() {
        None => ScriptFault::BadHeader,
        Some(first) => bytes_fault(1, first).unwrap_or(ScriptFault::BadHeader),
    }
}

fn read_text(alloc: Global, bytes: &[u8]) -> Result<Script, ScriptError>
    ensures { Gives result (reading.read_as_script bytes.now) }
{
    if bytes.len() > SCRIPT_BYTES {
        return Err(ScriptError::Bad {
            line: 1,
            kind: ScriptFault::TooMany,
        });
    }
    let ahead = look_ahead(alloc, bytes)?;
    if ahead.is_blank() {
        return Err(ScriptError::Bad {
            line: 1,
            kind: blank_text_fault(bytes),
        });
    }
    read_lines(alloc, &ahead, bytes)
}

/// The script that a text spells, or its first fault.
pub fn parse(alloc: Global, bytes: &[u8]) -> Result<Script, ScriptError>
    ensures found { IfOk result (λ script. Spells bytes.now (plain_script script)) }
    ensures only { (script : ScriptText) → Spells bytes.now script
        → IfOk result (λ s. plain_script s ≡ script) }
    ensures fault { IfErr result (λ error. TellsFault error bytes.now) }
{
    read_text(alloc, bytes)
}

/// A law of the language, and no work: each text spells one script or has one first fault, and
/// never both.
pub fn one_answer()
    ensures { EachHasOneAnswer }
{}

/// A law of the language, and no work: what is printed of a script, where it is no longer than a
/// script may be, spells that script with the lines of the print, and nothing else. So it is parsed
/// as that.
pub fn print_is_read()
    ensures { PrintIsRead }
{}
