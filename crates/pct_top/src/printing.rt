//! What is put on the output and the error stream.

ghost use Rattle.std.specs.Prelude.{◌≡◌, ◌≤◌, ◌<◌, ◌+◌, [], ◌∷◌, ◌++◌, length, codes, decimal, Err};
ghost use Rattle.std.specs.Prelude.{OnOk, OnErr};
ghost use Rattle.arrayvec.specs.ArrayString.{array_string_len};
ghost use Rattle.pct_top.specs.Refusing as refusing;
ghost use Rattle.pct_top.specs.Refusing.{refusal_line};
ghost use Rattle.pct_top.specs.Saying.{SaysLine};
ghost use Rattle.pct_outside.specs.Counter.{Rose};
ghost use Rattle.pct_outside.specs.Puts.{IsPut, IsPartWritten, IsPutWhole, IsPutInPart};

use crate::refusal::Refusal;
use arrayvec::ArrayString;
use directive::DirectiveFault;
use itoa::Buffer;
use pct_outside::{Sink, SinkError, put_whole};
use script_parse::ScriptFault;
use trace_text::TraceFault;

/// How many bytes the first line of a text has, with its LF.
fn line_length(text: &[u8]) -> usize
    requires { 0 < length text.now }
    ensures some { 0 < result }
    ensures within { result ≤ length text.now }
{
    match text.iter().position(|byte| *byte == b'\n') {
        Some(end) => end + 1,
        None => text.len(),
    }
}

/// Puts a text on a sink, one line at a time. Nothing is put after a put that was refused.
fn put_lines<O: Sink>(out: &mut O, text: &[u8]) -> Result<(), SinkError>
    ensures whole { OnOk result (IsPut text.now (O.told out.old) (O.told out.new)) }
    ensures part { OnErr result (IsPartWritten text.now (O.told out.old) (O.told out.new)) }
    ensures failed { result ≡ Err SinkError.Failed
        → Rose (O.told out.old).faults (O.told out.new).faults }
    ensures short { result ≡ Err SinkError.NoMemory
        → Rose (O.told out.old).shorts (O.told out.new).shorts }
    ensures faults { (O.told out.old).faults ≤ (O.told out.new).faults }
    ensures shorts { (O.told out.old).shorts ≤ (O.told out.new).shorts }
{
    let mut rest = text;
    while !rest.is_empty() {
        let (line, others) = rest.split_at(line_length(rest));
        match out.put(line) {
            Ok(()) => rest = others,
            Err(error) => return Err(error),
        }
    }
    Ok(())
}

/// Puts a text as `put_lines` does, and writes what the sink gathers of it.
pub fn put_text<O: Sink>(out: &mut O, text: &[u8]) -> Result<(), SinkError>
    ensures whole { OnOk result (IsPutWhole text.now (O.told out.old) (O.told out.new)) }
    ensures part { OnErr result (IsPutInPart text.now (O.told out.old) (O.told out.new)) }
    ensures failed { result ≡ Err SinkError.Failed
        → Rose (O.told out.old).faults (O.told out.new).faults }
    ensures short { result ≡ Err SinkError.NoMemory
        → Rose (O.told out.old).shorts (O.told out.new).shorts }
{
    match put_lines(out, text) {
        Ok(()) => out.finish(),
        Err(error) => Err(error),
    }
}

/// A line of the error stream, which takes no memory.
type Line = ArrayString<64>;

fn push_count(line: &mut Line, count: u32)
    requires { array_string_len line.old + 10 ≤ 64 }
    ensures bytes { line.new.bytes ≡ line.old.bytes ++ decimal count }
    ensures short { array_string_len line.new ≤ array_string_len line.old + 10 }
{
    let mut buffer = Buffer::new();
    line.push_str(buffer.format(count));
}

fn usage_line(word: u32) -> Line
    ensures { result.bytes ≡ refusal_line (Refusal.Usage word) }
{
    let mut line = Line::new();
    line.push_str("usage: word ");
    push_count(&mut line, word);
    line.push_str("\n");
    line
}

fn script_fault_name(kind: ScriptFault) -> &'static str
    ensures name { result.now ≡ refusing.script_fault_name kind }
    ensures short { length result.now ≤ 20 }
{
    match kind {
        ScriptFault::NotUtf8 => "NotUtf8",
        ScriptFault::LineTooLong => "LineTooLong",
        ScriptFault::TooManyLines => "TooManyLines",
        ScriptFault::BadHeader => "BadHeader",
        ScriptFault::BadToken => "BadToken",
        ScriptFault::BadStatement => "BadStatement",
        ScriptFault::UnknownName => "UnknownName",
        ScriptFault::TwiceNamed => "TwiceNamed",
        ScriptFault::NumberRange => "NumberRange",
        ScriptFault::NoEnd => "NoEnd",
        ScriptFault::StrayEnd => "StrayEnd",
        ScriptFault::NoThread => "NoThread",
        ScriptFault::TooMany => "TooMany",
    }
}

fn trace_fault_name(kind: TraceFault) -> &'static str
    ensures name { result.now ≡ refusing.trace_fault_name kind }
    ensures short { length result.now ≤ 20 }
{
    match kind {
        TraceFault::TooLong => "TooLong",
        TraceFault::BadHeader => "BadHeader",
        TraceFault::BadLine => "BadLine",
        TraceFault::UnknownName => "UnknownName",
        TraceFault::OutOfOrder => "OutOfOrder",
        TraceFault::NoVerdict => "NoVerdict",
        TraceFault::MoreAfterVerdict => "MoreAfterVerdict",
    }
}

fn directive_fault_name(kind: DirectiveFault) -> &'static str
    ensures name { result.now ≡ refusing.directive_fault_name kind }
    ensures short { length result.now ≤ 20 }
{
    match kind {
        DirectiveFault::TooLong => "TooLong",
        DirectiveFault::BadHeader => "BadHeader",
        DirectiveFault::BadLine => "BadLine",
        DirectiveFault::UnknownName => "UnknownName",
        DirectiveFault::NoVerdict => "NoVerdict",
        DirectiveFault::MoreAfterVerdict => "MoreAfterVerdict",
    }
}

/// Which line of a file is faulty, and how.
fn fault_line(file: &str, number: u32, name: &str) -> Line
    requires file { length file.now ≤ 20 }
    requires name { length name.now ≤ 20 }
    ensures { result.bytes
        ≡ file.now ++ (codes ": line " ++ decimal number ++ 32 ∷ name.now ++ 10 ∷ []) }
{
    let mut line = Line::new();
    line.push_str(file);
    line.push_str(": line ");
    push_count(&mut line, number);
    line.push_str(" ");
    line.push_str(name);
    line.push_str("\n");
    line
}

fn plain_line(text: &str) -> Line
    requires { length text.now ≤ 64 }
    ensures { result.bytes ≡ text.now }
{
    let mut line = Line::new();
    line.push_str(text);
    line
}

/// The line that says why a call gives no output.
fn line_of(refusal: &Refusal) -> Line
    ensures { result.bytes ≡ refusal_line refusal.now }
{
    match refusal {
        Refusal::Usage { word } => usage_line(*word),
        Refusal::Script { line, kind } => fault_line("script", *line, script_fault_name(*kind)),
        Refusal::Trace { line, kind } => fault_line("trace", *line, trace_fault_name(*kind)),
        Refusal::Directive { line, kind } => {
            fault_line("directive", *line, directive_fault_name(*kind))
        }
        Refusal::Read => plain_line("read fault\n"),
        Refusal::Write => plain_line("write fault\n"),
        Refusal::Memory => plain_line("no memory\n"),
    }
}

/// Says on the error stream why a call gives no output. A put that is refused there changes nothing
/// else.
pub fn say<E: Sink>(err: &mut E, refusal: &Refusal)
    ensures { SaysLine (refusal_line refusal.now)
        (E.told err.old)
        (E.told err.new) }
{
    let line = line_of(refusal);
    let _ = put_whole(err, line.as_bytes());
}
