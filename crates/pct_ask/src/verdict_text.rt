//! A verdict as a text.

ghost use Rattle.std.specs.Prelude.{◌≡◌, ◌++◌, ◌<◌, length, codes, OnOk, OnErr, All};
ghost use Rattle.std.specs.Prelude.{map};
ghost use Rattle.std.specs.List.{flat_map};
ghost use Rattle.pct_ask.specs.VerdictText.{misuse_word, fault_word, HasNames, IsWholeVerdict};
ghost use Rattle.pct_ask.specs.VerdictText.{verdict_text};
ghost use Rattle.pct_ask.specs.VerdictPieces.{IsStartOf, Rises, place_piece, HasName};
ghost use Rattle.pct_ask.specs.Places.{AreRising};
ghost use Rattle.pct_ask.specs.VerdictRead.{ReadsAs};

use crate::ask::FaultKind;
use crate::blocked::Blocked;
use crate::limits::MAX_THREADS;
use crate::names::{NameKind, Names};
use crate::spaced::write_spaced_word;
use crate::verdict::{MisuseKind, Verdict};
use crate::verdict_words::{
    ALREADY_STARTED, CUT, FAILED, FAULT, MISUSE, NOT_OWNER, OVERFLOW, PASSED, SEM_FULL, SPIN,
    STUCK, TOO_MANY_READS, ZERO_DIVISOR, read_words,
};
use itoa::Buffer;
use std::alloc::AllocError as NoMemory;

/// What a text is read as.
#[derive(Clone, Copy, Debug, PartialEq, Eq, Hash)]
pub enum VerdictRead {
    Is(Verdict),
    /// It is no verdict's text, whatever the threads are.
    NoForm,
    /// It would be a verdict's text, if each name in it were a thread's.
    UnknownName,
}

/// Reads a verdict's text.
pub fn read_verdict(text: &[u8], names: &Names) -> VerdictRead
    ensures read { ReadsAs names.now text.now result }
    ensures only { (other : VerdictRead) → ReadsAs names.now text.now other → result ≡ other }
{
    read_words(text, names)
}

/// Writes a verdict's text at the end. After an `Err` the bytes are as before.
pub fn write_verdict(verdict: &Verdict, names: &Names, out: &mut Vec<u8>) -> Result<(), NoMemory>
    requires named { HasNames names.now verdict.now }
    requires whole { IsWholeVerdict verdict.now }
    ensures written { OnOk result
        (out.new.items ≡ out.old.items ++ verdict_text names.now verdict.now) }
    ensures unchanged { OnErr result (out.new.items ≡ out.old.items) }
    ensures read_back { OnOk result
        (ReadsAs names.now (verdict_text names.now verdict.now) (VerdictRead.Is verdict.now)) }
{
    // The names are lawful, and so what is written can be read.
    let _ = names.count(NameKind::Thread);
    let before = out.len();
    let written = push_verdict(verdict, names, out);
    if written.is_err() {
        out.truncate(before);
    }
    written
}

fn push_verdict(verdict: &Verdict, names: &Names, out: &mut Vec<u8>) -> Result<(), NoMemory>
    requires { HasNames names.now verdict.now }
    ensures written { OnOk result
        (out.new.items ≡ out.old.items ++ verdict_text names.now verdict.now) }
    ensures begun { OnErr result (IsStartOf out.old.items out.new.items) }
    ensures rising { OnOk result (Rises verdict.now) }
{
    match verdict {
        Verdict::Passed => out.extend_from_slice(PASSED),
        Verdict::Failed { thread, line } => push_placed(FAILED, *thread, *line, names, out),
        Verdict::Stuck { blocked } => push_stuck(blocked, names, out),
        Verdict::Misuse { thread, line, kind } => {
            push_placed(MISUSE, *thread, *line, names, out)?;
            write_spaced_word(misuse_word(*kind), out)
        }
        Verdict::Fault { thread, line, kind } => {
            push_placed(FAULT, *thread, *line, names, out)?;
            write_spaced_word(fault_word(*kind), out)
        }
        Verdict::Cut => out.extend_from_slice(CUT),
    }
}

fn push_stuck(blocked: &Blocked, names: &Names, out: &mut Vec<u8>) -> Result<(), NoMemory>
    requires { All (HasName names.now) (map (λ place. place.0) blocked.now) }
    ensures written { OnOk result
        (out.new.items
        ≡ out.old.items ++ codes "stuck" ++ flat_map (place_piece names.now) blocked.now) }
    ensures begun { OnErr result (IsStartOf out.old.items out.new.items) }
    ensures rising { OnOk result (AreRising blocked.now) }
{
    out.extend_from_slice(STUCK)?;
    for thread in 0..MAX_THREADS as u32 {
        if let Some(line) = blocked.get(thread) {
            push_place(thread, line, names, out)?;
        }
    }
    Ok(())
}

fn push_placed(
    head: &[u8],
    thread: u32,
    line: u32,
    names: &Names,
    out: &mut Vec<u8>,
) -> Result<(), NoMemory>
    requires { thread < length names.now.threads }
    ensures written { OnOk result
        (out.new.items ≡ out.old.items ++ head.now ++ place_piece names.now (thread, line)) }
    ensures begun { OnErr result (IsStartOf out.old.items out.new.items) }
{
    out.extend_from_slice(head)?;
    push_place(thread, line, names, out)
}

fn push_place(thread: u32, line: u32, names: &Names, out: &mut Vec<u8>) -> Result<(), NoMemory>
    requires { thread < length names.now.threads }
    ensures written { OnOk result
        (out.new.items ≡ out.old.items ++ place_piece names.now (thread, line)) }
    ensures begun { OnErr result (IsStartOf out.old.items out.new.items) }
{
    let mut buffer = Buffer::new();
    write_spaced_word(names.name(NameKind::Thread, thread).unwrap(), out)?;
    write_spaced_word(buffer.format(line).as_bytes(), out)
}

fn misuse_word(kind: MisuseKind) -> &'static [u8]
    ensures { result.now ≡ misuse_word kind }
{
    match kind {
        MisuseKind::NotOwner => NOT_OWNER,
        MisuseKind::SemFull => SEM_FULL,
        MisuseKind::AlreadyStarted => ALREADY_STARTED,
        MisuseKind::TooManyReads => TOO_MANY_READS,
    }
}

/// The word for a fault, in verdicts and in asks.
pub fn fault_word(kind: FaultKind) -> &'static [u8]
    ensures { result.now ≡ fault_word kind }
{
    match kind {
        FaultKind::Overflow => OVERFLOW,
        FaultKind::ZeroDivisor => ZERO_DIVISOR,
        FaultKind::Spin => SPIN,
    }
}
