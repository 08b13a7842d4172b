//! The words of a verdict's text, read one after another.

ghost use Rattle.std.specs.Prelude.{◌≡◌, ◌<◌, ◌≤◌, ◌==◌, ◌∷◌, None, Some, false, [], length};
ghost use Rattle.std.specs.Prelude.{position, MatchOption, IfSome};
ghost use Rattle.pct_ask.specs.NameLists.{AreNames};
ghost use Rattle.pct_ask.specs.VerdictWords.{words_of, words_after, length_with_space, line_number};
ghost use Rattle.pct_ask.specs.VerdictWords.{first_place, misuse_kind, fault_kind};
ghost use Rattle.pct_ask.specs.VerdictWords.{placed_kind, verdict_at, placed_words, stuck_words};
ghost use Rattle.pct_ask.specs.VerdictWords.{bare_word, verdict_of_words};
ghost use Rattle.pct_ask.specs.declared.limits.TheConstants.{MAX_THREADS};

use crate::ask::FaultKind;
use crate::blocked::Blocked;
use crate::limits::MAX_LINES;
use crate::names::{NameKind, Names};
use crate::number::number_in;
use crate::verdict::{MisuseKind, Verdict};
use crate::verdict_text::VerdictRead;
use crate::words::is_lawful_name;

pub const PASSED: &[u8] = b"passed";

pub const FAILED: &[u8] = b"failed";

pub const STUCK: &[u8] = b"stuck";

pub const MISUSE: &[u8] = b"misuse";

pub const FAULT: &[u8] = b"fault";

pub const CUT: &[u8] = b"cut";

pub const NOT_OWNER: &[u8] = b"notowner";

pub const SEM_FULL: &[u8] = b"semfull";

pub const ALREADY_STARTED: &[u8] = b"alreadystarted";

pub const TOO_MANY_READS: &[u8] = b"toomanyreads";

pub const OVERFLOW: &[u8] = b"overflow";

pub const ZERO_DIVISOR: &[u8] = b"zerodivisor";

pub const SPIN: &[u8] = b"spin";

/// What a verdict says of one thread at one line.
#[derive(Clone, Copy)]
pub enum PlacedKind {
    Failure,
    Misused(MisuseKind),
    Faulted(FaultKind),
}

/// A thread's name and a line at the front of a text.
#[derive(Clone, Copy)]
struct PlaceRead<'a> {
    /// The thread, where the name is one's.
    thread: Option<u32>,
    line: u32,
    /// What follows.
    rest: Option<&'a [u8]>,
}

/// Reads the words of a text, which one space separates.
pub fn read_words(text: &[u8], names: &Names) -> VerdictRead
    ensures words { result ≡ verdict_of_words names.now (words_of text.now) }
    ensures lawful { AreNames names.now }
{
    let _ = names.count(NameKind::Thread);
    let (head, rest) = cut_word(text);
    match rest {
        None => read_bare(head),
        Some(rest) if head == STUCK => read_stuck(rest, names),
        Some(rest) => read_placed(head, rest, names),
    }
}

fn read_bare(head: &[u8]) -> VerdictRead
    ensures { result ≡ bare_word head.now }
{
    if head == PASSED {
        VerdictRead::Is(Verdict::Passed)
    } else if head == CUT {
        VerdictRead::Is(Verdict::Cut)
    } else {
        VerdictRead::NoForm
    }
}

fn read_placed(head: &[u8], rest: &[u8], names: &Names) -> VerdictRead
    ensures { result ≡ placed_words head.now (first_place names.now (words_of rest.now)) }
{
    let Some(place) = read_place(rest, names) else {
        return VerdictRead::NoForm;
    };
    let Some(kind) = read_kind(head, place.rest) else {
        return VerdictRead::NoForm;
    };
    match place.thread {
        Some(thread) => VerdictRead::Is(verdict_at(kind, thread, place.line)),
        None => VerdictRead::UnknownName,
    }
}

fn verdict_at(kind: PlacedKind, thread: u32, line: u32) -> Verdict
    ensures { result ≡ verdict_at kind thread line }
{
    match kind {
        PlacedKind::Failure => Verdict::Failed { thread, line },
        PlacedKind::Misused(kind) => Verdict::Misuse { thread, line, kind },
        PlacedKind::Faulted(kind) => Verdict::Fault { thread, line, kind },
    }
}

fn read_kind(head: &[u8], rest: Option<&[u8]>) -> Option<PlacedKind>
    ensures { result ≡ placed_kind head.now (words_after rest.entry) }
{
    let Some(rest) = rest else {
        return (head == FAILED).then_some(PlacedKind::Failure);
    };
    let (word, end) = cut_word(rest);
    if end.is_some() {
        None
    } else if head == MISUSE {
        Some(PlacedKind::Misused(read_misuse(word)?))
    } else if head == FAULT {
        Some(PlacedKind::Faulted(fault_kind(word)?))
    } else {
        None
    }
}

fn read_misuse(word: &[u8]) -> Option<MisuseKind>
    ensures { result ≡ misuse_kind word.now }
{
    if word == NOT_OWNER {
        Some(MisuseKind::NotOwner)
    } else if word == SEM_FULL {
        Some(MisuseKind::SemFull)
    } else if word == ALREADY_STARTED {
        Some(MisuseKind::AlreadyStarted)
    } else if word == TOO_MANY_READS {
        Some(MisuseKind::TooManyReads)
    } else {
        None
    }
}

/// The fault that a word stands for, in verdicts and in asks.
pub fn fault_kind(word: &[u8]) -> Option<FaultKind>
    ensures { result ≡ fault_kind word.now }
{
    if word == OVERFLOW {
        Some(FaultKind::Overflow)
    } else if word == ZERO_DIVISOR {
        Some(FaultKind::ZeroDivisor)
    } else if word == SPIN {
        Some(FaultKind::Spin)
    } else {
        None
    }
}

fn read_stuck(text: &[u8], names: &Names) -> VerdictRead
    ensures { result ≡ stuck_words names.now 0 [] false (words_of text.now) }
{
    let mut blocked = Blocked::new();
    let mut unknown = false;
    let mut least = 0;
    let mut rest = Some(text);
    'places: while let Some(text) = rest {
        let Some(place) = read_place(text, names) else {
            return VerdictRead::NoForm;
        };
        match place.thread {
            None => unknown = true,
            Some(thread) => {
                if thread < least {
                    return VerdictRead::NoForm;
                }
                blocked.push(thread, place.line);
                least = thread + 1;
            }
        }
        rest = place.rest;
    }
    if unknown {
        VerdictRead::UnknownName
    } else {
        VerdictRead::Is(Verdict::Stuck { blocked })
    }
}

fn read_place<'a>(text: &'a [u8], names: &Names) -> Option<PlaceRead<'a>>
    ensures place { MatchOption result (first_place names.now (words_of text.now) ≡ None) (λ p.
        first_place names.now (words_of text.now) ≡ Some (p.thread, p.line, words_after p.rest)) }
    ensures few { IfSome result (λ p. IfSome p.thread (λ thread. thread < MAX_THREADS)) }
    ensures shorter { IfSome result (λ p. length_with_space p.rest ≤ length text.now) }
{
    let (name, after) = cut_word(text);
    let (line, rest) = cut_word(after?);
    if !is_lawful_name(1, name) {
        return None;
    }
    let line = line_number(line)?;
    let thread = names.find(NameKind::Thread, name);
    Some(PlaceRead { thread, line, rest })
}

/// The number of a line of a test, from 1 to 4096.
pub fn line_number(word: &[u8]) -> Option<u32>
    ensures { result ≡ line_number word.now }
{
    let number = number_in(1, u64::from(MAX_LINES), word)?;
    Some(number as u32)
}

// The first word, and what comes after the space that ends it.
fn cut_word(text: &[u8]) -> (&[u8], Option<&[u8]>)
    ensures words { words_of text.now ≡ result.0.now ∷ words_after result.1 }
    ensures shorter { length_with_space result.1 ≤ length text.now }
{
    match first_space(text) {
        Some(end) => (&text[..end], Some(&text[end + 1..])),
        None => (text, None),
    }
}

fn first_space(text: &[u8]) -> Option<usize>
    ensures { result ≡ position (λ b. b == 32) text.now }
{
    text.iter().position(|b| *b == b' ')
}
