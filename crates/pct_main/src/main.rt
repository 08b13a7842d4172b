//! The program: the host's words, files and streams, joined to `pct`.
//!
//! What is proved, by call and clause; in parentheses the definitions:
//!
//! - Which words it answers by itself, and with which text: `--help`, `--version`, and `--explain`
//!   before one word; all others are a call of `pct`; the text is put whole, or the refusal is
//!   said, by status; all but the first of the host's words are the words: `Own::of_words`;
//!   `put_answer`; `answer_words`; `words_of`.
#![tactic(auto)]

ghost use Rattle.std.specs.Prelude.{◌≡◌, drop};
ghost use Rattle.pct_outside.specs.Reading.{texts_of};
ghost use Rattle.pct_top.specs.Refusing.{status_of_refusal, refusal_line};
ghost use Rattle.pct_top.specs.Saying.{SaysLine};
ghost use Rattle.pct_main.specs.Own.{IsPut};
ghost use Rattle.pct_main.specs.Answered.{IsCallDone};

mod explanations;
mod own;

use own::Own;
use pct_outside::{HostShelf, HostSink, OpenGate, Shelf, Sink, put_whole};
use pct_top::{Refusal, Status, pct, say};
use std::env::{self, Env};
use std::io::{self, ErrorKind};
use std::process::ExitCode;
use std::sync::Wait;
use std::thread::Threads;

/// The words after the program's own name, which is the first of those that the host gives.
fn words_of(mut given: Vec<String>) -> Vec<String>
    ensures { texts_of result.items ≡ drop 1 (texts_of given.items) }
{
    if !given.is_empty() {
        given.remove(0);
    }
    given
}

/// All words that the host gives.
fn host_words(rt: &(impl Env + AllocGlobal)) -> io::Result<Vec<String>> {
    let mut words = Vec::new(rt.alloc());
    for word in env::args(rt)? {
        words.push(word)?;
    }
    Ok(words)
}

/// Why the words can't be read: one isn't text, or there is no memory.
fn refusal_of(error: &io::Error) -> Refusal {
    match error.kind() {
        ErrorKind::OutOfMemory => Refusal::Memory,
        _ => Refusal::Usage { word: 1 },
    }
}

/// Says why a call gives no output.
fn refuse<E: Sink>(err: &mut E, refusal: &Refusal) -> Status
    ensures status { result ≡ status_of_refusal refusal.now }
    ensures said { SaysLine (refusal_line refusal.now)
        (E.told err.old)
        (E.told err.new) }
{
    say(err, refusal);
    refusal.status()
}

/// The program's own answer, put on the output, or the line that says why not on the error stream.
fn put_answer<O: Sink, E: Sink>(out: &mut O, err: &mut E, text: &str) -> Status
    ensures { IsPut text.now
        (O.told out.old)
        (O.told out.new)
        (E.told err.old)
        (E.told err.new)
        result }
{
    match put_whole(out, text.as_bytes()) {
        Ok(()) => Status::Done,
        Err(error) => refuse(err, &Refusal::from(error)),
    }
}

/// A call of the program with these words: its own answer, or that of `pct`.
fn answer_words<R: AllocGlobal + Threads + Wait + Sync, H: Shelf, O: Sink, E: Sink>(
    rt: &R,
    words: &[String],
    shelf: &mut H,
    out: &mut O,
    err: &mut E,
) -> Status
    ensures { IsCallDone (texts_of words.now)
        (record {
          shelf = H.told shelf.old;
          output = O.told out.old;
          errors = E.told err.old;
        })
        (record {
          shelf = H.told shelf.new;
          output = O.told out.new;
          errors = E.told err.new;
        }) result }
{
    match Own::of_words(words) {
        Some(own) => put_answer(out, err, own.text()),
        None => pct(rt, rt.alloc(), words, shelf, out, err, &OpenGate::new()),
    }
}

/// A call of the program with the host's words.
fn status_of<R: Env + AllocGlobal + Threads + Wait + Sync, H: Shelf, O: Sink, E: Sink>(
    rt: &R,
    shelf: &mut H,
    out: &mut O,
    err: &mut E,
) -> Status {
    match host_words(rt) {
        Ok(given) => answer_words(rt, words_of(given).as_slice(), shelf, out, err),
        Err(error) => refuse(err, &refusal_of(&error)),
    }
}

fn main(rt: HostRuntime) -> ExitCode {
    let mut out = HostSink::output(rt.alloc(), rt.stdout());
    let mut err = HostSink::errors(rt.alloc(), rt.stderr());
    let mut shelf = HostShelf::new(&rt);
    ExitCode::from(status_of(&rt, &mut shelf, &mut out, &mut err) as u8)
}
