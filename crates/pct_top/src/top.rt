//! The top call: from the program's words to what it writes. It knows no command.

ghost use Rattle.std.specs.Prelude.{Ok};
ghost use Rattle.pct_outside.specs.Reading.{texts_of};
ghost use Rattle.pct_top.specs.Settings.{settings, AreLawful};
ghost use Rattle.pct_top.specs.CommandOutput.{printed_of};
ghost use Rattle.pct_top.specs.Printed.{NamedFiles};
ghost use Rattle.pct_top.specs.Reads.{is_missed};
ghost use Rattle.pct_top.specs.Call.{PutsOutput, RefusedFirst, AnswersCall, LeavesShelf, ReadsNone};
ghost use Rattle.pct_top.specs.Call.{IsCall, with_told};

use crate::command_output::CommandOutput;
use crate::dispatch::output_of;
use crate::printing::{put_text, say};
use crate::refusal::Refusal;
use crate::settings::Settings;
use crate::status::Status;
use crate::words::read_words;
use pct_outside::{Gate, Shelf, Sink};
use std::alloc::Global;
use std::sync::Wait;
use std::thread::Threads;

fn put_output<O: Sink>(output: &CommandOutput, out: &mut O) -> Result<Status, Refusal>
    ensures { PutsOutput (printed_of output.now)
        (O.told out.old)
        (O.told out.new)
        result }
{
    put_text(out, output.text.as_slice())?;
    Ok(output.status())
}

/// What the settings ask for, put on the output.
fn print_settings<R: Threads + Wait + Sync, H: Shelf, O: Sink, G: Gate>(
    rt: &R,
    alloc: Global,
    settings: Settings,
    shelf: &mut H,
    out: &mut O,
    gate: &G,
) -> Result<Status, Refusal>
    requires { AreLawful settings }
    ensures answers { AnswersCall (Ok settings)
        (H.told shelf.old)
        (H.told shelf.new)
        (O.told out.old)
        (O.told out.new)
        result }
    ensures unread { ReadsNone (Ok settings) → (files : NamedFiles)
        → AnswersCall (Ok settings)
        (with_told files (H.told shelf.old))
        (H.told shelf.new)
        (O.told out.old)
        (O.told out.new)
        result }
    ensures shelf { LeavesShelf (Ok settings) (is_missed result)
        (H.told shelf.old)
        (H.told shelf.new) }
{
    let output = output_of(rt, alloc, settings, shelf, gate)?;
    put_output(&output, out)
}

/// What the words ask for, put on the output.
fn answer<R: Threads + Wait + Sync, H: Shelf, O: Sink, G: Gate>(
    rt: &R,
    alloc: Global,
    words: &[String],
    shelf: &mut H,
    out: &mut O,
    gate: &G,
) -> Result<Status, Refusal>
    ensures answers { AnswersCall (settings (texts_of words.now))
        (H.told shelf.old)
        (H.told shelf.new)
        (O.told out.old)
        (O.told out.new)
        result }
    ensures unread { ReadsNone (settings (texts_of words.now)) → (files : NamedFiles)
        → AnswersCall (settings (texts_of words.now))
        (with_told files (H.told shelf.old))
        (H.told shelf.new)
        (O.told out.old)
        (O.told out.new)
        result }
    ensures shelf { LeavesShelf (settings (texts_of words.now)) (is_missed result)
        (H.told shelf.old)
        (H.told shelf.new) }
    ensures refused { RefusedFirst (settings (texts_of words.now)) result }
{
    match read_words(alloc, words) {
        Ok(asked) => print_settings(rt, alloc, asked, shelf, out, gate),
        Err(error) => Err(Refusal::from(error)),
    }
}

/// A call of the program with these words, its own name left out: what they ask for is put on the
/// output, or the line that says why not on the error stream.
pub fn pct<R: Threads + Wait + Sync, H: Shelf, O: Sink, E: Sink, G: Gate>(
    rt: &R,
    alloc: Global,
    words: &[String],
    shelf: &mut H,
    out: &mut O,
    err: &mut E,
    gate: &G,
) -> Status
    ensures { IsCall (texts_of words.now)
        (record {
          shelf = H.told shelf.old;
          output = O.told out.old;
          errors = E.told err.old;
        })
        (record {
          shelf = H.told shelf.new;
          output = O.told out.new;
          errors = E.told err.new;
        }) result }
{
    match answer(rt, alloc, words, shelf, out, gate) {
        Ok(status) => status,
        Err(refusal) => {
            say(err, &refusal);
            refusal.status()
        }
    }
}
