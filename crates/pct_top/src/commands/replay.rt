//! `replay`: a trace is run again, and the reply is written line by line.

ghost use Rattle.std.specs.Prelude.{◌≡◌, ℕ, ◌∷◌, ◌++◌, List, Some, OnOk, IfOk, take, codes};
ghost use Rattle.pct_ask.specs.TraceText.{line_text};
ghost use Rattle.script_tree.specs.ScriptSeen.{plain_script};
ghost use Rattle.trace_text.specs.Trace.{IsTrace};
ghost use Rattle.pct_top.specs.Printed.{trace_bytes};
ghost use Rattle.pct_top.specs.Files.{Misses};
ghost use Rattle.pct_top.specs.Reads.{KeepsFile, is_missed};
ghost use Rattle.pct_top.specs.CommandOutput.{printed_of, Comes};
ghost use Rattle.pct_top.specs.commands.Replay.{written_words, found_words, reply_text};
ghost use Rattle.pct_top.specs.commands.Replay.{is_confirmed as is_confirmed_by, PrintsReply};
ghost use Rattle.pct_top.specs.commands.Replay.{OfReplay};
ghost use Rattle.pct_top.specs.commands.KnownReply.{IsKnownWritten, IsKnownFound, IsKnownReply};

use crate::command_output::CommandOutput;
use crate::files::read_told;
use crate::lines::{push_count, push_thread, push_verdict};
use crate::refusal::Refusal;
use crate::test::ReadyTest;
use crate::text::Text;
use pct_ask::Names;
use pct_outside::{Gate, Shelf};
use replay_run::{Found, Replayed, Written, replay};
use std::alloc::{AllocError as NoMemory, Global};
use std::sync::Wait;
use std::thread::Threads;
use trace_text::{TraceFile, write_step};

/// The line of what the trace has at a step.
fn push_written(
    out: &mut Vec<u8>,
    names: &Names,
    step: u32,
    written: &Written,
) -> Result<(), NoMemory>
    requires { IsKnownWritten names.now written.now }
    ensures { OnOk result (out.new.items
        ≡ out.old.items ++ line_text (codes "written" ∷ written_words names.now step written.now)) }
{
    out.extend_from_slice(b"written ")?;
    match written {
        Written::Event(event) => write_step(step, event, names, out),
        Written::Verdict(verdict) => push_verdict(out, names, "verdict", verdict),
    }
}

/// The line of what the run has at a step.
fn push_found(out: &mut Vec<u8>, names: &Names, step: u32, found: &Found) -> Result<(), NoMemory>
    requires { IsKnownFound names.now found.now }
    ensures { OnOk result (out.new.items
        ≡ out.old.items ++ line_text (codes "found" ∷ found_words names.now step found.now)) }
{
    out.extend_from_slice(b"found ")?;
    match found {
        Found::Event(event) => write_step(step, event, names, out),
        Found::NotEnabled { thread } => push_thread(out, names, "notenabled", *thread),
        Found::Goes { thread } => push_thread(out, names, "goes", *thread),
        Found::Over(verdict) => push_verdict(out, names, "verdict", verdict),
    }
}

/// Writes the reply to a trace.
fn write_reply(alloc: Global, names: &Names, reply: &Replayed) -> Result<Vec<u8>, NoMemory>
    requires { IsKnownReply names.now reply.now }
    ensures { IfOk result (λ text. text.items ≡ reply_text names.now reply.now) }
{
    let mut text = Vec::new(alloc);
    match reply {
        Replayed::Confirmed(verdict) => push_verdict(&mut text, names, "confirmed", verdict)?,
        Replayed::Departs {
            step,
            found,
            written,
        } => {
            push_count(&mut text, "departs", *step)?;
            push_written(&mut text, names, *step, written)?;
            push_found(&mut text, names, *step, found)?;
        }
    }
    Ok(text)
}

fn is_confirmed(reply: &Replayed) -> bool
    ensures { result ≡ is_confirmed_by reply.now }
{
    match reply {
        Replayed::Confirmed(_) => true,
        Replayed::Departs { .. } => false,
    }
}

/// The replay of a trace over a test.
fn reply_to<R: Threads + Wait + Sync, G: Gate>(
    rt: &R,
    alloc: Global,
    test: &ReadyTest,
    told: &TraceFile,
    gate: &G,
) -> Result<CommandOutput, NoMemory>
    requires { (bytes : List ℕ) × IsTrace bytes test.now.script.names told.now }
    ensures { IfOk result (λ output.
        PrintsReply (plain_script test.now.script) test.now.deal told.now (printed_of output)) }
{
    let reply = replay(rt, alloc, &test.code, &test.deal, told, gate)?;
    let text = write_reply(alloc, test.script.names(), &reply)?;
    let done = is_confirmed(&reply);
    Ok(CommandOutput { text, done })
}

/// The replay of the trace of a file over a test.
pub fn reply_to_file<R: Threads + Wait + Sync, H: Shelf, G: Gate>(
    rt: &R,
    alloc: Global,
    test: &ReadyTest,
    trace: &str,
    shelf: &mut H,
    gate: &G,
) -> Result<CommandOutput, Refusal>
    ensures comes { Comes
        (λ files.
        OfReplay (take trace_bytes (files trace.now)) (plain_script test.now.script) test.now.deal)
        (H.told shelf.old).files
        (Misses (Some trace.now) (H.told shelf.old).failed (H.told shelf.new).failed) result }
    ensures keeps { KeepsFile (Some trace.now) (is_missed result) (H.told shelf.old)
        (H.told shelf.new) }
    ensures files { (H.told shelf.new).files ≡ (H.told shelf.old).files }
{
    let told = read_told(alloc, trace, test.script.names(), shelf)?;
    Ok(reply_to(rt, alloc, test, &told, gate)?)
}

/// The replay of the trace of a file over a script.
#[derive(Debug, Drop)]
pub struct ReplayJob {
    pub trace: Text,
}
