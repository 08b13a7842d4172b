//! `certify`: whether every order that places a directive's thread last leads to its verdict.

ghost use Rattle.std.specs.Prelude.{◌≡◌, ℕ, [], ◌∷◌, ◌++◌, List, map, OnOk, IfOk, Some, take};
ghost use Rattle.std.specs.Prelude.{codes, decimal};
ghost use Rattle.directive.specs.Answers.{plain_directive as plain};
ghost use Rattle.directive.specs.Directive.{IsDirective};
ghost use Rattle.pct_ask.specs.TraceText.{line_text};
ghost use Rattle.pct_ask.specs.VerdictText.{thread_name, named_verdict, verdict_words, HasNames};
ghost use Rattle.pct_ask.specs.VerdictText.{IsWholeVerdict};
ghost use Rattle.script_tree.specs.ScriptSeen.{plain_script};
ghost use Rattle.trace_text.specs.Spaced.{behind_spaces};
ghost use Rattle.pct_top.specs.Printed.{directive_bytes};
ghost use Rattle.pct_top.specs.Files.{Misses};
ghost use Rattle.pct_top.specs.Reads.{KeepsFile, is_missed};
ghost use Rattle.pct_top.specs.CommandOutput.{printed_of, Comes};
ghost use Rattle.pct_top.specs.commands.Certify.{order_words, certificate_row_words, bound_words};
ghost use Rattle.pct_top.specs.commands.Certify.{certificate_text, is_certified as is_certified_by};
ghost use Rattle.pct_top.specs.commands.Certify.{PrintsCertificate, OfCertify};
ghost use Rattle.pct_top.specs.commands.KnownCertificate.{IsKnownCertificate};

use crate::command_output::CommandOutput;
use crate::files::read_directed;
use crate::lines::{push_count, push_number, push_verdict};
use crate::refusal::Refusal;
use crate::test::ReadyTest;
use crate::text::Text;
use directive::Directive;
use directive_run::{Certified, CertifyRow, certify_by};
use itoa::Buffer;
use pct_ask::{Limit, NameKind, Names, Verdict, name_at, write_spaced_word};
use pct_outside::{Gate, Shelf};
use std::alloc::{AllocError as NoMemory, Global};
use std::sync::Wait;
use std::thread::Threads;
use worker_run::Serve;

/// An order's names, each behind a space.
fn push_names(out: &mut Vec<u8>, names: &Names, order: &[u32]) -> Result<(), NoMemory>
    ensures { OnOk result (out.new.items
        ≡ out.old.items ++ behind_spaces (map (thread_name names.now) order.now)) }
{
    for thread in order {
        write_spaced_word(name_at(names, NameKind::Thread, *thread), out)?;
    }
    Ok(())
}

/// The end of a row's line: its points.
fn push_points(out: &mut Vec<u8>, points: &[u32]) -> Result<(), NoMemory>
    ensures { OnOk result (out.new.items
        ≡ out.old.items ++ line_text (codes "points" ∷ map decimal points.now)) }
{
    out.extend_from_slice(b"points")?;
    for point in points {
        push_number(out, *point)?;
    }
    out.push(b'\n')?;
    Ok(())
}

/// The line of an order and its points.
fn push_row(out: &mut Vec<u8>, names: &Names, row: &CertifyRow) -> Result<(), NoMemory>
    ensures { OnOk result (out.new.items
        ≡ out.old.items ++ line_text (certificate_row_words names.now row.now)) }
{
    out.extend_from_slice(b"order")?;
    push_names(out, names, row.order.as_slice())?;
    out.push(b' ')?;
    push_points(out, row.points.as_slice())
}

/// The line of the bound.
fn push_bound(out: &mut Vec<u8>, bound: u128) -> Result<(), NoMemory>
    ensures { OnOk result (out.new.items ≡ out.old.items ++ line_text (bound_words bound)) }
{
    let mut buffer = Buffer::new();
    out.extend_from_slice(b"certified 1 in ")?;
    out.extend_from_slice(buffer.format(bound).as_bytes())?;
    out.push(b'\n')?;
    Ok(())
}

/// The line of an order that leads to another verdict.
fn push_refuted(
    out: &mut Vec<u8>,
    names: &Names,
    order: &[u32],
    verdict: &Verdict,
) -> Result<(), NoMemory>
    requires threads { HasNames names.now verdict.now }
    requires whole { IsWholeVerdict verdict.now }
    ensures { OnOk result (out.new.items ≡ out.old.items
        ++ line_text (codes "refuted" ∷ order_words names.now order.now
        ++ codes "verdict" ∷ verdict_words (named_verdict names.now verdict.now))) }
{
    out.extend_from_slice(b"refuted order")?;
    push_names(out, names, order)?;
    out.push(b' ')?;
    push_verdict(out, names, "verdict", verdict)
}

/// The line of an order under which the run has too many steps.
fn push_long(out: &mut Vec<u8>, names: &Names, order: &[u32], steps: u32) -> Result<(), NoMemory>
    ensures { OnOk result (out.new.items ≡ out.old.items
        ++ line_text (codes "toolong" ∷ order_words names.now order.now
        ++ codes "steps" ∷ decimal steps ∷ [])) }
{
    out.extend_from_slice(b"toolong order")?;
    push_names(out, names, order)?;
    out.push(b' ')?;
    push_count(out, "steps", steps)
}

/// The lines of a certificate.
fn write_certificate(
    alloc: Global,
    names: &Names,
    certified: &Certified,
) -> Result<Vec<u8>, NoMemory>
    requires { IsKnownCertificate names.now certified.now }
    ensures { IfOk result (λ text. text.items ≡ certificate_text names.now certified.now) }
{
    let mut text = Vec::new(alloc);
    match certified {
        Certified::Yes { bound, rows } => {
            for row in rows.as_slice() {
                push_row(&mut text, names, row)?;
            }
            push_bound(&mut text, *bound)?;
        }
        Certified::Refuted { order, verdict } => {
            push_refuted(&mut text, names, order.as_slice(), verdict)?;
        }
        Certified::TooLong { order, steps } => {
            push_long(&mut text, names, order.as_slice(), *steps)?;
        }
        Certified::TooManyThreads { threads } => push_count(&mut text, "toomany", *threads)?,
    }
    Ok(text)
}

fn is_certified(certified: &Certified) -> bool
    ensures { result ≡ is_certified_by certified.now }
{
    matches!(certified, Certified::Yes { .. })
}

/// The certificate of the directive of a file over a script, for runs of at most `steps` steps.
#[derive(Debug, Drop)]
pub struct CertifyJob {
    pub directive: Text,
    pub steps: Limit,
    pub limit: Limit,
    pub serve: Serve,
}

impl CertifyJob {
    fn certificate_of<R: Threads + Wait + Sync, G: Gate>(
        &self,
        rt: &R,
        alloc: Global,
        test: &ReadyTest,
        directive: &Directive,
        gate: &G,
    ) -> Result<CommandOutput, NoMemory>
        requires { (bytes : List ℕ)
            × IsDirective bytes (plain_script test.now.script).names (plain directive.now) }
        ensures { IfOk result (λ output. PrintsCertificate (plain_script test.now.script)
            test.now.deal self.now.steps self.now.limit directive.now (printed_of output)) }
    {
        let certified = certify_by(
            rt, alloc, &test.code, &test.deal, directive, self.steps, self.limit, self.serve, gate,
        )?;
        let text = write_certificate(alloc, test.script.names(), &certified)?;
        let done = is_certified(&certified);
        Ok(CommandOutput { text, done })
    }

    pub fn certify_file<R: Threads + Wait + Sync, H: Shelf, G: Gate>(
        &self,
        rt: &R,
        alloc: Global,
        test: &ReadyTest,
        directive: &str,
        shelf: &mut H,
        gate: &G,
    ) -> Result<CommandOutput, Refusal>
        ensures comes { Comes
            (λ files. OfCertify (take directive_bytes (files directive.now)) self.now.steps
            self.now.limit (plain_script test.now.script) test.now.deal)
            (H.told shelf.old).files
            (Misses (Some directive.now) (H.told shelf.old).failed (H.told shelf.new).failed) result }
        ensures keeps { KeepsFile (Some directive.now) (is_missed result) (H.told shelf.old)
            (H.told shelf.new) }
        ensures files { (H.told shelf.new).files ≡ (H.told shelf.old).files }
    {
        let plan = read_directed(alloc, directive, test.script.names(), shelf)?;
        Ok(self.certificate_of(rt, alloc, test, &plan, gate)?)
    }
}
