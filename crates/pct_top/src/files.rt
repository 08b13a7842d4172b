//! The files of a call.

ghost use Rattle.std.specs.Prelude.{◌≡◌, ◌≤◌, Some, take};
ghost use Rattle.script_tree.specs.Layout.{layout};
ghost use Rattle.large_script.specs.Large.{large_script};
ghost use Rattle.pct_top.specs.Printed.{script_bytes};
ghost use Rattle.pct_top.specs.Files.{GivesTest, GivesText, GivesTrace, GivesDirective, Misses};
ghost use Rattle.pct_top.specs.Reads.{KeepsFile, is_missed};

use crate::refusal::Refusal;
use crate::test::ReadyTest;
use directive::{Directive, read_directive};
use large_script::print_large;
use pct_ask::Names;
use pct_outside::Shelf;
use script_parse::{SCRIPT_BYTES, parse};
use std::alloc::Global;
use trace_text::{TraceFile, read_trace};

/// One byte more than a script may have.
const READ_BYTES: u64 = SCRIPT_BYTES as u64 + 1;

/// One byte more than a trace may have.
const TRACE_BYTES: u64 = 16_777_217;

/// One byte more than a directive may have.
const DIRECTIVE_BYTES: u64 = 65_537;

/// The script of a file, ready to be run.
pub fn read_test<H: Shelf>(alloc: Global, file: &str, shelf: &mut H) -> Result<ReadyTest, Refusal>
    ensures test { GivesTest (H.told shelf.old).files (λ files. take script_bytes (files file.now))
        (Misses (Some file.now) (H.told shelf.old).failed (H.told shelf.new).failed) result }
    ensures keeps { KeepsFile (Some file.now) (is_missed result) (H.told shelf.old)
        (H.told shelf.new) }
    ensures files { (H.told shelf.new).files ≡ (H.told shelf.old).files }
{
    let bytes = shelf.read_up_to(file, READ_BYTES)?;
    let script = parse(alloc, &bytes)?;
    Ok(ReadyTest::of_script(alloc, script)?)
}

/// The large script, printed and parsed, ready to be run.
pub fn large_test(alloc: Global, pieces: u32) -> Result<ReadyTest, Refusal>
    requires { pieces ≤ 100 }
    ensures { GivesText (layout (large_script pieces)) result }
{
    let bytes = print_large(alloc, pieces)?;
    let script = parse(alloc, &bytes)?;
    Ok(ReadyTest::of_script(alloc, script)?)
}

/// The trace of a file.
pub fn read_told<H: Shelf>(
    alloc: Global,
    file: &str,
    names: &Names,
    shelf: &mut H,
) -> Result<TraceFile, Refusal>
    ensures told { GivesTrace (H.told shelf.old).files file.now names.now
        (Misses (Some file.now) (H.told shelf.old).failed (H.told shelf.new).failed) result }
    ensures keeps { KeepsFile (Some file.now) (is_missed result) (H.told shelf.old)
        (H.told shelf.new) }
    ensures files { (H.told shelf.new).files ≡ (H.told shelf.old).files }
{
    let bytes = shelf.read_up_to(file, TRACE_BYTES)?;
    Ok(read_trace(alloc, &bytes, names)?)
}

/// The directive of a file.
pub fn read_directed<H: Shelf>(
    alloc: Global,
    file: &str,
    names: &Names,
    shelf: &mut H,
) -> Result<Directive, Refusal>
    ensures told { GivesDirective (H.told shelf.old).files file.now names.now
        (Misses (Some file.now) (H.told shelf.old).failed (H.told shelf.new).failed) result }
    ensures keeps { KeepsFile (Some file.now) (is_missed result) (H.told shelf.old)
        (H.told shelf.new) }
    ensures files { (H.told shelf.new).files ≡ (H.told shelf.old).files }
{
    let bytes = shelf.read_up_to(file, DIRECTIVE_BYTES)?;
    Ok(read_directive(alloc, &bytes, names)?)
}
