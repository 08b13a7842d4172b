//! Runs of one script, one after another.

ghost use Rattle.std.specs.Prelude.{◌≡◌, length};
ghost use Rattle.script_code.specs.Listing.{listing};
ghost use Rattle.script_tree.specs.ScriptText.{ScriptText};
ghost use Rattle.script_body.specs.Bodies.{AreOf};

use pct_ask::Deal;
use pct_outside::OpenGate;
use policy_pick::Pct;
use priority_draw::Words;
use script_body::bodies_of;
use script_code::{Code, compile};
use script_parse::parse;
use std::alloc::{AllocError as NoMemory, Global};
use std::sync::Wait;
use std::thread::Threads;
use worker_run::{run_here, run_threads};

const LIMIT: u32 = 100_000;

/// Who serves the bodies.
#[derive(Clone, Copy, Debug, PartialEq, Eq)]
pub enum Mode {
    /// The caller serves all.
    Here,
    /// Each has a thread of its own.
    Threads,
}

impl Mode {
    pub fn of_word(word: &str) -> Option<Mode> {
        match word {
            "here" => Some(Mode::Here),
            "threads" => Some(Mode::Threads),
            _ => None,
        }
    }
}

/// How many steps one run has.
fn run_once<R: Threads + Wait + Sync>(
    rt: &R,
    alloc: Global,
    code: &Code,
    deal: &Deal,
    order: &[u32],
    mode: Mode,
) -> Result<usize, NoMemory>
    requires script { (script : ScriptText) × AreOf script (listing code.now) deal.now }
    requires order { length order.now ≡ deal.now.threads }
{
    let Ok(policy) = Pct::new(alloc, order, &[]) else {
        return Err(NoMemory);
    };
    let bodies = bodies_of(alloc, code)?;
    let own = deal.copy(alloc)?;
    let gate = OpenGate::new();
    let played = match mode {
        Mode::Here => run_here(rt, alloc, own, policy, LIMIT, bodies, &gate)?,
        Mode::Threads => run_threads(rt, alloc, own, policy, LIMIT, bodies, &gate)?,
    };
    Ok(played.events.len())
}

/// How many steps `times` runs have in all. The first is by the order of seed 1, and so on.
fn run_all<R: Threads + Wait + Sync>(
    rt: &R,
    alloc: Global,
    code: &Code,
    deal: &Deal,
    mode: Mode,
    times: u32,
) -> Result<u64, NoMemory>
    requires { (script : ScriptText) × AreOf script (listing code.now) deal.now }
{
    let mut steps = 0u64;
    for run in 0..times {
        let mut words = Words::of_seed(run as u64 + 1);
        let order = words.draw_order(alloc, deal.threads)?;
        let more = run_once(rt, alloc, code, deal, order.as_slice(), mode)?;
        steps = steps.saturating_add(more as u64);
    }
    Ok(steps)
}

/// How many steps `times` runs of a script have in all. `None` where the bytes are no script.
pub fn steps_of<R: Threads + Wait + Sync>(
    rt: &R,
    alloc: Global,
    bytes: &[u8],
    mode: Mode,
    times: u32,
) -> Result<Option<u64>, NoMemory> {
    let Ok(script) = parse(alloc, bytes) else {
        return Ok(None);
    };
    let code = compile(alloc, &script);
    let deal = script.deal(alloc);
    drop(script);
    let (code, deal) = (code?, deal?);
    let steps = run_all(rt, alloc, &code, &deal, mode, times);
    drop(code);
    Ok(Some(steps?))
}
