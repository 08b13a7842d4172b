// Bodies of a script that look for each other while they post: they run at once.
ghost use Rattle.std.specs.Prelude.{◌≡◌, map, IfOk};
ghost use Rattle.policy_pick.specs.Kept.{points_plan, PointsStand};
ghost use Rattle.script_tree.specs.ScriptText.{ScriptText};
ghost use Rattle.script_code.specs.FlatPosts.{flat_pending};
ghost use Rattle.script_code.specs.Listing.{listing};
ghost use Rattle.script_body.specs.BodyPosts.{pending_of_body};
ghost use Rattle.script_body.specs.Bodies.{AreOf};
ghost use Rattle.worker_run.specs.Tests.{IsTest, AreTests};

use crate::calls::{ADDERS, Given, IN_ORDER, SOUND, SUM, expect_gated};
use pct_ask::{Ask, Body, Deal, Event, Limit, Outcome, Post, Verdict};
use pct_outside::{Gate, OpenGate, PairGate};
use pct_top::Status;
use policy_pick::{Pct, Priorities};
use script_body::ScriptBody;
use script_code::{Code, compile};
use script_parse::parse;
use std::alloc::{AllocError as NoMemory, Global};
use std::process::Abort;
use std::sync::Wait;
use std::test::Fail;
use std::thread::Threads;
use worker_run::{Played, Test, run_many, run_threads};

const LOOKS: u64 = 10_000_000;

/// A thread of the script that arrives at a gate while it posts, after so many answers.
#[derive(Drop)]
struct Looker<'c, 'g> {
    thread: u32,
    body: ScriptBody<'c>,
    answers: u32,
    after: u32,
    gate: &'g PairGate,
}

impl<'c, 'g> Body for Looker<'c, 'g> {
    ghost use Rattle.script_body.specs.BodyPosts.{pending_of_body};

    ghost pending = { λ b. pending_of_body b.body };

    fn post(&self) -> Post {
        if self.answers == self.after {
            self.gate.arrive(self.thread, 0);
        }
        self.body.post()
    }

    fn answer(&mut self, value: i64) {
        self.answers = self.answers.saturating_add(1);
        self.body.answer(value);
    }
}

/// A step of a run.
macro_rules! step {
    ($thread:literal, $line:literal, $ask:expr, $answer:literal) => {
        Event {
            thread: $thread,
            line: $line,
            ask: $ask,
            answer: $answer,
        }
    };
}

const READ: Ask = Ask::Read { var: 0 };

/// The steps of the adders in order.
const ADDED: [Event; 8] = [
    step!(0, 4, READ, 0),
    step!(0, 5, Ask::Write { var: 0, value: 1 }, 0),
    step!(1, 8, READ, 1),
    step!(1, 9, Ask::Write { var: 0, value: 2 }, 0),
    step!(2, 12, Ask::Join { thread: 0 }, 0),
    step!(2, 13, Ask::Join { thread: 1 }, 0),
    step!(2, 14, READ, 2),
    step!(2, 15, Ask::Check { holds: true }, 0),
];

/// The first thread arrives after so many answers, and the others with their first posts. The gate
/// holds the first and the second.
fn lookers<'c, 'g>(
    alloc: Global,
    code: &'c Code,
    first_after: u32,
    gate: &'g PairGate,
) -> Result<Vec<Looker<'c, 'g>>, NoMemory>
    ensures { IfOk result (λ bodies.
        map (λ b. pending_of_body b.body) bodies.items ≡ map flat_pending (listing code.now)) }
{
    let mut lookers = Vec::new(alloc);
    for thread in 0..code.threads() {
        let body = ScriptBody::new(code, thread);
        lookers.push(Looker {
            thread,
            body,
            answers: 0,
            after: if thread == 0 { first_after } else { 0 },
            gate,
        })?;
    }
    Ok(lookers)
}

/// The code of the adders, and what their threads share.
fn adders<R: Abort>(rt: &R, alloc: Global) -> Result<(Code, Deal), Fail>
    ensures of { IfOk result (λ made.
        (script : ScriptText) × AreOf script (listing made.0) made.1) }
    ensures three { IfOk result (λ made. made.1.threads ≡ 3) }
{
    let script = parse(alloc, ADDERS.as_bytes())?;
    let code = compile(alloc, &script);
    let deal = script.deal(alloc);
    drop(script);
    let made = (code?, deal?);
    assert_eq!(rt; made.1.threads, 3);
    Ok(made)
}

/// The adders in order, the first two of which look for each other.
fn looking_test<'c, 'g>(
    alloc: Global,
    code: &'c Code,
    deal: Deal,
    first_after: u32,
    gate: &'g PairGate,
) -> Result<Test<Pct, Looker<'c, 'g>>, NoMemory>
    requires of { (script : ScriptText) × AreOf script (listing code.now) deal }
    requires three { deal.threads ≡ 3 }
    ensures { IfOk result
        (λ test. IsTest (λ b. pending_of_body b.body) points_plan PointsStand test) }
{
    let bodies = lookers(alloc, code, first_after, gate)?;
    let priorities = Priorities {
        order: &[0, 1, 2],
        points: &[],
    };
    Test::by_points(alloc, deal, &priorities, Limit::new(10_000), bodies)
}

/// The steps are those of the order.
fn expect_added<R: Abort>(rt: &R, played: &Played) {
    assert_eq!(rt; played.events.as_slice(), ADDED.as_slice());
    assert_eq!(rt; played.outcome, Outcome::Verdict(Verdict::Passed));
}

/// The run of the adders, the first two of which look for each other.
fn play_lookers<R: Threads + Wait + Sync>(
    rt: &R,
    alloc: Global,
    code: &Code,
    deal: Deal,
    first_after: u32,
    gate: &PairGate,
) -> Result<Played, NoMemory>
    requires of { (script : ScriptText) × AreOf script (listing code.now) deal }
    requires three { deal.threads ≡ 3 }
{
    let Test {
        deal,
        policy,
        limit,
        bodies,
    } = looking_test(alloc, code, deal, first_after, gate)?;
    run_threads(
        rt,
        alloc,
        deal,
        policy,
        limit.steps(),
        bodies,
        &OpenGate::new(),
    )
}

/// Each of the two sees the other, and the steps are those of the order.
fn expect_meeting<R: Threads + Wait + Abort + Sync>(
    rt: &R,
    alloc: Global,
    first_after: u32,
) -> Result<(), Fail> {
    let (code, deal) = adders(rt, alloc)?;
    let gate = PairGate::new(0, 1, LOOKS);
    let played = play_lookers(rt, alloc, &code, deal, first_after, &gate);
    drop(code);
    expect_added(rt, &played?);
    assert!(rt; gate.met());
    Ok(())
}

/// Both post for the first time at once.
#[test]
fn bodies_meet(rt: HostRuntime) -> Result<(), Fail> {
    expect_meeting(&rt, rt.alloc(), 0)
}

/// The first thread takes its two steps while the second is away.
#[test]
fn grants_early(rt: HostRuntime) -> Result<(), Fail> {
    expect_meeting(&rt, rt.alloc(), 2)
}

/// Two tests, each with a gate of its own.
fn looking_tests<'c, 'g>(
    alloc: Global,
    code: &'c Code,
    deal: Deal,
    first: &'g PairGate,
    second: &'g PairGate,
) -> Result<Vec<Test<Pct, Looker<'c, 'g>>>, NoMemory>
    requires of { (script : ScriptText) × AreOf script (listing code.now) deal }
    requires three { deal.threads ≡ 3 }
    ensures { IfOk result
        (λ tests. AreTests (λ b. pending_of_body b.body) points_plan PointsStand tests.items) }
{
    let other = deal.copy(alloc)?;
    let mut tests = Vec::new(alloc);
    tests.push(looking_test(alloc, code, other, 0, first)?)?;
    tests.push(looking_test(alloc, code, deal, 0, second)?)?;
    Ok(tests)
}

/// The runs of two tests as a batch.
fn play_both<R: Threads + Wait + Sync>(
    rt: &R,
    alloc: Global,
    code: &Code,
    deal: Deal,
    first: &PairGate,
    second: &PairGate,
) -> Result<Vec<Played>, NoMemory>
    requires of { (script : ScriptText) × AreOf script (listing code.now) deal }
    requires three { deal.threads ≡ 3 }
{
    let tests = looking_tests(alloc, code, deal, first, second)?;
    run_many(rt, alloc, tests, &OpenGate::new())
}

/// In each test of a batch both post for the first time at once.
#[test]
fn bodies_meet_in_each_test(rt: HostRuntime) -> Result<(), Fail> {
    let (code, deal) = adders(&rt, rt.alloc())?;
    let first = PairGate::new(0, 1, LOOKS);
    let second = PairGate::new(0, 1, LOOKS);
    let runs = play_both(&rt, rt.alloc(), &code, deal, &first, &second);
    drop(code);
    let runs = runs?;
    assert_eq!(rt; runs.len(), 2);
    for played in runs.iter() {
        expect_added(&rt, played);
    }
    assert!(rt; first.met());
    assert!(rt; second.met());
    Ok(())
}

/// The first two threads meet at the gate before their first posts.
#[test]
fn meets_at_the_gate(rt: HostRuntime) -> Result<(), Fail> {
    let gate = PairGate::new(0, 1, LOOKS);
    let want = Given {
        status: Status::Done,
        out: SUM,
        err: "",
    };
    expect_gated(
        &rt,
        rt.alloc(),
        SUM.as_bytes(),
        SOUND,
        IN_ORDER,
        want,
        &gate,
    )?;
    assert!(rt; gate.met());
    Ok(())
}
