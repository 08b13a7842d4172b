// Bodies of scripts that are driven by hand.
use crate::compiling::code_of_text;
use pct_ask::{Ask, Body, FaultKind, Post};
use script_body::ScriptBody;
use script_code::Code;
use std::alloc::{AllocError as NoMemory, Global};
use std::process::Abort;
use std::test::Fail;

/// A loop without end and without an ask.
const SPINNER: &[u8] = b"\
script 1
thread A
while 1
end
end
";

#[test]
fn a_loop_without_asks_spins(rt: HostRuntime) -> Result<(), Fail> {
    let code = code_of_text(rt.alloc(), SPINNER)?;
    assert_eq!(rt; code.threads(), 1);
    assert_eq!(rt; code.end(0), 1);
    expect_posts(&rt, &code, 0, &[(SPIN, 3, 0)], 5);
    Ok(())
}

/// What stands before the first thread's statements, which begin on line 8.
const OBJECTS: &str = "script 2\nvar x = 5\nmutex m\ncond c\nsem s = 1\nbarrier b = 2\nthread A\n";

fn push_lines(text: &mut String, lines: &[&str]) -> Result<(), NoMemory> {
    for line in lines {
        text.push_str(line)?;
        text.push_str("\n")?;
    }
    Ok(())
}

/// The code of a script of two threads with these statements, of which the second's begin on line
/// 31, behind blank lines.
fn code_of(alloc: Global, first: &[&str], second: &[&str]) -> Result<Code, Fail> {
    let mut text = String::from_str(alloc, OBJECTS)?;
    push_lines(&mut text, first)?;
    text.push_str("end\n")?;
    for _ in first.len()..21 {
        text.push_str("\n")?;
    }
    text.push_str("thread B\n")?;
    push_lines(&mut text, second)?;
    text.push_str("end\n")?;
    code_of_text(alloc, text.as_bytes())
}

/// A body's posts before these answers, in turn, and then its end.
fn expect_posts(rt: &impl Abort, code: &Code, thread: u32, cases: &[(Ask, u32, i64)], end: u32) {
    assert!(rt; thread < code.threads());
    let mut body = ScriptBody::new(code, thread);
    for (ask, line, answer) in cases {
        let post = body.post();
        let want = Post {
            ask: Some(*ask),
            line: *line,
        };
        assert_eq!(rt; post, want);
        assert!(rt; post.ask.is_some());
        body.answer(*answer);
    }
    let last = Post {
        ask: None,
        line: end,
    };
    assert_eq!(rt; body.post(), last);
}

const HOLDS: Ask = Ask::Check { holds: true };

const FAILS: Ask = Ask::Check { holds: false };

const OVERFLOW: Ask = Ask::Fault {
    kind: FaultKind::Overflow,
};

const SPIN: Ask = Ask::Fault {
    kind: FaultKind::Spin,
};

const ADD: Ask = Ask::Add { var: 0, value: 3 };

const EXCHANGE: Ask = Ask::Cas {
    var: 0,
    old: 8,
    new: 9,
};

const TRIES: [(Ask, u32, i64); 8] = [
    (ADD, 8, 5),
    (EXCHANGE, 9, 1),
    (Ask::TryLock { mutex: 0 }, 10, 0),
    (Ask::TryDown { sem: 0 }, 11, 1),
    (Ask::Up { sem: 0 }, 12, 7),
    (Ask::Yield, 13, 7),
    (HOLDS, 14, 0),
    (HOLDS, 15, 0),
];

const OTHER_ANSWERS: [(Ask, u32, i64); 8] = [
    (ADD, 8, 5),
    (EXCHANGE, 9, 0),
    (Ask::TryLock { mutex: 0 }, 10, 0),
    (Ask::TryDown { sem: 0 }, 11, 0),
    (Ask::Up { sem: 0 }, 12, 0),
    (Ask::Yield, 13, 0),
    (FAILS, 14, 0),
    (FAILS, 15, 0),
];

const WAITS: [(Ask, u32, i64); 5] = [
    (Ask::Lock { mutex: 0 }, 31, 0),
    (Ask::Release { cond: 0, mutex: 0 }, 32, 0),
    (Ask::Regain { cond: 0, mutex: 0 }, 32, 0),
    (Ask::Unlock { mutex: 0 }, 33, 0),
    (Ask::Signal { cond: 0 }, 34, 1),
];

/// The answer to a wait's or an arrive's first ask is told to nobody.
const MEETS: [(Ask, u32, i64); 5] = [
    (Ask::Arrive { barrier: 0 }, 31, 7),
    (Ask::Leave { barrier: 0 }, 31, 0),
    (Ask::Arrive { barrier: 0 }, 32, 7),
    (Ask::Leave { barrier: 0 }, 32, 1),
    (HOLDS, 33, 0),
];

const DIVIDES: [(Ask, u32, i64); 2] = [(HOLDS, 10, 0), (OVERFLOW, 12, 0)];

/// Atomic steps, and asserts that their answers are where they belong.
const TRYING: [&str; 8] = [
    "add r0 x 3",
    "cas r1 x 8, 9",
    "trylock r2 m",
    "trydown r3 s",
    "up s",
    "yield",
    "assert r0 == 5 && r1 == 1",
    "assert r2 == 0 && r3 == 1",
];

/// A wait for a condition.
const WAITING: [&str; 4] = ["lock m", "wait c m", "unlock m", "signal c"];

#[test]
fn answers_go_where_they_belong(rt: HostRuntime) -> Result<(), Fail> {
    let code = code_of(rt.alloc(), &TRYING, &WAITING)?;
    expect_posts(&rt, &code, 0, &TRIES, 16);
    expect_posts(&rt, &code, 0, &OTHER_ANSWERS, 16);
    expect_posts(&rt, &code, 1, &WAITS, 35);
    Ok(())
}

/// Quotients and remainders, the last of which overflows.
const DIVIDING: [&str; 5] = [
    "set r0 -7 / 2",
    "set r1 -7 % 2",
    "assert r0 == -3 && r1 == -1",
    "set r2 -9223372036854775807 - 1",
    "set r3 r2 / -1",
];

/// Two meetings with another thread.
const MEETING: [&str; 3] = ["arrive r0 b", "arrive r1 b", "assert r0 < r1"];

#[test]
fn quotients_are_truncated(rt: HostRuntime) -> Result<(), Fail> {
    let code = code_of(rt.alloc(), &DIVIDING, &MEETING)?;
    expect_posts(&rt, &code, 0, &DIVIDES, 13);
    expect_posts(&rt, &code, 1, &MEETS, 34);
    Ok(())
}

const STARTS: [(Ask, u32, i64); 1] = [(Ask::Start { thread: 1 }, 8, 0)];

/// The answer to the first ask of a thread that another one starts is told to nobody.
const BEGINS: [(Ask, u32, i64); 2] = [(Ask::Begin, 30, 7), (HOLDS, 31, 0)];

#[test]
fn a_started_thread_begins_first(rt: HostRuntime) -> Result<(), Fail> {
    let code = code_of(rt.alloc(), &["start B"], &["assert r0 == 0"])?;
    expect_posts(&rt, &code, 0, &STARTS, 9);
    expect_posts(&rt, &code, 1, &BEGINS, 32);
    Ok(())
}

/// A move, 4,999 rounds of two moves and the test that ends them: 10,000 local moves, and then an
/// ask.
const COUNTING: [&str; 5] = [
    "set r1 1",
    "while r0 < 4999",
    "set r0 r0 + 1",
    "end",
    "yield",
];

/// One move more.
const COUNTING_MORE: [&str; 6] = [
    "set r1 1",
    "set r1 1",
    "while r0 < 4999",
    "set r0 r0 + 1",
    "end",
    "yield",
];

#[test]
fn a_thread_spins_after_ten_thousand_moves(rt: HostRuntime) -> Result<(), Fail> {
    let code = code_of(rt.alloc(), &COUNTING, &COUNTING_MORE)?;
    expect_posts(&rt, &code, 0, &[(Ask::Yield, 12, 0)], 13);
    expect_posts(&rt, &code, 1, &[(SPIN, 33, 0)], 37);
    Ok(())
}

/// The only statement of a thread before and behind an expression, at each place where one stands,
/// and the line of the thread's end.
const PLACES: [(&str, &str, u32); 8] = [
    ("set r0 ", "", 9),
    ("write x ", "", 9),
    ("add r0 x ", "", 9),
    ("cas r0 x ", ", 1", 9),
    ("cas r0 x 1, ", "", 9),
    ("if ", "\nend", 10),
    ("while ", "\nend", 10),
    ("assert ", "", 9),
];

/// At each place the expression faults.
fn expect_fault(
    rt: &impl Abort,
    alloc: Global,
    expression: &str,
    kind: FaultKind,
) -> Result<(), Fail> {
    for (before, behind, end) in PLACES.iter() {
        let statement = format!(in alloc; "{before}{expression}{behind}")?;
        let code = code_of(alloc, &[statement.as_str()], &[])?;
        expect_posts(rt, &code, 0, &[(Ask::Fault { kind }, 8, 0)], *end);
    }
    Ok(())
}

#[test]
fn each_place_has_its_fault(rt: HostRuntime) -> Result<(), Fail> {
    let alloc = rt.alloc();
    let most = "9223372036854775807 + 1";
    expect_fault(&rt, alloc, most, FaultKind::Overflow)?;
    let none = "9223372036854775807 / 0";
    expect_fault(&rt, alloc, none, FaultKind::ZeroDivisor)
}
