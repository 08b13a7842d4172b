// Calls by words and files, and what they give.
ghost use Rattle.pct_top.specs.FailedReads.{AddsByStatus};

use pct_outside::{Gate, MemoryShelf, MemorySink, OpenGate};
use pct_top::{Status, one_failed_read, pct};
use std::alloc::{AllocError as NoMemory, Global};
use std::process::Abort;
use std::sync::Wait;
use std::test::Fail;
use std::thread::Threads;

/// Two threads that add 1 to a variable in two steps, and a third that joins them and asserts the
/// sum.
pub(crate) const ADDERS: &str = "\
script 1
var x = 0
thread A
  read r0 x
  write x r0 + 1
end
thread B
  read r0 x
  write x r0 + 1
end
thread C
  join A
  join B
  read r0 x
  assert r0 == 2
end
";

pub(crate) const IN_ORDER: &str = "run s.pct --order A,B,C";

/// The trace of the adders in order.
pub(crate) const SUM: &str = "\
trace 1
order A B C
points
limit 10000
1 A 4 read x = 0
2 A 5 write x 1 = 0
3 B 8 read x = 1
4 B 9 write x 2 = 0
5 C 12 join A = 0
6 C 13 join B = 0
7 C 14 read x = 2
8 C 15 check 1 = 0
verdict passed
";

/// The trace of the adders where the first one is lowered after its read.
pub(crate) const LOST: &str = "\
trace 1
order A B C
points 1
limit 10000
1 A 4 read x = 0
2 B 8 read x = 0
3 B 9 write x 1 = 0
4 A 5 write x 1 = 0
5 C 12 join A = 0
6 C 13 join B = 0
7 C 14 read x = 1
8 C 15 check 0 = 0
verdict failed C 15
";

pub(crate) const REPLAY: &str = "replay s.pct t.txt";

/// The directive by which the second adder's update is lost, whichever of the others is first.
pub(crate) const DIRECTIVE: &str = "directive 1\nlow B\nafter A 1\nverdict failed C 15\n";

/// The trace that it exposes under the order A, C, B.
pub(crate) const EXPOSED: &str = "\
trace 1
order A C B
points 1
limit 10000
1 A 4 read x = 0
2 B 8 read x = 0
3 B 9 write x 1 = 0
4 A 5 write x 1 = 0
5 C 12 join A = 0
6 C 13 join B = 0
7 C 14 read x = 1
8 C 15 check 0 = 0
verdict failed C 15
";

pub(crate) const CERTIFICATE: &str =
    "order A C B points 1\norder C A B points 1\ncertified 1 in 24\n";

/// The number of the call that fails, from 1, of the shelf and of each stream. With 0 none does.
#[derive(Clone, Copy)]
pub(crate) struct Fails {
    pub read: u64,
    pub out: u64,
    pub err: u64,
}

pub(crate) const SOUND: Fails = Fails {
    read: 0,
    out: 0,
    err: 0,
};

/// What a call gives: its status, its output and what it says on the error stream.
#[derive(Clone, Copy)]
pub(crate) struct Given<'a> {
    pub status: Status,
    pub out: &'a str,
    pub err: &'a str,
}

/// The words of a line, which stand between spaces. An empty line has none.
pub(crate) fn words_of(alloc: Global, line: &str) -> Result<Vec<String>, NoMemory> {
    let mut words = Vec::new(alloc);
    for word in line.split(' ') {
        if !word.is_empty() {
            words.push(String::from_str(alloc, word)?)?;
        }
    }
    Ok(words)
}

/// A call over a shelf in memory, which keeps the names of failed reads alone: one is added where the
/// status is ReadFault, and none else.
fn called<R: Threads + Wait + Sync, G: Gate>(
    rt: &R,
    alloc: Global,
    words: &[String],
    shelf: &mut MemoryShelf,
    out: &mut MemorySink,
    err: &mut MemorySink,
    gate: &G,
) -> Status
    ensures { AddsByStatus result shelf.old.failed shelf.new.failed }
{
    one_failed_read();
    pct(rt, alloc, words, shelf, out, err, gate)
}

/// Calls with the adders in the file `s.pct` and a trace in the file `t.txt`, and compares what is
/// given.
pub(crate) fn expect_call<R: Abort + Threads + Wait + Sync>(
    rt: &R,
    alloc: Global,
    trace: &[u8],
    fails: Fails,
    line: &str,
    want: Given<'_>,
) -> Result<(), Fail> {
    expect_gated(rt, alloc, trace, fails, line, want, &OpenGate::new())
}

/// The same call at a gate.
pub(crate) fn expect_gated<R: Abort + Threads + Wait + Sync, G: Gate>(
    rt: &R,
    alloc: Global,
    trace: &[u8],
    fails: Fails,
    line: &str,
    want: Given<'_>,
    gate: &G,
) -> Result<(), Fail> {
    let mut shelf = MemoryShelf::new(alloc, vec![in alloc; fails.read]?);
    shelf.add("s.pct", ADDERS.as_bytes())?;
    shelf.add("t.txt", trace)?;
    let mut out = MemorySink::new(alloc, vec![in alloc; fails.out]?);
    let mut err = MemorySink::new(alloc, vec![in alloc; fails.err]?);
    let words = words_of(alloc, line)?;
    let words = words.as_slice();
    let status = called(rt, alloc, words, &mut shelf, &mut out, &mut err, gate);
    assert_eq!(rt; status, want.status, "{line}");
    assert_eq!(rt; out.bytes(), want.out.as_bytes(), "{line}");
    assert_eq!(rt; err.bytes(), want.err.as_bytes(), "{line}");
    Ok(())
}

/// A call: its words, what stands in `t.txt`, its status, its output and what it says.
type Call = (
    &'static str,
    &'static str,
    Status,
    &'static str,
    &'static str,
);

const CALLS: [Call; 9] = [
    (
        "run s.pct --order A,B,C --points 1",
        SUM,
        Status::Found,
        LOST,
        "",
    ),
    (REPLAY, SUM, Status::Done, "confirmed passed\n", ""),
    (REPLAY, LOST, Status::Done, "confirmed failed C 15\n", ""),
    (
        "run v.pct --order A,B,C",
        LOST,
        Status::ReadFault,
        "",
        "read fault\n",
    ),
    (
        "certify s.pct t.txt --steps 8",
        DIRECTIVE,
        Status::Done,
        CERTIFICATE,
        "",
    ),
    (
        "certify s.pct t.txt --steps 7",
        DIRECTIVE,
        Status::Found,
        "toolong order A C B steps 8\n",
        "",
    ),
    (
        "expose s.pct t.txt --order A,C,B --steps 8",
        DIRECTIVE,
        Status::Done,
        EXPOSED,
        "",
    ),
    (
        "expose s.pct t.txt --order A,C,B --steps 7",
        DIRECTIVE,
        Status::Found,
        "toolong 8\n",
        "",
    ),
    (
        "certify s.pct t.txt --steps 8",
        SUM,
        Status::BadDirective,
        "",
        "directive: line 1 BadHeader\n",
    ),
];

#[test]
fn calls_give_their_answers(rt: HostRuntime) -> Result<(), Fail> {
    let alloc = rt.alloc();
    for (line, trace, status, out, err) in CALLS.iter() {
        let want = Given {
            status: *status,
            out,
            err,
        };
        expect_call(&rt, alloc, trace.as_bytes(), SOUND, line, want)?;
    }
    Ok(())
}

// A run whose fault can't be said, and a campaign, which put their first line, and nothing after
// the put that was refused.
#[test]
fn second_lines_are_refused(rt: HostRuntime) -> Result<(), Fail> {
    let alloc = rt.alloc();
    let campaign = "campaign s.pct --from 7 --count 2 --depth 2";
    for (line, said, out, err) in [
        (IN_ORDER, 1, "trace 1\n", ""),
        (campaign, 0, "campaign 1\n", "write fault\n"),
    ] {
        let fails = Fails {
            read: 0,
            out: 2,
            err: said,
        };
        let want = Given {
            status: Status::WriteFault,
            out,
            err,
        };
        expect_call(&rt, alloc, SUM.as_bytes(), fails, line, want)?;
    }
    Ok(())
}

/// The fault of the trace of the adders where so many of its bytes are left.
fn cut_fault(bytes: usize) -> &'static str {
    match bytes {
        0..=7 => "trace: line 1 BadHeader\n",
        8..=19 => "trace: line 2 BadHeader\n",
        20..=26 => "trace: line 3 BadHeader\n",
        27..=38 => "trace: line 4 BadHeader\n",
        39 => "trace: line 5 NoVerdict\n",
        56 => "trace: line 6 NoVerdict\n",
        76 => "trace: line 7 NoVerdict\n",
        93 => "trace: line 8 NoVerdict\n",
        113 => "trace: line 9 NoVerdict\n",
        131 => "trace: line 10 NoVerdict\n",
        149 => "trace: line 11 NoVerdict\n",
        167 => "trace: line 12 NoVerdict\n",
        186 => "trace: line 13 NoVerdict\n",
        40..=55 => "trace: line 5 BadLine\n",
        57..=75 => "trace: line 6 BadLine\n",
        77..=92 => "trace: line 7 BadLine\n",
        94..=112 => "trace: line 8 BadLine\n",
        114..=130 => "trace: line 9 BadLine\n",
        132..=148 => "trace: line 10 BadLine\n",
        150..=166 => "trace: line 11 BadLine\n",
        168..=185 => "trace: line 12 BadLine\n",
        _ => "trace: line 13 BadLine\n",
    }
}

#[test]
fn cut_traces_are_said(rt: HostRuntime) -> Result<(), Fail> {
    let alloc = rt.alloc();
    for bytes in 0..201 {
        let trace = SUM.get(..bytes).unwrap_or("");
        let want = Given {
            status: Status::BadTrace,
            out: "",
            err: cut_fault(bytes),
        };
        expect_call(&rt, alloc, trace.as_bytes(), SOUND, REPLAY, want)?;
    }
    Ok(())
}

#[test]
fn long_trace_is_said(rt: HostRuntime) -> Result<(), Fail> {
    let alloc = rt.alloc();
    let trace = vec![in alloc; b'1'; 16_777_217]?;
    let want = Given {
        status: Status::BadTrace,
        out: "",
        err: "trace: line 1 TooLong\n",
    };
    expect_call(&rt, alloc, trace.as_slice(), SOUND, REPLAY, want)
}
