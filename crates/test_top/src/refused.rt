// Of each command, what is refused in turn: each line of its output, each file that it reads, and
// the line that it says.
use crate::calls::{
    CERTIFICATE, DIRECTIVE, EXPOSED, Fails, Given, IN_ORDER, LOST, REPLAY, SOUND, SUM, expect_call,
};
use pct_top::Status;
use std::alloc::Global;
use std::process::Abort;
use std::sync::Wait;
use std::test::Fail;
use std::thread::Threads;

const CAMPAIGN: &str = "campaign s.pct --from 7 --count 2 --depth 1 --steps 8";

const SWEEP: &str = "sweep s.pct --depth 2 --steps 2";

const EXPOSE: &str = "expose s.pct t.txt --order A,C,B --steps 8";

const CERTIFY: &str = "certify s.pct t.txt --steps 8";

const RACES: &str = "races s.pct --order A,B,C";

const LOCKS: &str = "locks s.pct --order A,B,C";

const FIND: &str = "find s.pct --order A,B,C --points 1,5";

/// The trace of the lost update, but that a write is said to have answered 7.
const DEPARTING: &str = "\
trace 1
order A B C
points 1
limit 10000
1 A 4 read x = 0
2 B 8 read x = 0
3 B 9 write x 1 = 0
4 A 5 write x 1 = 7
5 C 12 join A = 0
6 C 13 join B = 0
7 C 14 read x = 1
8 C 15 check 0 = 0
verdict failed C 15
";

/// Two threads that take two mutexes in opposite orders.
const OPPOSED: &str = "\
script 1
mutex p
mutex q
thread A
lock p
lock q
unlock q
unlock p
end
thread B
lock q
lock p
unlock p
unlock q
end
";

/// A call of a command: its words, what stands in `t.txt`, and its status and output where nothing
/// is refused.
type Call = (&'static str, &'static str, Status, &'static str);

const CALLS: [Call; 10] = [
    (IN_ORDER, SUM, Status::Done, SUM),
    (
        REPLAY,
        DEPARTING,
        Status::Found,
        "departs 4\nwritten 4 A 5 write x 1 = 7\nfound 4 A 5 write x 1 = 0\n",
    ),
    (
        CAMPAIGN,
        SUM,
        Status::Done,
        "campaign 1\nthreads 3\nsteps 8\ndepth 1\nlimit 10000\n7 8 passed\n8 8 passed\ngroups 0\n",
    ),
    (
        SWEEP,
        SUM,
        Status::Found,
        "sweep 1\nthreads 3\nsteps 2\ndepth 2\nlimit 10000\nchoices 12\ngroups 1\n6 8 order A B C points 1 verdict failed C 15\npassed 6\n",
    ),
    (
        "big 1",
        SUM,
        Status::Done,
        "lines 92\nsteps 49\nruns 20\nfailures 0\ngroups 0\n",
    ),
    (EXPOSE, DIRECTIVE, Status::Done, EXPOSED),
    (CERTIFY, DIRECTIVE, Status::Done, CERTIFICATE),
    (RACES, SUM, Status::Found, "race x 2 3\nraces 1\n"),
    (
        "locks t.txt --order A,B",
        OPPOSED,
        Status::Found,
        "nest 2 A p q\nnest 6 B q p\ncycle 2\n",
    ),
    (
        FIND,
        SUM,
        Status::Found,
        "directive 1\nlow C\nafter A 1\nverdict failed C 15\n",
    ),
];

/// The call has its first lines where the put behind them is refused, and nothing is put after it.
fn expect_lines_refused<R: Abort + Threads + Wait + Sync>(
    rt: &R,
    alloc: Global,
    call: &Call,
) -> Result<(), Fail> {
    let (words, second, status, out) = *call;
    let mut put = String::new(alloc);
    let mut number = 1_u64;
    for line in out.split_inclusive('\n') {
        let fails = Fails {
            out: number,
            ..SOUND
        };
        let want = Given {
            status: Status::WriteFault,
            out: put.as_str(),
            err: "write fault\n",
        };
        expect_call(rt, alloc, second.as_bytes(), fails, words, want)?;
        put.push_str(line)?;
        number = number.saturating_add(1);
    }
    let fails = Fails {
        out: number,
        ..SOUND
    };
    let want = Given {
        status,
        out,
        err: "",
    };
    expect_call(rt, alloc, second.as_bytes(), fails, words, want)
}

#[test]
fn each_command_fails_at_each_line(rt: HostRuntime) -> Result<(), Fail> {
    for call in CALLS.iter() {
        expect_lines_refused(&rt, rt.alloc(), call)?;
    }
    Ok(())
}

/// The number of the read that fails, and the words of its call.
const READS: [(u64, &str); 11] = [
    (1, IN_ORDER),
    (1, REPLAY),
    (2, REPLAY),
    (1, CAMPAIGN),
    (1, EXPOSE),
    (2, EXPOSE),
    (1, CERTIFY),
    (2, CERTIFY),
    (1, RACES),
    (1, LOCKS),
    (1, FIND),
];

#[test]
fn each_command_fails_at_each_read(rt: HostRuntime) -> Result<(), Fail> {
    let alloc = rt.alloc();
    let want = Given {
        status: Status::ReadFault,
        out: "",
        err: "read fault\n",
    };
    for (read, line) in READS.iter() {
        let fails = Fails {
            read: *read,
            ..SOUND
        };
        expect_call(&rt, alloc, LOST.as_bytes(), fails, line, want)?;
    }
    Ok(())
}

/// Calls that are refused, and the status of each.
const REFUSED: [(&str, Status); 8] = [
    ("run s.pct", Status::Usage),
    ("run s.pct --order A,A,C", Status::Usage),
    ("big 0", Status::Usage),
    ("locks t.txt --order A,B,C", Status::BadScript),
    ("replay s.pct s.pct", Status::BadTrace),
    (CERTIFY, Status::BadDirective),
    (EXPOSE, Status::BadDirective),
    ("find v.pct --order A,B,C", Status::ReadFault),
];

// That nothing can be said changes no status.
#[test]
fn refusals_are_unsaid(rt: HostRuntime) -> Result<(), Fail> {
    let alloc = rt.alloc();
    for (line, status) in REFUSED.iter() {
        let want = Given {
            status: *status,
            out: "",
            err: "",
        };
        let fails = Fails { err: 1, ..SOUND };
        expect_call(&rt, alloc, SUM.as_bytes(), fails, line, want)?;
    }
    Ok(())
}

/// The fault of the directive where so many of its bytes are left.
fn cut_fault(bytes: usize) -> &'static str {
    match bytes {
        0..=11 => "directive: line 1 BadHeader\n",
        12..=17 => "directive: line 2 BadHeader\n",
        18 => "directive: line 3 NoVerdict\n",
        19..=27 => "directive: line 3 BadLine\n",
        28 => "directive: line 4 NoVerdict\n",
        _ => "directive: line 4 BadLine\n",
    }
}

#[test]
fn cut_directives_are_said(rt: HostRuntime) -> Result<(), Fail> {
    let alloc = rt.alloc();
    for bytes in 0..48 {
        let directive = DIRECTIVE.get(..bytes).unwrap_or("");
        let want = Given {
            status: Status::BadDirective,
            out: "",
            err: cut_fault(bytes),
        };
        for line in [EXPOSE, CERTIFY] {
            expect_call(&rt, alloc, directive.as_bytes(), SOUND, line, want)?;
        }
    }
    Ok(())
}

#[test]
fn long_directive_is_said(rt: HostRuntime) -> Result<(), Fail> {
    let alloc = rt.alloc();
    let directive = vec![in alloc; b'1'; 65_537]?;
    let want = Given {
        status: Status::BadDirective,
        out: "",
        err: "directive: line 1 TooLong\n",
    };
    for line in [EXPOSE, CERTIFY] {
        expect_call(&rt, alloc, directive.as_slice(), SOUND, line, want)?;
    }
    Ok(())
}
