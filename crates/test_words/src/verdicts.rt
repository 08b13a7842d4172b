use crate::asks::THREADS;
use crate::samples::{add, names_of};
use pct_ask::{
    Blocked, FaultKind, MisuseKind, NameKind, Names, Verdict, VerdictRead, read_verdict,
    write_verdict,
};
use std::alloc::Global;
use std::process::Abort;
use std::test::Fail;

const VERDICTS: [&[u8]; 11] = [
    b"passed",
    b"failed C 12",
    b"stuck A 4096 C 1",
    b"misuse A 1 notowner",
    b"misuse A 1 semfull",
    b"misuse A 1 alreadystarted",
    b"misuse A 1 toomanyreads",
    b"fault thread_2 10 overflow",
    b"fault thread_2 10 zerodivisor",
    b"fault thread_2 10 spin",
    b"cut",
];

fn verdict(place: usize) -> Verdict {
    let mut blocked = Blocked::new();
    blocked.push(0, 4096);
    blocked.push(2, 1);
    match place {
        0 => Verdict::Passed,
        1 => Verdict::Failed {
            thread: 2,
            line: 12,
        },
        2 => Verdict::Stuck { blocked },
        3 => misuse(MisuseKind::NotOwner),
        4 => misuse(MisuseKind::SemFull),
        5 => misuse(MisuseKind::AlreadyStarted),
        6 => misuse(MisuseKind::TooManyReads),
        7 => fault(FaultKind::Overflow),
        8 => fault(FaultKind::ZeroDivisor),
        9 => fault(FaultKind::Spin),
        _ => Verdict::Cut,
    }
}

fn misuse(kind: MisuseKind) -> Verdict {
    Verdict::Misuse {
        thread: 0,
        line: 1,
        kind,
    }
}

fn fault(kind: FaultKind) -> Verdict {
    Verdict::Fault {
        thread: 1,
        line: 10,
        kind,
    }
}

/// Each verdict's text is read as it, and written again as it was.
fn expect_verdicts(rt: &impl Abort, alloc: Global, names: &Names) -> Result<(), Fail> {
    for (place, text) in VERDICTS.iter().enumerate() {
        let (read, again) = rewritten(alloc, text, names)?;
        assert_eq!(rt; read, VerdictRead::Is(verdict(place)), "{text:?}");
        assert_eq!(rt; again.as_slice(), *text);
    }
    Ok(())
}

// What a text is read as, and what is written of that.
fn rewritten(alloc: Global, text: &[u8], names: &Names) -> Result<(VerdictRead, Vec<u8>), Fail> {
    let mut out = Vec::new(alloc);
    let read = read_verdict(text, names);
    if let VerdictRead::Is(verdict) = &read {
        write_verdict(verdict, names, &mut out)?;
    }
    Ok((read, out))
}

const NO_FORMS: [&[u8]; 28] = [
    b"",
    b"pass",
    b"passed ",
    b" passed",
    b"passed A 1",
    b"failed",
    b"failed A",
    b"failed A ",
    b"failed A 0",
    b"failed A 4097",
    b"failed A 01",
    b"failed A -1",
    b"failed A 1 ",
    b"failed  A 1",
    b"failed while 1",
    b"failed r0 1",
    b"failed A 1 overflow",
    b"stuck",
    b"stuck A",
    b"stuck C 1 A 1",
    b"stuck A 1 A 1",
    b"stuck C 1 Z 1 A 1",
    b"misuse A 1",
    b"misuse A 1 overflow",
    b"misuse A 1 notowner ",
    b"misuse A 1 notowner semfull",
    b"fault A 1 notowner",
    b"cut\n",
];

const UNKNOWN_NAMES: [&[u8]; 6] = [
    b"failed Z 1",
    b"stuck Z 1",
    b"stuck A 1 Z 1 C 1",
    b"stuck Z 2 Z 1",
    b"misuse Z 1 semfull",
    b"fault rdlock 1 spin",
];

/// Each of the texts is read so.
fn expect_read(rt: &impl Abort, names: &Names, texts: &[&[u8]], told: VerdictRead) {
    for text in texts {
        assert_eq!(rt; read_verdict(text, names), told, "{text:?}");
    }
}

#[test]
fn verdict_texts(rt: HostRuntime) -> Result<(), Fail> {
    let names = names_of(&rt, rt.alloc(), &THREADS, &[])?;
    let told = expect_verdicts(&rt, rt.alloc(), &names);
    expect_read(&rt, &names, &NO_FORMS, VerdictRead::NoForm);
    expect_read(&rt, &names, &UNKNOWN_NAMES, VerdictRead::UnknownName);
    drop(names);
    told
}

fn block(
    rt: &impl Abort,
    alloc: Global,
    names: &mut Names,
    text: &mut Vec<u8>,
    name: &[u8],
) -> Result<(), Fail> {
    add(rt, alloc, names, NameKind::Thread, name)?;
    text.push(b' ')?;
    text.extend_from_slice(name)?;
    text.extend_from_slice(b" 4096")?;
    Ok(())
}

fn last_line(read: &VerdictRead) -> Option<u32> {
    match read {
        VerdictRead::Is(Verdict::Stuck { blocked }) => blocked.get(63),
        _ => None,
    }
}

/// Adds the names T00 to T77, and tells the text of a verdict in which each of them is blocked.
fn add_blocked(rt: &impl Abort, alloc: Global, names: &mut Names) -> Result<Vec<u8>, Fail> {
    let mut text = Vec::from_slice(alloc, b"stuck")?;
    for place in 0..64u8 {
        let name = [b'T', b'0' + place / 8, b'0' + place % 8];
        block(rt, alloc, names, &mut text, &name)?;
    }
    Ok(text)
}

fn expect_blocked(rt: &impl Abort, alloc: Global, names: &mut Names) -> Result<(), Fail> {
    let text = add_blocked(rt, alloc, names)?;
    let (read, again) = rewritten(alloc, &text, names)?;
    assert_eq!(rt; last_line(&read), Some(4096));
    assert_eq!(rt; again.as_slice(), text.as_slice());
    Ok(())
}

#[test]
fn all_blocked(rt: HostRuntime) -> Result<(), Fail> {
    let mut names = Names::new(rt.alloc());
    let told = expect_blocked(&rt, rt.alloc(), &mut names);
    drop(names);
    told
}
