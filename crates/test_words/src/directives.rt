use crate::samples::names_of;
use directive::{
    Directive, DirectiveError, DirectiveFault, are_known_moments, one_answer, read_directive,
    write_directive,
};
use pct_ask::{NameKind, Names, Verdict};
use policy_pick::{Moment, MomentList};
use std::alloc::Global;
use std::process::Abort;
use std::test::Fail;

/// The threads A, B and C and a variable.
const NAMES: [(NameKind, &[u8]); 4] = [
    (NameKind::Thread, b"A"),
    (NameKind::Thread, b"B"),
    (NameKind::Thread, b"C"),
    (NameKind::Var, b"x"),
];

const LOST_UPDATE: &[u8] = b"directive 1\nlow B\nafter A 1\nverdict failed C 15\n";

/// The one moment of the directive.
const FIRST: Moment = Moment {
    thread: 0,
    number: 1,
};

const FAILED: Verdict = Verdict::Failed {
    thread: 2,
    line: 15,
};

/// Moments that can't be written: the numbers 0 and 100,001, and a thread without a name.
const UNKNOWN_MOMENTS: [Moment; 3] = [
    Moment {
        thread: 0,
        number: 0,
    },
    Moment {
        thread: 0,
        number: 100_001,
    },
    Moment {
        thread: 3,
        number: 1,
    },
];

#[test]
fn moments_to_write(rt: HostRuntime) -> Result<(), Fail> {
    let names = names_of(&rt, rt.alloc(), &NAMES, &[])?;
    assert!(rt; are_known_moments(&names, &[FIRST]));
    for moment in &UNKNOWN_MOMENTS {
        assert!(rt; !are_known_moments(&names, &[FIRST, *moment]), "{moment:?}");
    }
    drop(names);
    Ok(())
}

/// What is written of the directive.
fn lost_update(rt: &impl Abort, alloc: Global, names: &Names) -> Result<Vec<u8>, Fail> {
    assert!(rt; names.count(NameKind::Thread) == 3);
    let directive = Directive {
        low: 1,
        events: MomentList::from_vec(Vec::from_slice(alloc, &[FIRST])?),
        verdict: FAILED,
    };
    let text = write_directive(alloc, &directive, names);
    drop(directive);
    Ok(text?)
}

fn expect_written(rt: &impl Abort, alloc: Global, names: &Names) -> Result<(), Fail> {
    let text = lost_update(rt, alloc, names)?;
    assert!(rt; text.as_slice() == LOST_UPDATE);
    Ok(())
}

fn expect_read(rt: &impl Abort, alloc: Global, names: &Names) -> Result<(), Fail> {
    let directive = read_directive(alloc, LOST_UPDATE, names)?;
    assert!(rt; directive.low == 1);
    assert!(rt; directive.events.as_slice() == [FIRST].as_slice());
    assert!(rt; directive.verdict.is(&FAILED));
    drop(directive);
    Ok(())
}

const SEVEN: &[u8] =
    b"directive 1\nlow x1\nafter A 1\nafter A 2\nafter A 3\nafter A 4\nafter A 5\nafter A 6\nafter A 7\nverdict cut\n";

const FAULTS: [(&[u8], u32, DirectiveFault); 20] = [
    (b"", 1, DirectiveFault::BadHeader),
    (b"directive 1", 1, DirectiveFault::BadHeader),
    (b"directive 2\n", 1, DirectiveFault::BadHeader),
    (b"directive 1\n", 2, DirectiveFault::BadHeader),
    (b"directive 1\nlow A", 2, DirectiveFault::BadHeader),
    (b"directive 1\nlow if\n", 2, DirectiveFault::BadHeader),
    (b"directive 1\nlow x\n", 2, DirectiveFault::UnknownName),
    (b"directive 1\nlow A\n", 3, DirectiveFault::NoVerdict),
    (b"directive 1\nlow A\n\n", 3, DirectiveFault::BadLine),
    (
        b"directive 1\nlow A\nafter B 0\n",
        3,
        DirectiveFault::BadLine,
    ),
    (
        b"directive 1\nlow A\nafter B 100001\n",
        3,
        DirectiveFault::BadLine,
    ),
    (
        b"directive 1\nlow A\nafter B 01\n",
        3,
        DirectiveFault::BadLine,
    ),
    (
        b"directive 1\nlow A\nafter B 1 \n",
        3,
        DirectiveFault::BadLine,
    ),
    (
        b"directive 1\nlow A\nafter D 1\n",
        3,
        DirectiveFault::UnknownName,
    ),
    (
        b"directive 1\nlow A\nafter B 100000\nverdict failed D 1\n",
        4,
        DirectiveFault::UnknownName,
    ),
    (
        b"directive 1\nlow A\nverdict cut",
        3,
        DirectiveFault::BadLine,
    ),
    (
        b"directive 1\nlow A\nverdict cut\n\n",
        4,
        DirectiveFault::MoreAfterVerdict,
    ),
    (
        b"directive 1\nlow A\nafter A 1\nafter A 1\nafter A 1\nafter A 1\nafter A 1\nafter A 1\nafter A 1\nafter D 1",
        10,
        DirectiveFault::TooLong,
    ),
    (
        b"directive 1\nlow A\nafter A 1\nafter A 1\nafter A 1\nafter A 1\nafter A 1\nafter A 1\nafter A 1\nafter A 0\n",
        10,
        DirectiveFault::BadLine,
    ),
    (SEVEN, 2, DirectiveFault::UnknownName),
];

fn fault_of(alloc: Global, text: &[u8], names: &Names) -> Option<(u32, DirectiveFault)> {
    match read_directive(alloc, text, names) {
        Ok(directive) => {
            drop(directive);
            None
        }
        Err(DirectiveError::Bad { line, kind }) => Some((line, kind)),
        Err(DirectiveError::NoMemory) => None,
    }
}

fn expect_faults(rt: &impl Abort, alloc: Global, names: &Names) {
    for (text, line, kind) in &FAULTS {
        assert!(rt; fault_of(alloc, text, names) == Some((*line, *kind)));
    }
}

/// The fault of so many bytes that are no directive.
fn expect_large(
    rt: &impl Abort,
    alloc: Global,
    names: &Names,
    size: usize,
    kind: DirectiveFault,
) -> Result<(), Fail> {
    let text = vec![in alloc; b'x'; size]?;
    assert!(rt; fault_of(alloc, text.as_slice(), names) == Some((1, kind)));
    Ok(())
}

fn expect_sizes(rt: &impl Abort, alloc: Global, names: &Names) -> Result<(), Fail> {
    expect_large(rt, alloc, names, 65537, DirectiveFault::TooLong)?;
    expect_large(rt, alloc, names, 65536, DirectiveFault::BadHeader)
}

fn expect_all(rt: &impl Abort, alloc: Global, names: &Names) -> Result<(), Fail> {
    expect_written(rt, alloc, names)?;
    expect_read(rt, alloc, names)?;
    expect_faults(rt, alloc, names);
    expect_sizes(rt, alloc, names)
}

/// The directive of a lost update is written and read, and other texts have their faults.
#[test]
fn directives(rt: HostRuntime) -> Result<(), Fail> {
    one_answer();
    let names = names_of(&rt, rt.alloc(), &NAMES, &[])?;
    let told = expect_all(&rt, rt.alloc(), &names);
    drop(names);
    told
}
