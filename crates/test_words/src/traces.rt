use crate::samples::names_of;
use pct_ask::{NameKind, Names};
use std::alloc::Global;
use std::process::Abort;
use std::test::Fail;
use trace_text::{TraceError, TraceFault, TraceFile, one_answer, read_trace, write_trace};

pub const OBJECTS: [(NameKind, &[u8]); 9] = [
    (NameKind::Var, b"x"),
    (NameKind::Mutex, b"p"),
    (NameKind::Mutex, b"q"),
    (NameKind::Mutex, b"m"),
    (NameKind::Cond, b"c"),
    (NameKind::Sem, b"s"),
    (NameKind::Barrier, b"b"),
    (NameKind::RwLock, b"l"),
    (NameKind::Var, b"a_name_of_exactly_32_characters_"),
];

const TWO_THREADS: [(NameKind, &[u8]); 2] = [(NameKind::Thread, b"A"), (NameKind::Thread, b"B")];

const THREE_THREADS: [(NameKind, &[u8]); 3] = [
    (NameKind::Thread, b"A"),
    (NameKind::Thread, b"B"),
    (NameKind::Thread, b"C"),
];

/// A text, read and written again.
pub fn rewritten(alloc: Global, text: &[u8], names: &Names) -> Result<Vec<u8>, Fail> {
    let file = read_trace(alloc, text, names)?;
    let again = write_trace(
        alloc,
        &file.header,
        names,
        file.events.as_slice(),
        &file.verdict,
    );
    drop(file);
    Ok(again?)
}

const IN_ORDER: &[u8] =
    b"trace 1\norder A B C\npoints\nlimit 10000\n1 A 4 read x = 0\n2 A 5 write x 1 = 0\n3 B 8 read x = 1\n4 B 9 write x 2 = 0\n5 C 12 join A = 0\n6 C 13 join B = 0\n7 C 14 read x = 2\n8 C 15 check 1 = 0\nverdict passed\n";

const LOST_UPDATE: &[u8] =
    b"trace 1\norder A B C\npoints 1\nlimit 10000\n1 A 4 read x = 0\n2 B 8 read x = 0\n3 B 9 write x 1 = 0\n4 A 5 write x 1 = 0\n5 C 12 join A = 0\n6 C 13 join B = 0\n7 C 14 read x = 1\n8 C 15 check 0 = 0\nverdict failed C 15\n";

const DEADLOCK: &[u8] =
    b"trace 1\norder A B\npoints 1\nlimit 10000\n1 A 5 lock p = 0\n2 B 11 lock q = 0\nverdict stuck A 6 B 12\n";

const READ_WRITE_LOCK: &[u8] =
    b"trace 2\norder A B\npoints 1\nlimit 10000\n1 A 5 rdlock l = 0\n2 A 6 read x = 0\n3 A 7 rwunlock l = 0\n4 B 10 wrlock l = 0\n5 B 11 write x 1 = 0\n6 B 12 rwunlock l = 0\nverdict passed\n";

const STARTED_THREAD: &[u8] =
    b"trace 1\norder B A\npoints\nlimit 10000\n1 A 4 start B = 0\n2 B 7 begin = 0\n3 B 8 write x 1 = 0\n4 A 5 read x = 1\nverdict passed\n";

/// Traces of three threads.
const TRACES_OF_THREE: [&[u8]; 2] = [IN_ORDER, LOST_UPDATE];

/// Every ask, with the least and the greatest numbers, and the greatest line.
const EVERY_ASK: &[u8] =
    b"trace 2\norder B A\npoints 1 2 3 4 5 6 100000\nlimit 100000\n1 A 1 read x = -9223372036854775808\n2 A 4096 write x 9223372036854775807 = 0\n3 B 1 add x -9223372036854775808 = 5\n4 B 1 cas x -1 0 = 1\n5 A 1 lock m = 0\n6 A 1 trylock m = 1\n7 A 1 unlock m = 0\n8 A 1 release c m = 0\n9 A 1 regain c m = 0\n10 A 1 signal c = 1\n11 A 1 broadcast c = 2\n12 A 1 down s = 0\n13 A 1 trydown s = 0\n14 A 1 up s = 0\n15 A 1 arrive b = 0\n16 A 1 leave b = 1\n17 A 1 join B = 0\n18 A 1 yield = 0\n19 A 1 check 1 = 0\n20 A 1 check 0 = 0\n21 A 1 fault overflow = 0\n22 A 1 fault zerodivisor = 0\n23 A 1 fault spin = 0\n24 A 1 start B = 0\n25 A 1 begin = 0\n26 A 1 rdlock l = 0\n27 A 1 wrlock l = 0\n28 A 1 tryrdlock l = 1\n29 A 1 trywrlock l = 0\n30 A 1 rwunlock l = 9223372036854775807\nverdict cut\n";

/// Traces of two threads.
const TRACES: [&[u8]; 15] = [
    DEADLOCK,
    READ_WRITE_LOCK,
    STARTED_THREAD,
    EVERY_ASK,
    b"trace 1\norder A B\npoints\nlimit 1\nverdict passed\n",
    b"trace 2\norder A B\npoints\nlimit 1\nverdict failed B 4096\n",
    b"trace 1\norder A B\npoints\nlimit 1\nverdict stuck B 1\n",
    b"trace 1\norder A B\npoints\nlimit 1\nverdict misuse A 1 notowner\n",
    b"trace 1\norder A B\npoints\nlimit 1\nverdict misuse A 1 semfull\n",
    b"trace 1\norder A B\npoints\nlimit 1\nverdict misuse A 1 alreadystarted\n",
    b"trace 2\norder A B\npoints\nlimit 1\nverdict misuse A 1 toomanyreads\n",
    b"trace 1\norder A B\npoints\nlimit 1\nverdict fault A 1 overflow\n",
    b"trace 1\norder A B\npoints\nlimit 1\nverdict fault A 1 zerodivisor\n",
    b"trace 1\norder A B\npoints\nlimit 1\nverdict fault A 1 spin\n",
    b"trace 1\norder A B\npoints\nlimit 1\nverdict cut\n",
];

/// Each text is read and written as it was.
fn expect_kept(rt: &impl Abort, alloc: Global, names: &Names, texts: &[&[u8]]) -> Result<(), Fail> {
    for text in texts {
        let again = rewritten(alloc, text, names)?;
        assert!(rt; again.as_slice() == *text);
    }
    Ok(())
}

/// The fault of a text.
fn fault_of(read: Result<TraceFile, TraceError>) -> Result<Option<(u32, TraceFault)>, Fail> {
    match read {
        Ok(file) => {
            drop(file);
            Ok(None)
        }
        Err(TraceError::Bad { line, kind }) => Ok(Some((line, kind))),
        Err(error) => Err(error.into()),
    }
}

/// How many bytes a trace has up to the end of each line.
const ENDS: [usize; 13] = [8, 20, 27, 39, 56, 76, 93, 113, 131, 149, 167, 186, 201];

/// The fault of the trace that is cut to so many bytes.
fn fault_at(length: usize) -> (u32, TraceFault) {
    let mut line = 1;
    for end in ENDS {
        if end <= length && line < 14 {
            line += 1;
        }
    }
    if line <= 4 {
        (line, TraceFault::BadHeader)
    } else if ENDS.contains(&length) {
        (line, TraceFault::NoVerdict)
    } else {
        (line, TraceFault::BadLine)
    }
}

/// A trace of 201 bytes that is cut after each of them has the fault of the line that is cut.
fn expect_cut(rt: &impl Abort, alloc: Global, names: &Names, whole: &[u8]) -> Result<(), Fail> {
    assert_eq!(rt; whole.len(), 201);
    for length in 0..201 {
        let fault = fault_of(read_trace(alloc, &whole[..length], names))?;
        assert!(rt; fault == Some(fault_at(length)));
    }
    Ok(())
}

/// Texts under the names of two threads, and what is wrong with them.
const FAULTY: [Faulty; 66] = [
    (b"trace 1", 1, TraceFault::BadHeader),
    (b"trace 3\norder A B\n", 1, TraceFault::BadHeader),
    (b"trace 01\norder A B\n", 1, TraceFault::BadHeader),
    (b"trace 1 \norder A B\n", 1, TraceFault::BadHeader),
    // A line of the head that is missing has its own number.
    (b"trace 1\n", 2, TraceFault::BadHeader),
    (b"trace 1\norder A B\n", 3, TraceFault::BadHeader),
    (b"trace 1\norder A B\npoints\n", 4, TraceFault::BadHeader),
    (
        b"trace 1\norder A B\npoints\nlimit 9\n",
        5,
        TraceFault::NoVerdict,
    ),
    // The order has as many different lawful names as there are threads.
    (b"trace 1\norder A\n", 2, TraceFault::BadHeader),
    (b"trace 1\norder A B C\n", 2, TraceFault::BadHeader),
    (b"trace 1\norder A A\n", 2, TraceFault::BadHeader),
    (b"trace 1\norder Z Z\n", 2, TraceFault::BadHeader),
    (b"trace 1\norder A while\n", 2, TraceFault::BadHeader),
    (b"trace 1\norder A r0\n", 2, TraceFault::BadHeader),
    (b"trace 1\norder A  B\n", 2, TraceFault::BadHeader),
    (b"trace 1\norder A Z", 2, TraceFault::BadHeader),
    // That one of them is no thread is told before the next lines.
    (b"trace 1\norder A Z\nx\n", 2, TraceFault::UnknownName),
    (b"trace 1\norder x A\npoints\n", 2, TraceFault::UnknownName),
    (b"trace 1\norder A B\npoints 0\n", 3, TraceFault::BadHeader),
    (b"trace 1\norder A B\npoints 01\n", 3, TraceFault::BadHeader),
    (
        b"trace 1\norder A B\npoints 100001\n",
        3,
        TraceFault::BadHeader,
    ),
    (
        b"trace 1\norder A B\npoints 1 2 3 4 5 6 7 8\n",
        3,
        TraceFault::BadHeader,
    ),
    (
        b"trace 1\norder A B\npoints\nlimit 0\n",
        4,
        TraceFault::BadHeader,
    ),
    (
        b"trace 1\norder A B\npoints\nlimit 100001\n",
        4,
        TraceFault::BadHeader,
    ),
    (
        b"trace 1\norder A B\npoints\nlimit\n",
        4,
        TraceFault::BadHeader,
    ),
    (
        b"trace 1\norder A B\npoints\nlimit 9",
        4,
        TraceFault::BadHeader,
    ),
    // A step past the limit, also with no LF, with an unknown name or out of order.
    (
        b"trace 1\norder A B\npoints\nlimit 1\n2 A 4 read x = 0",
        5,
        TraceFault::TooLong,
    ),
    (
        b"trace 1\norder A B\npoints\nlimit 1\n2 Z 4 read x = 0\n",
        5,
        TraceFault::TooLong,
    ),
    (
        b"trace 1\norder A B\npoints\nlimit 1\n9223372036854775807 A 4 read x = 0\n",
        5,
        TraceFault::TooLong,
    ),
    // A line that is no step by form.
    (
        b"trace 1\norder A B\npoints\nlimit 1\n9223372036854775808 A 4 read x = 0\n",
        5,
        TraceFault::BadLine,
    ),
    (
        b"trace 1\norder A B\npoints\nlimit 1\n-1 A 4 read x = 0\n",
        5,
        TraceFault::BadLine,
    ),
    (
        b"trace 1\norder A B\npoints\nlimit 9\n01 A 4 read x = 0\n",
        5,
        TraceFault::BadLine,
    ),
    (
        b"trace 1\norder A B\npoints\nlimit 9\n1 A 0 read x = 0\n",
        5,
        TraceFault::BadLine,
    ),
    (
        b"trace 1\norder A B\npoints\nlimit 9\n1 A 4097 read x = 0\n",
        5,
        TraceFault::BadLine,
    ),
    (
        b"trace 1\norder A B\npoints\nlimit 9\n1 A 4 read x = 9223372036854775808\n",
        5,
        TraceFault::BadLine,
    ),
    (
        b"trace 1\norder A B\npoints\nlimit 9\n1 A 4 read x = -0\n",
        5,
        TraceFault::BadLine,
    ),
    (
        b"trace 1\norder A B\npoints\nlimit 9\n1 A 4 read x =\n",
        5,
        TraceFault::BadLine,
    ),
    (
        b"trace 1\norder A B\npoints\nlimit 9\n1 A 4 read x 0 =\n",
        5,
        TraceFault::BadLine,
    ),
    (
        b"trace 1\norder A B\npoints\nlimit 9\n1 A 4 read x = 0 \n",
        5,
        TraceFault::BadLine,
    ),
    (
        b"trace 1\norder A B\npoints\nlimit 9\n1 A 4 read = 0\n",
        5,
        TraceFault::BadLine,
    ),
    (
        b"trace 1\norder A B\npoints\nlimit 9\n1 A 4 cas x 1 = 0\n",
        5,
        TraceFault::BadLine,
    ),
    (
        b"trace 1\norder A B\npoints\nlimit 9\n1 A 4 check 2 = 0\n",
        5,
        TraceFault::BadLine,
    ),
    (
        b"trace 1\norder A B\npoints\nlimit 9\n1 A 4 fault stack = 0\n",
        5,
        TraceFault::BadLine,
    ),
    (
        b"trace 1\norder A B\npoints\nlimit 9\n1 if 4 read x = 0\n",
        5,
        TraceFault::BadLine,
    ),
    (
        b"trace 1\norder A B\npoints\nlimit 9\n1 A 4 read r1 = 0\n",
        5,
        TraceFault::BadLine,
    ),
    (
        b"trace 1\norder A B\npoints\nlimit 9\n\n",
        5,
        TraceFault::BadLine,
    ),
    // The second version's forms in the first.
    (
        b"trace 1\norder A B\npoints\nlimit 9\n1 A 5 rdlock l = 0\n",
        5,
        TraceFault::BadLine,
    ),
    (
        b"trace 1\norder A B\npoints\nlimit 9\n1 A 5 rwunlock Z = 0\n",
        5,
        TraceFault::BadLine,
    ),
    (
        b"trace 1\norder A B\npoints\nlimit 9\nverdict misuse A 5 toomanyreads\n",
        5,
        TraceFault::BadLine,
    ),
    (
        b"trace 1\norder A B\npoints\nlimit 9\nverdict misuse Z 5 toomanyreads\n",
        5,
        TraceFault::BadLine,
    ),
    // With no LF, or with a name of another kind or of none.
    (
        b"trace 1\norder A B\npoints\nlimit 9\n1 Z 4 read x = 0",
        5,
        TraceFault::BadLine,
    ),
    (
        b"trace 1\norder A B\npoints\nlimit 9\nverdict passed",
        5,
        TraceFault::BadLine,
    ),
    (
        b"trace 2\norder A B\npoints\nlimit 9\n1 A 4 read m = 0\n",
        5,
        TraceFault::UnknownName,
    ),
    (
        b"trace 2\norder A B\npoints\nlimit 9\n1 A 4 release m c = 0\n",
        5,
        TraceFault::UnknownName,
    ),
    (
        b"trace 1\norder A B\npoints\nlimit 9\nverdict failed x 4\n",
        5,
        TraceFault::UnknownName,
    ),
    (
        b"trace 2\norder A B\npoints\nlimit 9\nverdict misuse Z 5 toomanyreads\n",
        5,
        TraceFault::UnknownName,
    ),
    // Among blocked threads the declared ones rise.
    (
        b"trace 1\norder A B\npoints\nlimit 9\nverdict stuck B 1 Z 2 A 3\n",
        5,
        TraceFault::BadLine,
    ),
    (
        b"trace 1\norder A B\npoints\nlimit 9\nverdict stuck A 1 x 2 B 3\n",
        5,
        TraceFault::UnknownName,
    ),
    // An unknown name before the order of the steps.
    (
        b"trace 1\norder A B\npoints\nlimit 9\n2 Z 4 read x = 0\n",
        5,
        TraceFault::UnknownName,
    ),
    (
        b"trace 1\norder A B\npoints\nlimit 9\n0 A 4 read x = 0\n",
        5,
        TraceFault::OutOfOrder,
    ),
    (
        b"trace 1\norder A B\npoints\nlimit 9\n2 A 4 read x = 0\n",
        5,
        TraceFault::OutOfOrder,
    ),
    (
        b"trace 1\norder A B\npoints\nlimit 9\n1 A 4 yield = 0\n3 A 4 yield = 0\n",
        6,
        TraceFault::OutOfOrder,
    ),
    (
        b"trace 1\norder A B\npoints\nlimit 9\n1 A 4 yield = 0\n1 A 4 yield = 0\n",
        6,
        TraceFault::OutOfOrder,
    ),
    // Any byte after the verdict.
    (
        b"trace 1\norder A B\npoints\nlimit 9\nverdict passed\n\n",
        6,
        TraceFault::MoreAfterVerdict,
    ),
    (
        b"trace 1\norder A B\npoints\nlimit 9\nverdict passed\n99 Z 4 yield = 0\n",
        6,
        TraceFault::MoreAfterVerdict,
    ),
    (
        b"trace 1\norder A B\npoints\nlimit 9\n1 A 4 yield = 0\nverdict cut\nx",
        7,
        TraceFault::MoreAfterVerdict,
    ),
];

type Faulty = (&'static [u8], u32, TraceFault);

fn expect_faults(
    rt: &impl Abort,
    alloc: Global,
    names: &Names,
    table: &[Faulty],
) -> Result<(), Fail> {
    for (text, line, kind) in table {
        let fault = fault_of(read_trace(alloc, text, names))?;
        assert!(rt; fault == Some((*line, *kind)));
    }
    Ok(())
}

fn expect_two(rt: &impl Abort, alloc: Global, names: &Names) -> Result<(), Fail> {
    expect_kept(rt, alloc, names, &TRACES)?;
    expect_faults(rt, alloc, names, &FAULTY)
}

/// Traces of two threads are read and written, or have their faults.
#[test]
fn traces_of_two_threads(rt: HostRuntime) -> Result<(), Fail> {
    one_answer();
    let names = names_of(&rt, rt.alloc(), &TWO_THREADS, &OBJECTS)?;
    let told = expect_two(&rt, rt.alloc(), &names);
    drop(names);
    told
}

/// A leading zero in the ninth line, and a line after the verdict.
const FAULTY_OF_THREE: [Faulty; 2] = [
    (
        b"trace 1\norder A B C\npoints\nlimit 10000\n1 A 4 read x = 0\n2 A 5 write x 1 = 0\n3 B 8 read x = 1\n4 B 9 write x 2 = 0\n05 C 12 join A = 0\n6 C 13 join B = 0\n7 C 14 read x = 2\n8 C 15 check 1 = 0\nverdict passed\n",
        9,
        TraceFault::BadLine,
    ),
    (
        b"trace 1\norder A B C\npoints\nlimit 10000\n1 A 4 read x = 0\n2 A 5 write x 1 = 0\n3 B 8 read x = 1\n4 B 9 write x 2 = 0\n5 C 12 join A = 0\n6 C 13 join B = 0\n7 C 14 read x = 2\n8 C 15 check 1 = 0\nverdict passed\nx\n",
        14,
        TraceFault::MoreAfterVerdict,
    ),
];

fn expect_three(rt: &impl Abort, alloc: Global, names: &Names) -> Result<(), Fail> {
    expect_kept(rt, alloc, names, &TRACES_OF_THREE)?;
    expect_cut(rt, alloc, names, IN_ORDER)?;
    expect_faults(rt, alloc, names, &FAULTY_OF_THREE)
}

/// Traces of three threads are read and written, or have their faults.
#[test]
fn traces_of_three_threads(rt: HostRuntime) -> Result<(), Fail> {
    let names = names_of(&rt, rt.alloc(), &THREE_THREADS, &OBJECTS)?;
    let told = expect_three(&rt, rt.alloc(), &names);
    drop(names);
    told
}

/// The fault of a file of so many bytes that are no trace.
fn expect_large(
    rt: &impl Abort,
    alloc: Global,
    names: &Names,
    size: usize,
    kind: TraceFault,
) -> Result<(), Fail> {
    let text = vec![in alloc; b'x'; size]?;
    let fault = fault_of(read_trace(alloc, text.as_slice(), names))?;
    assert!(rt; fault == Some((1, kind)));
    Ok(())
}

/// One byte more than a file may have is told before all else; as many as it may have are read.
fn expect_sizes(rt: &impl Abort, alloc: Global, names: &Names) -> Result<(), Fail> {
    expect_large(rt, alloc, names, 16_777_217, TraceFault::TooLong)?;
    expect_large(rt, alloc, names, 16_777_216, TraceFault::BadHeader)
}

#[test]
fn large_files(rt: HostRuntime) -> Result<(), Fail> {
    let names = Names::new(rt.alloc());
    let told = expect_sizes(&rt, rt.alloc(), &names);
    drop(names);
    told
}
