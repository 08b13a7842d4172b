ghost use Rattle.std.specs.Prelude.{◌≡◌, ◌∷◌, [], pos, IsSome, IfOk};

use crate::samples::{add, names_of};
use pct_ask::{
    Ask, Blocked, Body, Deal, Depth, Event, Limit, NameKind, Names, NumberList, Outcome, PointList,
    Post, Sequence, Verdict, first_pieces, is_lawful_name, read_number, split_lines, step_counts,
    write_number,
};
use std::alloc::{AllocError as NoMemory, Global};
use std::process::Abort;
use std::test::Fail;

/// The threads of the verdicts.
pub const THREADS: [(NameKind, &[u8]); 3] = [
    (NameKind::Thread, b"A"),
    (NameKind::Thread, b"thread_2"),
    (NameKind::Thread, b"C"),
];

const OBJECTS: [(NameKind, &[u8]); 7] = [
    (NameKind::Var, b"x"),
    (NameKind::Mutex, b"m"),
    (NameKind::Cond, b"c"),
    (NameKind::Sem, b"s"),
    (NameKind::Barrier, b"b"),
    (NameKind::RwLock, b"rwlock"),
    (NameKind::Var, b"y"),
];

#[test]
fn names(rt: HostRuntime) -> Result<(), Fail> {
    let mut names = names_of(&rt, rt.alloc(), &THREADS, &[])?;
    let added = add_objects(&rt, rt.alloc(), &mut names);
    look_up_objects(&rt, &names);
    drop(names);
    added
}

fn add_objects(rt: &impl Abort, alloc: Global, names: &mut Names) -> Result<(), Fail> {
    for (kind, name) in &OBJECTS {
        let place = add(rt, alloc, names, *kind, name)?;
        assert_eq!(rt; place, u32::from(*name == b"y".as_slice()));
    }
    Ok(())
}

fn look_up_objects(rt: &impl Abort, names: &Names) {
    for (kind, name) in &OBJECTS {
        look_up(rt, names, *kind, name);
    }
    assert_eq!(rt; names.count(NameKind::Var), 2);
}

fn look_up(rt: &impl Abort, names: &Names, kind: NameKind, name: &[u8]) {
    assert!(rt; names.contains(name));
    assert_eq!(rt; names.find(NameKind::Thread, name), None);
    let place = names.find(kind, name).unwrap_or(64);
    assert!(rt; names.name(kind, place) == Some(name));
    assert!(rt; names.name(kind, 2).is_none());
    assert!(rt; !names.contains(b"z"));
}

// Words, and whether each is a lawful name in the versions 1, 2 and 3.
const WORDS: [(&[u8], [bool; 3]); 15] = [
    (b"x", [true, true, true]),
    (b"_", [true, true, true]),
    (b"a234567890123456789012345678901_", [true, true, true]),
    (b"a234567890123456789012345678901_3", [false, false, false]),
    (b"", [false, false, false]),
    (b"2x", [false, false, false]),
    (b"x-y", [false, false, false]),
    (b"while", [false, false, false]),
    (b"r0", [false, false, false]),
    (b"r15", [false, false, false]),
    (b"r16", [true, true, true]),
    (b"r00", [true, true, true]),
    (b"start", [true, false, false]),
    (b"rwunlock", [true, true, false]),
    (b"release", [true, true, true]),
];

#[test]
fn lawful_names(rt: HostRuntime) {
    for (word, lawful) in &WORDS {
        assert_eq!(rt;
            [1, 2, 3].map(|version| is_lawful_name(version, word)),
            *lawful,
            "{word:?}"
        );
    }
}

const NUMBERS: [(&[u8], i128); 8] = [
    (b"0", 0),
    (b"7", 7),
    (b"-1", -1),
    (b"4096", 4096),
    (b"9223372036854775807", 9223372036854775807),
    (b"-9223372036854775808", -9223372036854775808),
    (b"170141183460469231731687303715884105727", i128::MAX),
    (b"-170141183460469231731687303715884105728", i128::MIN),
];

const NO_NUMBERS: [&[u8]; 13] = [
    b"",
    b"-",
    b"-0",
    b"00",
    b"01",
    b"-01",
    b"+1",
    b"1 ",
    b" 1",
    b"1a",
    b"\xff",
    b"170141183460469231731687303715884105728",
    b"-170141183460469231731687303715884105729",
];

/// A number is written as this text.
fn expect_written(rt: &impl Abort, alloc: Global, number: i128, text: &[u8]) -> Result<(), Fail> {
    let mut out = Vec::new(alloc);
    write_number(number, &mut out)?;
    assert!(rt; out.as_slice() == text);
    Ok(())
}

#[test]
fn numbers(rt: HostRuntime) -> Result<(), Fail> {
    for (text, number) in &NUMBERS {
        assert!(rt; read_number(text) == Some(*number), "{text:?}");
        expect_written(&rt, rt.alloc(), *number, text)?;
    }
    Ok(())
}

#[test]
fn no_numbers(rt: HostRuntime) {
    for text in &NO_NUMBERS {
        assert!(rt; read_number(text).is_none(), "{text:?}");
    }
}

fn steps_in(alloc: Global, text: &[u8]) -> Result<Option<PointList>, NoMemory> {
    let pieces = first_pieces(alloc, text, b',', 8)?;
    step_counts(alloc, pieces.as_slice())
}

#[test]
fn numbers_of_steps(rt: HostRuntime) -> Result<(), Fail> {
    let Some(steps) = steps_in(rt.alloc(), b"100000,1,40")? else {
        panic!(rt; "numbers of steps");
    };
    assert_eq!(rt; steps.as_slice(), [100_000, 1, 40].as_slice());
    assert!(rt; steps_in(rt.alloc(), b"1,100001")?.is_none());
    Ok(())
}

#[test]
fn lines(rt: HostRuntime) -> Result<(), Fail> {
    let mut again = Vec::new(rt.alloc());
    for line in split_lines(b"ab\n\nc\r\nd") {
        again.extend_from_slice(line)?;
        again.push(b'|')?;
    }
    assert_eq!(rt; again.as_slice(), b"ab||c\r|d|".as_slice());
    assert_eq!(rt;
        (split_lines(b"").count(), split_lines(b"\n").count()),
        (0, 1)
    );
    Ok(())
}

/// The threads 2 and 63 are blocked, each at a line.
fn blocked_at(first: u32, second: u32) -> Blocked {
    let mut blocked = Blocked::new();
    blocked.push(2, first);
    blocked.push(63, second);
    blocked
}

/// Threads, and the line at which each of them is blocked, if it is.
const BLOCKED: [(u32, Option<u32>); 5] = [
    (2, Some(7)),
    (63, Some(4096)),
    (3, None),
    (64, None),
    (u32::MAX, None),
];

#[test]
fn blocked(rt: HostRuntime) {
    let one = blocked_at(7, 4096);
    for (thread, line) in &BLOCKED {
        assert_eq!(rt; one.get(*thread), *line, "{thread}");
    }
    let (threads, lines) = one.numbers();
    assert_eq!(rt; threads, 0x8000_0000_0000_0004);
    assert_eq!(rt; (lines[2], lines[3], lines[63]), (7, 0, 4096));
}

#[test]
fn blocked_are_compared(rt: HostRuntime) {
    let one = blocked_at(7, 4096);
    let other = blocked_at(8, 4096);
    let again = blocked_at(7, 4096);
    assert!(rt; one != other && one == again);
    let stuck = Verdict::Stuck { blocked: one };
    assert!(rt; stuck.is(&Verdict::Stuck { blocked: again }));
    assert!(rt; !Outcome::Verdict(stuck).is(&Outcome::Departed { thread: 2 }));
}

#[test]
fn steps_are_compared(rt: HostRuntime) {
    let one = Event {
        thread: 0,
        line: 4,
        ask: Ask::Read { var: 0 },
        answer: 1,
    };
    let other = Event { answer: 2, ..one };
    assert!(rt; one.is(&one));
    assert!(rt; !one.is(&other));
}

#[test]
fn limits_and_depths(rt: HostRuntime) {
    assert_eq!(rt; Limit::new(100_000).steps(), 100_000);
    assert_eq!(rt; Depth::new(8).points(), 7);
}

const NUMBERS_OF_A_LIST: [i64; 3] = [i64::MIN, 0, 7];

fn push_numbers(vars: &mut NumberList) -> Result<(), NoMemory> {
    for value in &NUMBERS_OF_A_LIST {
        vars.try_push(*value)?;
    }
    Ok(())
}

#[test]
fn lists(rt: HostRuntime) -> Result<(), Fail> {
    let mut vars = NumberList::new(rt.alloc());
    let pushed = push_numbers(&mut vars);
    assert!(rt; vars.len() == 3 && vars.get(2) == Some(7) && vars.get(3).is_none());
    let copy = vars.copy(rt.alloc());
    drop(vars);
    pushed?;
    assert!(rt; copy?.as_slice() == NUMBERS_OF_A_LIST.as_slice());
    Ok(())
}

fn one_number(alloc: Global, number: i64) -> Result<NumberList, NoMemory>
    ensures { IfOk result (λ list. list ≡ number ∷ []) }
{
    Ok(Sequence::from_vec(Vec::from_slice(alloc, &[number])?))
}

fn small_deal(alloc: Global) -> Result<Deal, NoMemory> {
    Ok(Deal {
        threads: 2,
        vars: one_number(alloc, 5)?,
        mutexes: 1,
        conds: 0,
        sems: one_number(alloc, 2147483647)?,
        barriers: one_number(alloc, 2)?,
        rwlocks: 64,
    })
}

#[test]
fn deals(rt: HostRuntime) -> Result<(), Fail> {
    let deal = small_deal(rt.alloc())?;
    let copy = deal.copy(rt.alloc());
    drop(deal);
    let copy = copy?;
    assert_eq!(rt; (copy.threads, copy.rwlocks), (2, 64));
    assert_eq!(rt; copy.vars.as_slice(), [5].as_slice());
    assert_eq!(rt; copy.barriers.as_slice(), [2].as_slice());
    assert!(rt; copy.has_objects_of(&Ask::WrLock { rwlock: 63 }));
    assert!(rt; !copy.has_objects_of(&Ask::Regain { cond: 0, mutex: 0 }));
    drop(copy);
    Ok(())
}

// A thread that yields once.
#[derive(Drop)]
struct Yielder {
    yielded: bool,
}

impl Body for Yielder {
    ghost use Rattle.std.specs.Prelude.{◌||◌, nat_lt, length, if◌then◌else◌, Some, None};
    ghost use Rattle.pct_ask.specs.declared.ask.Ask.TheVariants.{Yield};

    ghost pending = { λ body answers.
        if body.yielded || nat_lt 0 (length answers) then record { ask = None; line = 2 }
        else record { ask = Some Yield; line = 1 } };

    fn post(&self) -> Post {
        if self.yielded {
            Post { ask: None, line: 2 }
        } else {
            Post {
                ask: Some(Ask::Yield),
                line: 1,
            }
        }
    }

    fn answer(&mut self, _value: i64) {
        self.yielded = true;
    }
}

fn after_five<B: Body>(mut body: B) -> Post
    requires { IsSome (B.pending body []).ask }
    ensures { result ≡ B.pending body (pos 5 ∷ []) }
{
    body.answer(5);
    body.post()
}

#[test]
fn bodies(rt: HostRuntime) {
    let body = Yielder { yielded: false };
    assert_eq!(rt;
        body.post(),
        Post {
            ask: Some(Ask::Yield),
            line: 1
        }
    );
    assert_eq!(rt; after_five(body), Post { ask: None, line: 2 });
}
