// Scripts from texts of another layout, as trees and as they are printed.
use pct_ask::{Deal, NameKind};
use script_parse::parse;
use script_tree::{ThreadText, print_script};
use std::alloc::Global;
use std::process::Abort;
use std::test::Fail;

/// A thread's statements, as they are shown, and the line of its end.
type Thread = (&'static [&'static str], u32);

fn expect_thread(
    rt: &impl Abort,
    alloc: Global,
    thread: &ThreadText,
    want: &Thread,
) -> Result<(), Fail> {
    let (stmts, end_line) = *want;
    assert_eq!(rt; thread.body.stmts.len(), stmts.len());
    for (stmt, want) in thread.body.stmts.iter().zip(stmts) {
        let shown = format!(in alloc; "{stmt:?}")?;
        assert_eq!(rt; shown.as_str(), *want);
    }
    assert_eq!(rt; thread.body.end_line, end_line);
    Ok(())
}

fn expect_threads(
    rt: &impl Abort,
    alloc: Global,
    threads: &[ThreadText],
    want: &[Thread],
) -> Result<(), Fail> {
    assert_eq!(rt; threads.len(), want.len());
    for (thread, want) in threads.iter().zip(want) {
        expect_thread(rt, alloc, thread, want)?;
    }
    Ok(())
}

/// The source is a script of these threads, and is printed so.
fn expect_script(
    rt: &impl Abort,
    alloc: Global,
    source: &[u8],
    threads: &[Thread],
    printed: &[u8],
) -> Result<(), Fail> {
    let script = parse(alloc, source)?;
    let found = expect_threads(rt, alloc, &script.threads, threads);
    let print = print_script(alloc, &script);
    drop(script);
    found?;
    assert_eq!(rt; print?.as_slice(), printed);
    Ok(())
}

/// Two threads each add one to x, and the third, which waits for both, wants 2.
const LOST_UPDATE_SOURCE: &[u8] = b"\
script 1
var x = 0
thread A
  read r0 x
  write x r0 + 1
end
thread B
  read r0 x
  write x r0 + 1
end
thread C
  join A
  join B
  read r0 x
  assert r0 == 2
end
";

/// The same as it is printed.
const LOST_UPDATE: &[u8] = b"\
script 1
var x = 0
thread A
read r0 x
write x (r0 + 1)
end
thread B
read r0 x
write x (r0 + 1)
end
thread C
join A
join B
read r0 x
assert (r0 == 2)
end
";

/// Its threads.
const LOST_UPDATE_THREADS: [Thread; 3] = [
    (
        &[
            "Read { line: 4, reg: 0, var: 0 }",
            "Write { line: 5, var: 0, value: Two(Plus, Reg(0), Number(1)) }",
        ],
        6,
    ),
    (
        &[
            "Read { line: 8, reg: 0, var: 0 }",
            "Write { line: 9, var: 0, value: Two(Plus, Reg(0), Number(1)) }",
        ],
        10,
    ),
    (
        &[
            "Join { line: 12, thread: 0 }",
            "Join { line: 13, thread: 1 }",
            "Read { line: 14, reg: 0, var: 0 }",
            "Assert { line: 15, test: Two(Eq, Reg(0), Number(2)) }",
        ],
        16,
    ),
];

#[test]
fn lost_update_is_printed(rt: HostRuntime) -> Result<(), Fail> {
    expect_script(
        &rt,
        rt.alloc(),
        LOST_UPDATE_SOURCE,
        &LOST_UPDATE_THREADS,
        LOST_UPDATE,
    )
}

/// A script with every declaration, statement and operator.
const EVERY_FORM_SOURCE: &[u8] = b"\
# each form once
script 3
var low = - 9223372036854775808
var high = 9223372036854775807
mutex m
cond c
sem s = 2147483647
barrier b = 1000
rwlock l

thread A
  set r0 1 || 2 && 3
  set r1 (r0 == 1) != (r2 < 3)
  set r2 (4 <= r3) > (5 >= r15)
  set r3 6 + 7 - 8 * 9 / (10 % 11)
  set r4 !-r5
  read r0 low
  write high r0
  add r6 high -1
  cas r7 low 1, !r8
  assert r0 == 2
  lock m
  trylock r9 m
  unlock m
  wait c m
  signal c
  broadcast c
  down s
  trydown r10 s
  up s
  arrive r11 b
  join B
  start B
  rdlock l
  wrlock l
  tryrdlock r12 l
  trywrlock r13 l
  rwunlock l
  if r0
    yield
  end
  if 0
  else
    yield
  end
  while 0
    if 1
    end
  end
end
thread B
end
";

/// The same as it is printed.
const EVERY_FORM: &[u8] = b"\
script 3
var low = -9223372036854775808
var high = 9223372036854775807
mutex m
cond c
sem s = 2147483647
barrier b = 1000
rwlock l
thread A
set r0 (1 || (2 && 3))
set r1 ((r0 == 1) != (r2 < 3))
set r2 ((4 <= r3) > (5 >= r15))
set r3 ((6 + 7) - ((8 * 9) / (10 % 11)))
set r4 !-r5
read r0 low
write high r0
add r6 high -1
cas r7 low 1, !r8
assert (r0 == 2)
lock m
trylock r9 m
unlock m
wait c m
signal c
broadcast c
down s
trydown r10 s
up s
arrive r11 b
join B
start B
rdlock l
wrlock l
tryrdlock r12 l
trywrlock r13 l
rwunlock l
if r0
yield
end
if 0
else
yield
end
while 0
if 1
end
end
end
thread B
end
";

/// The statements of its first thread.
const EVERY_STATEMENT: [&str; 30] = [
    "Set { line: 12, reg: 0, value: Two(Or, Number(1), Two(And, Number(2), Number(3))) }",
    "Set { line: 13, reg: 1, value: \
        Two(Ne, Two(Eq, Reg(0), Number(1)), Two(Lt, Reg(2), Number(3))) }",
    "Set { line: 14, reg: 2, value: \
        Two(Gt, Two(Le, Number(4), Reg(3)), Two(Ge, Number(5), Reg(15))) }",
    "Set { line: 15, reg: 3, value: Two(Less, Two(Plus, Number(6), Number(7)), \
        Two(Over, Two(Times, Number(8), Number(9)), Two(Rest, Number(10), Number(11)))) }",
    "Set { line: 16, reg: 4, value: Not(Minus(Reg(5))) }",
    "Read { line: 17, reg: 0, var: 0 }",
    "Write { line: 18, var: 1, value: Reg(0) }",
    "Add { line: 19, reg: 6, var: 1, value: Minus(Number(1)) }",
    "Cas { line: 20, reg: 7, var: 0, old: Number(1), new: Not(Reg(8)) }",
    "Assert { line: 21, test: Two(Eq, Reg(0), Number(2)) }",
    "Lock { line: 22, mutex: 0 }",
    "TryLock { line: 23, reg: 9, mutex: 0 }",
    "Unlock { line: 24, mutex: 0 }",
    "Wait { line: 25, cond: 0, mutex: 0 }",
    "Signal { line: 26, cond: 0 }",
    "Broadcast { line: 27, cond: 0 }",
    "Down { line: 28, sem: 0 }",
    "TryDown { line: 29, reg: 10, sem: 0 }",
    "Up { line: 30, sem: 0 }",
    "Arrive { line: 31, reg: 11, barrier: 0 }",
    "Join { line: 32, thread: 1 }",
    "Start { line: 33, thread: 1 }",
    "RdLock { line: 34, rwlock: 0 }",
    "WrLock { line: 35, rwlock: 0 }",
    "TryRdLock { line: 36, reg: 12, rwlock: 0 }",
    "TryWrLock { line: 37, reg: 13, rwlock: 0 }",
    "RwUnlock { line: 38, rwlock: 0 }",
    "If { line: 39, test: Reg(0), \
        then: Block { stmts: [Yield { line: 40 }], end_line: 41 }, otherwise: None }",
    "If { line: 42, test: Number(0), then: Block { stmts: [], end_line: 43 }, \
        otherwise: Some(Block { stmts: [Yield { line: 44 }], end_line: 45 }) }",
    "While { line: 46, test: Number(0), body: Block { stmts: [\
        If { line: 47, test: Number(1), \
        then: Block { stmts: [], end_line: 48 }, otherwise: None }], end_line: 49 } }",
];

/// Its threads, of which the second has no statement.
const EVERY_FORM_THREADS: [Thread; 2] = [(&EVERY_STATEMENT, 50), (&[], 52)];

#[test]
fn every_form_is_printed(rt: HostRuntime) -> Result<(), Fail> {
    expect_script(
        &rt,
        rt.alloc(),
        EVERY_FORM_SOURCE,
        &EVERY_FORM_THREADS,
        EVERY_FORM,
    )
}

fn expect_deal(rt: &impl Abort, deal: &Deal) {
    assert_eq!(rt;
        (deal.threads, deal.mutexes, deal.conds, deal.rwlocks),
        (2, 1, 1, 1)
    );
    assert_eq!(rt; deal.vars.as_slice(), [i64::MIN, i64::MAX].as_slice());
    assert_eq!(rt; deal.sems.as_slice(), [2_147_483_647].as_slice());
    assert_eq!(rt; deal.barriers.as_slice(), [1000].as_slice());
}

#[test]
fn deal_counts_each_kind(rt: HostRuntime) -> Result<(), Fail> {
    let script = parse(rt.alloc(), EVERY_FORM_SOURCE)?;
    let vars = script.names().count(NameKind::Var);
    let deal = script.deal(rt.alloc());
    drop(script);
    assert_eq!(rt; vars, 2);
    expect_deal(&rt, &deal?);
    Ok(())
}
